// Decimal numbers, read from text and printed.
ghost use Rattle.std.specs.Prelude.{◌≡◌, ◌<◌, ◌≤◌, length};

// The numbers found so far, and the one that is being read.
#[derive(Clone, Copy)]
struct Reading {
    count: usize,
    value: u64,
}

// One more byte: a digit, or the blank or newline that ends a number.
fn step(out: &mut [u32], b: u8, r: Reading) -> Reading
    requires { (r.count ≤ length out.old) × (r.value < 4294967296) }
    ensures { (result.count ≤ length out.new) × (result.value < 4294967296) }
{
    let k = r.count;
    if 48 <= b {
        return Reading {
            count: k,
            value: (r.value * 10 + u64::from(b % 16 % 10)) % 4294967296,
        };
    }
    if out.len() <= k {
        return Reading { count: k, value: 0 };
    }
    out[k] = r.value as u32;
    Reading {
        count: k + 1,
        value: 0,
    }
}

// The numbers of a text; how many.
pub fn numbers(text: &[u8], out: &mut [u32]) -> usize
    ensures { result ≤ length out.new }
{
    let mut r = Reading { count: 0, value: 0 };
    for b in text {
        r = step(out, *b, r);
    }
    r.count
}

// A word as a place.
pub fn place(w: u32) -> usize
    ensures { result ≡ w }
{
    w as usize
}

fn low_byte(w: u32) -> u8 {
    (w % 256) as u8
}

// Words as bytes, as many as there is room for; how many.
pub fn narrow(words: &[u32], out: &mut [u8]) -> usize
    ensures { result ≤ length out.new }
{
    let n = words.len().min(out.len());
    for i in 0..n {
        out[i] = low_byte(words[i]);
    }
    n
}

// A number and a blank.
pub fn number(n: u64) {
    io::print_decimal(1, n);
    io::write_all(1, b" ");
}

// Each word.
pub fn words(ws: &[u32]) {
    for w in ws {
        number(u64::from(*w));
    }
}

// Each byte.
pub fn bytes(bs: &[u8]) {
    for b in bs {
        number(u64::from(*b));
    }
}
