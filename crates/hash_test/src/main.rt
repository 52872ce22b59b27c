// SHAKE128 and drawn words, run on messages of many lengths and printed; scripts/hash_vectors has the answers by Python's hashlib.
#![tactic(auto)]

ghost use Rattle.std.specs.Prelude.{◌^◌, ◌<◌, length};
ghost use Rattle.shake.specs.Drawn.{message, Holds};

use shake::{Sponge, absorb, draw, hash, start};

// Byte i that the messages are cut from, and word i, with its top bit or without.
fn message_byte(i: usize) -> u8 {
    ((i / 256 + i % 256 * 37) % 256) as u8
}

fn message_word(i: usize) -> u32 {
    ((i % 65536) as u64 * 2654435769 % 4294967296) as u32
}

fn fill_bytes(m: &mut [u8]) {
    for (i, byte) in m.iter_mut().enumerate() {
        *byte = message_byte(i);
    }
}

fn fill_words(words: &mut [u32]) {
    for (i, word) in words.iter_mut().enumerate() {
        *word = message_word(i);
    }
}

fn digit(x: u8) -> u8 {
    match x {
        0..=9 => b'0' + x,
        10..=15 => b'a' + (x - 10),
        _ => b'?',
    }
}

fn print_hex(s: &[u8]) {
    for byte in s {
        io::write_all(1, &[digit(*byte / 16), digit(*byte % 16)]);
    }
    io::write_all(1, b"\n");
}

// The hash of the first n bytes of m and the first k words, where there are so many, as long as out.
fn hash_front(m: &[u8], n: usize, words: &[u32], k: usize, out: &mut [u8]) {
    if n <= m.len() && n < 4096 && k <= words.len() {
        hash(&m[..n], &words[..k], out);
        print_hex(out);
    }
}

// 32 bytes of it.
fn short_hash(m: &[u8], n: usize, words: &[u32], k: usize) {
    let mut out = [0u8; 32];
    hash_front(m, n, words, k, &mut out);
}

// Each front of m.
fn all_lengths(m: &[u8], words: &[u32]) {
    for n in 0..1001 {
        short_hash(m, n, words, 0);
    }
}

// n bytes of output, where there is room.
fn long_hash(m: &[u8], words: &[u32], n: usize, out: &mut [u8]) {
    if n <= out.len() {
        hash_front(m, 200, words, 0, &mut out[..n]);
    }
}

// Outputs that end before, at and after a lane's and a block's end.
fn all_ends(m: &[u8], words: &[u32]) {
    let mut out = [0u8; 505];
    for end in [0, 1, 7, 8, 9, 167, 168, 169, 335, 336, 337, 503, 504, 505] {
        long_hash(m, words, end, &mut out);
    }
}

// Words after a label of n bytes.
fn all_words(m: &[u8], n: usize, words: &[u32]) {
    for k in 36..47 {
        short_hash(m, n, words, k);
    }
}

// Labels of 0 to 7 bytes.
fn all_labels(m: &[u8], words: &[u32]) {
    for n in 0..8 {
        all_words(m, n, words);
    }
}

// The word drawn from a label and words, of which s has absorbed some blocks; the sponge with all of them.
fn print_drawn(s: Sponge, label: &[u8], words: &[u32]) -> Sponge
    requires { (length label.now < 2 ^ 62) × Holds s (message label.now words.now) }
    ensures { Holds result (message label.now words.now) }
{
    let t = absorb(s, label, words);
    io::print_decimal(1, u64::from(draw(t, label, words)));
    io::write_all(1, b"\n");
    t
}

// A word drawn from each front of the words, with one sponge.
fn all_draws(label: &[u8], words: &[u32])
    requires { length label.now < 2 ^ 62 }
{
    let mut s = start();
    for n in 0..words.len() {
        s = print_drawn(s, label, &words[..n]);
    }
}

fn main() {
    let mut m = [0u8; 1000];
    fill_bytes(&mut m);
    let mut words = [0u32; 200];
    fill_words(&mut words);
    all_lengths(&m, &words);
    all_ends(&m, &words);
    all_labels(&m, &words);
    all_draws(b"frac-gkr/1", &words);
}
