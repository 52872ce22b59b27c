// Products of the extension in a loop, exported so that they can be timed.
#![tactic(auto)]

ghost use Rattle.std.specs.Prelude.{◌≡◌};
ghost use Rattle.field_bench.specs.Powers.{chain, chains};

use field::Ext;

// One chain of n products: each waits for the one before.
#[unsafe(no_mangle)]
pub extern "C" fn field_bench_chain(a: u32, b: u32, n: usize) -> u32
    ensures { result ≡ (chain a b n).c0.val }
{
    let y = Ext::new(b, a, b, a);
    let mut x = Ext::new(a, b, a, b);
    for _ in 0..n {
        x = x.times(y);
    }
    x.c0
}

// Four chains beside one another, as in a loop over the rows of a table.
#[unsafe(no_mangle)]
pub extern "C" fn field_bench_chains(a: u32, b: u32, n: usize) -> u32
    ensures { result ≡ (chains a b n).c0.val }
{
    let y = Ext::new(b, a, b, a);
    let mut x0 = Ext::new(a, b, a, b);
    let mut x1 = Ext::new(b, a, a, b);
    let mut x2 = Ext::new(a, a, b, b);
    let mut x3 = Ext::new(b, b, a, a);
    for _ in 0..n {
        x0 = x0.times(y);
        x1 = x1.times(y);
        x2 = x2.times(y);
        x3 = x3.times(y);
    }
    let s = x0.plus(x1).plus(x2.plus(x3));
    s.c0
}
