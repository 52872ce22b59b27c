// The permutation in a loop, words drawn with a sponge that is carried, and the hash, exported so that they can be timed.
#![tactic(auto)]

ghost use Rattle.std.specs.Prelude.{◌≡◌, ◌∷◌, ◌^◌, ◌<◌, get_or, length, replicate};
ghost use Rattle.keccak.specs.State.{as_list};
ghost use Rattle.shake.specs.Sponge.{shake128};
ghost use Rattle.shake.specs.Drawn.{message};
ghost use Rattle.keccak_bench.specs.Times.{times, draws};

use field::Base;
use keccak::{Lanes, permute};

// The first lane after n permutations, from a state of zeros but for it.
#[unsafe(no_mangle)]
pub extern "C" fn keccak_bench_permute(a: u64, n: usize) -> u64
    ensures { result ≡ get_or (times n (a ∷ replicate 24 0)) 0 0 }
{
    let mut s = Lanes {
        a0: a,
        ..Lanes::ZERO
    };
    for i in 0..n {
        s = permute(s);
    }
    s.a0
}

// The sum of the words drawn from each front of the words, with one sponge.
#[unsafe(no_mangle)]
pub extern "C" fn keccak_bench_draws(label: &[u8], words: &[u32]) -> u32
    requires { length label.now < 2 ^ 62 }
    ensures { result ≡ draws label.now words.now (length words.now) }
{
    let mut s = shake::start();
    let mut x: u32 = 0;
    for n in 0..words.len() {
        s = shake::absorb(s, label, &words[..n]);
        x = (x + shake::draw(s, label, &words[..n])) % Base::ORDER_U32;
    }
    x
}

// SHAKE128 of bytes and words, as many bytes as out has.
#[unsafe(no_mangle)]
pub extern "C" fn keccak_bench_hash(label: &[u8], words: &[u32], out: &mut [u8])
    requires { length label.now < 2 ^ 62 }
    ensures { out.new ≡ shake128 (message label.now words.now) (length out.old) }
{
    shake::hash(label, words, out);
}
