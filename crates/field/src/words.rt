// Arithmetic of single words. Canonical is below the prime 2013265921.
ghost use Rattle.std.specs.Prelude.{◌≡◌, ◌*◌, ◌<◌, ◌≤◌};
ghost use Rattle.field.specs.Base as B;
ghost use Rattle.field.specs.Base.{P, of};
ghost use Rattle.field.specs.Ext as E;
ghost use Rattle.field.specs.Element.{Canon};

use crate::{Base, Ext};

// The remainder: the canonical word of the same element.
pub fn rest_word(a: u32) -> u32
    ensures { (result < P) × (of result ≡ of a) }
{
    a % Base::ORDER_U32
}

// The sum of two canonical words, less the prime where it reaches it.
pub fn add_word(a: u32, b: u32) -> u32
    requires { (a < P) × (b < P) }
    ensures { (result < P) × (of result ≡ B.add (of a) (of b)) }
{
    let s = a + b;
    if s < Base::ORDER_U32 {
        s
    } else {
        s - Base::ORDER_U32
    }
}

// The difference of two canonical words, with the prime added where it would be below zero.
pub fn sub_word(a: u32, b: u32) -> u32
    requires { (a < P) × (b < P) }
    ensures { (result < P) × (of result ≡ B.add (of a) (B.neg (of b))) }
{
    if b <= a {
        a - b
    } else {
        a + Base::ORDER_U32 - b
    }
}

// A product of any two words fits a u64.
pub fn mul_word(a: u32, b: u32) -> u32
    ensures { (result < P) × (of result ≡ B.mul (of a) (of b)) }
{
    ((a as u64) * (b as u64) % Base::ORDER_U64) as u32
}

// Eleven times a word, reduced: what x⁴ brings in.
pub fn eleven(a: u32) -> u32
    ensures { (result < P) × (of result ≡ B.mul E.eleven (of a)) }
{
    (11 * (a as u64) % Base::ORDER_U64) as u32
}

// A product of two canonical words: four of them fit a u64.
pub fn prod(a: u32, b: u32) -> u64
    requires { (a < P) × (b < P) }
    ensures { (result ≡ a * b) × (result ≤ 4053239664633446400) }
{
    (a as u64) * (b as u64)
}

// Four products and a word more, reduced once.
pub fn dot(a: Ext, b0: u32, b1: u32, b2: u32, b3: u32, c: u32) -> u32
    requires a { Canon a }
    requires b { (b0 < P) × (b1 < P) × (b2 < P) × (b3 < P) }
    ensures { (result < P) × (of result ≡ B.add (B.add (B.add (B.add (B.mul (of a.c0) (of b0)) (B.mul (of a.c1) (of b1))) (B.mul (of a.c2) (of b2))) (B.mul (of a.c3) (of b3))) (of c)) }
{
    ((prod(a.c0, b0) + prod(a.c1, b1) + prod(a.c2, b2) + prod(a.c3, b3) + (c as u64))
        % Base::ORDER_U64) as u32
}
