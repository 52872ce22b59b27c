// Sums of products of canonical words in a u64, and two products of elements added before they are reduced.
ghost use Rattle.std.specs.Prelude.{◌≡◌, ◌+◌, ◌*◌, ◌<◌, ◌≤◌};
ghost use Rattle.field.specs.Base as B;
ghost use Rattle.field.specs.Base.{P, of};
ghost use Rattle.field.specs.Ext as E;
ghost use Rattle.field.specs.Element.{dec, Canon, Is};

use crate::words::prod;
use crate::{Base, Ext};

// Stays: over arrays `two` and `three` would be one loop, but each of its twelve calls would have to show that its arrays are canonical.
fn two(a0: u32, b0: u32, a1: u32, b1: u32) -> u64
    requires a { (a0 < P) × (a1 < P) }
    requires b { (b0 < P) × (b1 < P) }
    ensures { (result ≤ 8106479329266892800) × (of result ≡ B.add (B.mul (of a0) (of b0)) (B.mul (of a1) (of b1))) }
{
    prod(a0, b0) + prod(a1, b1)
}

fn three(a0: u32, b0: u32, a1: u32, b1: u32, a2: u32, b2: u32) -> u64
    requires a { (a0 < P) × (a1 < P) × (a2 < P) }
    requires b { (b0 < P) × (b1 < P) × (b2 < P) }
    ensures { (result ≤ 12159718993900339200) × (of result ≡ B.add (B.add (B.mul (of a0) (of b0)) (B.mul (of a1) (of b1))) (B.mul (of a2) (of b2))) }
{
    prod(a0, b0) + prod(a1, b1) + prod(a2, b2)
}

// A sum of up to four products becomes less than twice the square of the prime, so that two such fit.
fn lowered(s: u64) -> u64
    requires { s ≤ 16212958658533785600 }
    ensures { (result < 8106479337319956482) × (of result ≡ of s) }
{
    if s < 8106479337319956482 {
        s
    } else {
        s - 8106479337319956482
    }
}

// 11·s with the high half folded in: 11·2^32 is 939524073 and 23 times the prime.
fn eleven_sum(s: u64) -> u64
    ensures { (4 * result ≤ s + 188978561020) × (of result ≡ B.mul E.eleven (of s)) }
{
    s / 4294967296 * 939524073 + s % 4294967296 * 11
}

fn rest_sum(s: u64) -> u32
    ensures { (result < P) × (of result ≡ of s) }
{
    (s % Base::ORDER_U64) as u32
}

// Stays: each coordinate has other products above x⁴ and is lowered at another place, so one function would be these four in a `match`.
fn sum_c0(a: Ext, b: Ext, c: Ext, d: Ext) -> u32
    requires { Canon a × Canon b × Canon c × Canon d }
    ensures { (result < P) × (of result ≡ (E.add (E.mul (dec a) (dec b)) (E.mul (dec c) (dec d))).c0) }
{
    let h = lowered(three(a.c1, b.c3, a.c2, b.c2, a.c3, b.c1));
    let k = lowered(three(c.c1, d.c3, c.c2, d.c2, c.c3, d.c1));
    rest_sum(two(a.c0, b.c0, c.c0, d.c0) + eleven_sum(h + k))
}

fn sum_c1(a: Ext, b: Ext, c: Ext, d: Ext) -> u32
    requires { Canon a × Canon b × Canon c × Canon d }
    ensures { (result < P) × (of result ≡ (E.add (E.mul (dec a) (dec b)) (E.mul (dec c) (dec d))).c1) }
{
    let h = two(a.c2, b.c3, a.c3, b.c2) + two(c.c2, d.c3, c.c3, d.c2);
    let l = two(a.c0, b.c1, a.c1, b.c0) + two(c.c0, d.c1, c.c1, d.c0);
    rest_sum(lowered(l) + eleven_sum(h))
}

fn sum_c2(a: Ext, b: Ext, c: Ext, d: Ext) -> u32
    requires { Canon a × Canon b × Canon c × Canon d }
    ensures { (result < P) × (of result ≡ (E.add (E.mul (dec a) (dec b)) (E.mul (dec c) (dec d))).c2) }
{
    let l = three(a.c0, b.c2, a.c1, b.c1, a.c2, b.c0) + prod(c.c0, d.c2);
    let m = two(c.c1, d.c1, c.c2, d.c0);
    rest_sum(lowered(l) + m + eleven_sum(two(a.c3, b.c3, c.c3, d.c3)))
}

fn sum_c3(a: Ext, b: Ext, c: Ext, d: Ext) -> u32
    requires { Canon a × Canon b × Canon c × Canon d }
    ensures { (result < P) × (of result ≡ (E.add (E.mul (dec a) (dec b)) (E.mul (dec c) (dec d))).c3) }
{
    let l = two(a.c0, b.c3, a.c1, b.c2) + two(a.c2, b.c1, a.c3, b.c0);
    let m = two(c.c0, d.c3, c.c1, d.c2) + two(c.c2, d.c1, c.c3, d.c0);
    rest_sum(lowered(l) + lowered(m))
}

// a·b + c·d, with one reduction a coordinate.
pub fn sum_of_products(a: Ext, b: Ext, c: Ext, d: Ext) -> Ext
    requires { Canon a × Canon b × Canon c × Canon d }
    ensures { Is result (E.add (E.mul (dec a) (dec b)) (E.mul (dec c) (dec d))) }
{
    Ext {
        c0: sum_c0(a, b, c, d),
        c1: sum_c1(a, b, c, d),
        c2: sum_c2(a, b, c, d),
        c3: sum_c3(a, b, c, d),
    }
}
