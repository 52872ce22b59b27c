// The formulas at one index, each once: sums of fractions, lines through two entries, the summands of a sub-round, one step of doubling.
// All of these take canonical words; loops over columns and over the tree call them.
#![tactic(auto)]

ghost use Rattle.field.specs.Ext as E;
ghost use Rattle.field.specs.ExtRing.{ExtRing};
ghost use Rattle.field.specs.Element.{dec, Canon, Is};
ghost use Rattle.gkr.specs.Tree as Tree;
ghost use Rattle.multilinear.specs.RoundSum as RoundSum;
ghost use Rattle.step.specs.Values.{CanonFrac, IsFrac, dec_frac, CanonEntry, IsEntry, dec_claims, CanonThree, IsThree, zip, zip_frac, minus, line, two, three, summand_at, weigh, numerator, weighed_at};

use field::Ext;
use field::sums::sum_of_products;
use std::ops::Add;

pub mod eq; // eq, one coordinate more
pub mod interpolate; // values at x of the polynomials through given values

// A fraction p / q, never reduced.
#[derive(Clone, Copy)]
pub struct Frac {
    pub p: Ext,
    pub q: Ext,
}

// What a sub-round reads at one index: the eq column, and the claims on a left and a right child.
#[derive(Clone, Copy)]
pub struct Entry {
    pub e: Ext,
    pub l: Frac,
    pub r: Frac,
}

// A sub-round's polynomial at 1, 2 and 3.
#[derive(Clone, Copy)]
pub struct Three {
    pub s1: Ext,
    pub s2: Ext,
    pub s3: Ext,
}

// The two entries that one entry of the eq table becomes.
#[derive(Clone, Copy)]
pub struct Doubled {
    pub low: Ext,
    pub high: Ext,
}

// The sum of two fractions, not reduced.
impl Add for Frac {
    type Output = Frac;

    ghost can_add = { λ a b. CanonFrac a × CanonFrac b };

    ghost add_gives = { λ a b result. IsFrac result (Tree.compute_recursive_relations ExtRing (record { p0 = dec a.p; q0 = dec a.q; p1 = dec b.p; q1 = dec b.q })) };

    fn add(self, other: Frac) -> Frac {
        Frac {
            p: sum_of_products(self.p, other.q, other.p, self.q),
            q: self.q.times(other.q),
        }
    }
}

// The line through a at 0 and b at 1, taken at r.
pub fn line_at(a: Ext, b: Ext, r: Ext) -> Ext
    requires { Canon a × Canon b × Canon r }
    ensures { Is result (line (dec r) (dec a) (dec b)) }
{
    b.minus(a).times_plus(r, a)
}

impl Frac {
    // An operation on numerators, and the same on denominators: two entries of two columns, not a sum of fractions.
    pub fn zip<F: Fn(Ext, Ext) -> Ext>(self, other: Frac, f: F) -> Frac
        requires { F.pre f self.p other.p × F.pre f self.q other.q }
        ensures { F.post f self.p other.p result.p × F.post f self.q other.q result.q }
    {
        Frac {
            p: f(self.p, other.p),
            q: f(self.q, other.q),
        }
    }
}

impl Entry {
    // An operation on all five columns.
    pub fn zip<F: Fn(Ext, Ext) -> Ext + Copy>(self, other: Entry, f: F) -> Entry
        requires { F.pre f self.e other.e × F.pre f self.l.p other.l.p × F.pre f self.l.q other.l.q × F.pre f self.r.p other.r.p × F.pre f self.r.q other.r.q }
        ensures e { F.post f self.e other.e result.e }
        ensures l { F.post f self.l.p other.l.p result.l.p × F.post f self.l.q other.l.q result.l.q }
        ensures r { F.post f self.r.p other.r.p result.r.p × F.post f self.r.q other.r.q result.r.q }
    {
        Entry {
            e: f(self.e, other.e),
            l: self.l.zip(other.l, f),
            r: self.r.zip(other.r, f),
        }
    }
}

// p1 + lambda·q1 in the place of p1: one product, and then numerator and denominator of the parent are one sum of two products.
pub fn weigh_entry(t: Entry, lambda: Ext) -> Entry
    requires { CanonEntry t × Canon lambda }
    ensures { IsEntry result (dec t.e) (weigh (dec lambda) (dec_claims t)) }
{
    let p = t.r.q.times_plus(lambda, t.r.p);
    Entry {
        r: Frac { p, ..t.r },
        ..t
    }
}

// eq times p0·q1 + q0·p1: three products.
pub fn weighed_summand(t: Entry) -> Ext
    requires { CanonEntry t }
    ensures { Is result (E.mul (dec t.e) (numerator (dec_claims t))) }
{
    t.e.times(sum_of_products(t.l.p, t.r.q, t.l.q, t.r.p))
}

// eq times numerator and denominator of the parent, batched by lambda: four products.
pub fn summand(t: Entry, lambda: Ext) -> Ext
    requires { CanonEntry t × Canon lambda }
    ensures { Is result (E.mul (dec t.e) (RoundSum.cross ExtRing (dec lambda) (dec_claims t))) }
{
    weighed_summand(weigh_entry(t, lambda))
}

// The summands at 1, 2 and 3 of the lines through two weighed entries. At 2 and 3 an entry is found by adding the difference.
pub fn weighed_summands(t0: Entry, t1: Entry) -> Three
    requires { CanonEntry t0 × CanonEntry t1 }
    ensures { IsThree result (weighed_at E.one (dec t0.e) (dec t1.e) (dec_claims t0) (dec_claims t1))
        (weighed_at two (dec t0.e) (dec t1.e) (dec_claims t0) (dec_claims t1))
        (weighed_at three (dec t0.e) (dec t1.e) (dec_claims t0) (dec_claims t1)) }
{
    let d = t1.zip(t0, Ext::minus);
    let t2 = t1.zip(d, Ext::plus);
    let t3 = t2.zip(d, Ext::plus);
    Three {
        s1: weighed_summand(t1),
        s2: weighed_summand(t2),
        s3: weighed_summand(t3),
    }
}

// The summands at 1, 2 and 3 of the lines through two entries: lambda is multiplied in twice, and its products go on by additions.
pub fn summands(t0: Entry, t1: Entry, lambda: Ext) -> Three
    requires { CanonEntry t0 × CanonEntry t1 × Canon lambda }
    ensures { IsThree result (summand_at E.one (dec lambda) (dec t0.e) (dec t1.e) (dec_claims t0) (dec_claims t1))
        (summand_at two (dec lambda) (dec t0.e) (dec t1.e) (dec_claims t0) (dec_claims t1))
        (summand_at three (dec lambda) (dec t0.e) (dec t1.e) (dec_claims t0) (dec_claims t1)) }
{
    weighed_summands(weigh_entry(t0, lambda), weigh_entry(t1, lambda))
}

// The values at 1, 2 and 3 added.
impl Add for Three {
    type Output = Three;

    ghost can_add = { λ a b. CanonThree a × CanonThree b };

    ghost add_gives = { λ a b result. IsThree result (E.add (dec a.s1) (dec b.s1)) (E.add (dec a.s2) (dec b.s2)) (E.add (dec a.s3) (dec b.s3)) };

    fn add(self, other: Three) -> Three {
        Three {
            s1: self.s1.plus(other.s1),
            s2: self.s2.plus(other.s2),
            s3: self.s3.plus(other.s3),
        }
    }
}

// One entry t of the eq table becomes t·(1 - x) and t·x: one product.
pub fn double_entry(t: Ext, x: Ext) -> Doubled
    requires { Canon t × Canon x }
    ensures { Is result.low (E.mul (dec t) (minus E.one (dec x))) × Is result.high (E.mul (dec t) (dec x)) }
{
    let high = t.times(x);
    Doubled {
        low: t.minus(high),
        high,
    }
}
