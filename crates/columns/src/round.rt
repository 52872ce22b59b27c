// A sub-round's polynomial at 1, 2 and 3, from the eq column and the four columns of claims: one pass over them.
ghost use Rattle.std.specs.Prelude.{◌+◌, ◌*◌};
ghost use Rattle.field.specs.Element.{dec, Canon};
ghost use Rattle.field.specs.Cells.{cell};
ghost use Rattle.step.specs.Values.{IsEntry};
ghost use Rattle.columns.specs.Passes.{claims, Room, Summands, Sums, Constant};

use field::{Ext, Field};
use step::{Entry, Frac, Three};

// What a sub-round reads: the eq column, and the claims on the left and the right children.
#[derive(Clone, Copy)]
pub struct Columns<'a> {
    pub eq: &'a [u32],
    pub p0: &'a [u32],
    pub q0: &'a [u32],
    pub p1: &'a [u32],
    pub q1: &'a [u32],
}

impl Columns<'_> {
    // Entry i of all five columns.
    fn entry(&self, i: usize) -> Entry
        requires room { Room (4 * i + 4) self.now.eq.now self.now.p0.now self.now.q0.now self.now.p1.now self.now.q1.now }
        ensures { IsEntry result (cell self.now.eq.now i) (claims self.now.p0.now self.now.q0.now self.now.p1.now self.now.q1.now i) }
    {
        Entry {
            e: field::load(self.eq, i),
            l: Frac {
                p: field::load(self.p0, i),
                q: field::load(self.q0, i),
            },
            r: Frac {
                p: field::load(self.p1, i),
                q: field::load(self.q1, i),
            },
        }
    }

    // The three summands of the entries 2y and 2y + 1.
    fn pair(&self, y: usize, lambda: Ext) -> Three
        requires room { Room (8 * y + 8) self.now.eq.now self.now.p0.now self.now.q0.now self.now.p1.now self.now.q1.now }
        requires canon { Canon lambda }
        ensures { Summands result y self.now.eq.now (claims self.now.p0.now self.now.q0.now self.now.p1.now self.now.q1.now) (dec lambda) }
    {
        step::summands(self.entry(2 * y), self.entry(2 * y + 1), lambda)
    }

    // The sums over the first n pairs of entries.
    pub fn sums(&self, n: usize, lambda: Ext) -> Three
        requires room { Room (8 * n) self.now.eq.now self.now.p0.now self.now.q0.now self.now.p1.now self.now.q1.now }
        requires canon { Canon lambda }
        ensures { Sums result n self.now.eq.now (claims self.now.p0.now self.now.q0.now self.now.p1.now self.now.q1.now) (dec lambda) }
    {
        let mut acc = Three {
            s1: Ext::ZERO,
            s2: Ext::ZERO,
            s3: Ext::ZERO,
        };
        for y in 0..n {
            acc = acc + self.pair(y, lambda);
        }
        acc
    }

    // Of one entry there is no bit to bind: the constant, three times.
    pub fn constant(&self, lambda: Ext) -> Three
        requires room { Room 4 self.now.eq.now self.now.p0.now self.now.q0.now self.now.p1.now self.now.q1.now }
        requires canon { Canon lambda }
        ensures { Constant result self.now.eq.now (claims self.now.p0.now self.now.q0.now self.now.p1.now self.now.q1.now) (dec lambda) }
    {
        let s = step::summand(self.entry(0), lambda);
        Three {
            s1: s,
            s2: s,
            s3: s,
        }
    }
}
