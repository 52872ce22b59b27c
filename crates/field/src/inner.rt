// What hot loops call: canonical words in, canonical words out, and no reduction of what comes in.
ghost use Rattle.std.specs.Prelude.{◌≡◌};
ghost use Rattle.field.specs.Base.{of};
ghost use Rattle.field.specs.Ext as E;
ghost use Rattle.field.specs.Element.{dec, Canon, Is};

use crate::words::{add_word, dot, eleven, mul_word, rest_word, sub_word};
use crate::{Ext, Field};

impl Ext {
    // The sum.
    pub fn plus(self, other: Ext) -> Ext
        requires { Canon self × Canon other }
        ensures { Is result (E.add (dec self) (dec other)) }
    {
        Ext {
            c0: add_word(self.c0, other.c0),
            c1: add_word(self.c1, other.c1),
            c2: add_word(self.c2, other.c2),
            c3: add_word(self.c3, other.c3),
        }
    }

    // The difference.
    pub fn minus(self, other: Ext) -> Ext
        requires { Canon self × Canon other }
        ensures { Is result (E.add (dec self) (E.neg (dec other))) }
    {
        Ext {
            c0: sub_word(self.c0, other.c0),
            c1: sub_word(self.c1, other.c1),
            c2: sub_word(self.c2, other.c2),
            c3: sub_word(self.c3, other.c3),
        }
    }

    // The product, where x⁴ = 11.
    pub fn times(self, other: Ext) -> Ext
        requires { Canon self × Canon other }
        ensures { Is result (E.mul (dec self) (dec other)) }
    {
        self.times_plus(other, Ext::ZERO)
    }

    // self·other + c. Each coordinate is four products and c's word, reduced once; x⁴ = 11 is taken into the second factor first,
    // so that a second factor that a loop keeps is multiplied by 11 before the loop.
    pub fn times_plus(self, other: Ext, c: Ext) -> Ext
        requires { Canon self × Canon other }
        ensures { Is result (E.add (E.mul (dec self) (dec other)) (dec c)) }
    {
        let b0 = other.c0;
        let b1 = other.c1;
        let b2 = other.c2;
        let b3 = other.c3;
        let e1 = eleven(b1);
        let e2 = eleven(b2);
        let e3 = eleven(b3);
        Ext {
            c0: dot(self, b0, e3, e2, e1, c.c0),
            c1: dot(self, b1, b0, e3, e2, c.c1),
            c2: dot(self, b2, b1, b0, e3, c.c2),
            c3: dot(self, b3, b2, b1, b0, c.c3),
        }
    }

    // By an element of the base. It takes any words, since a product of two of them fits.
    pub fn times_word(self, w: u32) -> Ext
        ensures { Is result (E.mul (dec self) (E.emb (of w))) }
    {
        Ext {
            c0: mul_word(self.c0, w),
            c1: mul_word(self.c1, w),
            c2: mul_word(self.c2, w),
            c3: mul_word(self.c3, w),
        }
    }

    // The canonical words of the same element: what the public operations do to their inputs.
    pub fn reduced(self) -> Ext
        ensures { Is result (dec self) }
    {
        Ext {
            c0: rest_word(self.c0),
            c1: rest_word(self.c1),
            c2: rest_word(self.c2),
            c3: rest_word(self.c3),
        }
    }
}
