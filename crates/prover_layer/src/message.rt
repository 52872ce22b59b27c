// A sub-round's polynomial is a line times a parabola: eq of the coordinates so far and of this one, and the sum h of weighed numerators.
// h is known by its values at 0 and 1 and its leading coefficient.
ghost use Rattle.field.specs.Ext as E;
ghost use Rattle.field.specs.ExtRing.{ExtRing};
ghost use Rattle.field.specs.Element.{dec, Canon};
ghost use Rattle.multilinear.specs.Forms as Forms;
ghost use Rattle.step.specs.Values.{IsThree, two, three};
ghost use Rattle.prover_layer.specs.Message.{CanonTurn, parabola, said};

use crate::Turn;
use field::Ext;
use step::Three;

// The line c·eq(x, X) at 1, 2 and 3: one product.
fn line_values(c: Ext, x: Ext) -> Three
    requires { Canon c × Canon x }
    ensures { IsThree result (E.mul (dec c) (Forms.agree ExtRing (dec x) E.one)) (E.mul (dec c) (Forms.agree ExtRing (dec x) two)) (E.mul (dec c) (Forms.agree ExtRing (dec x) three)) }
{
    let s1 = c.times(x);
    let d = s1.plus(s1).minus(c);
    let s2 = s1.plus(d);
    Three {
        s1,
        s2,
        s3: s2.plus(d),
    }
}

// The parabola at 1, 2 and 3, from its values at 0 and 1 and its leading coefficient.
fn parabola_values(h0: Ext, h1: Ext, lead: Ext) -> Three
    requires { Canon h0 × Canon h1 × Canon lead }
    ensures { IsThree result (parabola (dec h0) (dec h1) (dec lead) E.one) (parabola (dec h0) (dec h1) (dec lead) two) (parabola (dec h0) (dec h1) (dec lead) three) }
{
    let d = h1.minus(h0);
    let twice = lead.plus(lead);
    let s2 = h1.plus(d).plus(twice);
    Three {
        s1: h1,
        s2,
        s3: s2.plus(d).plus(twice).plus(twice),
    }
}

// s(1), s(2) and s(3): the line times the parabola.
pub fn message(t: Turn, lead: Ext) -> Three
    requires { CanonTurn t × Canon lead }
    ensures { IsThree result (said t (dec lead) E.one) (said t (dec lead) two) (said t (dec lead) three) }
{
    let l = line_values(t.c, t.x);
    let h = parabola_values(t.h0, t.h1, lead);
    Three {
        s1: l.s1.times(h.s1),
        s2: l.s2.times(h.s2),
        s3: l.s3.times(h.s3),
    }
}
