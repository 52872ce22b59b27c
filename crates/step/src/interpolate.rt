// The values at x of the polynomials through given values at 0, 1, 2, 3: canonical words in, canonical words out.
ghost use Rattle.field.specs.Ext as E;
ghost use Rattle.field.specs.Extension.{Extension};
ghost use Rattle.field.specs.Element.{dec, Canon, Is};
ghost use Rattle.multilinear.specs.Interpolate as Interpolate;
ghost use Rattle.step.specs.Values.{minus};

use field::{Base, Ext, Field};

// One step of Horner's rule: a·x + b.
pub fn horner_step(a: Ext, x: Ext, b: Ext) -> Ext
    requires { Canon a × Canon x × Canon b }
    ensures { Is result (E.add (E.mul (dec a) (dec x)) (dec b)) }
{
    a.times_plus(x, b)
}

// The difference of the first differences of three values.
fn second_difference(e0: Ext, e1: Ext, e2: Ext) -> Ext
    requires { Canon e0 × Canon e1 × Canon e2 }
    ensures { Is result (minus (minus (dec e2) (dec e1)) (minus (dec e1) (dec e0))) }
{
    e2.minus(e1).minus(e1.minus(e0))
}

// interpolate_quadratic_at_012 by forward differences, e0 + x·(d1 + (x - 1)·d2/2): two products, and one by the inverse of 2.
pub fn quadratic_at(e0: Ext, e1: Ext, e2: Ext, x: Ext) -> Ext
    requires { Canon e0 × Canon e1 × Canon e2 × Canon x }
    ensures { Is result (Interpolate.quadratic Extension (dec e0) (dec e1) (dec e2) (dec x)) }
{
    let d1 = e1.minus(e0);
    let d2 = second_difference(e0, e1, e2);
    let half_d2 = d2.times_word(Base::HALF.value);
    half_d2.times_plus(x.minus(Ext::ONE), d1).times_plus(x, e0)
}

// interpolate_cubic_at_0123 by forward differences, e0 + x·(d1 + (x - 1)·(d2/2 + (x - 2)·d3/6)): three products, one by the inverse of 2 and one by the inverse of 6.
pub fn cubic_at(e0: Ext, e1: Ext, e2: Ext, e3: Ext, x: Ext) -> Ext
    requires { Canon e0 × Canon e1 × Canon e2 × Canon e3 × Canon x }
    ensures { Is result (Interpolate.cubic Extension (dec e0) (dec e1) (dec e2) (dec e3) (dec x)) }
{
    let d1 = e1.minus(e0);
    let d2 = second_difference(e0, e1, e2);
    let d3 = second_difference(e1, e2, e3).minus(d2);
    let half_d2 = d2.times_word(Base::HALF.value);
    let sixth_d3 = d3.times_word(Base::SIXTH.value);
    sixth_d3
        .times_plus(x.minus(Ext::TWO), half_d2)
        .times_plus(x.minus(Ext::ONE), d1)
        .times_plus(x, e0)
}
