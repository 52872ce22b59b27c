// Polynomials through given values at 0, 1, 2, 3, taken at x. These take any words, by their remainders, and never refuse.
ghost use Rattle.std.specs.Prelude.{◌≡◌};
ghost use Rattle.field.specs.ExtRing.{ExtRing};
ghost use Rattle.field.specs.Extension.{Extension};
ghost use Rattle.field.specs.Element.{dec, enc};
ghost use Rattle.multilinear.specs.Forms as Forms;
ghost use Rattle.multilinear.specs.Interpolate as Interpolate;

use field::Ext;

// The line through e0 at 0 and e1 at 1, taken at x.
pub fn interpolate_linear_at_01(e0: Ext, e1: Ext, x: Ext) -> Ext
    ensures { result ≡ enc (Forms.line ExtRing (dec e0) (dec e1) (dec x)) }
{
    step::line_at(e0.reduced(), e1.reduced(), x.reduced())
}

// The quadratic through e0, e1, e2 at 0, 1, 2, taken at x.
pub fn interpolate_quadratic_at_012(e0: Ext, e1: Ext, e2: Ext, x: Ext) -> Ext
    ensures { result ≡ enc (Interpolate.quadratic Extension (dec e0) (dec e1) (dec e2) (dec x)) }
{
    step::interpolate::quadratic_at(e0.reduced(), e1.reduced(), e2.reduced(), x.reduced())
}

// The cubic through e0, e1, e2, e3 at 0, 1, 2, 3, taken at x.
pub fn interpolate_cubic_at_0123(e0: Ext, e1: Ext, e2: Ext, e3: Ext, x: Ext) -> Ext
    ensures { result ≡ enc (Interpolate.cubic Extension (dec e0) (dec e1) (dec e2) (dec e3) (dec x)) }
{
    step::interpolate::cubic_at(
        e0.reduced(),
        e1.reduced(),
        e2.reduced(),
        e3.reduced(),
        x.reduced(),
    )
}
