// eq goes on by one coordinate of each of two points.
ghost use Rattle.field.specs.Ext as E;
ghost use Rattle.field.specs.ExtRing.{ExtRing};
ghost use Rattle.field.specs.Element.{dec, Canon, Is};
ghost use Rattle.multilinear.specs.Forms as Forms;

use field::{Ext, Field};

// eq·(x·y + (1 - x)·(1 - y)): two products.
pub fn eq_step(eq: Ext, x: Ext, y: Ext) -> Ext
    requires { Canon eq × Canon x × Canon y }
    ensures { Is result (E.mul (dec eq) (Forms.agree ExtRing (dec x) (dec y))) }
{
    let both = x.times(y);
    eq.times(both.plus(both).plus(Ext::ONE.minus(x).minus(y)))
}
