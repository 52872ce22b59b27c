// eq of two points of n coordinates, and the weights of all 2^n indices at a point.
ghost use Rattle.std.specs.Prelude.{◌≡◌, ◌+◌, ◌*◌, ◌^◌, ◌<◌, ◌≤◌, length};
ghost use Rattle.field.specs.ExtRing.{ExtRing};
ghost use Rattle.field.specs.Element.{dec, Canon, Is};
ghost use Rattle.field.specs.Cells.{cell, Clean, cells};
ghost use Rattle.field.specs.Column.{flat};
ghost use Rattle.multilinear.specs.Table as Table;
ghost use Rattle.columns.specs.Passes.{GrownEntry, Grown};

use field::{Ext, Field};

// The product of the agreements of the coordinates.
#[tactic(auto, using(crate::proofs::Turns::eq_turn, step::proofs::Algebra::one_is), unfolding(multilinear::specs::Table::eq))]
pub fn eq_points(x: &[u32], y: &[u32], n: usize) -> Ext
    requires room { (4 * n ≤ length x.now) × (4 * n ≤ length y.now) }
    requires clean { Clean x.now × Clean y.now }
    ensures { Is result (Table.eq ExtRing (cells x.now 0 n) (cells y.now 0 n)) }
{
    let mut eq = Ext::ONE;
    // Stays: tried as a `fold`, whose closure leaves two goals open that this loop does not have; `Columns::sums` likewise.
    for i in 0..n {
        eq = step::eq::eq_step(eq, field::load(x, i), field::load(y, i));
    }
    eq
}

// Entry i of a table of `size` entries becomes two: times 1 - x, and times x.
fn grow_entry(ws: &mut [u32], size: usize, i: usize, x: Ext)
    requires room { (4 * (size + i) + 3 < length ws.old) × (i < size) }
    requires clean { Clean ws.old × Canon x }
    ensures { GrownEntry ws.old ws.new size i (dec x) }
{
    let d = step::double_entry(field::load(ws, i), x);
    field::store(ws, size + i, d.high);
    field::store(ws, i, d.low);
}

// One variable more, x: the low half times 1 - x, the high half times x.
fn grow(ws: &mut [u32], size: usize, x: Ext)
    requires room { 8 * size ≤ length ws.old }
    requires clean { Clean ws.old × Canon x }
    ensures { Grown ws.old ws.new size size (dec x) }
{
    for i in 0..size {
        grow_entry(ws, size, i, x);
    }
}

// The weights, by doubling from the table of no variables.
pub fn eq_table(ws: &mut [u32], x: &[u32], n: usize)
    requires room { (length ws.old ≡ 4 * 2 ^ n) × (4 * n ≤ length x.now) }
    requires clean { Clean x.now }
    ensures { ws.new ≡ flat (Table.weight ExtRing (cells x.now 0 n)) (2 ^ n) }
{
    ws.fill(0);
    field::store(ws, 0, Ext::ONE);
    let mut size = 1;
    for j in 0..n {
        grow(ws, size, field::load(x, j));
        size *= 2;
    }
}
