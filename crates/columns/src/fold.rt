// The fold of a column at r: the lowest bit is bound.
ghost use Rattle.std.specs.Prelude.{◌≡◌, ◌++◌, ◌+◌, ◌*◌, ◌<◌, ◌≤◌, length, drop};
ghost use Rattle.field.specs.ExtRing.{ExtRing};
ghost use Rattle.field.specs.Element.{dec, Canon, Is};
ghost use Rattle.field.specs.Cells.{cell, Clean};
ghost use Rattle.field.specs.Column.{flat};
ghost use Rattle.multilinear.specs.Table as Table;

use crate::put;
use field::Ext;

// Entry y of the fold.
#[tactic(auto, unfolding(multilinear::specs::Table::fold))]
fn fold_entry(src: &[u32], y: usize, r: Ext) -> Ext
    requires room { 8 * y + 7 < length src.now }
    requires clean { Clean src.now × Canon r }
    ensures { Is result (Table.fold ExtRing (cell src.now) (dec r) y) }
{
    step::line_at(field::load(src, 2 * y), field::load(src, 2 * y + 1), r)
}

// The first n entries of the fold stand at the front of dst, and the rest of dst is as before.
pub fn fold_into(src: &[u32], dst: &mut [u32], n: usize, r: Ext)
    requires room { (8 * n ≤ length src.now) × (4 * n ≤ length dst.old) }
    requires clean { Clean src.now × Canon r }
    ensures { dst.new ≡ flat (Table.fold ExtRing (cell src.now) (dec r)) n ++ drop (4 * n) dst.old }
{
    for y in 0..n {
        put(dst, y, fold_entry(src, y, r));
    }
}
