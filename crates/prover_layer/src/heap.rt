// The eq tables of a layer's sub-rounds, all in one heap: cell 1 holds 1, and cells 2k and 2k + 1 are cell k times 1 - x and times x,
// with the last coordinate of the point first. So the 2^i cells from cell 2^i on are the weights of all indices at the last i coordinates.
ghost use Rattle.std.specs.Prelude.{◌+◌, ◌*◌, ◌^◌, ◌<◌, ◌≤◌, length};
ghost use Rattle.field.specs.Element.{dec, Canon};
ghost use Rattle.field.specs.Cells.{Clean};
ghost use Rattle.prover_tree.specs.Nodes.{Filled};
ghost use Rattle.prover_layer.specs.Heap.{grown, Heaped};

use field::{Ext, Field};

// Cell i of those from `from` on becomes two of those from `to` on: times 1 - x, and times x.
fn grow_cell(work: &mut [u32], from: usize, to: usize, i: usize, x: Ext)
    requires room { (from + i < to) × (4 * (to + 2 * i) + 7 < length work.old) }
    requires clean { Clean work.old × Canon x }
    ensures { Filled work.old work.new (to + 2 * i) 2 (grown work.old (from + i) (dec x)) }
{
    let d = step::double_entry(field::load(work, from + i), x);
    field::store(work, to + 2 * i, d.low);
    field::store(work, to + 2 * i + 1, d.high);
}

// One coordinate more, x: the `size` cells from `from` on become 2 * size from `to` on.
fn grow_level(work: &mut [u32], from: usize, to: usize, size: usize, x: Ext)
    requires room { (from + size ≤ to) × (4 * (to + 2 * size) ≤ length work.old) }
    requires clean { Clean work.old × Canon x }
    ensures { Filled work.old work.new to (2 * size) (grown work.old from (dec x)) }
{
    for i in 0..size {
        grow_cell(work, from, to, i, x);
    }
}

// The heap at cell `eq`, over the first `round` cells of the point but for cell 0, which the first sub-round binds.
pub fn eq_heap(work: &mut [u32], eq: usize, xi: &[u32], round: usize)
    requires room { (1 ≤ round) × (4 * (eq + 2 ^ round) ≤ length work.old) × (4 * round ≤ length xi.now) }
    requires clean { Clean work.old × Clean xi.now }
    ensures { Heaped work.old work.new xi.now eq round round }
{
    field::store(work, eq + 1, Ext::ONE);
    let last = round - 1;
    let mut n = 1;
    for i in 0..last {
        grow_level(work, eq + n, eq + 2 * n, n, field::load(xi, last - i));
        n = 2 * n;
    }
}
