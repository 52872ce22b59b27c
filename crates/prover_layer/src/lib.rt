// One layer's claims on pairs of nodes, from node `pq` on, and its eq tables in the workspace: read where they stand, and folded in place.
// For the sub-rounds of a layer p1 is weighed: p1 + lambda·q1 stands in its place, so that no sub-round multiplies by lambda.
#![tactic(auto)]

ghost use Rattle.std.specs.Prelude.{◌+◌, ◌*◌, ◌<◌, ◌≤◌, length};
ghost use Rattle.field.specs.Ext as E;
ghost use Rattle.field.specs.Element.{dec, Canon};
ghost use Rattle.field.specs.Cells.{cell, Clean, Stored};
ghost use Rattle.prover_layer.specs.Columns.{Weighed};

use field::Ext;
use step::Frac;

pub mod heap; // the eq tables of all sub-rounds
pub mod message; // a sub-round's polynomial from three values
pub mod passes; // sums, differences and folds

// The claims on a left and a right child.
#[derive(Clone, Copy)]
pub struct Pair {
    pub l: Frac,
    pub r: Frac,
}

// What a sub-round begins with: eq of the coordinates and challenges before it, the old point's coordinate, and the values at 0 and 1 of the sum h.
#[derive(Clone, Copy)]
pub struct Turn {
    pub c: Ext,
    pub x: Ext,
    pub h0: Ext,
    pub h1: Ext,
}

// p + lambda·q goes into the place of p of node k.
fn weigh_node(work: &mut [u32], k: usize, lambda: Ext)
    requires room { 8 * k + 7 < length work.old }
    requires clean { Clean work.old × Canon lambda }
    ensures { Stored work.old work.new (2 * k) (E.add (E.mul (cell work.old (2 * k + 1)) (dec lambda)) (cell work.old (2 * k))) }
{
    let f = prover_tree::load_node(work, k);
    field::store(work, 2 * k, f.q.times_plus(lambda, f.p));
}

// p1 of the first `size` entries is weighed by lambda.
pub fn weigh(work: &mut [u32], pq: usize, size: usize, lambda: Ext)
    requires room { 8 * (pq + 2 * size) ≤ length work.old }
    requires clean { Clean work.old × Canon lambda }
    ensures { Weighed work.old work.new pq size (dec lambda) }
{
    for y in 0..size {
        weigh_node(work, pq + (2 * y + 1), lambda);
    }
}
