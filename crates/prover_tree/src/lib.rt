// The fraction tree in one lent workspace: node k is the cells 2k and 2k + 1, the rows are the leaves, and each node above is the sum of its two.
#![tactic(auto)]

ghost use Rattle.std.specs.Prelude.{◌≡◌, ◌+◌, ◌*◌, ◌<◌, ◌≤◌, length, replicate};
ghost use Rattle.field.specs.ExtRing.{ExtRing};
ghost use Rattle.field.specs.Cells.{cell, Clean};
ghost use Rattle.gkr.specs.Tree as Tree;
ghost use Rattle.step.specs.Values.{IsFrac, CanonFrac, dec_frac};
ghost use Rattle.prover_tree.specs.Nodes.{node, StoredNode, Filled, Summed, Built};

use step::Frac;

// Node k of the workspace.
pub fn load_node(work: &[u32], k: usize) -> Frac
    requires room { 8 * k + 7 < length work.now }
    requires clean { Clean work.now }
    ensures { IsFrac result (node work.now k) }
{
    Frac {
        p: field::load(work, 2 * k),
        q: field::load(work, 2 * k + 1),
    }
}

// Puts f into node k.
pub fn store_node(work: &mut [u32], k: usize, f: Frac)
    requires room { 8 * k + 7 < length work.old }
    requires clean { Clean work.old }
    requires canon { CanonFrac f }
    ensures { StoredNode work.old work.new k (dec_frac f) }
{
    field::store(work, 2 * k, f.p);
    field::store(work, 2 * k + 1, f.q);
}

// Row i becomes node size + i.
fn put_leaves(rows: &[u32], work: &mut [u32], size: usize)
    requires room { (8 * size ≤ length rows.now) × (16 * size ≤ length work.old) }
    requires clean { Clean rows.now × Clean work.old }
    ensures { Filled work.old work.new (2 * size) (2 * size) (cell rows.now) }
{
    let n = 2 * size;
    for i in 0..n {
        field::store(work, n + i, field::load(rows, i));
    }
}

// Node k becomes the sum of its children.
fn sum_node(work: &mut [u32], k: usize)
    requires room { 16 * k + 15 < length work.old }
    requires clean { Clean work.old }
    ensures { StoredNode work.old work.new k (Tree.compute_recursive_relations ExtRing (Tree.children ExtRing (node work.old) k)) }
{
    let f = load_node(work, 2 * k) + load_node(work, 2 * k + 1);
    store_node(work, k, f);
}

// Every inner node becomes the sum of its children, from the last to node 1.
fn sum_tree(work: &mut [u32], size: usize)
    requires room { 16 * size ≤ length work.old }
    requires clean { Clean work.old }
    ensures { Summed work.old work.new 1 size }
{
    for node_idx in (1..size).rev() {
        sum_node(work, node_idx);
    }
}

// The segment tree over the rows.
pub fn build(rows: &[u32], work: &mut [u32], size: usize)
    requires room { (8 * size ≤ length rows.now) × (16 * size ≤ length work.old) }
    requires clean { Clean rows.now × Clean work.old }
    ensures { Built rows.now work.old work.new size }
{
    put_leaves(rows, work, size);
    sum_tree(work, size);
}

// Every word becomes zero.
pub fn clear(words: &mut [u32])
    ensures { words.new ≡ replicate (length words.old) 0 }
{
    words.fill(0);
}
