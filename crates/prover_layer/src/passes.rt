// The passes of a sub-round over the claims on pairs of nodes from node `pq` on, each by itself: the sums of weighed numerators,
// the differences in place of every second entry, and the fold that goes on from these. No pass multiplies by lambda: the claims are weighed.
ghost use Rattle.std.specs.Prelude.{◌+◌, ◌*◌, ◌<◌, ◌≤◌, length};
ghost use Rattle.field.specs.Ext as E;
ghost use Rattle.field.specs.ExtRing.{ExtRing};
ghost use Rattle.field.specs.Element.{dec, Canon, Is};
ghost use Rattle.field.specs.Cells.{Clean};
ghost use Rattle.multilinear.specs.Forms as Forms;
ghost use Rattle.step.specs.Values.{IsThree, two, three};
ghost use Rattle.prover_layer.specs.Columns.{claims};
ghost use Rattle.prover_layer.specs.Message.{CanonTurn, IsTurn, said};
ghost use Rattle.prover_layer.specs.Passes.{CanonPair, IsPair, dec_pair, side, side_sum, lead, rise, differ, StoredPair, Risen, Folded};

use crate::message::message;
use crate::{Pair, Turn};
use field::sums::sum_of_products;
use field::{Ext, Field};
use step::{Frac, Three};

// Entry i of the claims.
fn load_pair(work: &[u32], pq: usize, i: usize) -> Pair
    requires room { 8 * (pq + 2 * i) + 15 < length work.now }
    requires clean { Clean work.now }
    ensures { IsPair result (claims work.now pq i) }
{
    Pair {
        l: prover_tree::load_node(work, pq + 2 * i),
        r: prover_tree::load_node(work, pq + (2 * i + 1)),
    }
}

// Puts t into entry i.
fn store_pair(work: &mut [u32], pq: usize, i: usize, t: Pair)
    requires room { 8 * (pq + 2 * i) + 15 < length work.old }
    requires clean { Clean work.old × CanonPair t }
    ensures { StoredPair work.old work.new pq i (dec_pair t) }
{
    prover_tree::store_node(work, pq + 2 * i, t.l);
    prover_tree::store_node(work, pq + (2 * i + 1), t.r);
}

// The numerator of entry 2y + off, times cell `at` + y, is added.
fn add_side(work: &[u32], at: usize, pq: usize, off: usize, y: usize, acc: Ext) -> Ext
    requires room { (8 * (pq + 2 * (2 * y + off)) + 15 < length work.now) × (4 * (at + y) + 3 < length work.now) }
    requires clean { Clean work.now }
    ensures { Is result (E.add (dec acc) (side work.now at pq off y)) }
{
    let t = load_pair(work, pq, 2 * y + off);
    let n = sum_of_products(t.l.p, t.r.q, t.l.q, t.r.p);
    n.times_plus(field::load(work, at + y), acc)
}

// The numerators of the even entries (off 0) or of the odd ones (off 1), each times its cell of eq, summed.
fn side_sum(work: &[u32], at: usize, pq: usize, off: usize, half: usize) -> Ext
    requires room { (8 * (pq + 4 * half) ≤ length work.now) × (4 * (at + half) ≤ length work.now) × (off < 2) }
    requires clean { Clean work.now }
    ensures { Is result (side_sum work.now at pq off half) }
{
    let mut acc = Ext::ZERO;
    for y in 0..half {
        acc = add_side(work, at, pq, off, y, acc);
    }
    acc
}

// What a sub-round begins with after eq of c and at the old point's coordinate x: h(0) and h(1) are the sums of even and of odd entries.
pub fn open_turn(work: &[u32], at: usize, pq: usize, half: usize, c: Ext, x: Ext) -> Turn
    requires room { (8 * (pq + 4 * half) ≤ length work.now) × (4 * (at + half) ≤ length work.now) }
    requires clean { Clean work.now × Canon c × Canon x }
    ensures { IsTurn result (dec c) (dec x) (side_sum work.now at pq 0 half) (side_sum work.now at pq 1 half) }
{
    let h0 = side_sum(work, at, pq, 0, half);
    let h1 = side_sum(work, at, pq, 1, half);
    Turn { c, x, h0, h1 }
}

// What the sub-round after t begins with: eq goes on by the agreement of t's coordinate and rho.
pub fn next_turn(work: &[u32], at: usize, pq: usize, half: usize, t: Turn, rho: Ext, x: Ext) -> Turn
    requires room { (8 * (pq + 4 * half) ≤ length work.now) × (4 * (at + half) ≤ length work.now) }
    requires clean { Clean work.now × CanonTurn t × Canon rho × Canon x }
    ensures { IsTurn result (E.mul (dec t.c) (Forms.agree ExtRing (dec t.x) (dec rho))) (dec x)
        (side_sum work.now at pq 0 half) (side_sum work.now at pq 1 half) }
{
    open_turn(work, at, pq, half, step::eq::eq_step(t.c, t.x, rho), x)
}

// Entry 2y + 1 becomes its difference from entry 2y.
fn rise_entry(work: &mut [u32], pq: usize, y: usize)
    requires room { 8 * (pq + 4 * y) + 31 < length work.old }
    requires clean { Clean work.old }
    ensures { StoredPair work.old work.new pq (2 * y + 1) (differ (claims work.old pq) y) }
{
    let i = 2 * y + 1;
    let a = load_pair(work, pq, 2 * y);
    let b = load_pair(work, pq, i);
    let d = Pair {
        l: b.l.zip(a.l, Ext::minus),
        r: b.r.zip(a.r, Ext::minus),
    };
    store_pair(work, pq, i, d);
}

// Every odd entry becomes its difference from the even one before it.
fn differences(work: &mut [u32], pq: usize, half: usize)
    requires room { 8 * (pq + 4 * half) ≤ length work.old }
    requires clean { Clean work.old }
    ensures { Risen work.old work.new pq half }
{
    for y in 0..half {
        rise_entry(work, pq, y);
    }
}

// A sub-round's polynomial at 1, 2 and 3: the leading coefficient of h is the sum over the differences, which stay in place for the fold.
pub fn sumcheck_round_poly_evals(
    work: &mut [u32],
    at: usize,
    pq: usize,
    half: usize,
    t: Turn,
) -> Three
    requires room { (2 * pq + 8 * half ≤ at) × (4 * (at + half) ≤ length work.old) }
    requires clean { Clean work.old × CanonTurn t }
    ensures { IsThree result (said t (lead work.old at pq half) E.one) (said t (lead work.old at pq half) two)
        (said t (lead work.old at pq half) three) × Risen work.old work.new pq half }
{
    differences(work, pq, half);
    message(t, side_sum(work, at, pq, 1, half))
}

// Entry 2y and rho times the difference in entry 2y + 1 go into entry y.
fn fold_entry(work: &mut [u32], pq: usize, y: usize, rho: Ext)
    requires room { 8 * (pq + 4 * y + 4) ≤ length work.old }
    requires clean { Clean work.old × Canon rho }
    ensures { StoredPair work.old work.new pq y (rise (dec rho) (claims work.old pq) y) }
{
    let low = load_pair(work, pq, 2 * y);
    let d = load_pair(work, pq, 2 * y + 1);
    let t = Pair {
        l: Frac {
            p: d.l.p.times_plus(rho, low.l.p),
            q: d.l.q.times_plus(rho, low.l.q),
        },
        r: Frac {
            p: d.r.p.times_plus(rho, low.r.p),
            q: d.r.q.times_plus(rho, low.r.q),
        },
    };
    store_pair(work, pq, y, t);
}

// The claims are folded in place, from 2 * half entries, the odd ones differences, to half.
pub fn fold_mle_evals(work: &mut [u32], pq: usize, half: usize, rho: Ext)
    requires room { 8 * (pq + 4 * half) ≤ length work.old }
    requires clean { Clean work.old × Canon rho }
    ensures { Folded work.old work.new pq half (dec rho) }
{
    for y in 0..half {
        fold_entry(work, pq, y, rho);
    }
}
