// Round sums and fold of a layer's claims, exported so that they can be timed.
#![tactic(auto)]

ghost use Rattle.std.specs.Prelude.{◌+◌, ◌*◌, ◌≤◌, length};
ghost use Rattle.field.specs.Ext as E;
ghost use Rattle.field.specs.Element.{dec};
ghost use Rattle.field.specs.Cells.{cell, Clean};
ghost use Rattle.step.specs.Values.{CanonThree, two, three};
ghost use Rattle.prover_layer.specs.Passes.{Risen, Folded};
ghost use Rattle.layer_bench.specs.Sums.{InFront, spoken};

use step::Three;

// s(1), s(2), s(3) go into cells 0 to 2.
fn put_three(out: &mut [u32], s: Three)
    requires room { 12 ≤ length out.old }
    requires clean { Clean out.old × CanonThree s }
    ensures { InFront out.old out.new (dec s.s1) (dec s.s2) (dec s.s3) }
{
    field::store(out, 0, s.s1);
    field::store(out, 1, s.s2);
    field::store(out, 2, s.s3);
}

// A sub-round's polynomial over weighed claims: the three sums, and the differences that are left in place. Cells 0 and 1 of `begun` are eq so far and the coordinate.
#[unsafe(no_mangle)]
pub extern "C" fn layer_bench_round_sums(
    work: &mut [u32],
    at: usize,
    pq: usize,
    half: usize,
    begun: &[u32],
    out: &mut [u32],
)
    requires room { (2 * pq + 8 * half ≤ at) × (4 * (at + half) ≤ length work.old) × (8 ≤ length begun.now) × (12 ≤ length out.old) }
    requires clean { Clean work.old × Clean begun.now × Clean out.old }
    ensures { InFront out.old out.new
        (spoken work.old at pq half (cell begun.now 0) (cell begun.now 1) E.one)
        (spoken work.old at pq half (cell begun.now 0) (cell begun.now 1) two)
        (spoken work.old at pq half (cell begun.now 0) (cell begun.now 1) three)
        × Risen work.old work.new pq half }
{
    let c = field::load(begun, 0);
    let x = field::load(begun, 1);
    let t = prover_layer::passes::open_turn(work, at, pq, half, c, x);
    let s = prover_layer::passes::sumcheck_round_poly_evals(work, at, pq, half, t);
    put_three(out, s);
}

// One fold of the claims, in place, the odd entries differences, at cell 0 of `rho`.
#[unsafe(no_mangle)]
pub extern "C" fn layer_bench_fold(work: &mut [u32], pq: usize, half: usize, rho: &[u32])
    requires room { (8 * (pq + 4 * half) ≤ length work.old) × (4 ≤ length rho.now) }
    requires clean { Clean work.old × Clean rho.now }
    ensures { Folded work.old work.new pq half (cell rho.now 0) }
{
    prover_layer::passes::fold_mle_evals(work, pq, half, field::load(rho, 0));
}
