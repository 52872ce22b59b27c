// The GKR rounds over lent buffers: the tree and the eq table in one workspace, the point, the log and the challenges.
#![tactic(auto)]

ghost use Rattle.std.specs.Prelude.{◌≡◌, ℕ, suc, ◌+◌, ◌*◌, ◌-◌, ◌^◌, ◌<◌, ◌≤◌, length};
ghost use Rattle.field.specs.Ext as E;
ghost use Rattle.field.specs.Element.{dec, Canon, Is};
ghost use Rattle.field.specs.Cells.{cell, Clean};
ghost use Rattle.gkr.specs.Run.{Frac as Fraction};
ghost use Rattle.transcript.specs.Log.{Enough, Steps, log_of, source_of, state};
ghost use Rattle.step.specs.Values.{CanonFrac, dec_frac, CanonThree};
ghost use Rattle.prover_tree.specs.Nodes.{node};
ghost use Rattle.prover_layer.specs.Message.{CanonTurn, IsTurn};
ghost use Rattle.prover_rounds.specs.SubRounds.{observed_three, SubSent, SubRounds};
ghost use Rattle.prover_rounds.specs.Layers.{observed_frac, RoundClosed, OneLayer, Levels, log_up_to, used_up_to, AllLayers};

use field::{Ext, Field};
use prover_layer::Turn;
use step::{Frac, Three};
use transcript::Transcript;

// s(1), s(2), s(3) go into the log.
fn observe_round_poly(transcript: &mut Transcript<'_>, s: Three)
    requires room { transcript.old.put + 12 ≤ length transcript.old.log.now }
    requires canon { CanonThree s }
    ensures same { transcript.new.log.ghost_name ≡ transcript.old.log.ghost_name }
    ensures steps { Steps (state transcript.old) (state transcript.new) 12 0 (observed_three s (log_of (state transcript.old))) }
{
    transcript.observe_ext(s.s1);
    transcript.observe_ext(s.s2);
    transcript.observe_ext(s.s3);
}

// One sub-round over weighed claims that begins with t: its polynomial is observed, rho sampled and kept in cell i of the point, and the claims are folded at it.
fn sub_round(
    work: &mut [u32],
    at: usize,
    pq: usize,
    half: usize,
    t: Turn,
    xi: &mut [u32],
    i: usize,
    transcript: &mut Transcript<'_>,
) -> Ext
    requires layer { (2 * pq + 8 * half ≤ at) × (4 * (at + half) ≤ length work.old) }
    requires room { (4 * i + 3 < length xi.old) × (transcript.old.put + 16 ≤ length transcript.old.log.now) }
    requires enough { Enough (state transcript.old) 1 }
    requires clean { Clean work.old × Clean xi.old × CanonTurn t }
    ensures same { transcript.new.log.ghost_name ≡ transcript.old.log.ghost_name }
    ensures sent { SubSent work.old work.new xi.old xi.new (state transcript.old) (state transcript.new)
        (source_of (state transcript.old)) at pq half i t }
    ensures rho { Is result (cell xi.new i) }
{
    let s = prover_layer::passes::sumcheck_round_poly_evals(work, at, pq, half, t);
    observe_round_poly(transcript, s);
    let rho = transcript.sample_ext();
    field::store(xi, i, rho);
    prover_layer::passes::fold_mle_evals(work, pq, half, rho);
    rho
}

// The sub-rounds of a round over size = 2^round entries with weighed claims; each rho goes into the point behind cell 0, in order,
// after the old coordinate there is read.
fn weighed_sub_rounds(
    work: &mut [u32],
    eq: usize,
    pq: usize,
    round: usize,
    size: usize,
    first: Turn,
    xi: &mut [u32],
    transcript: &mut Transcript<'_>,
)
    requires size { size ≡ 2 ^ round }
    requires layer { (2 * pq + 4 * size ≤ eq) × (4 * (eq + size) ≤ length work.old) }
    requires room { (4 * round + 4 ≤ length xi.old) × (transcript.old.put + 16 * round ≤ length transcript.old.log.now) }
    requires enough { Enough (state transcript.old) round }
    requires clean { Clean work.old × Clean xi.old × CanonTurn first }
    ensures same { transcript.new.log.ghost_name ≡ transcript.old.log.ghost_name }
    ensures sent { SubRounds work.old work.new xi.old xi.new (state transcript.old) (state transcript.new)
        (source_of (state transcript.old)) eq pq round size E.nil first }
{
    let mut t = first;
    let mut half = size / 2;
    for j in 0..round {
        let i = j + 1;
        let x = field::load(xi, i);
        let rho = sub_round(work, eq + half, pq, half, t, xi, i, transcript);
        half /= 2;
        t = prover_layer::passes::next_turn(work, eq + half, pq, half, t, rho, x);
    }
}

// The sub-rounds of a round: the claims are weighed by lambda before, and those that are left are taken back after.
fn sub_rounds(
    work: &mut [u32],
    eq: usize,
    round: usize,
    size: usize,
    lambda: Ext,
    first: Turn,
    xi: &mut [u32],
    transcript: &mut Transcript<'_>,
)
    requires size { size ≡ 2 ^ round }
    requires layer { (8 * size ≤ eq) × (4 * (eq + size) ≤ length work.old) }
    requires room { (4 * round + 4 ≤ length xi.old) × (transcript.old.put + 16 * round ≤ length transcript.old.log.now) }
    requires enough { Enough (state transcript.old) round }
    requires clean { Clean work.old × Clean xi.old × Canon lambda × CanonTurn first }
    ensures same { transcript.new.log.ghost_name ≡ transcript.old.log.ghost_name }
    ensures sent { SubRounds work.old work.new xi.old xi.new (state transcript.old) (state transcript.new)
        (source_of (state transcript.old)) eq (2 * size) round size (dec lambda) first }
{
    let pq = 2 * size;
    prover_layer::weigh(work, pq, size, lambda);
    weighed_sub_rounds(work, eq, pq, round, size, first, xi, transcript);
    prover_layer::weigh(work, pq, 1, Ext::ZERO.minus(lambda));
}

// What a round begins with: the claims of the round before, on nodes size and size + 1, batched by lambda, are h at 0 and at 1.
fn first_turn(work: &[u32], size: usize, lambda: Ext, xi: &[u32]) -> Turn
    requires room { (8 * size + 15 < length work.now) × (4 ≤ length xi.now) }
    requires clean { Clean work.now × Clean xi.now × Canon lambda }
    ensures { IsTurn result E.one (cell xi.now 0)
        (E.add (E.mul (node work.now size).q (dec lambda)) (node work.now size).p)
        (E.add (E.mul (node work.now (size + 1)).q (dec lambda)) (node work.now (size + 1)).p) }
{
    let l = prover_tree::load_node(work, size);
    let r = prover_tree::load_node(work, size + 1);
    Turn {
        c: Ext::ONE,
        x: field::load(xi, 0),
        h0: l.q.times_plus(lambda, l.p),
        h1: r.q.times_plus(lambda, r.p),
    }
}

// p, then q, go into the log.
fn observe_fraction(transcript: &mut Transcript<'_>, f: Frac)
    requires room { transcript.old.put + 8 ≤ length transcript.old.log.now }
    requires canon { CanonFrac f }
    ensures same { transcript.new.log.ghost_name ≡ transcript.old.log.ghost_name }
    ensures steps { Steps (state transcript.old) (state transcript.new) 8 0 (observed_frac (dec_frac f) (log_of (state transcript.old))) }
{
    transcript.observe_ext(f.p);
    transcript.observe_ext(f.q);
}

// The end of a round: its claims, on nodes pq and pq + 1, are observed, and mu is sampled into cell 0 of the point.
pub fn close_round(work: &[u32], pq: usize, xi: &mut [u32], transcript: &mut Transcript<'_>)
    requires room { (8 * pq + 15 < length work.now) × (4 ≤ length xi.old) × (transcript.old.put + 20 ≤ length transcript.old.log.now) }
    requires enough { Enough (state transcript.old) 1 }
    requires clean { Clean work.now × Clean xi.old }
    ensures same { transcript.new.log.ghost_name ≡ transcript.old.log.ghost_name }
    ensures length { length transcript.new.log.now ≡ length transcript.old.log.now }
    ensures closed { RoundClosed work.now xi.old xi.new (state transcript.old) (state transcript.new) (source_of (state transcript.old)) pq }
{
    observe_fraction(transcript, prover_tree::load_node(work, pq));
    observe_fraction(transcript, prover_tree::load_node(work, pq + 1));
    let mu = transcript.sample_ext();
    field::store(xi, 0, mu);
}

// Round `round`, over size = 2^round entries: lambda, the eq tables of the old point, the sub-rounds, the claims and mu.
fn gkr_round(
    work: &mut [u32],
    eq: usize,
    round: usize,
    size: usize,
    xi: &mut [u32],
    transcript: &mut Transcript<'_>,
)
    requires size { (size ≡ 2 ^ round) × (1 ≤ round) }
    requires layer { (8 * size ≤ eq) × (4 * (eq + size) ≤ length work.old) }
    requires room { (4 * round + 4 ≤ length xi.old) × (transcript.old.put + 16 * round + 24 ≤ length transcript.old.log.now) }
    requires enough { Enough (state transcript.old) (round + 2) }
    requires clean { Clean work.old × Clean xi.old }
    ensures same { transcript.new.log.ghost_name ≡ transcript.old.log.ghost_name }
    ensures length { length transcript.new.log.now ≡ length transcript.old.log.now }
    ensures layer { OneLayer work.old work.new xi.old xi.new (state transcript.old) (state transcript.new)
        (source_of (state transcript.old)) eq round size }
{
    let lambda = transcript.sample_ext();
    let first = first_turn(work, size, lambda, xi);
    prover_layer::heap::eq_heap(work, eq, xi, round);
    sub_rounds(work, eq, round, size, lambda, first, xi, transcript);
    close_round(work, 2 * size, xi, transcript);
}

// The rounds from 1 to n - 1.
pub fn gkr_rounds(
    work: &mut [u32],
    eq: usize,
    n: usize,
    xi: &mut [u32],
    transcript: &mut Transcript<'_>,
)
    requires layer { (1 ≤ n) × (4 * 2 ^ n ≤ eq) × (4 * eq + 2 * 2 ^ n ≤ length work.old) }
    requires room { (4 * n ≤ length xi.old) × (transcript.old.put + log_up_to n ≤ length transcript.old.log.now + log_up_to 1) }
    requires enough { Enough (state transcript.old) (used_up_to n - used_up_to 1) }
    requires clean { Clean work.old × Clean xi.old }
    ensures same { transcript.new.log.ghost_name ≡ transcript.old.log.ghost_name }
    ensures length { length transcript.new.log.now ≡ length transcript.old.log.now }
    ensures run { (f : ℕ → Fraction E.Ext) (g : ℕ) → n ≡ suc g → Levels f work.old n 0 →
        AllLayers f xi.old xi.new (state transcript.old) (state transcript.new) (source_of (state transcript.old)) n g }
    ensures steps { Steps (state transcript.old) (state transcript.new) (log_up_to n - log_up_to 1) (used_up_to n - used_up_to 1)
        (log_of (state transcript.new)) }
    ensures clean { Clean xi.new × Clean work.new }
{
    let mut size = 2;
    for round in 1..n {
        gkr_round(work, eq, round, size, xi, transcript);
        size *= 2;
    }
}
