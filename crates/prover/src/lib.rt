// The prover: fractional_sumcheck over lent buffers.
#![tactic(auto)]

ghost use Rattle.std.specs.Prelude.{◌≡◌, not, ◌&&◌, List, [], ℕ, suc, ◌*◌, ◌^◌, ◌≤◌, length, Err};
ghost use Rattle.field.specs.Ext as E;
ghost use Rattle.field.specs.ExtRing.{ExtRing};
ghost use Rattle.field.specs.Element.{dec};
ghost use Rattle.field.specs.Cells.{Clean};
ghost use Rattle.gkr.specs.Run.{Frac as Fraction};
ghost use Rattle.gkr.specs.Tree as Tree;
ghost use Rattle.transcript.specs.Source.{source};
ghost use Rattle.step.specs.Values.{CanonFrac, IsFrac};
ghost use Rattle.prover_rounds.specs.Layers.{Levels};
ghost use Rattle.sizes.specs.Sizes.{row_count};
ghost use Rattle.prover_gate.specs.Refusals.{call, rooms};
ghost use Rattle.transcript.specs.Used.{unused};
ghost use Rattle.prover.specs.Proved.{lent, outcome, laid, one_row, modelled, ran, proved};
ghost use Rattle.prover.specs.Inner.{ending, Written, Room, Opens};
ghost use Rattle.prover.specs.Report.{answer_report};

use field::{Ext, Field};
use prover_gate::Rooms;
use refusal::{Proving, Refusal, Report};
use step::Frac;
use transcript::{Transcript, Used};

// n, and the sum of all rows.
#[derive(Clone, Copy)]
pub struct Done {
    pub rounds: usize,
    pub sum: Frac,
}

// What is proved, or the first refusal that fits.
pub type Answer = Result<Done, Refusal>;

// How a call ends: its answer, and what it used up.
#[derive(Clone, Copy)]
pub struct Ending {
    pub answer: Answer,
    pub used: Used,
}

// A refusal, which has used up nothing.
fn refuse(refusal: Refusal) -> Ending
    ensures { result ≡ ending (Err refusal) unused }
{
    Ending {
        answer: Err(refusal),
        used: Used::nothing(),
    }
}

// The run over the tree in the workspace, its proof from the log, the wiping of the workspace, and what was used up.
fn write_run(
    modes: Proving,
    n: usize,
    root: Frac,
    challenges: &[u32],
    proof: &mut [u8],
    xi: &mut [u32],
    log: &mut [u32],
    work: &mut [u32],
) -> Used
    requires room { Room modes n (length challenges.now) (rooms (length proof.old) (length xi.old) (length log.old) (length work.old)) }
    requires clean { Clean work.old × Clean challenges.now × CanonFrac root }
    ensures { (f : ℕ → Fraction E.Ext) (m : ℕ) → n ≡ suc m → Levels f work.old n 0 → IsFrac root (Tree.tree ExtRing f (suc m) 0)
        → Written f modes.assert_zero modes.sized m (source modes.drawn challenges.now) (lent proof.old xi.old log.old work.old)
        (lent proof.new xi.new log.new work.new) result }
{
    let mut transcript = Transcript::new(log, challenges, modes.drawn);
    transcript.observe_size(modes.sized, n);
    prover_run::begin(&mut transcript, modes.assert_zero, root.p);
    let opening = transcript.put;
    prover_run::run_rounds(n, sizes::rows_of(n), root.q, work, xi, &mut transcript);
    let spent = transcript.used_up();
    stored_writer::put_proof(proof, log, opening / 4, n, modes.sized);
    prover_tree::clear(work); // nothing of the rows stays
    spent
}

// Whether zero is asserted of a sum whose numerator is not zero.
fn contradicts(asserted: bool, p: Ext) -> bool
    ensures { result ≡ (asserted && not (E.same (dec p) E.nil)) }
{
    asserted && !p.is_zero()
}

// The run over 2^n rows. Nothing but the workspace is written before the test of root p.
fn prove(
    rows: &[u32],
    modes: Proving,
    n: usize,
    challenges: &[u32],
    proof: &mut [u8],
    xi: &mut [u32],
    log: &mut [u32],
    work: &mut [u32],
) -> Ending
    requires room { Room modes n (length challenges.now) (rooms (length proof.old) (length xi.old) (length log.old) (length work.old)) }
    requires clean { (8 * 2 ^ n ≤ length rows.now) × Clean rows.now × Clean challenges.now }
    ensures { (m : ℕ) → n ≡ suc m → outcome result.answer result.used proof.new xi.new log.new work.new
        ≡ laid (modelled rows.now modes.assert_zero modes.sized (source modes.drawn challenges.now) m)
        (lent proof.old xi.old log.old work.old) }
{
    let root = prover_run::sum_rows(rows, sizes::rows_of(n), work);
    if contradicts(modes.assert_zero, root.p) {
        prover_tree::clear(work);
        return refuse(Refusal::NonZeroRootSum);
    }
    let used = write_run(modes, n, root, challenges, proof, xi, log, work);
    Ending {
        answer: Ok(Done {
            rounds: n,
            sum: root,
        }),
        used,
    }
}

// One row: 8 where zero is asserted and p is not zero, else 9.
fn one_row(rows: &[u32], asserted: bool) -> Refusal
    requires { (8 ≤ length rows.now) × Clean rows.now }
    ensures { result ≡ one_row rows.now asserted }
{
    if contradicts(asserted, prover_tree::load_node(rows, 0).p) {
        Refusal::NonZeroRootSum
    } else {
        Refusal::SingleRow
    }
}

// No rounds: no rows are done, with the 23 bytes of their proof; one row is refused.
fn no_rounds(rows: &[u32], modes: Proving, proof: &mut [u8]) -> Ending
    requires { (length rows.now ≡ 8 * row_count rows.now) × (23 ≤ length proof.old) × Clean rows.now }
    ensures { (pt lg ws : List ℕ) → outcome result.answer result.used proof.new pt lg ws ≡ laid (ran rows.now modes [] 0) (lent proof.old pt lg ws) }
{
    if !rows.is_empty() {
        return refuse(one_row(rows, modes.assert_zero));
    }
    stored_writer::put_no_rows(proof, modes.sized);
    Ending {
        answer: Ok(Done {
            rounds: 0,
            sum: Frac {
                p: Ext::ZERO,
                q: Ext::ONE,
            },
        }),
        used: Used::nothing(),
    }
}

// What passed the gate, with its rounds. A run gets the needed parts of the challenges, the point and the workspace.
fn admitted(
    rows: &[u32],
    n: usize,
    modes: Proving,
    challenges: &[u32],
    proof: &mut [u8],
    point: &mut [u32],
    log: &mut [u32],
    work: &mut [u32],
) -> Ending
    requires { Opens rows.now modes challenges.now (rooms (length proof.old) (length point.old) (length log.old) (length work.old)) n }
    ensures { outcome result.answer result.used proof.new point.new log.new work.new
        ≡ laid (ran rows.now modes challenges.now n)
        (lent proof.old point.old log.old work.old) }
{
    if n == 0 {
        return no_rounds(rows, modes, proof);
    }
    let need = sizes::needed_words(modes.drawn, n);
    let w = sizes::work_words(n);
    let k = 4 * n;
    prove(
        rows,
        modes,
        n,
        &challenges[..need],
        proof,
        &mut point[..k],
        log,
        &mut work[..w],
    )
}

// Proves that the fractions of a sheet sum up, over lent buffers: row words, how they are proved, challenge words;
// rooms for the proof's bytes, the point, the log, and a workspace.
pub fn fractional_sumcheck(
    rows: &[u32],
    modes: Proving,
    challenges: &[u32],
    proof: &mut [u8],
    point: &mut [u32],
    log: &mut [u32],
    work: &mut [u32],
) -> Ending
    ensures { outcome result.answer result.used proof.new point.new log.new work.new
        ≡ proved (call rows.now modes challenges.now)
        (lent proof.old point.old log.old work.old) }
{
    let rooms = Rooms {
        proof: proof.len(),
        point: point.len(),
        log: log.len(),
        work: work.len(),
    };
    match prover_gate::first_refusal(rows, modes, challenges, rooms) {
        Ok(n) => admitted(rows, n, modes, challenges, proof, point, log, work),
        Err(refusal) => refuse(refusal),
    }
}

// The answer as document 01 has it: its number, and its values.
pub fn number_and_values(answer: Answer) -> Report
    ensures { result ≡ answer_report answer }
{
    match answer {
        Ok(done) => refusal::done(done.rounds, done.sum.p, done.sum.q),
        Err(refusal) => Report::from(refusal),
    }
}
