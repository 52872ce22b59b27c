// The run over 2^n rows: the tree and its root, the start of the log, round 0, and the rounds after it.
#![tactic(auto)]

ghost use Rattle.std.specs.Prelude.{◌≡◌, cond, ℕ, suc, ◌+◌, ◌*◌, ◌-◌, ◌^◌, ◌≤◌, length};
ghost use Rattle.field.specs.Ext as E;
ghost use Rattle.field.specs.ExtRing.{ExtRing};
ghost use Rattle.field.specs.Element.{dec, Canon};
ghost use Rattle.field.specs.Cells.{Clean};
ghost use Rattle.gkr.specs.Run.{Frac as Fraction};
ghost use Rattle.gkr.specs.Tree as Tree;
ghost use Rattle.transcript.specs.Log.{Enough, Steps, log_of, source_of, state};
ghost use Rattle.prover_rounds.specs.Layers.{Levels, log_up_to, used_up_to};
ghost use Rattle.prover_run.specs.Runs.{Planted, begun, RunOf};

use field::Ext;
use step::Frac;
use transcript::Transcript;

// The tree over the rows, in a workspace that is cleared first; the root is the sum of all rows.
pub fn sum_rows(rows: &[u32], size: usize, work: &mut [u32]) -> Frac
    requires room { (1 ≤ size) × (8 * size ≤ length rows.now) × (16 * size ≤ length work.old) }
    requires clean { Clean rows.now }
    ensures { Planted rows.now work.new size result }
{
    prover_tree::clear(work);
    prover_tree::build(rows, work, size);
    prover_tree::load_node(work, 1)
}

// Root p is observed only where zero is not asserted.
pub fn begin(transcript: &mut Transcript<'_>, asserted: bool, p: Ext)
    requires room { transcript.old.put + cond asserted 0 4 ≤ length transcript.old.log.now }
    requires canon { Canon p }
    ensures same { transcript.new.log.ghost_name ≡ transcript.old.log.ghost_name }
    ensures sponge { transcript.new.sponge ≡ transcript.old.sponge }
    ensures length { length transcript.new.log.now ≡ length transcript.old.log.now }
    ensures steps { Steps (state transcript.old) (state transcript.new) (cond asserted 0 4) 0 (begun asserted (dec p) (log_of (state transcript.old))) }
{
    if !asserted {
        transcript.observe_ext(p);
    }
}

// Root q, round 0 and the rounds after it, over the tree in the workspace; the point is cleared first.
pub fn run_rounds(
    n: usize,
    size: usize,
    q: Ext,
    work: &mut [u32],
    xi: &mut [u32],
    transcript: &mut Transcript<'_>,
)
    requires size { (1 ≤ n) × (size ≡ 2 ^ n) × (18 * size ≤ length work.old) }
    requires room { (4 * n ≤ length xi.old) × (transcript.old.put + log_up_to n ≤ length transcript.old.log.now) }
    requires enough { Enough (state transcript.old) (used_up_to n - 1) }
    requires clean { Clean work.old × Canon q }
    ensures same { transcript.new.log.ghost_name ≡ transcript.old.log.ghost_name }
    ensures length { length transcript.new.log.now ≡ length transcript.old.log.now }
    ensures run { (f : ℕ → Fraction E.Ext) (m : ℕ) → n ≡ suc m → Levels f work.old n 0 → dec q ≡ (Tree.tree ExtRing f (suc m) 0).q →
        RunOf f xi.new (state transcript.old) (state transcript.new) (source_of (state transcript.old)) m }
    ensures steps { Steps (state transcript.old) (state transcript.new) (log_up_to n) (used_up_to n - 1) (log_of (state transcript.new)) }
    ensures clean { Clean xi.new }
{
    prover_tree::clear(xi);
    transcript.observe_ext(q);
    prover_rounds::close_round(work, 2, xi, transcript);
    prover_rounds::gkr_rounds(work, 4 * size, n, xi, transcript);
}
