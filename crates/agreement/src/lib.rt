// Prover and verifier one after the other: demand 3 about the two functions that run.
#![tactic(auto)]

ghost use Rattle.std.specs.Prelude.{◌≡◌, true, ℕ};
ghost use Rattle.field.specs.Ext as E;
ghost use Rattle.prover_gate.specs.Refusals.{call};
ghost use Rattle.prover.specs.Proved.{lent};
ghost use Rattle.prover.specs.Companions.{Sound};
ghost use Rattle.verifier.specs.Verified.{lent as again};
ghost use Rattle.agreement.specs.Demand3.{Taken, root, Room};
ghost use Rattle.agreement.specs.Report.{joint_report};
ghost use Rattle.agreement.specs.Together.{joined, together, Agrees};

use field::{Ext, Field};
use prover::Done;
use refusal::{Proving, Refusal, Report, Verifying};
use transcript::Used;
use verifier::Ending;

// What the prover is done with and has used up, and how the verifier ends with its proof.
#[derive(Clone, Copy)]
pub struct Joint {
    pub done: Done,
    pub used: Used,
    pub verified: Ending,
}

// The prover's number and values, and the verifier's, all zero where the prover refuses.
#[derive(Clone, Copy)]
pub struct JointReport {
    pub proving: Report,
    pub verifying: Report,
}

// Both answers as document 01 has them.
pub fn number_and_values(joint: Result<Joint, Refusal>) -> JointReport
    ensures { result ≡ joint_report joint }
{
    match joint {
        Ok(Joint { done, verified, .. }) => JointReport {
            proving: prover::number_and_values(Ok(done)),
            verifying: verifier_round::number_and_values(verified.verdict),
        },
        Err(refusal) => JointReport {
            proving: Report::from(refusal),
            verifying: refusal::done(0, Ext::ZERO, Ext::ZERO),
        },
    }
}

// Proves a sheet, and hands the proof's bytes, n and the same challenges to the verifier, which has its own modes, point and log; or the prover's refusal.
pub fn prove_and_verify(
    rows: &[u32],
    modes: Proving,
    how: Verifying,
    challenges: &[u32],
    proof: &mut [u8],
    point: &mut [u32],
    log: &mut [u32],
    work: &mut [u32],
    point_again: &mut [u32],
    log_again: &mut [u32],
) -> Result<Joint, Refusal>
    ensures both { joined result (lent proof.new point.new log.new work.new) (again point_again.new log_again.new)
        ≡ together (call rows.now modes challenges.now) how
        (lent proof.old point.old log.old work.old) (again point_again.old log_again.old) }
    ensures demand { (n : ℕ) → Taken (call rows.now modes challenges.now) n → how.drawn ≡ modes.drawn
        → modes.assert_zero ≡ true → (root (call rows.now modes challenges.now) n).p ≡ E.nil
        → Room true modes.sized n (lent proof.old point.old log.old work.old) (again point_again.old log_again.old)
        → (how.live ≡ true → Sound rows.now)
        → Agrees (call rows.now modes challenges.now) n
        (lent proof.old point.old log.old work.old) (again point_again.old log_again.old)
        (joined result (lent proof.new point.new log.new work.new) (again point_again.new log_again.new)) }
{
    let proved = prover::fractional_sumcheck(rows, modes, challenges, proof, point, log, work);
    let done = proved.answer?;
    let size = sizes::proof_bytes(done.rounds);
    let verified = verifier::verify_gkr(
        &proof[..size],
        done.rounds,
        how,
        challenges,
        point_again,
        log_again,
    );
    Ok(Joint {
        done,
        used: proved.used,
        verified,
    })
}
