// The functions that C and Rust call: a number is returned, and sixteen words of answer are written.
#![tactic(auto)]

ghost use Rattle.std.specs.Prelude.{◌≡◌};
ghost use Rattle.prover_gate.specs.Refusals.{call};
ghost use Rattle.prover.specs.Proved.{lent};
ghost use Rattle.verifier.specs.Verified.{asked, lent as again};
ghost use Rattle.log_replay.specs.Replayed.{kept};
ghost use Rattle.transcript.specs.Used.{unused};
ghost use Rattle.accudrina.specs.Answer.{tells};
ghost use Rattle.accudrina.specs.Modes.{unknown_mode};
ghost use Rattle.accudrina.specs.Calls.{reading, proving, proving_taken, verifying, verifying_taken, replaying, replaying_taken, evaluating};

use refusal::{Proving, Verifying};
use transcript::Used;

mod answer; // the sixteen words
mod modes; // the bits of a word
pub mod rooms; // how much room a run asks for

// Stored bytes to row words: the number 0 and the row count, or the refusal; refused, the rows are as before.
#[unsafe(no_mangle)]
pub extern "C" fn accudrina_read_sheet(
    sheet: &[u8],
    rows: &mut [u32],
    answer: &mut [u32; 16],
) -> u32
    ensures { record { told = record { number = result; words = answer.new }; buffers = rows.new }
        ≡ reading sheet.now rows.old }
{
    let read = stored_sheet::read_sheet(sheet, rows);
    answer::tell(
        stored_sheet::number_and_values(read),
        Used::nothing(),
        answer,
    )
}

// The number 28, with the bits of the modes that are not taken.
fn refuse_modes(bits: u32, answer: &mut [u32; 16]) -> u32
    ensures { record { number = result; words = answer.new } ≡ tells (unknown_mode bits) unused }
{
    answer::tell(modes::unknown_mode(bits), Used::nothing(), answer)
}

// A sheet's proof, point and log, in modes that are taken.
fn prove_taken(
    rows: &[u32],
    modes: Proving,
    challenges: &[u32],
    proof: &mut [u8],
    point: &mut [u32],
    log: &mut [u32],
    work: &mut [u32],
    answer: &mut [u32; 16],
) -> u32
    ensures { record { told = record { number = result; words = answer.new }; buffers = lent proof.new point.new log.new work.new }
        ≡ proving_taken (call rows.now modes challenges.now)
        (lent proof.old point.old log.old work.old) }
{
    let proved = prover::fractional_sumcheck(rows, modes, challenges, proof, point, log, work);
    answer::tell(
        prover::number_and_values(proved.answer),
        proved.used,
        answer,
    )
}

// A sheet's proof, point and log: the number 0, the rounds and the sum, or the refusal with its fields; first of all 28, the bits of the modes that are not taken.
#[unsafe(no_mangle)]
pub extern "C" fn accudrina_prove(
    rows: &[u32],
    modes: u32,
    challenges: &[u32],
    proof: &mut [u8],
    point: &mut [u32],
    log: &mut [u32],
    work: &mut [u32],
    answer: &mut [u32; 16],
) -> u32
    ensures { record { told = record { number = result; words = answer.new }; buffers = lent proof.new point.new log.new work.new }
        ≡ proving rows.now modes challenges.now
        (lent proof.old point.old log.old work.old) }
{
    let untaken = modes::untaken_by_prover(modes);
    if untaken != 0 {
        return refuse_modes(untaken, answer);
    }
    prove_taken(
        rows,
        modes::proving(modes),
        challenges,
        proof,
        point,
        log,
        work,
        answer,
    )
}

// What the verifier says of a proof, in modes that are taken.
fn verify_taken(
    proof: &[u8],
    rounds: usize,
    modes: Verifying,
    challenges: &[u32],
    point: &mut [u32],
    log: &mut [u32],
    answer: &mut [u32; 16],
) -> u32
    ensures { record { told = record { number = result; words = answer.new }; buffers = again point.new log.new }
        ≡ verifying_taken (asked proof.now rounds modes challenges.now) (again point.old log.old) }
{
    let verified = verifier::verify_gkr(proof, rounds, modes, challenges, point, log);
    answer::tell(
        verifier_round::number_and_values(verified.verdict),
        verified.used,
        answer,
    )
}

// What the verifier says of a proof: the number 0 and both claims at the point written, or the refusal with its fields; first of all 28, the bits of the modes that are not taken.
#[unsafe(no_mangle)]
pub extern "C" fn accudrina_verify(
    proof: &[u8],
    rounds: usize,
    modes: u32,
    challenges: &[u32],
    point: &mut [u32],
    log: &mut [u32],
    answer: &mut [u32; 16],
) -> u32
    ensures { record { told = record { number = result; words = answer.new }; buffers = again point.new log.new }
        ≡ verifying proof.now rounds modes challenges.now (again point.old log.old) }
{
    let unknown = modes::untaken_by_verifier(modes);
    if unknown != 0 {
        return refuse_modes(unknown, answer);
    }
    verify_taken(
        proof,
        rounds,
        modes::verifying(modes),
        challenges,
        point,
        log,
        answer,
    )
}

// What a replay of a proof from a log says, in modes that are taken.
fn replay_taken(
    proof: &[u8],
    rounds: usize,
    modes: Verifying,
    log: &[u32],
    point: &mut [u32],
    answer: &mut [u32; 16],
) -> u32
    ensures { record { told = record { number = result; words = answer.new }; buffers = point.new }
        ≡ replaying_taken (kept proof.now rounds modes log.now) point.old }
{
    let replayed = log_replay::replay(proof, rounds, modes, log, point);
    answer::tell(
        verifier_round::number_and_values(replayed.verdict),
        replayed.used,
        answer,
    )
}

// The verdict of a proof from a stored log alone, which is only read: as the verifier's on the log's challenges, or the place where the log is not the one that it leaves;
// first of all 28, the bits of the modes that are not taken.
#[unsafe(no_mangle)]
pub extern "C" fn accudrina_replay(
    proof: &[u8],
    rounds: usize,
    modes: u32,
    log: &[u32],
    point: &mut [u32],
    answer: &mut [u32; 16],
) -> u32
    ensures { record { told = record { number = result; words = answer.new }; buffers = point.new }
        ≡ replaying proof.now rounds modes log.now point.old }
{
    let spare = modes::untaken_by_verifier(modes);
    if spare != 0 {
        return refuse_modes(spare, answer);
    }
    replay_taken(proof, rounds, modes::verifying(modes), log, point, answer)
}

// The values of both columns of a sheet at a point: the number 0, the rounds and both values, or the refusal; it only reads.
#[unsafe(no_mangle)]
pub extern "C" fn accudrina_evaluate(rows: &[u32], point: &[u32], answer: &mut [u32; 16]) -> u32
    ensures { record { number = result; words = answer.new } ≡ evaluating rows.now point.now }
{
    let value = evaluation::evaluate(rows, point);
    answer::tell(
        evaluation::number_and_values(value),
        Used::nothing(),
        answer,
    )
}
