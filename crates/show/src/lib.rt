// A sheet's answers as text: it is proved in sandbox mode with zero asserted, and the proof is verified. Challenge k, from 1, is the element k.
#![tactic(auto)]

use agreement::Joint;
use answers::counting::count_up;
use answers::{Accepted, Proved, say};
use prover::Done;
use refusal::{Proving, Refusal, Report, Verifying};
use step::Frac;
use verifier_round::{Claims, Verdict};

// `refused` and the refusal's number.
pub fn say_refusal(refusal: Refusal) {
    say(format_args!("refused {}", Report::from(refusal).number));
}

fn say_verdict(verdict: Verdict, point: &[u32], rounds: usize) {
    match verdict {
        Ok(Claims { numer, denom }) => say(Accepted {
            stated: Frac { p: numer, q: denom },
            point,
            rounds,
        }),
        Err(refusal) => say(format_args!("verdict {}", Report::from(refusal).number)),
    }
}

// Proves the rows and verifies the proof, whose point is left. The rooms are those of 64 rows: six rounds.
fn prove(rows: &[u32], work: &mut [u32], point_again: &mut [u32; 24]) -> Result<Joint, Refusal> {
    let modes = Proving {
        live: false,
        assert_zero: true,
        drawn: false,
        sized: false,
    };
    let how = Verifying {
        live: false,
        drawn: false,
        empty: false,
    };
    let mut challenges = [0u32; 104];
    count_up(&mut challenges);
    let mut proof = [0u8; 1132];
    let mut point = [0u32; 24];
    let mut log = [0u32; 384];
    let mut log_again = [0u32; 384];
    agreement::prove_and_verify(
        rows,
        modes,
        how,
        &challenges,
        &mut proof,
        &mut point,
        &mut log,
        work,
        point_again,
        &mut log_again,
    )
}

// What was proved and the verdict on it, or why there is no proof.
fn show_rows(sheet: &[u8], rows: &mut [u32], work: &mut [u32]) -> Result<(), Refusal> {
    let count = stored_sheet::read_sheet(sheet, rows)?;
    let mut point = [0u32; 24];
    let joint = prove(&rows[..8 * count], work, &mut point)?;
    let Done { rounds, sum } = joint.done;
    say(Proved {
        rows: count,
        rounds,
        sum,
    });
    say_verdict(joint.verified.verdict, &point, rounds);
    Ok(())
}

// A sheet of at most 64 rows, read into lent words and proved in a lent workspace.
pub fn show_sheet(sheet: &[u8], rows: &mut [u32], work: &mut [u32]) {
    if let Err(refusal) = show_rows(sheet, rows, work) {
        say_refusal(refusal);
    }
}

// What a reader of at most 2,051 bytes, 64 rows, was given: all of it, or less than that.
pub fn show_input(sheet: &[u8], more: bool, rows: &mut [u32], work: &mut [u32]) {
    if more {
        say_refusal(Refusal::TooManyRows);
    } else {
        show_sheet(sheet, rows, work);
    }
}
