// Calls at the limits of document 01, and the number that each answers: rows, rounds, words.
#![tactic(auto)]

use refusal::{Proving, Verifying};

fn print_answer(name: &[u8], number: u32) {
    io::write_all(1, name);
    io::print_decimal(1, number as u64);
    io::write_all(1, b"\n");
}

// Not asserted and in sandbox mode, with all rooms long enough for ten rounds.
fn prove(name: &[u8], rows: &[u32], challenges: &[u32], proof: &mut [u8]) {
    let mut point = [0u32; 40];
    let mut log = [0u32; 964];
    let mut work = [0u32; 32768];
    let proved = prover::fractional_sumcheck(
        rows,
        Proving {
            live: false,
            assert_zero: false,
            drawn: false,
            sized: false,
        },
        challenges,
        proof,
        &mut point,
        &mut log,
        &mut work,
    );
    print_answer(name, prover::number_and_values(proved.answer).number);
}

fn verify(name: &[u8], proof: &[u8], rounds: usize, challenges: &[u32]) {
    let mut point = [0u32; 44];
    let mut log = [0u32; 1144];
    let verified = verifier::verify_gkr(
        proof,
        rounds,
        Verifying {
            live: false,
            drawn: false,
            empty: false,
        },
        challenges,
        &mut point,
        &mut log,
    );
    print_answer(
        name,
        verifier_round::number_and_values(verified.verdict).number,
    );
}

fn main() {
    let mut rows = [0u32; 16384];
    let mut challenges = [0u32; 304];
    let mut proof = [0u8; 2832];
    prove(b"2048 rows: ", &rows, &challenges, &mut proof);
    prove(b"1025 rows: ", &rows[..8200], &challenges, &mut proof);
    prove(b"3 rows: ", &rows[..24], &challenges, &mut proof);
    prove(b"1024 rows: ", &rows[..8192], &challenges, &mut proof);
    verify(b"10 rounds: ", &proof, 10, &challenges);
    verify(b"11 rounds: ", &proof, 11, &challenges);
    rows[0] = 2013265920;
    prove(b"word 2013265920: ", &rows[..16], &challenges, &mut proof);
    rows[0] = 2013265921;
    prove(b"word 2013265921: ", &rows[..16], &challenges, &mut proof);
}
