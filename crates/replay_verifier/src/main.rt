// Replays recorded cases of the verifier: a case a line on standard input, its answer a line on standard output.
#![tactic(auto)]

use cases::read::fill;
use cases::replay::{replay_input, verifying};
use cases::{Cases, print};
use refusal::Verifying;
use verifier::Ending;

// The lengths of the two buffers, and what they hold before the call.
#[derive(Clone, Copy)]
struct Rooms {
    point: u64,
    log: u64,
    fill: u32,
}

fn next_rooms(cases: &mut Cases) -> Rooms {
    Rooms {
        point: cases.number(),
        log: cases.number(),
        fill: cases.word(),
    }
}

fn call(
    proof: &[u8],
    rounds: usize,
    modes: Verifying,
    challenges: &[u32],
    point: &mut [u32],
    log: &mut [u32],
) {
    let Ending { verdict, used } = verifier::verify_gkr(
        proof, rounds, modes, challenges, point, log,
    );
    print::report(verifier_round::number_and_values(verdict));
    print::next(used.challenges as u64);
    print::next(used.words as u64);
    print::list(point);
    print::list(log);
    print::end();
}

fn call_filled(proof: &[u8], rounds: usize, modes: Verifying, challenges: &[u32], rooms: Rooms) {
    let mut point = [0u32; 48];
    let mut log = [0u32; 1000];
    let j = fill(&mut point, rooms.point, rooms.fill);
    let k = fill(&mut log, rooms.log, rooms.fill);
    call(
        proof,
        rounds,
        modes,
        challenges,
        &mut point[..j],
        &mut log[..k],
    );
}

// Answers the next case.
fn answer(cases: &mut Cases) {
    let mut proof = [0u8; 16400];
    let mut challenges = [0u32; 320];
    cases.number(); // the code
    let rounds = cases.number() as usize;
    let modes = verifying(cases.number());
    let k = cases.list(&mut proof);
    let n = cases.list(&mut challenges);
    call_filled(
        &proof[..k],
        rounds,
        modes,
        &challenges[..n],
        next_rooms(cases),
    );
}

fn main() {
    replay_input::<573440, _>(answer);
}
