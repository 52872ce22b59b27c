// Answers recorded cases of replays from a log: a case a line on standard input, an answer a line on standard output.
#![tactic(auto)]

use cases::read::fill;
use cases::replay::{replay_input, verifying};
use cases::{Cases, print};
use refusal::Verifying;
use verifier::Ending;

// The length of the point, and what it holds before the call.
#[derive(Clone, Copy)]
struct Room {
    point: u64,
    fill: u32,
}

fn next_room(cases: &mut Cases) -> Room {
    Room {
        point: cases.number(),
        fill: cases.word(),
    }
}

fn call(proof: &[u8], rounds: usize, modes: Verifying, log: &[u32], point: &mut [u32]) {
    let Ending { verdict, used } = log_replay::replay(proof, rounds, modes, log, point);
    print::report(verifier_round::number_and_values(verdict));
    print::next(used.challenges as u64);
    print::next(used.words as u64);
    print::list(point);
    print::end();
}

fn call_filled(proof: &[u8], rounds: usize, modes: Verifying, log: &[u32], room: Room) {
    let mut point = [0u32; 48];
    let k = fill(&mut point, room.point, room.fill);
    call(proof, rounds, modes, log, &mut point[..k]);
}

// Answers the next case.
fn answer(cases: &mut Cases) {
    let mut proof = [0u8; 16400];
    let mut log = [0u32; 1000];
    cases.number(); // the code
    let rounds = cases.number() as usize;
    let modes = verifying(cases.number());
    let k = cases.list(&mut proof);
    let n = cases.list(&mut log);
    call_filled(&proof[..k], rounds, modes, &log[..n], next_room(cases));
}

fn main() {
    replay_input::<573440, _>(answer);
}
