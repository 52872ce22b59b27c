// Replays recorded cases of the prover: a case a line on standard input, its answer a line on standard output.
#![tactic(auto)]

use cases::read::fill;
use cases::replay::replay_input;
use cases::{Cases, print};
use prover::Ending;
use refusal::Proving;

// The lengths of the four buffers, and what they hold before the call.
#[derive(Clone, Copy)]
struct Rooms {
    proof: u64,
    point: u64,
    log: u64,
    work: u64,
    fill: u32,
}

// The word of modes has 1 where live, 4 where challenges are drawn, and 8 where the proof binds its size.
fn next_modes(cases: &mut Cases) -> Proving {
    let word = cases.number();
    Proving {
        live: word % 2 == 1,
        assert_zero: cases.number() != 0,
        drawn: word / 4 % 2 == 1,
        sized: word / 8 % 2 == 1,
    }
}

fn next_rooms(cases: &mut Cases) -> Rooms {
    Rooms {
        proof: cases.number(),
        point: cases.number(),
        log: cases.number(),
        work: cases.number(),
        fill: cases.word(),
    }
}

fn call(
    rows: &[u32],
    modes: Proving,
    challenges: &[u32],
    proof: &mut [u8],
    point: &mut [u32],
    log: &mut [u32],
    work: &mut [u32],
) {
    let Ending { answer, used } = prover::fractional_sumcheck(
        rows, modes, challenges, proof, point, log, work,
    );
    print::report(prover::number_and_values(answer));
    print::next(used.challenges as u64);
    print::next(used.words as u64);
    print::list(proof);
    print::list(point);
    print::list(log);
    print::list(work);
    print::end();
}

fn call_filled(rows: &[u32], modes: Proving, challenges: &[u32], rooms: Rooms) {
    let mut proof = [0u8; 2900];
    let mut point = [0u32; 48];
    let mut log = [0u32; 1000];
    let mut work = [0u32; 32800];
    let i = fill(&mut proof, rooms.proof, (rooms.fill % 256) as u8);
    let j = fill(&mut point, rooms.point, rooms.fill);
    let k = fill(&mut log, rooms.log, rooms.fill);
    let l = fill(&mut work, rooms.work, rooms.fill);
    call(
        rows,
        modes,
        challenges,
        &mut proof[..i],
        &mut point[..j],
        &mut log[..k],
        &mut work[..l],
    );
}

// Answers the next case.
fn answer(cases: &mut Cases) {
    let mut rows = [0u32; 16400];
    let mut challenges = [0u32; 320];
    cases.number(); // the code
    let modes = next_modes(cases);
    let k = cases.list(&mut rows);
    let n = cases.list(&mut challenges);
    call_filled(&rows[..k], modes, &challenges[..n], next_rooms(cases));
}

fn main() {
    replay_input::<524288, _>(answer);
}
