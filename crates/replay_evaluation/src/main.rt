// Replays recorded cases of the evaluation of a sheet: a case a line on standard input, its answer a line on standard output.
#![tactic(auto)]

use cases::replay::replay_input;
use cases::{Cases, print};

fn call(rows: &[u32], point: &[u32]) {
    print::report(evaluation::number_and_values(evaluation::evaluate(rows, point)));
    print::end();
}

// Answers the next case.
fn answer(cases: &mut Cases) {
    let mut rows = [0u32; 16400];
    let mut point = [0u32; 48];
    cases.number(); // the code
    let k = cases.list(&mut rows);
    let n = cases.list(&mut point);
    call(&rows[..k], &point[..n]);
}

fn main() {
    replay_input::<524288, _>(answer);
}
