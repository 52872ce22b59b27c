// Replays recorded cases of the sheet reader: a case a line on standard input, its answer a line on standard output.
#![tactic(auto)]

use cases::read::fill;
use cases::replay::replay_input;
use cases::{Cases, print};

fn call(sheet: &[u8], rows: &mut [u32]) {
    let answer = stored_sheet::read_sheet(sheet, rows);
    print::report(stored_sheet::number_and_values(answer));
    print::list(rows);
    print::end();
}

// Answers the next case.
fn answer(cases: &mut Cases) {
    let mut bytes = [0u8; 65600];
    let mut rows = [0u32; 16400];
    cases.number(); // the code
    let k = cases.list(&mut bytes);
    let room = cases.number();
    let n = fill(&mut rows, room, cases.word());
    call(&bytes[..k], &mut rows[..n]);
}

fn main() {
    replay_input::<524288, _>(answer);
}
