// Replays recorded cases of the field's operations: a case a line on standard input, its answer a line on standard output.
#![tactic(auto)]

use cases::replay::replay_input;
use cases::{Cases, print};
use field::{Base, Ext, Field};

fn print_element(e: Ext) {
    print::first(0);
    print::ext(e);
    print::end();
}

fn print_word(b: Base) {
    print::first(0);
    print::next(u64::from(b.value));
    print::end();
}

// The codes of one element, of two, and of an element and a word: ten more where the elements are words.
fn of_one<F: Field>(code: u32, x: F) -> F {
    match code {
        3 | 13 => -x,
        4 | 14 => x.double(),
        6 | 16 => x.square(),
        _ => x.halve(),
    }
}

fn of_two<F: Field>(code: u32, x: F, y: F) -> F {
    match code {
        1 | 11 => x + y,
        2 | 12 => x - y,
        _ => x * y,
    }
}

fn next_base(cases: &mut Cases) -> Base {
    Base {
        value: cases.word(),
    }
}

// Answers the next case.
fn answer(cases: &mut Cases) {
    match cases.word() {
        code @ (1 | 2 | 5) => print_element(of_two(code, cases.element(), cases.element())),
        code @ (3 | 4 | 6 | 7) => print_element(of_one(code, cases.element())),
        8 => print_element(cases.element() * next_base(cases)),
        code @ (11 | 12 | 15) => print_word(of_two(code, next_base(cases), next_base(cases))),
        code => print_word(of_one(code, next_base(cases))),
    }
}

fn main() {
    replay_input::<524288, _>(answer);
}
