// Replays recorded cases of the functions on polynomials: a case a line on standard input, its answer a line on standard output.
#![tactic(auto)]

use cases::replay::replay_input;
use cases::{Cases, print};
use field::{Ext, Field};
use poly::eq::{eval_eq_mle, evals_eq_hypercube, evals_eq_hypercube_serial};
use poly::eval::{eval_mle_evals_at_point, eval_mle_evals_by_halves};
use poly::horner::{horner_eval, horner_eval_base};
use poly::interpolate::{
    interpolate_cubic_at_0123, interpolate_linear_at_01, interpolate_quadratic_at_012,
};
use poly::report::{evaluated_number_and_values, outcome_number_and_values};
use refusal::Refusal;

mod lists; // the codes over one list, and over two
mod round; // the code over five

fn print_outcome(outcome: Result<(), Refusal>) {
    let r = outcome_number_and_values(outcome);
    print::first(u64::from(r.number));
}

fn print_evaluated(evaluated: Result<Ext, Refusal>) {
    let r = evaluated_number_and_values(evaluated);
    print::first(u64::from(r.number));
    print::ext(r.left);
}

// The next N elements of the text.
fn next_elements<const N: usize>(cases: &mut Cases) -> [Ext; N] {
    let mut elements = [Ext::ZERO; N];
    for element in &mut elements {
        *element = cases.element();
    }
    elements
}

// The interpolations.
// Stays: one function over a closure of N elements gets no proof, since its bound names a const parameter.
fn linear(cases: &mut Cases) {
    let [e0, e1, x] = next_elements::<3>(cases);
    print_evaluated(Ok(interpolate_linear_at_01(e0, e1, x)));
    print::end();
}

fn quadratic(cases: &mut Cases) {
    let [e0, e1, e2, x] = next_elements::<4>(cases);
    print_evaluated(Ok(interpolate_quadratic_at_012(e0, e1, e2, x)));
    print::end();
}

fn cubic(cases: &mut Cases) {
    let [e0, e1, e2, e3, x] = next_elements::<5>(cases);
    print_evaluated(Ok(interpolate_cubic_at_0123(e0, e1, e2, e3, x)));
    print::end();
}

// Answers the next case.
fn answer(cases: &mut Cases) {
    match cases.word() {
        20 => linear(cases),
        21 => quadratic(cases),
        22 => cubic(cases),
        23 => lists::two_lists(cases, |x, y| print_evaluated(eval_eq_mle(x, y))),
        24 => lists::two_lists(cases, |table, x| {
            print_evaluated(eval_mle_evals_at_point(table, x));
            print::list(table);
        }),
        25 => lists::two_lists(cases, |table, x| {
            print_evaluated(eval_mle_evals_by_halves(table, x));
        }),
        26 => lists::list_and_target(cases, evals_eq_hypercube),
        27 => lists::list_and_target(cases, evals_eq_hypercube_serial),
        28 => lists::list_and_element(cases, horner_eval),
        29 => lists::list_and_element(cases, horner_eval_base),
        30 => lists::folded(cases),
        _ => round::round_evals(cases),
    }
}

fn main() {
    replay_input::<524288, _>(answer);
}
