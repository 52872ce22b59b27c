// The code over five lists.
use cases::{Cases, print};
use poly::report::round_number_and_values;
use poly::round::sumcheck_round_poly_evals;
use refusal::Refusal;
use step::Three;

fn print_round(evals: Result<Three, Refusal>) {
    let r = round_number_and_values(evals);
    print::first(u64::from(r.report.number));
    print::ext(r.values.s1);
    print::ext(r.values.s2);
    print::ext(r.values.s3);
    print::end();
}

// A case of a sub-round's polynomial: lambda and five columns.
pub fn round_evals(cases: &mut Cases) {
    let mut eq = [0u32; 8200];
    let mut p0 = [0u32; 8200];
    let mut q0 = [0u32; 8200];
    let mut p1 = [0u32; 8200];
    let mut q1 = [0u32; 8200];
    let lambda = cases.element();
    let a = cases.list(&mut eq);
    let b = cases.list(&mut p0);
    let c = cases.list(&mut q0);
    let d = cases.list(&mut p1);
    let e = cases.list(&mut q1);
    print_round(sumcheck_round_poly_evals(
        &eq[..a],
        &p0[..b],
        &q0[..c],
        &p1[..d],
        &q1[..e],
        lambda,
    ));
}
