// The codes over one list of words, and over two.
use crate::{print_evaluated, print_outcome};
use cases::read::fill;
use cases::{Cases, print};
use field::Ext;
use poly::fold::{fold_mle_evals, fold_mle_evals_refusal};
use refusal::Refusal;

// A case of a table and a point: eq of two points, and the table's value in place or by halves.
pub fn two_lists<F: Fn(&mut [u32], &[u32])>(cases: &mut Cases, call: F)
    requires { F.IsAlwaysCallable call }
{
    let mut table = [0u32; 8200];
    let mut point = [0u32; 8200];
    let k = cases.list(&mut table);
    let n = cases.list(&mut point);
    call(&mut table[..k], &point[..n]);
    print::end();
}

// A case of a point and the size and filling of a target: the table of eq, by each of the two functions.
pub fn list_and_target<F: Fn(&[u32], &mut [u32]) -> Result<(), Refusal>>(cases: &mut Cases, call: F)
    requires { F.IsAlwaysCallable call }
{
    let mut point = [0u32; 8200];
    let mut target = [0u32; 8200];
    let k = cases.list(&mut point);
    let room = cases.number();
    let n = fill(&mut target, room, cases.word());
    print_outcome(call(&point[..k], &mut target[..n]));
    print::list(&target[..n]);
    print::end();
}

// A case of coefficients and an element: Horner's rule, over the extension or the base.
pub fn list_and_element<F: Fn(&[u32], Ext) -> Result<Ext, Refusal>>(cases: &mut Cases, call: F)
    requires { F.IsAlwaysCallable call }
{
    let mut coeffs = [0u32; 8200];
    let k = cases.list(&mut coeffs);
    print_evaluated(call(&coeffs[..k], cases.element()));
    print::end();
}

fn print_fold(source: &mut [u32], target: &mut [u32], r: Ext) {
    print_outcome(fold_mle_evals_refusal(source, target, r));
    print::list(fold_mle_evals(source, target, r));
    print::list(source);
    print::list(target);
    print::end();
}

// A case of a fold: a column, an element, and the size and filling of a target.
pub fn folded(cases: &mut Cases) {
    let mut source = [0u32; 8200];
    let mut target = [0u32; 8200];
    let k = cases.list(&mut source);
    let r = cases.element();
    let room = cases.number();
    let n = fill(&mut target, room, cases.word());
    print_fold(&mut source[..k], &mut target[..n], r);
}
