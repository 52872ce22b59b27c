// A sub-round's polynomial s with the one GKR formula: eq·(p0·q1 + p1·q0 + lambda·q0·q1), summed over the remaining cube.
ghost use Rattle.std.specs.Prelude.{◌≡◌, Ok};
ghost use Rattle.poly.specs.Folds.{round_refusal, round_poly_evals, all_five};
ghost use Rattle.poly.specs.Checks.{unless, bad_word};

use crate::checks::{check, check_element, check_rows, check_words, five_whole};
use columns::round::Columns;
use field::Ext;
use refusal::{Refusal, power_of_two};
use step::Three;

// The words of five lists. Stays: five slices, as `sumcheck_round_poly_evals` of the Rust takes them.
fn check_five(eq: &[u32], p0: &[u32], q0: &[u32], p1: &[u32], q1: &[u32]) -> Result<(), Refusal>
    ensures { result ≡ unless (all_five eq.now p0.now q0.now p1.now q1.now) bad_word (Ok tt) }
{
    check_words(eq)?;
    check_words(p0)?;
    check_words(q0)?;
    check_words(p1)?;
    check_words(q1)
}

#[tactic(auto, unfolding(crate::specs::Checks::refusal))]
fn round_refusal(
    eq: &[u32],
    p0: &[u32],
    q0: &[u32],
    p1: &[u32],
    q1: &[u32],
    lambda: Ext,
) -> Result<(), Refusal>
    ensures { result ≡ round_refusal eq.now p0.now q0.now p1.now q1.now lambda }
{
    let entries = eq.len() / 4;
    check(
        five_whole(eq.len(), p0.len(), q0.len(), p1.len(), q1.len()),
        Refusal::BadLength,
    )?;
    check_rows(entries)?;
    check(power_of_two(entries), Refusal::NotPowerOfTwo)?;
    check_five(eq, p0, q0, p1, q1)?;
    check_element(lambda)
}

// s(1), s(2), s(3).
pub fn sumcheck_round_poly_evals(
    eq: &[u32],
    p0: &[u32],
    q0: &[u32],
    p1: &[u32],
    q1: &[u32],
    lambda: Ext,
) -> Result<Three, Refusal>
    ensures { result ≡ round_poly_evals eq.now p0.now q0.now p1.now q1.now lambda }
{
    round_refusal(eq, p0, q0, p1, q1, lambda)?;
    let columns = Columns { eq, p0, q0, p1, q1 };
    if eq.len() == 4 {
        return Ok(columns.constant(lambda));
    }
    Ok(columns.sums(eq.len() / 8, lambda))
}
