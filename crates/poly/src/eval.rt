// The value of a table of 2^n entries at a point of n coordinates.
ghost use Rattle.std.specs.Prelude.{◌≡◌};
ghost use Rattle.poly.specs.Evaluations.{mle_refusal, value_at, InPlace, eval_mle};

use crate::checks::{both_whole, check, check_rows, check_words, cube};
use field::Ext;
use refusal::Refusal;

#[tactic(auto, unfolding(crate::specs::Checks::refusal))]
fn mle_refusal(evals: &[u32], x: &[u32]) -> Result<(), Refusal>
    ensures { result ≡ mle_refusal evals.now x.now }
{
    let entries = evals.len() / 4;
    check(both_whole(evals.len(), x.len()), Refusal::BadLength)?;
    let size = cube(x.len() / 4)?;
    check(entries == size, Refusal::BadLength)?;
    check_rows(entries)?;
    check_words(evals)?;
    check_words(x)
}

// Overwrites its table: the point's last coordinate binds the top bit first.
pub fn eval_mle_evals_at_point(evals: &mut [u32], x: &[u32]) -> Result<Ext, Refusal>
    ensures { ◌≡◌ {A = InPlace} (record { answer = result; table = evals.new }) (eval_mle evals.old x.now) }
{
    mle_refusal(evals, x)?;
    Ok(columns::eval::eval_in_place(evals, x, x.len() / 4))
}

// The same value by halves of the table, each half by the same rule; the table is only read.
pub fn eval_mle_evals_by_halves(evals: &[u32], x: &[u32]) -> Result<Ext, Refusal>
    ensures { result ≡ value_at evals.now x.now }
{
    mle_refusal(evals, x)?;
    Ok(columns::eval::eval_by_halves(evals, x, x.len() / 4))
}
