// The fold of a column at r: entries 2y and 2y + 1 become t0 + r·(t1 - t0).
ghost use Rattle.std.specs.Prelude.{◌≡◌, cond};
ghost use Rattle.poly.specs.Evaluations.{Filled};
ghost use Rattle.poly.specs.Folds.{fold_refusal, fold_into, is_source, fold_mle_evals};

use crate::checks::{check, check_element, check_rows, check_words};
use field::Ext;
use refusal::{Refusal, power_of_two};

// The question beside the fold: is it refused, and why?
#[tactic(auto, unfolding(crate::specs::Checks::refusal))]
pub fn fold_mle_evals_refusal(source: &[u32], target: &[u32], r: Ext) -> Result<(), Refusal>
    ensures { result ≡ fold_refusal source.now target.now r }
{
    let entries = source.len() / 4;
    check(source.len() % 4 == 0, Refusal::BadLength)?;
    check_rows(entries)?;
    check(power_of_two(entries), Refusal::NotPowerOfTwo)?;
    check(4 * (entries / 2) <= target.len(), Refusal::ShortRoom)?;
    check_words(source)?;
    check_element(r)
}

// The fold into a target; the source is only read.
pub fn fold_mle_evals_into(source: &[u32], target: &mut [u32], r: Ext) -> Result<(), Refusal>
    ensures { ◌≡◌ {A = Filled} (record { outcome = result; target = target.new }) (fold_into source.now target.old r) }
{
    fold_mle_evals_refusal(source, target, r)?;
    columns::fold::fold_into(source, target, source.len() / 8, r);
    Ok(())
}

// A column of one entry comes back as itself, otherwise the filled front of the target; refused, an empty part of the target.
pub fn fold_mle_evals<'a>(source: &'a mut [u32], target: &'a mut [u32], r: Ext) -> &'a mut [u32]
    ensures held { result.now ≡ fold_mle_evals source.old target.old r }
    ensures which { result.ref_ptr ≡ cond (is_source source.old target.old r) source.entry.ref_ptr target.entry.ref_ptr }
{
    if fold_mle_evals_refusal(source, target, r).is_err() {
        return &mut target[..0];
    }
    if source.len() == 4 {
        return source;
    }
    let n = source.len() / 8;
    columns::fold::fold_into(source, target, n, r);
    &mut target[..4 * n]
}
