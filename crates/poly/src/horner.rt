// A polynomial by its coefficients, the lowest first, taken at x.
ghost use Rattle.std.specs.Prelude.{◌≡◌, ◌&&◌};
ghost use Rattle.field.specs.Element.{canon_words};
ghost use Rattle.wire.specs.Words.{all_canonical};
ghost use Rattle.poly.specs.Checks.{refusal};
ghost use Rattle.poly.specs.Evaluations.{horner_sizes, horner_eval, horner_eval_base};

use crate::checks::{check, check_element, check_rows, check_words};
use columns::horner::{base_at, horner};
use field::Ext;
use refusal::Refusal;

// Of so many coefficients; `whole` says that none is split.
#[tactic(auto, unfolding(crate::specs::Checks::refusal))]
fn horner_refusal(coeffs: &[u32], whole: bool, entries: usize, x: Ext) -> Result<(), Refusal>
    ensures { result ≡ refusal (horner_sizes whole entries) (all_canonical coeffs.now && canon_words x) }
{
    check(whole, Refusal::BadLength)?;
    check_rows(entries)?;
    check_words(coeffs)?;
    check_element(x)
}

// Coefficients in the extension.
pub fn horner_eval(coeffs: &[u32], x: Ext) -> Result<Ext, Refusal>
    ensures { result ≡ horner_eval coeffs.now x }
{
    let n = coeffs.len() / 4;
    horner_refusal(coeffs, coeffs.len() % 4 == 0, n, x)?;
    Ok(horner(|i| field::load(coeffs, i), n, x))
}

// Coefficients in the base field, a word each.
pub fn horner_eval_base(coeffs: &[u32], x: Ext) -> Result<Ext, Refusal>
    ensures { result ≡ horner_eval_base coeffs.now x }
{
    horner_refusal(coeffs, true, coeffs.len(), x)?;
    Ok(horner(|i| base_at(coeffs, i), coeffs.len(), x))
}
