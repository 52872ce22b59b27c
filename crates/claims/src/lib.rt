// What an accepted proof's claims say about a sheet.
#![tactic(auto)]

ghost use Rattle.std.specs.Prelude.{◌≡◌};
ghost use Rattle.evaluation.specs.Evaluated.{evaluated};
ghost use Rattle.claims.specs.Compared.{compared};

use field::Field;
use refusal::Refusal;
use step::Frac;

// Whether the verifier's claims are the values of both columns of the rows at its point; a refusal where rows and point do not fit.
pub fn compare(rows: &[u32], point: &[u32], stated: Frac) -> Result<bool, Refusal>
    ensures { result ≡ compared (evaluated rows.now point.now) stated }
{
    let values = evaluation::evaluate(rows, point)?;
    Ok(stated.p.equals(values.numer) && stated.q.equals(values.denom))
}
