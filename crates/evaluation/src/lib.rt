// The values of both columns of a sheet at a point, with what is refused before; only reads.
#![tactic(auto)]

ghost use Rattle.std.specs.Prelude.{◌≡◌};
ghost use Rattle.field.specs.Ext as E;
ghost use Rattle.step.specs.Values.{IsFrac};
ghost use Rattle.evaluation.specs.Evaluated.{evaluated};
ghost use Rattle.evaluation.specs.Report.{evaluation_report};

use field::{Ext, Field};
use refusal::{Refusal, Report, Words};
use step::Frac;

pub mod halves; // both values, by halves of the rows

// n, and the values of the columns p and q.
#[derive(Clone, Copy)]
pub struct Values {
    pub rounds: usize,
    pub numer: Ext,
    pub denom: Ext,
}

// The values, or the first refusal that fits.
pub type Evaluation = Result<Values, Refusal>;

// The sum of no rows.
#[tactic(auto, using(field::specs::ElementLaws::zero_is, field::specs::ElementLaws::one_is))]
fn empty_sum() -> Frac
    ensures { IsFrac result (record { p = E.nil; q = E.one }) }
{
    Frac {
        p: Ext::ZERO,
        q: Ext::ONE,
    }
}

// Both columns of the rows at the point: row words, eight a row, and the point's words, four a round.
#[tactic(auto, using(crate::proofs::Answering::searches, crate::proofs::Answering::rows_length), unfolding(crate::specs::Evaluated::evaluated, refusal::specs::Tests::first_of))]
pub fn evaluate(rows: &[u32], point: &[u32]) -> Evaluation
    ensures { result ≡ evaluated rows.now point.now }
{
    let count = rows.len() / 8;
    if rows.len() % 8 != 0 {
        return Err(Refusal::RaggedRows);
    }
    if refusal::MAX_ROWS < count {
        return Err(Refusal::TooManyRows);
    }
    if !sizes::is_size(count) {
        return Err(Refusal::NotPowerOfTwo);
    }
    let n = sizes::rounds_of(count);
    if point.len() != 4 * n {
        return Err(Refusal::BadLength);
    }
    if let Some(place) = wire::first_bad_word(rows) {
        return Err(Refusal::BadWord {
            place,
            list: Words::Rows,
        });
    }
    if let Some(place) = wire::first_bad_word(point) {
        return Err(Refusal::BadWord {
            place,
            list: Words::Point,
        });
    }
    let value = if count == 0 {
        empty_sum()
    } else {
        halves::eval_rows_by_halves(rows, point, n)
    };
    Ok(Values {
        rounds: n,
        numer: value.p,
        denom: value.q,
    })
}

// The answer as document 01 has it: its number, and its values.
pub fn number_and_values(answer: Evaluation) -> Report
    ensures { result ≡ evaluation_report answer }
{
    match answer {
        Ok(values) => refusal::done(values.rounds, values.numer, values.denom),
        Err(refusal) => Report::from(refusal),
    }
}
