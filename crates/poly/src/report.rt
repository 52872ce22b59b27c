// The answers as document 01 has them: the number of each, and its values.
ghost use Rattle.std.specs.Prelude.{◌≡◌};
ghost use Rattle.poly.specs.Reports.{outcome_report, evaluated_report, round_report};

use crate::RoundReport;
use field::{Ext, Field};
use refusal::{Refusal, Report};
use step::Three;

// Of a call that answers no element.
pub fn outcome_number_and_values(outcome: Result<(), Refusal>) -> Report
    ensures { result ≡ outcome_report outcome }
{
    match outcome {
        Ok(()) => refusal::done(0, Ext::ZERO, Ext::ZERO),
        Err(refusal) => refusal.into(),
    }
}

// Of a call that answers an element.
pub fn evaluated_number_and_values(evaluated: Result<Ext, Refusal>) -> Report
    ensures { result ≡ evaluated_report evaluated }
{
    match evaluated {
        Ok(e) => refusal::done(0, e, Ext::ZERO),
        Err(refusal) => refusal.into(),
    }
}

// Of a call that answers a sub-round's polynomial.
pub fn round_number_and_values(evals: Result<Three, Refusal>) -> RoundReport
    ensures { result ≡ round_report evals }
{
    match evals {
        Ok(values) => RoundReport {
            report: refusal::done(0, Ext::ZERO, Ext::ZERO),
            values,
        },
        Err(refusal) => RoundReport {
            report: refusal.into(),
            values: Three {
                s1: Ext::ZERO,
                s2: Ext::ZERO,
                s3: Ext::ZERO,
            },
        },
    }
}
