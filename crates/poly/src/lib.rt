// Polynomials and folds over lists of words, four to an element: the carried part of poly_common.rs, prover/poly.rs and prover/sumcheck.rs.
// Every function answers for all words and lengths; a refused call writes nothing.
#![tactic(auto)]

use refusal::Report;
use step::Three;

mod checks; // the refusals, in document 01's order
pub mod interpolate; // linear, quadratic, cubic
pub mod eval; // the value of a table at a point
pub mod eq; // eq of two points, and its table
pub mod horner; // a polynomial by its coefficients
pub mod fold; // the fold of a column
pub mod round; // a sub-round's polynomial
pub mod report; // the number and the values of each answer

// The number of a sub-round's polynomial, and its three values, zero where it is refused.
#[derive(Clone, Copy)]
pub struct RoundReport {
    pub report: Report,
    pub values: Three,
}
