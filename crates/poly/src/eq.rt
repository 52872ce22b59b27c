// eq of two points, and the table of the weights of all indices at a point.
ghost use Rattle.std.specs.Prelude.{◌≡◌};
ghost use Rattle.poly.specs.Evaluations.{eq_refusal, eval_eq_mle, Filled, evals_eq_hypercube};

use crate::checks::{check, check_rounds, check_words, cube, equal_whole};
use field::Ext;
use refusal::Refusal;

#[tactic(auto, unfolding(crate::specs::Checks::refusal))]
fn eq_refusal(x: &[u32], y: &[u32]) -> Result<(), Refusal>
    ensures { result ≡ eq_refusal x.now y.now }
{
    check(equal_whole(x.len(), y.len()), Refusal::BadLength)?;
    check_rounds(x.len() / 4)?;
    check_words(x)?;
    check_words(y)
}

// eq of two points: the product, over their coordinates, of x·y + (1 - x)·(1 - y).
pub fn eval_eq_mle(x: &[u32], y: &[u32]) -> Result<Ext, Refusal>
    ensures { result ≡ eval_eq_mle x.now y.now }
{
    eq_refusal(x, y)?;
    Ok(columns::eq::eq_points(x, y, x.len() / 4))
}

// The table of eq at x: entry i is the weight of index i.
#[tactic(auto, unfolding(crate::specs::Checks::refusal))]
pub fn evals_eq_hypercube_serial(x: &[u32], out: &mut [u32]) -> Result<(), Refusal>
    ensures { ◌≡◌ {A = Filled} (record { outcome = result; target = out.new }) (evals_eq_hypercube x.now out.old) }
{
    let n = x.len() / 4;
    check(x.len() % 4 == 0, Refusal::BadLength)?;
    let size = cube(n)?;
    check(4 * size <= out.len(), Refusal::ShortRoom)?;
    check_words(x)?;
    columns::eq::eq_table(&mut out[..4 * size], x, n);
    Ok(())
}

// The Rust's two differ in that this one runs in parallel.
pub fn evals_eq_hypercube(x: &[u32], out: &mut [u32]) -> Result<(), Refusal>
    ensures { ◌≡◌ {A = Filled} (record { outcome = result; target = out.new }) (evals_eq_hypercube x.now out.old) }
{
    evals_eq_hypercube_serial(x, out)
}
