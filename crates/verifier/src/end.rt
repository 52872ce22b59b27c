// How a run ends: the point that it leaves; and a verdict without a run.
ghost use Rattle.std.specs.Prelude.{◌≡◌, ◌++◌, ◌≤◌, length, take, drop};
ghost use Rattle.transcript.specs.Used.{unused};
ghost use Rattle.verifier.specs.Gates.{point_left, ending};

use crate::Ending;
use transcript::Used;
use verifier_round::Verdict;

// The first n words of the point found go to the front of the room for it.
pub fn copy_point(xi: &[u32], point: &mut [u32], n: usize)
    requires { (n ≤ length xi.now) × (n ≤ length point.old) }
    ensures { point.new ≡ take n xi.now ++ drop n point.old }
{
    point[..n].copy_from_slice(&xi[..n]);
}

// The point is written when the run went through, and not when it stopped.
pub fn leave_point(verdict: Verdict, xi: &[u32], point: &mut [u32], n: usize)
    requires { (n ≤ length xi.now) × (n ≤ length point.old) }
    ensures { point.new ≡ point_left verdict n xi.now point.old }
{
    if verdict.is_ok() {
        copy_point(xi, point, n);
    }
}

// A verdict, and what its run used up.
pub fn answer(verdict: Verdict, used: Used) -> Ending
    ensures { result ≡ ending verdict used }
{
    Ending { verdict, used }
}

// A verdict without a run.
pub fn at_once(verdict: Verdict) -> Ending
    ensures { result ≡ ending verdict unused }
{
    Ending {
        verdict,
        used: Used::nothing(),
    }
}
