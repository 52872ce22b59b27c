// The verdict of a proof from a stored log alone: the plain verifier runs on the log's own challenges, into a log of its own, and both logs must be the same.
#![tactic(auto)]

ghost use Rattle.std.specs.Prelude.{◌≡◌, ◌++◌, Err, ◌^◌, ◌≤◌, eqb, length, take, drop, replicate};
ghost use Rattle.std.specs.List.{zip, position};
ghost use Rattle.log_replay.specs.Replayed.{kept, plain_word, most_words, challenges_of, of_run, compared, outcome, replayed};
ghost use Rattle.log_replay.specs.Inner.{placed, next_place, differ, as_compared, gap, fits, settled};

use field::Base;
use refusal::{MAX_ROUNDS, Refusal, Report, Verifying};
use verifier::Ending;
use verifier::end::{at_once, copy_point};
use verifier_round::Verdict;

// A sampled word without its bit; 0 for one that is not canonical.
fn plain_word(w: u32) -> u32
    requires { 2 ^ 31 ≤ w }
    ensures { result ≡ plain_word w }
{
    let v = w - 2147483648;
    if v < Base::ORDER_U32 { v } else { 0 }
}

// A word of the log goes to place k of the challenges, if it was sampled and there is room; the next place comes back.
fn take_word(w: u32, challenges: &mut [u32], k: usize) -> usize
    ensures { (challenges.new ≡ placed w challenges.old k) × (result ≡ next_place w challenges.old k) }
{
    if w < 2147483648 || challenges.len() <= k {
        return k;
    }
    challenges[k] = plain_word(w);
    k + 1
}

// The sampled words of a log go to the front of the challenges, as many as there is room for.
fn take_challenges(log: &[u32], challenges: &mut [u32])
    requires { challenges.old ≡ replicate most_words 0 }
    ensures { challenges.new ≡ challenges_of log.now }
{
    let mut k = 0;
    for w in log {
        k = take_word(*w, challenges, k);
    }
}

// Whether a word is the one left: all of its bits, observed or sampled.
fn alike(given: u32, left: u32) -> bool
    ensures { result ≡ eqb given left }
{
    given == left
}

// The first place where both logs have a word and these differ, if there is one.
fn first_difference(given: &[u32], left: &[u32]) -> Option<usize>
    ensures { result ≡ position differ (zip given.now left.now) }
{
    given.iter().zip(left).position(|(g, l)| !alike(*g, *l))
}

// That the log given is the log left, or the refusal of the first place where it is not.
fn compare_logs(given: &[u32], left: &[u32]) -> Result<(), Refusal>
    ensures { as_compared result ≡ compared given.now left.now 0 }
{
    if let Some(place) = first_difference(given, left) {
        return Err(Refusal::LogMismatch { place });
    }
    if left.len() < given.len() {
        return Err(Refusal::LogLong { place: left.len() });
    }
    if given.len() < left.len() {
        return Err(Refusal::LogShort { place: given.len() });
    }
    Ok(())
}

// Whether a refusal comes of a run: 16 to 19.
fn in_run(refusal: Refusal) -> bool
    ensures { result ≡ of_run (Err refusal) }
{
    matches!(Report::from(refusal).number, 16..=19)
}

// Whether a verdict comes of a run, or of no rounds that are accepted.
fn of_run(verdict: Verdict) -> bool
    ensures { result ≡ of_run verdict }
{
    match verdict {
        Ok(_) => true,
        Err(refusal) => in_run(refusal),
    }
}

// The gap between the log given and the log left, where the verdict comes of a run; else the log is not looked at.
fn gap_of(verdict: Verdict, given: &[u32], left: &[u32]) -> Result<(), Refusal>
    ensures { as_compared result ≡ gap verdict given.now left.now }
{
    if of_run(verdict) {
        compare_logs(given, left)
    } else {
        Ok(())
    }
}

// The words of a point that are looked at: all, but no more than any run writes.
fn fitting(points: usize) -> usize
    ensures { result ≡ fits points }
{
    points.min(4 * MAX_ROUNDS)
}

// How a replay ends, with the first k words of the point that the plain verifier found, where there is no gap.
fn settle(
    ending: Ending,
    given: &[u32],
    left: &[u32],
    xi: &[u32],
    point: &mut [u32],
    k: usize,
) -> Ending
    requires { (k ≤ length xi.now) × (k ≤ length point.old) }
    ensures { outcome result.verdict result.used point.new ≡ settled (gap ending.verdict given.now left.now)
        ending (take k xi.now ++ drop k point.old) point.old }
{
    match gap_of(ending.verdict, given, left) {
        Ok(()) => {
            copy_point(xi, point, k);
            ending
        }
        Err(refusal) => at_once(Err(refusal)),
    }
}

// The verdict of a proof of so many rounds from a log alone: accepted with both claims and the point written, or refused; where the log is not the one that the verifier
// leaves on its challenges, that is told by its first place, and nothing is written.
pub fn replay(
    proof: &[u8],
    rounds: usize,
    modes: Verifying,
    log: &[u32],
    point: &mut [u32],
) -> Ending
    ensures { outcome result.verdict result.used point.new
        ≡ replayed (kept proof.now rounds modes log.now) point.old }
{
    let mut challenges = [0u32; 256];
    take_challenges(log, &mut challenges);
    let mut own = [0u32; 964];
    let mut xi = [0u32; 4 * MAX_ROUNDS];
    let k = fitting(point.len());
    copy_point(point, &mut xi, k);
    let ending = verifier::verify_gkr(proof, rounds, modes, &challenges, &mut xi[..k], &mut own);
    settle(ending, log, &own[..ending.used.words], &xi, point, k)
}
