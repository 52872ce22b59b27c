// The verifier over the stored bytes of a proof: refusals in document 01's order, then the run.
#![tactic(auto)]

ghost use Rattle.std.specs.Prelude.{◌≡◌, not, ◌&&◌, eqb, length};
ghost use Rattle.stored.specs.ParseLaws.{Shaped};
ghost use Rattle.transcript.specs.Log.{source_of, state};
ghost use Rattle.verifier.specs.Verified.{asked, lent, outcome, verified};
ghost use Rattle.verifier.specs.Gates.{words_gate, root_gate, unrooted, sandbox, Gated, Opened, Ready, Starts, Counted};

use refusal::{Refusal, Verifying, Words};
use stored::Outline;
use transcript::{Transcript, Used};
use verifier_round::Verdict;

mod empty; // no rounds, where that is valid
pub mod end; // how a run ends

// How a call ends: its verdict, and what it used up.
#[derive(Clone, Copy)]
pub struct Ending {
    pub verdict: Verdict,
    pub used: Used,
}

// The words of the proof, then the challenges.
#[tactic(auto, using(crate::proofs::GateLaws::words_shut, crate::proofs::GateLaws::needs_shut, crate::proofs::GateLaws::words_open))]
fn check_words(proof: &[u8], outline: Outline, needs: &[u32]) -> Result<Outline, Refusal>
    requires { Shaped proof.now outline }
    ensures { result ≡ words_gate proof.now outline needs.now }
{
    if let Some(place) = stored::first_bad_in_proof(proof, outline) {
        return Err(Refusal::BadWord {
            place,
            list: Words::Proof,
        });
    }
    if let Some(place) = wire::first_bad_word(needs) {
        return Err(Refusal::BadWord {
            place,
            list: Words::Challenges,
        });
    }
    Ok(outline)
}

// Whether there are no rounds, in the mode where that is not valid.
fn lacks_rounds(rounds: usize, empty: bool) -> bool
    ensures { result ≡ (eqb rounds 0 && not empty) }
{
    rounds == 0 && !empty
}

// The first refusal but for a root over zero, in document 01's order.
fn check(
    proof: &[u8],
    rounds: usize,
    modes: Verifying,
    challenges: &[u32],
    points: usize,
    logs: usize,
) -> Result<Outline, Refusal>
    ensures { Gated (asked proof.now rounds (unrooted modes) challenges.now) points logs result }
{
    if lacks_rounds(rounds, modes.empty) {
        return Err(Refusal::ZeroRounds);
    }
    if refusal::MAX_ROUNDS < rounds {
        return Err(Refusal::TooManyRounds);
    }
    let needs = sizes::needed_words(modes.drawn, rounds);
    if challenges.len() < needs {
        return Err(Refusal::ShortChallenges);
    }
    if !stored::is_known(proof) {
        return Err(Refusal::BadVersion);
    }
    if points < 4 * rounds || logs < sizes::log_words(true, stored::is_sized(proof), rounds) {
        return Err(Refusal::ShortRoom);
    }
    let outline = stored::read_shape(proof)?;
    check_words(proof, outline, &challenges[..needs])
}

// Live, the root, of one round or more, once both counts are those of the rounds: 14 and 15 come first.
fn check_root(
    proof: &[u8],
    rounds: usize,
    modes: Verifying,
    outline: Outline,
) -> Result<Outline, Refusal>
    requires { Shaped proof.now outline }
    ensures { result ≡ root_gate modes proof.now rounds outline }
{
    if rounds != 0
        && modes.live
        && outline.layers == rounds
        && outline.entries == rounds - 1
        && stored::is_over_zero(proof)
    {
        return Err(Refusal::ZeroRoot);
    }
    Ok(outline)
}

// The first refusal.
fn admit(
    proof: &[u8],
    rounds: usize,
    modes: Verifying,
    challenges: &[u32],
    points: usize,
    logs: usize,
) -> Result<Outline, Refusal>
    ensures { Gated (asked proof.now rounds modes challenges.now) points logs result }
{
    let outline = check(proof, rounds, modes, challenges, points, logs)?;
    check_root(proof, rounds, modes, outline)
}

// The counts of layers and of polynomial entries, then all rounds, from a start of the log.
fn verify_counted(
    proof: &[u8],
    rounds: usize,
    outline: Outline,
    xi: &mut [u32],
    transcript: &mut Transcript<'_>,
) -> Verdict
    requires ready { Ready proof.now xi.old (state transcript.old) rounds outline }
    requires begun { Starts (state transcript.old) }
    ensures same { transcript.new.log.ghost_name ≡ transcript.old.log.ghost_name }
    ensures counted { Counted proof.now xi.new (state transcript.old) (state transcript.new) (source_of (state transcript.old)) rounds result }
{
    let Outline {
        layers,
        entries,
        polys,
    } = outline;
    if layers != rounds {
        return Err(Refusal::IncorrectLayerCount {
            expected: rounds,
            actual: layers,
        });
    }
    let expected = rounds - 1;
    if entries != expected {
        return Err(Refusal::IncorrectSumcheckPolyCount {
            expected,
            actual: entries,
        });
    }
    transcript.observe_size(stored::is_sized(proof), rounds);
    verifier_rounds::verify_all(proof, polys, rounds, xi, transcript)
}

// The run, once nothing is refused before it.
fn run(
    proof: &[u8],
    rounds: usize,
    outline: Outline,
    drawn: bool,
    challenges: &[u32],
    point: &mut [u32],
    log: &mut [u32],
) -> Ending
    requires { Opened (asked proof.now rounds (sandbox drawn) challenges.now) (length point.old) (length log.old) outline }
    ensures { outcome result.verdict result.used point.new log.new
        ≡ verified (asked proof.now rounds (sandbox drawn) challenges.now) (lent point.old log.old) }
{
    let needs = sizes::needed_words(drawn, rounds);
    let mut transcript = Transcript::new(log, &challenges[..needs], drawn);
    let mut xi = [0u32; 4 * refusal::MAX_ROUNDS];
    let verdict = verify_counted(proof, rounds, outline, &mut xi, &mut transcript);
    end::leave_point(verdict, &xi, point, 4 * rounds);
    end::answer(verdict, transcript.used_up())
}

// What is not refused before: no rounds, or the run.
fn verify_admitted(
    proof: &[u8],
    rounds: usize,
    outline: Outline,
    modes: Verifying,
    challenges: &[u32],
    point: &mut [u32],
    log: &mut [u32],
) -> Ending
    requires { Opened (asked proof.now rounds modes challenges.now) (length point.old) (length log.old) outline }
    ensures { outcome result.verdict result.used point.new log.new
        ≡ verified (asked proof.now rounds modes challenges.now) (lent point.old log.old) }
{
    if rounds == 0 {
        return end::at_once(empty::verify_empty(proof, outline));
    }
    run(proof, rounds, outline, modes.drawn, challenges, point, log)
}

// Checks a stored proof of so many rounds: accepted with both claims and the point written, or refused; the log holds what was observed and sampled until then,
// and so much is told as used up.
pub fn verify_gkr(
    proof: &[u8],
    rounds: usize,
    modes: Verifying,
    challenges: &[u32],
    point: &mut [u32],
    log: &mut [u32],
) -> Ending
    ensures { outcome result.verdict result.used point.new log.new
        ≡ verified (asked proof.now rounds modes challenges.now) (lent point.old log.old) }
{
    match admit(proof, rounds, modes, challenges, point.len(), log.len()) {
        Err(refusal) => end::at_once(Err(refusal)),
        Ok(outline) => verify_admitted(proof, rounds, outline, modes, challenges, point, log),
    }
}
