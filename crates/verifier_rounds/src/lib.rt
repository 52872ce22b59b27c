// All rounds of the verifier over the bytes of a proof whose shape and words are checked already.
#![tactic(auto)]

ghost use Rattle.std.specs.Prelude.{◌≡◌, true, ◌+◌, ◌*◌, ◌-◌, ◌<◌, ◌≤◌, length, get_or, drop};
ghost use Rattle.field.specs.Element.{dec, Canon};
ghost use Rattle.field.specs.Cells.{Clean};
ghost use Rattle.wire.specs.Words.{all_canonical};
ghost use Rattle.wire.specs.Bytes.{elem};
ghost use Rattle.stored.specs.Layout.{cubics_words};
ghost use Rattle.stored.specs.Parse.{cubic_of, claims_of, cubics_from};
ghost use Rattle.gkr.specs.Count.{layers_cost};
ghost use Rattle.transcript.specs.Log.{Enough, source_of, state};
ghost use Rattle.stored.specs.ReadWords.{CanonClaims, CanonCubic};
ghost use Rattle.verifier_round.specs.Values.{dec_cubic, CanonSums};
ghost use Rattle.verifier_round.specs.Rounds.{SubChecked};
ghost use Rattle.verifier_rounds.specs.Runs.{Summed, RoundDone, Readable, LayersEnd, RootEnd};

use refusal::Refusal;
use transcript::Transcript;
use verifier_round::{Claims, Opened, Sums, Verdict};

// One sub-round, whose message stands at a place of the proof.
fn sub_round_at(
    proof: &[u8],
    at: usize,
    point: &mut [u32],
    j: usize,
    transcript: &mut Transcript<'_>,
    s: Sums,
) -> Sums
    requires read { at + 48 ≤ length proof.now }
    requires room { (4 * j + 7 < length point.old) × (transcript.old.put + 16 ≤ length transcript.old.log.now) }
    requires enough { Enough (state transcript.old) 1 }
    requires clean { Clean point.old × CanonCubic (cubic_of (drop at proof.now)) × CanonSums s }
    ensures same { transcript.new.log.ghost_name ≡ transcript.old.log.ghost_name }
    ensures checked { SubChecked point.old point.new (state transcript.old) (state transcript.new)
        (source_of (state transcript.old)) j (dec_cubic (cubic_of (drop at proof.now))) s result }
{
    let m = stored::read_subround(proof, at);
    verifier_round::sub_round(m, point, j, transcript, s)
}

// The sub-rounds of a round, as many as its number.
pub fn verify_gkr_sumcheck(
    proof: &[u8],
    from: usize,
    round: usize,
    point: &mut [u32],
    transcript: &mut Transcript<'_>,
    first: Sums,
) -> Sums
    requires read { from + 48 * round ≤ length proof.now }
    requires room { (4 * round + 4 ≤ length point.old) × (transcript.old.put + 16 * round ≤ length transcript.old.log.now) }
    requires enough { Enough (state transcript.old) round }
    requires clean { Clean point.old × CanonSums first × (all_canonical (cubics_words (cubics_from round (drop from proof.now))) ≡ true) }
    ensures same { transcript.new.log.ghost_name ≡ transcript.old.log.ghost_name }
    ensures summed { Summed proof.now point.old point.new (state transcript.old) (state transcript.new)
        (source_of (state transcript.old)) from round first result }
{
    let mut s = first;
    for j in 0..round {
        s = sub_round_at(proof, from + 48 * j, point, j, transcript, s);
    }
    s
}

// One round after round 0: lambda, the count of its sub-rounds, the sub-rounds, the claims and their check.
pub fn verify_round(
    proof: &[u8],
    claims: usize,
    polys: usize,
    round: usize,
    point: &mut [u32],
    transcript: &mut Transcript<'_>,
    s: Claims,
) -> Verdict
    requires read { (claims + 64 ≤ length proof.now) × (polys + 1 + 48 * get_or proof.now polys 0 ≤ length proof.now) }
    requires room { (4 * round + 4 ≤ length point.old) × (transcript.old.put + (16 * round + 24) ≤ length transcript.old.log.now) }
    requires enough { Enough (state transcript.old) (round + 2) }
    requires clean { Clean point.old × Canon s.numer × Canon s.denom }
    requires words { CanonClaims (claims_of (drop claims proof.now)) × (all_canonical (cubics_words (cubics_from (get_or proof.now polys 0) (drop (polys + 1) proof.now))) ≡ true) }
    ensures same { transcript.new.log.ghost_name ≡ transcript.old.log.ghost_name }
    ensures done { RoundDone proof.now point.old point.new (state transcript.old) (state transcript.new)
        (source_of (state transcript.old)) claims polys round s result }
{
    let subrounds = usize::from(proof[polys]);
    let Opened { lambda, first } = verifier_round::open_layer(point, transcript, s);
    if subrounds != round {
        return Err(Refusal::IncorrectSubroundCount {
            round,
            expected: round,
            actual: subrounds,
        });
    }
    let last = verify_gkr_sumcheck(proof, polys + 1, round, point, transcript, first);
    let c = stored::read_claims(proof, claims);
    verifier_round::close_layer(c, round, lambda, point, transcript, last)
}

// The rounds after round 0.
pub fn verify_rounds(
    proof: &[u8],
    claims: usize,
    polys: usize,
    rounds: usize,
    point: &mut [u32],
    transcript: &mut Transcript<'_>,
    first: Claims,
) -> Verdict
    requires read { (1 ≤ rounds) × Readable proof.now claims polys (rounds - 1) }
    requires room { (4 * rounds ≤ length point.old) × (transcript.old.put + layers_cost 4 4 (rounds - 1) 1 ≤ length transcript.old.log.now) }
    requires enough { Enough (state transcript.old) (layers_cost 0 1 (rounds - 1) 1) }
    requires clean { Clean point.old × Canon first.numer × Canon first.denom }
    ensures same { transcript.new.log.ghost_name ≡ transcript.old.log.ghost_name }
    ensures ended { LayersEnd proof.now point.old point.new (state transcript.old) (state transcript.new)
        (source_of (state transcript.old)) claims polys rounds first result }
{
    let mut s = first;
    let mut c = claims;
    let mut p = polys;
    // Stays: the entries grow with their round, so that their places are no chunks of one size.
    for round in 1..rounds {
        s = verify_round(proof, c, p, round, point, transcript, s)?;
        c += 64;
        p += 1 + 48 * round;
    }
    Ok(s)
}

// Round 0 and all after it, from where the log stands.
pub fn verify_all(
    proof: &[u8],
    polys: usize,
    rounds: usize,
    point: &mut [u32],
    transcript: &mut Transcript<'_>,
) -> Verdict
    requires read { (1 ≤ rounds) × (22 + 64 * rounds ≤ length proof.now) × Readable proof.now 86 polys (rounds - 1) }
    requires room { (4 * rounds ≤ length point.old) × (transcript.old.put + 24 + layers_cost 4 4 (rounds - 1) 1 ≤ length transcript.old.log.now) }
    requires enough { Enough (state transcript.old) (1 + layers_cost 0 1 (rounds - 1) 1) }
    requires clean { Clean point.old }
    requires words { Canon (elem (drop 5 proof.now)) × CanonClaims (claims_of (drop 22 proof.now)) }
    ensures same { transcript.new.log.ghost_name ≡ transcript.old.log.ghost_name }
    ensures ended { RootEnd proof.now point.new (state transcript.old) (state transcript.new)
        (source_of (state transcript.old)) polys rounds result }
{
    let q0 = wire::element_at(proof, 5);
    let c = stored::read_claims(proof, 22);
    let s = verifier_round::verify_root(q0, c, point, transcript)?;
    verify_rounds(proof, 86, polys, rounds, point, transcript, s)
}
