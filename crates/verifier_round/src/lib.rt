// One round of the verifier, step by step, over messages that are read already: what is observed and sampled, how claims go on, what is checked.
// All of these take canonical words.
#![tactic(auto)]

ghost use Rattle.std.specs.Prelude.{◌≡◌, ◌+◌, ◌*◌, ◌<◌, ◌≤◌, length};
ghost use Rattle.field.specs.Ext as E;
ghost use Rattle.field.specs.ExtRing.{ExtRing};
ghost use Rattle.field.specs.Extension.{Extension};
ghost use Rattle.field.specs.Element.{dec, Canon, Is};
ghost use Rattle.field.specs.Cells.{Clean};
ghost use Rattle.multilinear.specs.Interpolate as Interpolate;
ghost use Rattle.multilinear.specs.RoundSum as RoundSum;
ghost use Rattle.gkr.specs.Tree as Tree;
ghost use Rattle.gkr.specs.Sumcheck as Sumcheck;
ghost use Rattle.gkr.specs.Gkr as Gkr;
ghost use Rattle.transcript.specs.Log.{Enough, Observing, Steps, log_of, source_of, state};
ghost use Rattle.stored.specs.Shapes.{claims_in, cubic_in};
ghost use Rattle.step.specs.Values.{IsFrac, minus};
ghost use Rattle.stored.specs.ReadWords.{CanonClaims, CanonCubic};
ghost use Rattle.verifier_round.specs.Values.{dec_claims, dec_cubic, CanonSums};
ghost use Rattle.verifier_round.specs.Report.{verdict_report};
ghost use Rattle.verifier_round.specs.Rounds.{LayerOpened, SubChecked, Descended, LayerChecked, Rooted};

use field::{Ext, Field};
use refusal::{Refusal, Report};
use step::Frac;
use stored::{LayerClaims, SubroundEvals};
use transcript::Transcript;

// The claims on the two columns after a layer.
#[derive(Clone, Copy)]
pub struct Claims {
    pub numer: Ext,
    pub denom: Ext,
}

// What the verifier answers: the claims that it comes to, or the check that failed.
pub type Verdict = Result<Claims, Refusal>;

// What goes from one sub-round to the next: the claim, eq so far, and the next coordinate of the old point.
#[derive(Clone, Copy)]
pub struct Sums {
    pub claim: Ext,
    pub eq: Ext,
    pub xi: Ext,
}

// The start of a layer: lambda, and what its first sub-round takes on.
#[derive(Clone, Copy)]
pub struct Opened {
    pub lambda: Ext,
    pub first: Sums,
}

// The verdict as document 01 has it: its number, and its values.
pub fn number_and_values(verdict: Verdict) -> Report
    ensures { result ≡ verdict_report verdict }
{
    match verdict {
        Ok(Claims { numer, denom }) => refusal::done(0, numer, denom),
        Err(refusal) => Report::from(refusal),
    }
}

// p0, q0, p1, q1 go into the log.
pub fn observe_layer_claims(transcript: &mut Transcript<'_>, c: LayerClaims)
    requires room { transcript.old.put + 16 ≤ length transcript.old.log.now }
    requires canon { CanonClaims (claims_in c) }
    ensures same { transcript.new.log.ghost_name ≡ transcript.old.log.ghost_name }
    ensures sponge { transcript.new.sponge ≡ transcript.old.sponge }
    ensures steps { Steps (state transcript.old) (state transcript.new) 16 0
        (Gkr.observe_layer_claims Extension Observing (dec_claims (claims_in c)) (log_of (state transcript.old))) }
{
    transcript.observe_ext(c.p_xi_0);
    transcript.observe_ext(c.q_xi_0);
    transcript.observe_ext(c.p_xi_1);
    transcript.observe_ext(c.q_xi_1);
}

// s(1), s(2), s(3) go into the log.
pub fn observe_cubic(transcript: &mut Transcript<'_>, m: SubroundEvals)
    requires room { transcript.old.put + 12 ≤ length transcript.old.log.now }
    requires canon { CanonCubic (cubic_in m) }
    ensures same { transcript.new.log.ghost_name ≡ transcript.old.log.ghost_name }
    ensures sponge { transcript.new.sponge ≡ transcript.old.sponge }
    ensures steps { Steps (state transcript.old) (state transcript.new) 12 0
        (Sumcheck.observe_cubic Extension Observing (dec_cubic (cubic_in m)) (log_of (state transcript.old))) }
{
    transcript.observe_ext(m.s_1);
    transcript.observe_ext(m.s_2);
    transcript.observe_ext(m.s_3);
}

// The numerator and the denominator that the claims say the node above has.
pub fn compute_recursive_relations(c: LayerClaims) -> Frac
    requires { CanonClaims (claims_in c) }
    ensures { IsFrac result (Tree.compute_recursive_relations ExtRing (dec_claims (claims_in c))) }
{
    let left = Frac {
        p: c.p_xi_0,
        q: c.q_xi_0,
    };
    let right = Frac {
        p: c.p_xi_1,
        q: c.q_xi_1,
    };
    left + right
}

// The claims on the left and the right, brought together at mu.
pub fn reduce_to_single_evaluation(c: LayerClaims, mu: Ext) -> Frac
    requires { CanonClaims (claims_in c) × Canon mu }
    ensures { IsFrac result (Tree.reduce_to_single_evaluation ExtRing (dec_claims (claims_in c)) (dec mu)) }
{
    Frac {
        p: step::line_at(c.p_xi_0, c.p_xi_1, mu),
        q: step::line_at(c.q_xi_0, c.q_xi_1, mu),
    }
}

// s at rho, where s(0) is the claim less s(1).
pub fn next_claim(claim: Ext, m: SubroundEvals, rho: Ext) -> Ext
    requires { Canon claim × CanonCubic (cubic_in m) × Canon rho }
    ensures { Is result (Interpolate.cubic Extension (minus (dec claim) (dec m.s_1)) (dec m.s_1) (dec m.s_2) (dec m.s_3) (dec rho)) }
{
    let at0 = claim.minus(m.s_1);
    step::interpolate::cubic_at(at0, m.s_1, m.s_2, m.s_3, rho)
}

// The start of a layer: lambda is sampled, and batches the two claims.
pub fn open_layer(point: &[u32], transcript: &mut Transcript<'_>, s: Claims) -> Opened
    requires room { (4 ≤ length point.now) × (transcript.old.put + 4 ≤ length transcript.old.log.now) }
    requires enough { Enough (state transcript.old) 1 }
    requires clean { Clean point.now × Canon s.numer × Canon s.denom }
    ensures same { transcript.new.log.ghost_name ≡ transcript.old.log.ghost_name }
    ensures opened { LayerOpened point.now (state transcript.old) (state transcript.new) (source_of (state transcript.old)) s result }
{
    let xi = field::load(point, 0);
    let lambda = transcript.sample_ext();
    let claim = s.numer.plus(lambda.times(s.denom));
    let eq = Ext::ONE;
    let first = Sums { claim, eq, xi };
    Opened { lambda, first }
}

// One sub-round. Its challenge takes the cell after that of the coordinate it is compared with, which the next sub-round has by value.
pub fn sub_round(
    m: SubroundEvals,
    point: &mut [u32],
    j: usize,
    transcript: &mut Transcript<'_>,
    s: Sums,
) -> Sums
    requires room { (4 * j + 7 < length point.old) × (transcript.old.put + 16 ≤ length transcript.old.log.now) }
    requires enough { Enough (state transcript.old) 1 }
    requires clean { Clean point.old × CanonCubic (cubic_in m) × CanonSums s }
    ensures same { transcript.new.log.ghost_name ≡ transcript.old.log.ghost_name }
    ensures checked { SubChecked point.old point.new (state transcript.old) (state transcript.new)
        (source_of (state transcript.old)) j (dec_cubic (cubic_in m)) s result }
{
    let i = j + 1;
    let xi = field::load(point, i);
    observe_cubic(transcript, m);
    let rho = transcript.sample_ext();
    field::store(point, i, rho);
    let claim = next_claim(s.claim, m, rho);
    let eq = step::eq::eq_step(s.eq, s.xi, rho);
    Sums { claim, eq, xi }
}

// The end of a layer that holds: mu is sampled, becomes cell 0 of the point, and the claims are brought together there.
pub fn descend(c: LayerClaims, point: &mut [u32], transcript: &mut Transcript<'_>) -> Claims
    requires room { (4 ≤ length point.old) × (transcript.old.put + 4 ≤ length transcript.old.log.now) }
    requires enough { Enough (state transcript.old) 1 }
    requires clean { Clean point.old × CanonClaims (claims_in c) }
    ensures same { transcript.new.log.ghost_name ≡ transcript.old.log.ghost_name }
    ensures descended { Descended point.old point.new (state transcript.old) (state transcript.new)
        (source_of (state transcript.old)) (dec_claims (claims_in c)) result }
{
    let mu = transcript.sample_ext();
    field::store(point, 0, mu);
    let Frac { p: numer, q: denom } = reduce_to_single_evaluation(c, mu);
    Claims { numer, denom }
}

// What the claims on a layer say the last claim of its sub-rounds is.
pub fn expected_claim(c: LayerClaims, lambda: Ext, eq: Ext) -> Ext
    requires { CanonClaims (claims_in c) × Canon lambda × Canon eq }
    ensures { Is result (E.mul (RoundSum.cross ExtRing (dec lambda) (dec_claims (claims_in c))) (dec eq)) }
{
    let f = compute_recursive_relations(c);
    f.p.plus(lambda.times(f.q)).times(eq)
}

// The end of a layer: its claims are observed and checked against the last claim of the sub-rounds.
pub fn close_layer(
    c: LayerClaims,
    round: usize,
    lambda: Ext,
    point: &mut [u32],
    transcript: &mut Transcript<'_>,
    s: Sums,
) -> Verdict
    requires room { (4 ≤ length point.old) × (transcript.old.put + 20 ≤ length transcript.old.log.now) }
    requires enough { Enough (state transcript.old) 1 }
    requires clean { Clean point.old × CanonClaims (claims_in c) × CanonSums s × Canon lambda }
    ensures same { transcript.new.log.ghost_name ≡ transcript.old.log.ghost_name }
    ensures checked { LayerChecked point.old point.new (state transcript.old) (state transcript.new)
        (source_of (state transcript.old)) (dec_claims (claims_in c)) round lambda s result }
{
    observe_layer_claims(transcript, c);
    let expected = expected_claim(c, lambda, s.eq);
    let actual = s.claim;
    if expected != actual {
        return Err(Refusal::LayerConsistencyCheckFailed {
            round,
            expected,
            actual,
        });
    }
    Ok(descend(c, point, transcript))
}

// Layer 0: the root's numerator must be zero, and its denominator the one told.
pub fn verify_root(
    q0: Ext,
    c: LayerClaims,
    point: &mut [u32],
    transcript: &mut Transcript<'_>,
) -> Verdict
    requires room { (4 ≤ length point.old) × (transcript.old.put + 24 ≤ length transcript.old.log.now) }
    requires enough { Enough (state transcript.old) 1 }
    requires clean { Clean point.old × CanonClaims (claims_in c) × Canon q0 }
    ensures same { transcript.new.log.ghost_name ≡ transcript.old.log.ghost_name }
    ensures rooted { Rooted point.new (state transcript.old) (state transcript.new)
        (source_of (state transcript.old)) (dec q0) (dec_claims (claims_in c)) result }
{
    let Frac { p: numer, q: denom } = compute_recursive_relations(c);
    transcript.observe_ext(q0);
    observe_layer_claims(transcript, c);
    if numer != Ext::ZERO {
        return Err(Refusal::ZeroCheckFailed { actual: numer });
    }
    if denom != q0 {
        return Err(Refusal::RootConsistencyCheckFailed {
            expected: q0,
            actual: denom,
        });
    }
    Ok(descend(c, point, transcript))
}
