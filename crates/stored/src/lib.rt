// The stored form of a proof: its shape, its elements, the search for a bad word in it, and whether its root is over zero.
#![tactic(auto)]

ghost use Rattle.std.specs.Prelude.{◌≡◌, true, ◌+◌, ◌*◌, ◌≤◌, length, drop};
ghost use Rattle.wire.specs.Words.{bad_place};
ghost use Rattle.stored.specs.Elements.{over_zero};
ghost use Rattle.stored.specs.Layout.{polys_words, proof_words};
ghost use Rattle.stored.specs.Parse.{known, sized, parse, entries_fit, entries_from, proof_of, claims_of, cubic_of};
ghost use Rattle.stored.specs.ParseLaws.{Shaped};
ghost use Rattle.stored.specs.Shapes.{shape_of, claims_in, cubic_in};

use field::{Ext, Field};
use refusal::Refusal;

// The counts of the two lists, and the place of the first polynomial entry.
#[derive(Clone, Copy)]
pub struct Outline {
    pub layers: usize,
    pub entries: usize,
    pub polys: usize,
}

// The claims of a layer, and the polynomial of a sub-round, their words not yet checked.
#[derive(Clone, Copy)]
pub struct LayerClaims {
    pub p_xi_0: Ext,
    pub q_xi_0: Ext,
    pub p_xi_1: Ext,
    pub q_xi_1: Ext,
}

#[derive(Clone, Copy)]
pub struct SubroundEvals {
    pub s_1: Ext,
    pub s_2: Ext,
    pub s_3: Ext,
}

// Whether so many polynomial entries use up the bytes from a place on.
#[tactic(auto, using(crate::proofs::ShapeLaws::fitting_end))]
fn entries_fit(proof: &[u8], from: usize, count: usize) -> bool
    requires { from ≤ length proof.now }
    ensures { result ≡ entries_fit count (drop from proof.now) }
{
    let mut rest = &proof[from..];
    for k in 0..count {
        let Some((subrounds, after)) = rest.split_first() else {
            return false;
        };
        let size = 48 * usize::from(*subrounds);
        if after.len() < size {
            return false;
        }
        rest = &after[size..];
    }
    rest.is_empty()
}

// Whether the first byte is a version that is read: 1 or 2.
pub fn is_known(proof: &[u8]) -> bool
    ensures { result ≡ known proof.now }
{
    matches!(proof, [1 | 2, ..])
}

// Whether a proof binds its size: its version is 2.
pub fn is_sized(proof: &[u8]) -> bool
    ensures { result ≡ sized proof.now }
{
    matches!(proof, [2, ..])
}

// The counts of a stored proof and where its polynomials start, if the bytes are some proof's; otherwise 12 or 13.
pub fn read_shape(proof: &[u8]) -> Result<Outline, Refusal>
    ensures { result ≡ shape_of (parse proof.now) }
{
    if !is_known(proof) {
        return Err(Refusal::BadVersion);
    }
    if proof.len() < 23 || wire::word_at(proof, 1) as usize != proof.len() - 5 {
        return Err(Refusal::BadLength);
    }
    let layers = usize::from(proof[21]);
    let polys = 23 + 64 * layers;
    if proof.len() < polys {
        return Err(Refusal::BadLength);
    }
    let entries = usize::from(proof[polys - 1]);
    if !entries_fit(proof, polys, entries) {
        return Err(Refusal::BadLength);
    }
    Ok(Outline {
        layers,
        entries,
        polys,
    })
}

// A layer's p0, q0, p1, q1 from a place on, their words not yet checked.
pub fn read_claims(proof: &[u8], at: usize) -> LayerClaims
    requires { at + 64 ≤ length proof.now }
    ensures { claims_in result ≡ claims_of (drop at proof.now) }
{
    LayerClaims {
        p_xi_0: wire::element_at(proof, at),
        q_xi_0: wire::element_at(proof, at + 16),
        p_xi_1: wire::element_at(proof, at + 32),
        q_xi_1: wire::element_at(proof, at + 48),
    }
}

// A sub-round's s(1), s(2), s(3) from a place on, their words not yet checked.
pub fn read_subround(proof: &[u8], at: usize) -> SubroundEvals
    requires { at + 48 ≤ length proof.now }
    ensures { cubic_in result ≡ cubic_of (drop at proof.now) }
{
    SubroundEvals {
        s_1: wire::element_at(proof, at),
        s_2: wire::element_at(proof, at + 16),
        s_3: wire::element_at(proof, at + 32),
    }
}

// The place of the first bad word among the polynomial entries from a place on, if there is one: left by the label at that word's sub-round.
fn first_bad_in_entries(proof: &[u8], from: usize, count: usize) -> Option<usize>
    requires { (from ≤ length proof.now) × (entries_fit count (drop from proof.now) ≡ true) }
    ensures { result ≡ bad_place (polys_words (entries_from count (drop from proof.now))) }
{
    let mut passed = 0;
    let mut at = from;
    let mut found = None;
    // Stays: document 01 has nested loops here that are left by a label.
    'entries: for k in 0..count {
        let subrounds = usize::from(proof[at]);
        at += 1;
        for j in 0..subrounds {
            if let Some(place) = wire::first_bad_stored(proof, at, 12) {
                found = Some(passed + place);
                break 'entries;
            }
            passed += 12;
            at += 48;
        }
    }
    found
}

// The place of the first bad word of a proof, counted over the words of its elements, if there is one.
pub fn first_bad_in_proof(proof: &[u8], outline: Outline) -> Option<usize>
    requires { Shaped proof.now outline }
    ensures { result ≡ bad_place (proof_words (proof_of proof.now)) }
{
    if let Some(place) = wire::first_bad_stored(proof, 5, 4) {
        return Some(place);
    }
    let words = 16 * outline.layers;
    if let Some(place) = wire::first_bad_stored(proof, 22, words) {
        return Some(4 + place);
    }
    let place = first_bad_in_entries(proof, outline.polys, outline.entries)?;
    Some(4 + words + place)
}

// How many words the elements of a proof have: its bytes but for version, length, the two counts and each entry's count, in fours.
pub fn word_count(proof: &[u8], outline: Outline) -> usize
    requires { Shaped proof.now outline }
    ensures { result ≡ length (proof_words (proof_of proof.now)) }
{
    (proof.len() - 7 - outline.entries) / 4
}

// Whether a proof's q0, the denominator of the sum, is zero: its elements' first, from byte 5 on.
pub fn is_over_zero(proof: &[u8]) -> bool
    ensures { result ≡ over_zero proof.now }
{
    if proof.len() < 21 {
        return false;
    }
    wire::element_at(proof, 5).is_zero()
}
