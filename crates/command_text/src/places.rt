// Which word a place names: of the rows, of a list of elements, of a proof's elements in stored order.
ghost use Rattle.std.specs.Prelude.{◌≡◌};
ghost use Rattle.command_text.specs.Places.{row_word, element_word, layer_from, sum_word, proof_word};

use crate::names::{Claim, Side, Sum};

// A word of a row's p or q.
#[derive(Clone, Copy)]
pub struct RowWord {
    pub row: usize,
    pub side: Side,
    pub word: usize,
}

#[derive(Clone, Copy)]
pub struct ElementWord {
    pub element: usize,
    pub word: usize,
}

// A sub-round of a layer.
#[derive(Clone, Copy)]
pub struct SubroundAt {
    pub layer: usize,
    pub subround: usize,
}

// A word of q0, of a claim of a layer, or of a sum of a layer's sub-round.
#[derive(Clone, Copy)]
pub enum ProofWord {
    Root {
        word: usize,
    },
    Claim {
        layer: usize,
        claim: Claim,
        word: usize,
    },
    Sum {
        at: SubroundAt,
        sum: Sum,
        word: usize,
    },
}

// The word of the rows.
pub fn row_word(place: usize) -> RowWord
    ensures { result ≡ row_word place }
{
    RowWord {
        row: place / 8,
        side: Side::of(place % 8 / 4),
        word: place % 4,
    }
}

// The word of a list of elements.
pub fn element_word(place: usize) -> ElementWord
    ensures { result ≡ element_word place }
{
    ElementWord {
        element: place / 4,
        word: place % 4,
    }
}

// Where a sub-round stands, counted over all entries of so many each: entry e is of layer e + 1.
#[tactic(auto, using(crate::proofs::Layers::entry_go, crate::proofs::Layers::entry_stop, crate::proofs::Layers::entry_end))]
pub fn subround_at(counts: &[usize], subround: usize) -> SubroundAt
    ensures { result ≡ layer_from 1 counts.now subround }
{
    let mut left = subround;
    for (e, &count) in counts.iter().enumerate() {
        if left < count {
            return SubroundAt {
                layer: e + 1,
                subround: left,
            };
        }
        left -= count;
    }
    SubroundAt {
        layer: counts.len() + 1,
        subround: left,
    }
}

// A word past q0 and the claims, by its place among those of the sub-rounds.
fn sum_word(counts: &[usize], place: usize) -> ProofWord
    ensures { result ≡ sum_word counts.now place }
{
    ProofWord::Sum {
        at: subround_at(counts, place / 12),
        sum: Sum::of(place % 12 / 4),
        word: place % 4,
    }
}

// The word at a place of a proof of so many layers, with so many sub-rounds in each entry.
pub fn proof_word(layers: usize, counts: &[usize], place: usize) -> ProofWord
    ensures { result ≡ proof_word layers counts.now place }
{
    if place < 4 {
        return ProofWord::Root { word: place };
    }
    let place = place - 4;
    if place / 16 < layers {
        ProofWord::Claim {
            layer: place / 16,
            claim: Claim::of(place % 16 / 4),
            word: place % 4,
        }
    } else {
        sum_word(counts, place - 16 * layers)
    }
}
