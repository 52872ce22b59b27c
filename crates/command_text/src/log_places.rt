// Which observation or challenge a word of a verifier's log is of.
ghost use Rattle.std.specs.Prelude.{◌≡◌};
ghost use Rattle.command_text.specs.LogPlaces.{subround_word, last_word, inner_word, round_word, first_word, later_word, run_word, log_word};

use crate::names::{Claim, Sum};
use crate::places::{SubroundAt, subround_at};

// A word of the size, of q0, or of a layer's claims and its round's challenges: lambda, sums and rho of each sub-round, claims, mu.
#[derive(Clone, Copy)]
pub enum LogWord {
    Size {
        word: usize,
    },
    Root {
        word: usize,
    },
    Lambda {
        round: usize,
        word: usize,
    },
    Sum {
        at: SubroundAt,
        sum: Sum,
        word: usize,
    },
    Rho {
        at: SubroundAt,
        word: usize,
    },
    Claim {
        layer: usize,
        claim: Claim,
        word: usize,
    },
    Mu {
        round: usize,
        word: usize,
    },
}

// How many elements the rounds 1 to 9 have: lambda, three sums and rho for each sub-round, four claims and mu.
const ROUND_SIZES: [usize; 9] = [10, 14, 18, 22, 26, 30, 34, 38, 42];

// Element k of a round's sub-rounds: three sums and rho, by turns.
fn subround_word(layer: usize, k: usize, word: usize) -> LogWord
    ensures { result ≡ subround_word layer k word }
{
    let at = SubroundAt {
        layer,
        subround: k / 4,
    };
    if k % 4 == 3 {
        LogWord::Rho { at, word }
    } else {
        LogWord::Sum {
            at,
            sum: Sum::of(k % 4),
            word,
        }
    }
}

// Element k of those that end a round: the claims, and then mu.
fn last_word(round: usize, k: usize, word: usize) -> LogWord
    ensures { result ≡ last_word round k word }
{
    if k < 4 {
        LogWord::Claim {
            layer: round,
            claim: Claim::of(k),
            word,
        }
    } else {
        LogWord::Mu { round, word }
    }
}

// Element k of a round after lambda.
fn inner_word(round: usize, k: usize, word: usize) -> LogWord
    ensures { result ≡ inner_word round k word }
{
    if k / 4 < round {
        subround_word(round, k, word)
    } else {
        last_word(round, k - 4 * round, word)
    }
}

// Element k of a round from 1 on.
fn round_word(round: usize, k: usize, word: usize) -> LogWord
    ensures { result ≡ round_word round k word }
{
    if k == 0 {
        LogWord::Lambda { round, word }
    } else {
        inner_word(round, k - 1, word)
    }
}

// Element k of those before round 1.
fn first_word(k: usize, word: usize) -> LogWord
    ensures { result ≡ first_word k word }
{
    if k == 0 {
        LogWord::Root { word }
    } else {
        last_word(0, k - 1, word)
    }
}

// A place counted from round 1 on.
fn later_word(place: usize) -> LogWord
    ensures { result ≡ later_word place }
{
    let at = subround_at(&ROUND_SIZES, place / 4);
    round_word(at.layer, at.subround, place % 4)
}

// A place counted from q0 on.
fn run_word(place: usize) -> LogWord
    ensures { result ≡ run_word place }
{
    if place < 24 {
        first_word(place / 4, place % 4)
    } else {
        later_word(place - 24)
    }
}

// The word at a place of the log of a proof that binds its size, or does not.
pub fn log_word(sized: bool, place: usize) -> LogWord
    ensures { result ≡ log_word sized place }
{
    if !sized {
        run_word(place)
    } else if place < 4 {
        LogWord::Size { word: place }
    } else {
        run_word(place - 4)
    }
}
