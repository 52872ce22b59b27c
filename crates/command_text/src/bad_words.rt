// Where a bad word stands, in words: everything counted from 0.
use crate::places;
use crate::places::{ElementWord, ProofWord, RowWord, SubroundAt};
use refusal::Words;
use std::fmt;

// The word at the end of a name.
#[derive(Clone, Copy)]
pub struct AtWord(pub usize);

impl fmt::Display for AtWord {
    fn fmt<W: fmt::Write>(&self, f: &mut fmt::Formatter<W>) -> fmt::Result {
        write!(f, ", word {}", self.0)
    }
}

impl fmt::Display for SubroundAt {
    fn fmt<W: fmt::Write>(&self, f: &mut fmt::Formatter<W>) -> fmt::Result {
        write!(f, "layer {}, sub-round {}", self.layer, self.subround)
    }
}

impl fmt::Display for ProofWord {
    fn fmt<W: fmt::Write>(&self, f: &mut fmt::Formatter<W>) -> fmt::Result {
        match *self {
            ProofWord::Root { word } => write!(f, "q0{}", AtWord(word)),
            ProofWord::Claim { layer, claim, word } => {
                write!(f, "layer {layer}{claim}{}", AtWord(word))
            }
            ProofWord::Sum { at, sum, word } => write!(f, "{at}{sum}{}", AtWord(word)),
        }
    }
}

impl fmt::Display for RowWord {
    fn fmt<W: fmt::Write>(&self, f: &mut fmt::Formatter<W>) -> fmt::Result {
        write!(
            f,
            "row {}, counted from 0, word {}{}",
            self.row, self.word, self.side
        )
    }
}

impl fmt::Display for ElementWord {
    fn fmt<W: fmt::Write>(&self, f: &mut fmt::Formatter<W>) -> fmt::Result {
        write!(f, "{}, word {}, counted from 0", self.element, self.word)
    }
}

// The bad word at a place of a list; a helper's own lists have no name.
#[derive(Clone, Copy)]
pub struct BadWord {
    pub place: usize,
    pub list: Words,
}

impl fmt::Display for BadWord {
    fn fmt<W: fmt::Write>(&self, f: &mut fmt::Formatter<W>) -> fmt::Result {
        let place = self.place;
        match self.list {
            Words::Rows => write!(f, "{}", places::row_word(place))?,
            Words::Proof => write!(f, "word {place} of the proof's elements, counted from 0")?,
            Words::Challenges => write!(f, "challenge {}", places::element_word(place))?,
            Words::Point => write!(f, "coordinate {}", places::element_word(place))?,
            Words::Own => return write!(f, "a word is not below the prime 2013265921"),
        }
        write!(f, ", is not below 2013265921")
    }
}
