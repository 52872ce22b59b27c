// The observation or challenge that a word of a log is of, in words: everything counted from 0.
use crate::bad_words::AtWord;
use crate::log_places::LogWord;
use std::fmt;

// The round of a challenge, and the word.
#[derive(Clone, Copy)]
struct OfRound {
    round: usize,
    word: usize,
}

impl fmt::Display for OfRound {
    fn fmt<W: fmt::Write>(&self, f: &mut fmt::Formatter<W>) -> fmt::Result {
        write!(f, " of round {}{}", self.round, AtWord(self.word))
    }
}

impl fmt::Display for LogWord {
    fn fmt<W: fmt::Write>(&self, f: &mut fmt::Formatter<W>) -> fmt::Result {
        match *self {
            LogWord::Size { word } => write!(f, "the size{}", AtWord(word)),
            LogWord::Root { word } => write!(f, "q0{}", AtWord(word)),
            LogWord::Lambda { round, word } => write!(f, "lambda{}", OfRound { round, word }),
            LogWord::Sum { at, sum, word } => write!(f, "{at}{sum}{}", AtWord(word)),
            LogWord::Rho { at, word } => write!(f, "{at}, rho{}", AtWord(word)),
            LogWord::Claim { layer, claim, word } => {
                write!(f, "layer {layer}{claim}{}", AtWord(word))
            }
            LogWord::Mu { round, word } => write!(f, "mu{}", OfRound { round, word }),
        }
    }
}
