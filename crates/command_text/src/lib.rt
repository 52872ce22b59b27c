// Elements, fractions and refusals in words, as the text reader takes them and as people read them.
#![tactic(auto)]

ghost use Rattle.std.specs.Prelude.{Some};
ghost use Rattle.command_text.specs.Texts.{word_text, element_text, fraction_text};

use field::{Base, Ext};
use std::fmt;
use std::fmt::Display;
use step::Frac;

mod bad_words; // where a bad word stands, in words
pub mod log_places; // which word of a log a place names
mod log_words; // and in words
pub mod names; // of a row's sides, a layer's claims and a sub-round's sums
pub mod places; // which word a place names
pub mod refusals; // the words of each refusal

// The most that is told as it is: half the prime.
const HALF: u32 = 1006632960;

// A word above half the prime is told as minus the number that is missing to the prime.
#[derive(Clone, Copy)]
struct Word(u32);

impl Display for Word {
    ghost output = { λ w. Some (word_text w.0) };

    fn fmt<W: fmt::Write>(&self, f: &mut fmt::Formatter<W>) -> fmt::Result {
        let word = self.0;
        if HALF < word && word < Base::ORDER_U32 {
            write!(f, "-{}", Base::ORDER_U32 - word)
        } else {
            write!(f, "{word}")
        }
    }
}

// An element in short form: one of the base is one number, any other its four words.
#[derive(Clone, Copy)]
pub struct Short(pub Ext);

impl Display for Short {
    ghost output = { λ e. Some (element_text e.0) };

    fn fmt<W: fmt::Write>(&self, f: &mut fmt::Formatter<W>) -> fmt::Result {
        let Ext { c0, c1, c2, c3 } = self.0;
        write!(f, "{}", Word(c0))?;
        if c1 == 0 && c2 == 0 && c3 == 0 {
            return Ok(());
        }
        write!(f, ",{},{},{}", Word(c1), Word(c2), Word(c3))
    }
}

// Numerator, slash, denominator.
#[derive(Clone, Copy)]
pub struct Fraction(pub Frac);

impl Display for Fraction {
    ghost output = { λ f. Some (fraction_text f.0) };

    fn fmt<W: fmt::Write>(&self, f: &mut fmt::Formatter<W>) -> fmt::Result {
        write!(f, "{}/{}", Short(self.0.p), Short(self.0.q))
    }
}
