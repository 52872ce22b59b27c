// The words of each refusal: `refused`, its number, its name, and what it means.
use crate::bad_words::BadWord;
use crate::{Short, log_places, places};
use field::{Ext, Field};
use refusal::{Refusal, Report};
use std::fmt;

// What was expected and what is there, after what was counted.
#[derive(Clone, Copy)]
struct Counts {
    expected: usize,
    actual: usize,
}

impl fmt::Display for Counts {
    fn fmt<W: fmt::Write>(&self, f: &mut fmt::Formatter<W>) -> fmt::Result {
        write!(f, ": expected {}, actual {}", self.expected, self.actual)
    }
}

// The same of elements.
#[derive(Clone, Copy)]
struct Elements {
    expected: Ext,
    actual: Ext,
}

impl fmt::Display for Elements {
    fn fmt<W: fmt::Write>(&self, f: &mut fmt::Formatter<W>) -> fmt::Result {
        write!(
            f,
            ": expected {}, actual {}",
            Short(self.expected),
            Short(self.actual)
        )
    }
}

// The name of a refusal and what it means.
#[derive(Clone, Copy)]
struct Meaning(Refusal);

impl fmt::Display for Meaning {
    fn fmt<W: fmt::Write>(&self, f: &mut fmt::Formatter<W>) -> fmt::Result {
        // Stays: one arm for each refusal, so that a new one asks for its words; in parts each part would need an arm for the others.
        match self.0 {
            Refusal::RaggedRows => write!(
                f,
                "RaggedRows: the words of the rows are no multiple of eight"
            ),
            Refusal::TooManyRows => write!(f, "TooManyRows: more than 1024 rows"),
            Refusal::NotPowerOfTwo => {
                f.write_str("NotPowerOfTwo: the number of rows is neither 0 nor a power of two")?;
                f.write_str(" (rows 0/1 can be added, they leave the sum as it is)")
            }
            Refusal::ShortChallenges => write!(
                f,
                "ShortChallenges: there are fewer challenges than the rounds need"
            ),
            Refusal::ShortRoom => write!(
                f,
                "ShortRoom: a buffer is too short for what it has to hold"
            ),
            Refusal::BadWord { place, list } => {
                write!(f, "BadWord: {}", BadWord { place, list })
            }
            Refusal::ZeroDenominator { row } => write!(
                f,
                "ZeroDenominator: row {row} has a denominator of zero (rows are counted from 0; live mode)"
            ),
            Refusal::NonZeroRootSum => write!(
                f,
                "NonZeroRootSum: the numerator of the sum is not zero, and zero was asserted"
            ),
            Refusal::SingleRow => write!(f, "SingleRow: a sheet of one row has no round to prove"),
            Refusal::ZeroRounds => write!(f, "ZeroRounds: a proof of 0 rounds is not verified"),
            Refusal::TooManyRounds => write!(f, "TooManyRounds: more than 10 rounds"),
            Refusal::BadVersion => write!(
                f,
                "BadVersion: the first byte is missing, or is no version: 1 of a sheet, 1 or 2 of a proof"
            ),
            Refusal::BadLength => write!(
                f,
                "BadLength: a stored length or count disagrees with the bytes that are there"
            ),
            Refusal::IncorrectLayerCount { expected, actual } => write!(
                f,
                "IncorrectLayerCount: the number of layers in the proof{}",
                Counts { expected, actual }
            ),
            Refusal::IncorrectSumcheckPolyCount { expected, actual } => write!(
                f,
                "IncorrectSumcheckPolyCount: the number of polynomial entries in the proof{}",
                Counts { expected, actual }
            ),
            Refusal::ZeroCheckFailed { actual } => write!(
                f,
                "ZeroCheckFailed: the numerator of the sum{}",
                Elements {
                    expected: Ext::ZERO,
                    actual
                }
            ),
            Refusal::RootConsistencyCheckFailed { expected, actual } => write!(
                f,
                "RootConsistencyCheckFailed: the denominator of the sum, as stated and as layer 0 has it{}",
                Elements { expected, actual }
            ),
            Refusal::IncorrectSubroundCount {
                round,
                expected,
                actual,
            } => write!(
                f,
                "IncorrectSubroundCount: the number of sub-rounds in round {round}{}",
                Counts { expected, actual }
            ),
            Refusal::LayerConsistencyCheckFailed {
                round,
                expected,
                actual,
            } => write!(
                f,
                "LayerConsistencyCheckFailed: the claim of round {round}, as its layer has it and as its sub-rounds reach it{}",
                Elements { expected, actual }
            ),
            Refusal::InvalidZeroRoundValue { actual } => write!(
                f,
                "InvalidZeroRoundValue: the denominator of the sum of no rows{}",
                Elements {
                    expected: Ext::ONE,
                    actual
                }
            ),
            Refusal::LogMismatch { place } => write!(
                f,
                "LogMismatch: the log differs at its word {place}, counted from 0"
            ),
            Refusal::LogShort { place } => write!(
                f,
                "LogShort: the log ends before its word {place}, counted from 0, and the verifier's goes on"
            ),
            Refusal::LogLong { place } => write!(
                f,
                "LogLong: the log goes on at its word {place}, counted from 0, and the verifier's has ended"
            ),
            Refusal::ZeroRoot => write!(
                f,
                "ZeroRoot: the denominator of the sum is zero, so that the proof says nothing about the rows (live mode)"
            ),
        }
    }
}

// The words of a refusal.
#[derive(Clone, Copy)]
pub struct Refused(pub Refusal);

impl fmt::Display for Refused {
    fn fmt<W: fmt::Write>(&self, f: &mut fmt::Formatter<W>) -> fmt::Result {
        let number = Report::from(self.0).number;
        write!(f, "refused {number} {}", Meaning(self.0))
    }
}

// The words of a refusal of a replay: a word of the log that differs, or is missing, by what it is of.
#[derive(Clone, Copy)]
pub struct Replayed {
    pub refusal: Refusal,
    pub sized: bool,
}

impl fmt::Display for Replayed {
    fn fmt<W: fmt::Write>(&self, f: &mut fmt::Formatter<W>) -> fmt::Result {
        write!(f, "{}", Refused(self.refusal))?;
        match self.refusal {
            Refusal::LogMismatch { place } | Refusal::LogShort { place } => {
                write!(f, ": {}", log_places::log_word(self.sized, place))
            }
            _ => Ok(()),
        }
    }
}

// The words of a bad word of a proof of so many layers, with so many sub-rounds in each entry: by its element's name.
#[derive(Clone, Copy)]
pub struct Named<'a> {
    pub place: usize,
    pub layers: usize,
    pub counts: &'a [usize],
}

impl fmt::Display for Named<'_> {
    fn fmt<W: fmt::Write>(&self, f: &mut fmt::Formatter<W>) -> fmt::Result {
        let word = places::proof_word(self.layers, self.counts, self.place);
        f.write_str("refused 6 ")?;
        write!(f, "BadWord: {word}, counted from 0")?;
        f.write_str(", is not below 2013265921")
    }
}
