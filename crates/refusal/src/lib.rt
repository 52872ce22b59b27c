// The refusals of every call, by document 01's names, and the number and fields of each; and the limits on sizes.
#![tactic(auto)]

ghost use Rattle.std.specs.Prelude.{◌≡◌, ◌^◌};
ghost use Rattle.refusal.specs.Limits.{max_rounds, max_rows};
ghost use Rattle.refusal.specs.Numbers.{plain, elements, report_of};
ghost use Rattle.refusal.specs.Powers.{power_of_two};

use field::{Ext, Field};

// The most rounds, and so the most rows, that a call takes.
pub const MAX_ROUNDS: usize = 10;

pub const MAX_ROWS: usize = 1024;

// The limit of the definitions that MAX_ROUNDS is.
pub fn most_rounds() -> usize
    ensures { result ≡ max_rounds }
{
    MAX_ROUNDS
}

// The one that MAX_ROWS is: 2 to the power of the other.
pub fn most_rows() -> usize
    ensures { (result ≡ max_rows) × (result ≡ 2 ^ max_rounds) }
{
    MAX_ROWS
}

// How a sheet is proved: whether a row over zero is refused, whether the sum's numerator must be zero, whether challenges are drawn, and whether the proof binds its size.
#[derive(Clone, Copy)]
pub struct Proving {
    pub live: bool,
    pub assert_zero: bool,
    pub drawn: bool,
    pub sized: bool,
}

// How a proof is verified: whether a root over zero is refused, whether challenges are drawn, and whether 0 rounds are valid.
#[derive(Clone, Copy)]
pub struct Verifying {
    pub live: bool,
    pub drawn: bool,
    pub empty: bool,
}

// The list that a word stands in which is not canonical: the rows, the proof's elements, the challenges, the point of an evaluation, or a list of a helper's own.
// A helper's own lists have no number.
#[derive(Clone, Copy)]
pub enum Words {
    Own = 0,
    Rows = 1,
    Proof = 2,
    Challenges = 3,
    Point = 4,
}

#[derive(Clone, Copy)]
pub enum Refusal {
    RaggedRows,
    TooManyRows,
    NotPowerOfTwo,
    ShortChallenges,
    ShortRoom,
    BadWord {
        place: usize,
        list: Words,
    },
    ZeroDenominator {
        row: usize,
    },
    NonZeroRootSum,
    SingleRow,
    ZeroRounds,
    TooManyRounds,
    BadVersion,
    BadLength,
    IncorrectLayerCount {
        expected: usize,
        actual: usize,
    },
    IncorrectSumcheckPolyCount {
        expected: usize,
        actual: usize,
    },
    ZeroCheckFailed {
        actual: Ext,
    },
    RootConsistencyCheckFailed {
        expected: Ext,
        actual: Ext,
    },
    IncorrectSubroundCount {
        round: usize,
        expected: usize,
        actual: usize,
    },
    LayerConsistencyCheckFailed {
        round: usize,
        expected: Ext,
        actual: Ext,
    },
    InvalidZeroRoundValue {
        actual: Ext,
    },
    LogMismatch {
        place: usize,
    },
    LogShort {
        place: usize,
    },
    LogLong {
        place: usize,
    },
    ZeroRoot,
}

// A refusal as document 01's table has it: its number, its plain fields and its elements in order, zero where it has none.
#[derive(Clone, Copy)]
pub struct Report {
    pub number: u32,
    pub first: usize,
    pub second: usize,
    pub third: usize,
    pub left: Ext,
    pub right: Ext,
}

fn plain(number: u32, first: usize, second: usize, third: usize) -> Report
    ensures { result ≡ plain number first second third }
{
    Report {
        number,
        first,
        second,
        third,
        left: Ext::ZERO,
        right: Ext::ZERO,
    }
}

fn elements(number: u32, first: usize, left: Ext, right: Ext) -> Report
    ensures { result ≡ elements number first left right }
{
    Report {
        left,
        right,
        ..plain(number, first, 0, 0)
    }
}

// The number 0 with what a call is done with: a count and up to two elements.
pub fn done(first: usize, left: Ext, right: Ext) -> Report
    ensures { result ≡ elements 0 first left right }
{
    elements(0, first, left, right)
}

// A refusal's number, and its fields, zero where there are none.
impl From<Refusal> for Report {
    ghost from_gives = { λ refusal report. report ≡ report_of refusal };

    fn from(refusal: Refusal) -> Report {
        match refusal {
            Refusal::RaggedRows => plain(1, 0, 0, 0),
            Refusal::TooManyRows => plain(2, 0, 0, 0),
            Refusal::NotPowerOfTwo => plain(3, 0, 0, 0),
            Refusal::ShortChallenges => plain(4, 0, 0, 0),
            Refusal::ShortRoom => plain(5, 0, 0, 0),
            Refusal::BadWord { place, list } => plain(6, place, list as usize, 0),
            Refusal::ZeroDenominator { row } => plain(7, row, 0, 0),
            Refusal::NonZeroRootSum => plain(8, 0, 0, 0),
            Refusal::SingleRow => plain(9, 0, 0, 0),
            Refusal::ZeroRounds => plain(10, 0, 0, 0),
            Refusal::TooManyRounds => plain(11, 0, 0, 0),
            Refusal::BadVersion => plain(12, 0, 0, 0),
            Refusal::BadLength => plain(13, 0, 0, 0),
            Refusal::IncorrectLayerCount { expected, actual } => plain(14, expected, actual, 0),
            Refusal::IncorrectSumcheckPolyCount { expected, actual } => plain(
                15, expected, actual, 0,
            ),
            Refusal::ZeroCheckFailed { actual } => elements(16, 0, actual, Ext::ZERO),
            Refusal::RootConsistencyCheckFailed { expected, actual } => elements(
                17, 0, expected, actual,
            ),
            Refusal::IncorrectSubroundCount {
                round,
                expected,
                actual,
            } => plain(18, round, expected, actual),
            Refusal::LayerConsistencyCheckFailed {
                round,
                expected,
                actual,
            } => elements(19, round, expected, actual),
            Refusal::InvalidZeroRoundValue { actual } => elements(22, 0, actual, Ext::ZERO),
            Refusal::LogMismatch { place } => plain(24, place, 0, 0),
            Refusal::LogShort { place } => plain(25, place, 0, 0),
            Refusal::LogLong { place } => plain(26, place, 0, 0),
            Refusal::ZeroRoot => plain(27, 0, 0, 0),
        }
    }
}

// Whether n is 1, 2, 4, 8, ..
#[tactic(auto, using(crate::proofs::Bits::bits_say), unfolding(crate::specs::Powers::any_power))]
pub fn power_of_two(n: usize) -> bool
    ensures { result ≡ power_of_two n }
{
    n.is_power_of_two()
}
