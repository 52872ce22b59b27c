// Lists of fractions, and of elements, as text, read into words.
// A line is `p q` or `p/q`, or one element; blank lines, and lines that begin with #, are skipped.
// An element is a number below the prime, `-k` for minus k, or its four words `c0,c1,c2,c3`.
#![tactic(auto)]

pub mod scan; // words and elements at a place of a text
pub mod lines; // what a line says
pub mod list; // all lines of a text, into words

use field::Ext;

// A number, and the place after its digits.
// Stays: three structs and not one with a type parameter, since clauses name a word and an element, and an alias is no name there.
#[derive(Clone, Copy)]
pub struct Number {
    pub value: u64,
    pub at: usize,
}

// A word or an element, and the place after it: what a reader answers, by Ok where one stands there, and by Err where none does.
#[derive(Clone, Copy)]
pub struct Word {
    pub value: u32,
    pub at: usize,
}

#[derive(Clone, Copy)]
pub struct Element {
    pub value: Ext,
    pub at: usize,
}

// What a good line says.
#[derive(Clone, Copy)]
pub enum Line {
    Skipped,
    Single(Ext),
    Fraction { p: Ext, q: Ext },
}

// Why a line is not put into the words: it is none of their kind, or it finds no room.
#[derive(Clone, Copy, Debug, PartialEq, Eq)]
pub enum PlaceError {
    Other,
    Full,
}

// Why a list is not read: the number, from 1, of the first line that is none of its kind, or that finds no room.
#[derive(Clone, Copy, Debug, PartialEq, Eq)]
pub enum ListError {
    Malformed(usize),
    Full(usize),
}
