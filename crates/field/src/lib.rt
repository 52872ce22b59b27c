// Elements of the field as words: of the base one word, of the extension four; and cells of four words in slices.
#![tactic(auto)]

ghost use Rattle.std.specs.Prelude.{◌≡◌, ◌+◌, ◌*◌, ◌<◌, length};
ghost use Rattle.field.specs.Element.{dec, Canon, Is};
ghost use Rattle.field.specs.Cells.{cell, Clean, Stored};

mod words; // sums, differences and products of words
pub mod sums; // two products of elements, added before they are reduced
mod elements; // Field: what both types have
mod base_field; // Base: the public operations
mod constants; // the prime
mod inner; // Ext: the operations on canonical words
mod extension; // Ext: the public operations

pub use elements::Field;

// An element of the base field: the remainder of its word.
#[derive(Clone, Copy, PartialEq, Eq)]
pub struct Base {
    pub value: u32,
}

// An element of the extension: c0 + c1·x + c2·x² + c3·x³, each word by its remainder.
#[derive(Clone, Copy, PartialEq, Eq)]
pub struct Ext {
    pub c0: u32,
    pub c1: u32,
    pub c2: u32,
    pub c3: u32,
}

// The element in cell i: the words 4i to 4i + 3.
pub fn load(s: &[u32], i: usize) -> Ext
    requires room { 4 * i + 3 < length s.now }
    requires clean { Clean s.now }
    ensures { Is result (cell s.now i) }
{
    // Stays: a pattern of four words in a slice needs an arm for slices of another length, which never runs.
    let k = 4 * i;
    Ext {
        c0: s[k],
        c1: s[k + 1],
        c2: s[k + 2],
        c3: s[k + 3],
    }
}

// Puts e into cell i.
pub fn store(s: &mut [u32], i: usize, e: Ext)
    requires room { 4 * i + 3 < length s.old }
    requires clean { Clean s.old }
    requires canon { Canon e }
    ensures { Stored s.old s.new i (dec e) }
{
    // Stays: `copy_from_slice` is proved too, but the words go through memory twice, with a test that they do not overlap.
    let k = 4 * i;
    s[k] = e.c0;
    s[k + 1] = e.c1;
    s[k + 2] = e.c2;
    s[k + 3] = e.c3;
}
