// Loops over columns: lists of words, four to an entry. They take canonical words and rooms that were checked before.
// Stays: canonical words are a clause and not a type, since the slices are those that calls lend, and `field::load` and `field::store` take them plain.
#![tactic(auto)]

ghost use Rattle.std.specs.Prelude.{◌≡◌, ◌+◌, ◌*◌, ◌<◌, length};
ghost use Rattle.std.proofs.lemmas.List.Edits.{sets};
ghost use Rattle.field.specs.Element.{dec, words, Canon};

use field::Ext;

pub mod fold; // the fold of a column
pub mod eval; // the value of a table at a point, in place and by halves
pub mod eq; // eq of two points, and the table of weights
pub mod horner; // polynomials by their coefficients
pub mod round; // a sub-round's polynomial

// Puts e into cell i of a list that may hold any words.
pub fn put(s: &mut [u32], i: usize, e: Ext)
    requires room { 4 * i + 3 < length s.old }
    requires canon { Canon e }
    ensures { s.new ≡ sets s.old (4 * i) (words (dec e)) }
{
    s[4 * i..4 * i + 4].copy_from_slice(&[e.c0, e.c1, e.c2, e.c3]);
}
