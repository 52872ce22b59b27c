// All lines of a text, into words.
ghost use Rattle.std.specs.Prelude.{◌≡◌, ◌+◌, ◌<◌, ◌≤◌, ◌==◌, min, length, drop, position, IfSome, IfOk, MatchResult};
ghost use Rattle.std.proofs.lemmas.List.Edits.{sets};
ghost use Rattle.wire.specs.Words.{ext_words};
ghost use Rattle.sheet_text.specs.Lines.{line_of};
ghost use Rattle.sheet_text.specs.Reading.{length_to, put_single, put_fraction, put_line, error_at, list_read};

use crate::lines::read_line;
use crate::{Line, ListError, PlaceError};
use field::Ext;

// The place of the first byte b.
fn first(text: &[u8], b: u8) -> Option<usize>
    ensures place { result ≡ position (λ x. x == b) text.now }
    ensures within { IfSome result (λ n. n < length text.now) }
{
    text.iter().position(|x| *x == b)
}

// The place of the next byte b from `at` on, or the length.
pub fn find(text: &[u8], at: usize, b: u8) -> usize
    requires { at ≤ length text.now }
    ensures { (result ≡ at + length_to b (drop at text.now)) × (result ≤ length text.now) }
{
    // Stays: the length where none follows, as its contract and the definition `length_to` have it; `first` answers whether there is one.
    match first(&text[at..], b) {
        Some(n) => at + n,
        None => text.len(),
    }
}

fn put_element(words: &mut [u32], at: usize, e: Ext)
    requires { at + 4 ≤ length words.old }
    ensures { words.new ≡ sets words.old at (ext_words e) }
{
    words[at..at + 4].copy_from_slice(&[e.c0, e.c1, e.c2, e.c3]);
}

#[tactic(auto, unfolding(crate::specs::Reading::put_single))]
fn put_single(words: &mut [u32], at: usize, e: Ext) -> Result<usize, PlaceError>
    requires { at ≤ length words.old }
    ensures { record { answer = result; words = words.new } ≡ put_single at words.old e }
{
    if words.len() - at < 4 {
        return Err(PlaceError::Full);
    }
    put_element(words, at, e);
    Ok(at + 4)
}

// Stays: not two calls of `put_single`, since a fraction that does not fit leaves the words as they are (`Reading.put_fraction`).
#[tactic(auto, unfolding(crate::specs::Reading::put_fraction))]
fn put_fraction(words: &mut [u32], at: usize, p: Ext, q: Ext) -> Result<usize, PlaceError>
    requires { at ≤ length words.old }
    ensures { record { answer = result; words = words.new } ≡ put_fraction at words.old p q }
{
    if words.len() - at < 8 {
        return Err(PlaceError::Full);
    }
    put_element(words, at, p);
    put_element(words, at + 4, q);
    Ok(at + 8)
}

// A line into the words from a place on: a fraction where pairs are read, an element where they are not; the place after it.
#[tactic(auto, unfolding(crate::specs::Reading::put_line))]
fn put_line(words: &mut [u32], at: usize, line: &[u8], pairs: bool) -> Result<usize, PlaceError>
    requires { at ≤ length words.old }
    ensures { record { answer = result; words = words.new } ≡ put_line pairs at words.old (line_of line.now) }
{
    match read_line(line) {
        Some(Line::Skipped) => Ok(at),
        Some(Line::Single(e)) if !pairs => put_single(words, at, e),
        Some(Line::Fraction { p, q }) if pairs => put_fraction(words, at, p, q),
        _ => Err(PlaceError::Other),
    }
}

// The place after this one, or the length.
pub fn beyond(at: usize, length: usize) -> usize
    ensures { result ≡ min (at + 1) «length» }
{
    at.saturating_add(1).min(length)
}

// The same of a list: why a line is not put, with its number.
fn numbered(placed: Result<usize, PlaceError>, line: usize) -> Result<usize, ListError>
    ensures { MatchResult placed (λ put. result ≡ Ok put) (λ e. result ≡ Err (error_at line e)) }
{
    placed.map_err(|e| match e {
        PlaceError::Other => ListError::Malformed(line),
        PlaceError::Full => ListError::Full(line),
    })
}

// Every line of a text, fractions or single elements, into the words from the front on: how many words they are.
pub fn read_list(text: &[u8], words: &mut [u32], pairs: bool) -> Result<usize, ListError>
    ensures words_after { record { answer = result; words = words.new } ≡ list_read pairs text.now words.old }
    ensures within { IfOk result (λ count. count ≤ length words.new) }
{
    let mut put = 0;
    for (i, line) in text.split(|b| *b == b'\n').enumerate() {
        put = numbered(put_line(words, put, line, pairs), i + 1)?;
    }
    Ok(put)
}
