// Words in bytes, the highest byte first, and the search for a word that is not canonical.
#![tactic(auto)]

ghost use Rattle.std.specs.Prelude.{◌≡◌, [], ◌∷◌, ◌++◌, ◌+◌, ◌*◌, ◌≤◌, length, drop};
ghost use Rattle.wire.specs.Bytes.{be4, word, words_from, bytes_of, elem};
ghost use Rattle.wire.specs.Words.{all_canonical, bad_place};
ghost use Rattle.wire.specs.Written.{Wrote};

use field::{Base, Ext};

// The word whose four bytes stand from a place on.
pub fn word_at(bytes: &[u8], at: usize) -> u32
    requires { at + 4 ≤ length bytes.now }
    ensures { result ≡ word (drop at bytes.now) }
{
    u32::from_be_bytes([bytes[at], bytes[at + 1], bytes[at + 2], bytes[at + 3]])
}

// An element, its words not yet checked.
pub fn element_at(bytes: &[u8], at: usize) -> Ext
    requires { at + 16 ≤ length bytes.now }
    ensures { result ≡ elem (drop at bytes.now) }
{
    Ext {
        c0: word_at(bytes, at),
        c1: word_at(bytes, at + 4),
        c2: word_at(bytes, at + 8),
        c3: word_at(bytes, at + 12),
    }
}

// The four bytes of a word go in at a place; the place after them.
pub fn put_word(out: &mut [u8], at: usize, w: u32) -> usize
    requires { at + 4 ≤ length out.old }
    ensures { Wrote out.old out.new at result (be4 w) }
{
    out[at..at + 4].copy_from_slice(&w.to_be_bytes());
    at + 4
}

// A byte goes in at a place; the place after it.
pub fn put_byte(out: &mut [u8], at: usize, b: u8) -> usize
    requires { at + 1 ≤ length out.old }
    ensures { Wrote out.old out.new at result (b ∷ []) }
{
    out[at] = b;
    at + 1
}

// The n words stored from a place on, to the front of the words.
pub fn copy_words(bytes: &[u8], at: usize, words: &mut [u32], n: usize)
    requires { (at + 4 * n ≤ length bytes.now) × (n ≤ length words.old) }
    ensures { words.new ≡ words_from n (drop at bytes.now) ++ drop n words.old }
{
    for i in 0..n {
        words[i] = word_at(bytes, at + 4 * i);
    }
}

// The bytes of the words go in one after the other from a place on; the place after them.
pub fn put_words(out: &mut [u8], at: usize, words: &[u32]) -> usize
    requires { at + 4 * length words.now ≤ length out.old }
    ensures { Wrote out.old out.new at result (bytes_of words.now) }
{
    let mut p = at;
    for word in words {
        p = put_word(out, p, *word);
    }
    p
}

// Whether each word is canonical.
pub fn canonical_words(words: &[u32]) -> bool
    ensures { result ≡ all_canonical words.now }
{
    words.iter().all(|w| *w < Base::ORDER_U32)
}

// The place of the first word that is not canonical; none where there is none.
pub fn first_bad_word(words: &[u32]) -> Option<usize>
    ensures { result ≡ bad_place words.now }
{
    words.iter().position(|w| *w >= Base::ORDER_U32)
}

// The same among the n words stored from a place of the bytes on.
pub fn first_bad_stored(bytes: &[u8], at: usize, n: usize) -> Option<usize>
    requires { at + 4 * n ≤ length bytes.now }
    ensures { result ≡ bad_place (words_from n (drop at bytes.now)) }
{
    for i in 0..n {
        if word_at(bytes, at + 4 * i) >= Base::ORDER_U32 {
            return Some(i);
        }
    }
    None
}
