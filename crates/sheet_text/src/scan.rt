// Words and elements at a place of a text. Each function takes any place, and answers where the text goes on.
ghost use Rattle.std.specs.Prelude.{◌≡◌, ◌≤◌};
ghost use Rattle.field.specs.Base.{P};
ghost use Rattle.sheet_text.specs.Scan.{digit_of, grown, number_at, is_space, spaces_at, after_byte, signed_word, found, told, word_at, next_word, element_at};

use crate::{Element, Number, Word};
use field::{Base, Ext};

fn digit(b: u8) -> u64
    ensures { result ≡ digit_of b }
{
    u64::from(b.wrapping_sub(b'0'))
}

// One digit more. A number that is not below the prime is taken as the prime.
fn grow(v: u64, d: u64) -> u64
    requires { (v ≤ P) × (d ≤ 9) }
    ensures { result ≡ grown v d }
{
    (10 * v + d).min(Base::ORDER_U64)
}

// The number whose digits begin at a place, and the place after them.
#[tactic(auto, unfolding(crate::specs::Scan::number_at))]
pub fn number_at(text: &[u8], at: usize) -> Number
    ensures { result ≡ number_at text.now at }
{
    let mut value = 0;
    for i in at..text.len() {
        let d = digit(text[i]);
        if 9 < d {
            return Number { value, at: i };
        }
        value = grow(value, d);
    }
    Number {
        value,
        at: at.max(text.len()),
    }
}

#[tactic(auto, unfolding(crate::specs::Scan::is_space))]
fn is_space(b: u8) -> bool
    ensures { result ≡ is_space b }
{
    matches!(b, b' ' | b'\t' | b'\r')
}

// The first place from `at` on that has no space, tab or carriage return.
#[tactic(auto, unfolding(crate::specs::Scan::spaces_at))]
pub fn skip_spaces(text: &[u8], at: usize) -> usize
    ensures { result ≡ spaces_at text.now at }
{
    for i in at..text.len() {
        if !is_space(text[i]) {
            return i;
        }
    }
    at.max(text.len())
}

// The place after the byte b, if b stands at this one.
#[tactic(auto, unfolding(crate::specs::Scan::after_byte))]
pub fn after(text: &[u8], at: usize, b: u8) -> usize
    ensures { result ≡ after_byte b text.now at }
{
    if at < text.len() && text[at] == b {
        at + 1
    } else {
        at
    }
}

#[tactic(auto, unfolding(crate::specs::Scan::signed_word))]
fn signed(minus: bool, v: u64) -> u32
    ensures { result ≡ signed_word minus v }
{
    let w = v % Base::ORDER_U64;
    if minus {
        ((Base::ORDER_U64 - w) % Base::ORDER_U64) as u32
    } else {
        w as u32
    }
}

// A value that is read, and whether it is good.
fn found<T>(good: bool, value: T) -> Result<T, T>
    ensures { result ≡ found good value }
{
    if good { Ok(value) } else { Err(value) }
}

// What is read, good or not.
fn told<T>(read: Result<T, T>) -> T
    ensures { result ≡ told read }
{
    match read {
        Ok(value) | Err(value) => value,
    }
}

// A word: digits of a number below the prime, after a minus or none. Where none stands, what the digits there say, and the place after them.
#[tactic(auto, unfolding(crate::specs::Scan::word_at))]
pub fn word_at(text: &[u8], at: usize) -> Result<Word, Word>
    ensures { result ≡ word_at text.now at }
{
    let from = after(text, at, b'-');
    let n = number_at(text, from);
    let word = Word {
        value: signed(at < from, n.value),
        at: n.at,
    };
    found(from < n.at && n.value < Base::ORDER_U64, word)
}

// The word that follows another one and a comma, good where all of this is there.
#[tactic(auto, unfolding(crate::specs::Scan::next_word))]
fn next_word(text: &[u8], w: Result<Word, Word>) -> Result<Word, Word>
    ensures { result ≡ next_word text.now w }
{
    let end = told(w).at;
    let from = after(text, end, b',');
    let n = word_at(text, from);
    found(w.is_ok() && end < from && n.is_ok(), told(n))
}

// An element: one word, or four with commas between them. Where none stands, what the words there say, and the place after them.
#[tactic(auto, unfolding(crate::specs::Scan::element_at))]
pub fn element_at(text: &[u8], at: usize) -> Result<Element, Element>
    ensures { result ≡ element_at text.now at }
{
    let a = word_at(text, at);
    let first = told(a);
    if after(text, first.at, b',') == first.at {
        let single = Element {
            value: Ext {
                c0: first.value,
                c1: 0,
                c2: 0,
                c3: 0,
            },
            at: first.at,
        };
        return found(a.is_ok(), single);
    }
    let b = next_word(text, a);
    let c = next_word(text, b);
    let d = next_word(text, c);
    let four = Element {
        value: Ext {
            c0: first.value,
            c1: told(b).value,
            c2: told(c).value,
            c3: told(d).value,
        },
        at: told(d).at,
    };
    found(d.is_ok(), four)
}
