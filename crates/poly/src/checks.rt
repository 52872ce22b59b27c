// The checks of the helpers over lists. Each helper asks them in document 01's order, and the first that fails answers.
ghost use Rattle.std.specs.Prelude.{◌≡◌, Ok, Err, ◌&&◌, ◌%◌, ◌^◌, ◌<◌, ◌≤◌, eqb, leb, IfOk};
ghost use Rattle.field.specs.Element.{canon_words};
ghost use Rattle.refusal.specs.Limits.{max_rounds, max_rows};
ghost use Rattle.refusal.specs.declared.Refusal.TheVariants.{TooManyRounds, TooManyRows};
ghost use Rattle.wire.specs.Words.{all_canonical};
ghost use Rattle.poly.specs.Checks.{unless, bad_word};

use field::{Ext, Field};
use refusal::{MAX_ROUNDS, MAX_ROWS, Refusal, Words};

// Refuses where the answer is no.
pub fn check(holds: bool, why: Refusal) -> Result<(), Refusal>
    ensures { result ≡ unless holds why (Ok tt) }
{
    if holds { Ok(()) } else { Err(why) }
}

// The limit on variables.
pub fn check_rounds(variables: usize) -> Result<(), Refusal>
    ensures { result ≡ unless (leb variables max_rounds) TooManyRounds (Ok tt) }
{
    check(variables <= MAX_ROUNDS, Refusal::TooManyRounds)
}

// The limit on entries or coefficients.
pub fn check_rows(entries: usize) -> Result<(), Refusal>
    ensures { result ≡ unless (leb entries max_rows) TooManyRows (Ok tt) }
{
    check(entries <= MAX_ROWS, Refusal::TooManyRows)
}

const BAD_WORD: Refusal = Refusal::BadWord {
    place: 0,
    list: Words::Own,
};

// The words of a list.
pub fn check_words(words: &[u32]) -> Result<(), Refusal>
    ensures { result ≡ unless (all_canonical words.now) bad_word (Ok tt) }
{
    check(wire::canonical_words(words), BAD_WORD)
}

// The words of an element given beside a list.
pub fn check_element(e: Ext) -> Result<(), Refusal>
    ensures { result ≡ unless (canon_words e) bad_word (Ok tt) }
{
    check(e.is_canonical(), BAD_WORD)
}

// 2^variables, and refused where these are over the limit.
#[tactic(auto, using(columns::specs::PowerLaws::power_le))]
pub fn cube(variables: usize) -> Result<usize, Refusal>
    ensures { IfOk result (λ n. n ≤ max_rows) × (variables ≤ max_rounds → result ≡ Ok (2 ^ variables)) × (max_rounds < variables → result ≡ Err TooManyRounds) }
{
    check_rounds(variables)?;
    Ok(sizes::rows_of(variables))
}

// Both lengths are of whole elements.
pub fn both_whole(a: usize, b: usize) -> bool
    ensures { result ≡ (eqb (a % 4) 0 && eqb (b % 4) 0) }
{
    a % 4 == 0 && b % 4 == 0
}

// Equal lengths, of whole elements.
pub fn equal_whole(a: usize, b: usize) -> bool
    ensures { result ≡ (eqb a b && eqb (a % 4) 0) }
{
    a == b && a % 4 == 0
}

// Five equal lengths, of whole elements.
pub fn five_whole(a: usize, b: usize, c: usize, d: usize, e: usize) -> bool
    ensures { result ≡ (eqb a b && (eqb a c && (eqb a d && (eqb a e && eqb (a % 4) 0)))) }
{
    a == b && a == c && a == d && a == e && a % 4 == 0
}
