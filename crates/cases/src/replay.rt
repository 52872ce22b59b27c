// The cases of a text, one after the other; and the modes that a case names.
ghost use Rattle.std.specs.Prelude.{◌≡◌, ◌==◌, ◌/◌, ◌%◌, ◌<◌};

use crate::Cases;
use refusal::Verifying;

// Answers each case of a text.
// Stays: that an answer takes a byte of the text is no promise of a closure, so the turns are counted; a `while` would have to end.
pub fn replay<F: Fn(&mut Cases)>(text: &[u8], answer: F)
    requires { F.IsAlwaysCallable answer }
{
    let mut cases = Cases { text, at: 0 };
    for _ in 0..text.len() {
        if text.len() <= cases.at {
            return;
        }
        answer(&mut cases);
    }
}

// Answers each case of standard input, of the first N bytes.
pub fn replay_input<const N: usize, F: Fn(&mut Cases)>(answer: F)
    requires room { N < 9223372036854775808 }
    requires answers { F.IsAlwaysCallable answer }
{
    let mut text = [0u8; N];
    let n = io::read_full(0, &mut text);
    replay(&text[..n], answer);
}

// The word of modes has 1 where live, 4 where challenges are drawn, and 16 where 0 rounds are valid.
pub fn verifying(word: u64) -> Verifying
    ensures live { result.live ≡ (word % 2 == 1) }
    ensures drawn { result.drawn ≡ (word / 4 % 2 == 1) }
    ensures empty { result.empty ≡ (word / 16 % 2 == 1) }
{
    Verifying {
        live: word % 2 == 1,
        drawn: word / 4 % 2 == 1,
        empty: word / 16 % 2 == 1,
    }
}
