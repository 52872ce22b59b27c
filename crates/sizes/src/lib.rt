// Sizes, each once: the rounds of so many rows, and the room that so many rounds ask for.
#![tactic(auto)]

ghost use Rattle.std.specs.Prelude.{◌≡◌, cond, ◌*◌, ◌^◌, ◌≤◌};
ghost use Rattle.gkr.specs.Sizes as Sizes;
ghost use Rattle.refusal.specs.Limits.{max_rounds};
ghost use Rattle.sizes.specs.Sizes.{rounds_of, is_size, needed_words, log_room, work_room};

use refusal::MAX_ROUNDS;

// The rows that n rounds take.
pub fn rows_of(n: usize) -> usize
    requires { n ≤ max_rounds }
    ensures { result ≡ 2 ^ n }
{
    1 << n
}

// The least number of rounds that so many rows take, at most the limit.
pub fn rounds_of(count: usize) -> usize
    ensures least { result ≡ rounds_of count }
    ensures few { result ≤ max_rounds }
{
    for n in 0..MAX_ROUNDS {
        if count <= rows_of(n) {
            return n;
        }
    }
    MAX_ROUNDS
}

// Whether there are no rows, or a power of two of them.
pub fn is_size(count: usize) -> bool
    ensures { result ≡ is_size count }
{
    count == 0 || count == rows_of(rounds_of(count))
}

// The challenges that n rounds take, in words.
pub fn challenge_words(n: usize) -> usize
    requires { n ≤ max_rounds }
    ensures { result ≡ 4 * Sizes.challenges n }
{
    if n == 0 {
        0
    } else {
        4 * (2 * n - 1 + n * (n - 1) / 2)
    }
}

// The words of challenges that n rounds take from those lent: none where they are drawn.
pub fn needed_words(drawn: bool, n: usize) -> usize
    requires { n ≤ max_rounds }
    ensures { result ≡ needed_words drawn n }
{
    if drawn { 0 } else { challenge_words(n) }
}

// The bytes of the stored proof of n rounds.
pub fn proof_bytes(n: usize) -> usize
    requires { n ≤ max_rounds }
    ensures { result ≡ Sizes.proof_bytes n }
{
    if n == 0 {
        23
    } else {
        22 + 65 * n + 24 * (n * (n - 1))
    }
}

// The words of n, which a proof that binds its size logs first.
fn size_words(sized: bool) -> usize
    ensures { result ≡ cond sized 4 0 }
{
    if sized { 4 } else { 0 }
}

// The words that a run of n rounds logs: n only where the proof binds its size, root p only where zero is not asserted.
pub fn log_words(asserted: bool, sized: bool, n: usize) -> usize
    requires { n ≤ max_rounds }
    ensures { result ≡ log_room asserted sized n }
{
    if n == 0 {
        0
    } else {
        let base = size_words(sized) + (8 * (n * n) + 16 * n);
        if asserted { base } else { base + 4 }
    }
}

// The words of the workspace; no rows and one row need none.
pub fn work_words(n: usize) -> usize
    requires { n ≤ max_rounds }
    ensures { result ≡ work_room n }
{
    if n == 0 { 0 } else { 32 * rows_of(n) }
}
