// How much room a run asks for, so that a caller can size buffers: 0 for more rounds than are taken.
ghost use Rattle.std.specs.Prelude.{◌≡◌};
ghost use Rattle.accudrina.specs.Rooms as Rooms;

use crate::modes::{ASSERT_ZERO, SIZED, has};
use refusal::MAX_ROUNDS;

// The bytes of a stored proof of so many rounds.
#[unsafe(no_mangle)]
pub extern "C" fn accudrina_proof_bytes(rounds: usize) -> usize
    ensures { result ≡ Rooms.bytes_of_proof rounds }
{
    if rounds > MAX_ROUNDS {
        0
    } else {
        sizes::proof_bytes(rounds)
    }
}

// The words of the point: four a round.
#[unsafe(no_mangle)]
pub extern "C" fn accudrina_point_words(rounds: usize) -> usize
    ensures { result ≡ Rooms.words_of_point rounds }
{
    if rounds > MAX_ROUNDS { 0 } else { 4 * rounds }
}

// The words of the log in these modes: four more where the sum is observed, since zero is not asserted, and four more where the size is; other bits are not looked at.
#[unsafe(no_mangle)]
pub extern "C" fn accudrina_log_words(rounds: usize, modes: u32) -> usize
    ensures { result ≡ Rooms.words_of_log rounds modes }
{
    if rounds > MAX_ROUNDS {
        0
    } else {
        sizes::log_words(has(modes, ASSERT_ZERO), has(modes, SIZED), rounds)
    }
}

// The words of the prover's workspace.
#[unsafe(no_mangle)]
pub extern "C" fn accudrina_workspace_words(rounds: usize) -> usize
    ensures { result ≡ Rooms.words_of_workspace rounds }
{
    if rounds > MAX_ROUNDS {
        0
    } else {
        sizes::work_words(rounds)
    }
}

// The words of the challenges that a run takes.
#[unsafe(no_mangle)]
pub extern "C" fn accudrina_challenge_words(rounds: usize) -> usize
    ensures { result ≡ Rooms.challenge_words rounds }
{
    if rounds > MAX_ROUNDS {
        0
    } else {
        sizes::challenge_words(rounds)
    }
}

// The rounds of so many rows: 0 for no rows and for one, one more than are taken for a number of rows that is refused.
#[unsafe(no_mangle)]
pub extern "C" fn accudrina_rounds(rows: usize) -> usize
    ensures { result ≡ Rooms.rounds rows }
{
    if sizes::is_size(rows) {
        sizes::rounds_of(rows)
    } else {
        MAX_ROUNDS + 1
    }
}
