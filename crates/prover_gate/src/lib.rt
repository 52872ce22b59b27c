// The prover's gate: refusals 1 to 7 in their order. What passes it is a sheet of canonical words, of a size that is taken, with room for all that a run writes.
#![tactic(auto)]

ghost use Rattle.std.specs.Prelude.{◌≡◌, ◌*◌, ◌≤◌, length};
ghost use Rattle.field.specs.Cells.{Clean};
ghost use Rattle.refusal.specs.Limits.{max_rounds};
ghost use Rattle.sizes.specs.Sizes.{row_count, rounds_of, is_size};
ghost use Rattle.prover_gate.specs.Refusals.{short_room, lowest_row, call, first_refusal, as_gate};

use field::Field;
use refusal::{Proving, Refusal, Words};

// The lengths of the rooms: proof bytes, and words of point, log and workspace.
#[derive(Clone, Copy)]
pub struct Rooms {
    pub proof: usize,
    pub point: usize,
    pub log: usize,
    pub work: usize,
}

// Whether there are no rows, or as many as their rounds take.
#[tactic(auto, unfolding(sizes::specs::Sizes::is_size))]
fn fills(count: usize, n: usize) -> bool
    requires { (n ≡ rounds_of count) × (n ≤ max_rounds) }
    ensures { result ≡ is_size count }
{
    count == 0 || count == sizes::rows_of(n)
}

// Whether a room is too short for n rounds.
#[tactic(auto, unfolding(crate::specs::Refusals::short_room))]
fn short_room(modes: Proving, n: usize, rooms: Rooms) -> bool
    requires { n ≤ max_rounds }
    ensures { result ≡ short_room modes.assert_zero modes.sized n rooms }
{
    rooms.proof < sizes::proof_bytes(n)
        || rooms.point < 4 * n
        || rooms.log < sizes::log_words(modes.assert_zero, modes.sized, n)
        || rooms.work < sizes::work_words(n)
}

// The lowest row over zero, whatever its numerator is.
fn lowest_row(rows: &[u32], count: usize) -> Option<usize>
    requires { (8 * count ≤ length rows.now) × Clean rows.now }
    ensures { result ≡ lowest_row rows.now count }
{
    for row in 0..count {
        if prover_tree::load_node(rows, row).q.is_zero() {
            return Some(row);
        }
    }
    None
}

// The first refusal that fits, or the rounds of the sheet.
#[tactic(auto, using(crate::proofs::Admitting::searches), unfolding(crate::specs::Refusals::first_refusal, refusal::specs::Tests::first_of))]
pub fn first_refusal(
    rows: &[u32],
    modes: Proving,
    challenges: &[u32],
    rooms: Rooms,
) -> Result<usize, Refusal>
    ensures { result ≡ as_gate (row_count rows.now) (first_refusal (call rows.now modes challenges.now) rooms) }
{
    let count = rows.len() / 8;
    if rows.len() % 8 != 0 {
        return Err(Refusal::RaggedRows);
    }
    if refusal::MAX_ROWS < count {
        return Err(Refusal::TooManyRows);
    }
    let n = sizes::rounds_of(count);
    if !fills(count, n) {
        return Err(Refusal::NotPowerOfTwo);
    }
    let need = sizes::needed_words(modes.drawn, n);
    let needed = challenges.get(..need).ok_or(Refusal::ShortChallenges)?;
    if short_room(modes, n, rooms) {
        return Err(Refusal::ShortRoom);
    }
    if let Some(place) = wire::first_bad_word(rows) {
        return Err(Refusal::BadWord {
            place,
            list: Words::Rows,
        });
    }
    if let Some(place) = wire::first_bad_word(needed) {
        return Err(Refusal::BadWord {
            place,
            list: Words::Challenges,
        });
    }
    if modes.live
        && let Some(row) = lowest_row(rows, count)
    {
        return Err(Refusal::ZeroDenominator { row });
    }
    Ok(n)
}
