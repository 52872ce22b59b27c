// The claims of an accepted proof beside a sheet's own values at the point.
ghost use Rattle.std.specs.Prelude.{◌≡◌, if◌then◌else◌, ◌*◌, ◌^◌, ◌==◌, min, nat_lt, length};
ghost use Rattle.io.specs.Counts.{IsPrefixLen};
ghost use Rattle.refusal.specs.Limits.{max_rounds};

use answers::{Accepted, print, say};
use command_files::fault::Fault;
use command_files::inputs::read_sheet;
use std::fmt;
use std::rt::Files;

// The rows that a proof of so many rounds is about: none for no rounds, and 0 where there is no such proof.
fn rows_about(rounds: usize) -> usize
    ensures { result ≡ if rounds == 0 then 0 else if nat_lt max_rounds rounds then 0 else 2 ^ rounds }
{
    if rounds == 0 || rounds > refusal::MAX_ROUNDS {
        return 0;
    }
    1 << rounds
}

// A sheet of so many rows that no proof of so many rounds is about.
#[derive(Clone, Copy)]
struct Sizes {
    rows: usize,
    rounds: usize,
}

impl fmt::Display for Sizes {
    fn fmt<W: fmt::Write>(&self, f: &mut fmt::Formatter<W>) -> fmt::Result {
        let Sizes { rows, rounds } = *self;
        write!(
            f,
            "refused: the sheet has {rows} rows, and a proof of {rounds} rounds is about {}",
            rows_about(rounds)
        )
    }
}

// The words of the point of so many rounds, as far as it goes.
fn point_words(point: &[u32], rounds: usize) -> usize
    ensures { (result ≡ min (4 * rounds) (length point.now)) × IsPrefixLen result point.now }
{
    rounds.saturating_mul(4).min(point.len())
}

// Whether the claims are those of the rows; none where the sizes do not fit. One row has no rounds either.
fn compare(rows: &[u32], accepted: Accepted<'_>) -> Option<bool> {
    let Accepted {
        stated,
        point,
        rounds,
    } = accepted;
    if rounds == 0 && !rows.is_empty() {
        return None;
    }
    let n = point_words(point, rounds);
    claims::compare(rows, &point[..n], stated).ok()
}

// The name of the sheet, an empty one for none, and an accepted proof.
pub fn compare_sheet<'a>(
    rt: &impl Files,
    sheet: &'a [u8],
    accepted: Accepted<'_>,
) -> Result<(), Fault<'a>> {
    if sheet.is_empty() {
        return Ok(());
    }
    let mut rows = [0u32; 8192];
    let n = read_sheet(rt, sheet, &mut rows)?;
    match compare(&rows[..n], accepted) {
        Some(true) => print("claims match the sheet\n"),
        Some(false) => print("refused: the claims are not the sheet's\n"),
        None => say(Sizes {
            rows: n / 8,
            rounds: accepted.rounds,
        }),
    }
    Ok(())
}

// As `compare_sheet`, and what stops the comparison is told.
pub fn compare_or_tell(rt: &impl Files, sheet: &[u8], accepted: Accepted<'_>) {
    if let Err(fault) = compare_sheet(rt, sheet, accepted) {
        fault.tell();
    }
}
