// The stored form of a sheet: read into words, and written from them.
#![tactic(auto)]

ghost use Rattle.std.specs.Prelude.{◌≡◌, true, cond, [], ◌+◌, ◌*◌, ◌<◌, ◌≤◌, eqb, length, MatchResult};
ghost use Rattle.refusal.specs.Powers.{power_of_two};
ghost use Rattle.refusal.specs.Tests.{passed, refused, first_of};
ghost use Rattle.wire.specs.Written.{Wrote};
ghost use Rattle.stored_sheet.specs.Report.{sheet_report};
ghost use Rattle.stored_sheet.specs.Sheet.{sheet};
ghost use Rattle.stored_sheet.specs.SheetReads.{sized, read_answer, write_answer, sheet_read, sheet_written, sheet_end};

use field::{Ext, Field};
use refusal::{Refusal, Report, Words};

// The answer of reader or writer as document 01 has it: its number, and its values.
pub fn number_and_values(answer: Result<usize, Refusal>) -> Report
    ensures { result ≡ sheet_report answer }
{
    match answer {
        Ok(count) => refusal::done(count, Ext::ZERO, Ext::ZERO),
        Err(refusal) => Report::from(refusal),
    }
}

// Stays: sizes::is_size is false of each power of two above the limit, and this is the table's test on any count.
fn zero_or_power(count: usize) -> bool
    ensures { result ≡ cond (eqb count 0) true (power_of_two count) }
{
    count == 0 || refusal::power_of_two(count)
}

// The tests that reader and writer share: on the count of rows, and on the room for what they need.
fn check_size(count: usize, need: usize, room: usize) -> Result<(), Refusal>
    ensures { MatchResult result (λ _. first_of (sized count need room []) ≡ passed) (λ e. first_of (sized count need room []) ≡ refused e) }
{
    if refusal::MAX_ROWS < count {
        Err(Refusal::TooManyRows)
    } else if !zero_or_power(count) {
        Err(Refusal::NotPowerOfTwo)
    } else if room < need {
        Err(Refusal::ShortRoom)
    } else {
        Ok(())
    }
}

// The reader's answer for a buffer of so many words.
fn check_sheet(bytes: &[u8], room: usize) -> Result<usize, Refusal>
    ensures { result ≡ read_answer bytes.now room }
{
    let count = match bytes {
        [1, high, low, ..] => usize::from(u16::from_be_bytes([*high, *low])),
        [1, ..] => return Err(Refusal::BadLength),
        _ => return Err(Refusal::BadVersion),
    };
    if bytes.len() != 3 + 32 * count {
        return Err(Refusal::BadLength);
    }
    check_size(count, 8 * count, room)?;
    if let Some(place) = wire::first_bad_stored(bytes, 3, 8 * count) {
        return Err(Refusal::BadWord {
            place,
            list: Words::Rows,
        });
    }
    Ok(count)
}

// Reads a stored sheet into the rows; Ok has the row count.
pub fn read_sheet(bytes: &[u8], rows: &mut [u32]) -> Result<usize, Refusal>
    ensures { record { answer = result; buffer = rows.new } ≡ sheet_read bytes.now rows.old }
{
    let count = check_sheet(bytes, rows.len())?;
    wire::copy_words(bytes, 3, rows, 8 * count);
    Ok(count)
}

// The writer's answer for a buffer of so many bytes.
fn check_rows(rows: &[u32], room: usize) -> Result<usize, Refusal>
    ensures { result ≡ write_answer rows.now room }
{
    if rows.len() % 8 != 0 {
        return Err(Refusal::RaggedRows);
    }
    let bytes = 3 + 4 * rows.len();
    check_size(rows.len() / 8, bytes, room)?;
    if let Some(place) = wire::first_bad_word(rows) {
        return Err(Refusal::BadWord {
            place,
            list: Words::Rows,
        });
    }
    Ok(bytes)
}

fn put_sheet(out: &mut [u8], rows: &[u32]) -> usize
    requires { (3 + 4 * length rows.now ≤ length out.old) × (length rows.now < 65536) }
    ensures { Wrote out.old out.new 0 result (sheet rows.now) }
{
    let [high, low] = ((rows.len() / 8) as u16).to_be_bytes();
    let a = wire::put_byte(out, 0, 1);
    let b = wire::put_byte(out, a, high);
    let c = wire::put_byte(out, b, low);
    wire::put_words(out, c, rows)
}

// Writes the rows as a stored sheet; Ok has the number of bytes.
pub fn write_sheet(rows: &[u32], out: &mut [u8]) -> Result<usize, Refusal>
    ensures { record { answer = result; buffer = out.new } ≡ sheet_written rows.now out.old }
{
    let bytes = check_rows(rows, out.len())?;
    put_sheet(out, rows);
    Ok(bytes)
}
