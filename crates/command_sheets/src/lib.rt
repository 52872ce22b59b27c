// `show SHEET`: the fraction tree. `make TEXT SHEET`: a list of fractions becomes a sheet.
#![tactic(auto)]

ghost use Rattle.std.specs.Prelude.{◌≤◌, length, IfOk};

use crate::levels::show_rows;
use answers::say;
use command_files::fault::{Fault, Stop};
use command_files::inputs::read_sheet;
use command_files::{Input, front, read, replace_or_tell};
use refusal::Refusal;
use sheet_text::ListError;
use sheet_text::list::read_list;
use std::rt::Files;

pub mod levels; // the fraction tree, level by level

fn show_file<'a>(rt: &impl Files, sheet: &'a [u8]) -> Result<(), Fault<'a>> {
    let mut rows = [0u32; 8192];
    let n = read_sheet(rt, sheet, &mut rows)?;
    show_rows(&rows[..n]);
    Ok(())
}

// The name of the sheet.
pub fn show(rt: &impl Files, sheet: &[u8]) {
    if let Err(fault) = show_file(rt, sheet) {
        fault.tell();
    }
}

// The rows of a list of fractions, in the front of the rows; the name is that of the list.
fn read_rows<'a>(name: &'a [u8], list: &[u8], rows: &mut [u32]) -> Result<usize, Fault<'a>>
    ensures { IfOk result (λ n. n ≤ length rows.new) }
{
    read_list(list, rows, true).map_err(|error| match error {
        ListError::Full(_) => Fault::Refused(Refusal::TooManyRows),
        ListError::Malformed(line) => Fault::BadLine {
            path: name,
            line,
            kind: "a fraction p/q of elements",
        },
    })
}

fn keep_sheet<'a>(rt: &impl Files, rows: &[u32], path: &'a [u8]) -> Result<(), Stop<'a>> {
    let mut sheet = [0u8; 32771];
    let bytes = stored_sheet::write_sheet(rows, &mut sheet)?;
    let n = front(bytes, &sheet);
    replace_or_tell(rt, path, &sheet[..n])
}

fn make_file<'a>(rt: &impl Files, text: &'a [u8], sheet: &'a [u8]) -> Result<(), Stop<'a>> {
    let mut bytes = [0u8; 262144];
    let Input::Whole(length) = read(rt, text, &mut bytes)? else {
        return Err(Stop::Untold(Fault::TooLong {
            path: text,
            limit: " has more than 262144 bytes\n",
        }));
    };
    let mut rows = [0u32; 8192];
    let n = read_rows(text, &bytes[..length], &mut rows)?;
    keep_sheet(rt, &rows[..n], sheet)?;
    say(format_args!("rows {}", n / 8));
    Ok(())
}

// The names of the text and of the sheet.
pub fn make(rt: &impl Files, text: &[u8], sheet: &[u8]) {
    if let Err(stop) = make_file(rt, text, sheet) {
        stop.tell();
    }
}
