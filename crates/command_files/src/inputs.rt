// A sheet's rows, and challenges, as words in a lent buffer: how many there are, or why there are none.
ghost use Rattle.std.specs.Prelude.{◌≡◌, false, length, IfOk};
ghost use Rattle.std.specs.Result.{result_ok};
ghost use Rattle.io.specs.Counts.{IsPrefixLen};
ghost use Rattle.stored_sheet.specs.SheetReads.{sheet_read};
ghost use Rattle.sheet_text.specs.Reading.{list_read};
ghost use Rattle.command_files.specs.Rows.{Rows};
ghost use Rattle.command_files.specs.Given.{rows_of, elements_of, sheet_given, elements_given, challenges_given, FromFile};

use crate::fault::Fault;
use crate::{Input, read};
use refusal::Refusal;
use sheet_text::ListError;
use sheet_text::list::read_list;
use std::rt::Files;

fn rows_of<'a>(sheet: &[u8], rows: &mut [u32]) -> Result<usize, Fault<'a>>
    ensures rows { IfOk result (λ n. Rows n rows.new) }
    ensures given { record { given = result_ok result; words = rows.new } ≡ rows_of (sheet_read sheet.now rows.old) }
{
    let count = stored_sheet::read_sheet(sheet, rows)?;
    Ok(8 * count)
}

// The rows of the sheet in a file. More bytes than those of 1,024 rows are refused as too many rows.
pub fn read_sheet<'a>(rt: &impl Files, path: &'a [u8], rows: &mut [u32]) -> Result<usize, Fault<'a>>
    ensures rows { IfOk result (λ n. Rows n rows.new) }
    ensures given { FromFile (sheet_given rows.old) (record { given = result_ok result; words = rows.new }) }
{
    let mut bytes = [0u8; 32771];
    match read(rt, path, &mut bytes)? {
        Input::Whole(n) => rows_of(&bytes[..n], rows),
        Input::Front(_) => Err(Fault::Refused(Refusal::TooManyRows)),
    }
}

fn elements_of<'a>(path: &'a [u8], text: &[u8], words: &mut [u32]) -> Result<usize, Fault<'a>>
    ensures prefix_len { IfOk result (λ n. IsPrefixLen n words.new) }
    ensures given { record { given = result_ok result; words = words.new } ≡ elements_of (list_read false text.now words.old) }
{
    match read_list(text, words, false) {
        Ok(count) => Ok(count),
        Err(ListError::Full(_)) => Ok(words.len()),
        Err(ListError::Malformed(line)) => Err(Fault::BadLine {
            path,
            line,
            kind: "an element",
        }),
    }
}

// The elements of a text, one to a line: of a longer text those that the words take. No run needs more than 64.
fn read_elements<'a>(rt: &impl Files, path: &'a [u8], words: &mut [u32]) -> Result<usize, Fault<'a>>
    ensures prefix_len { IfOk result (λ n. IsPrefixLen n words.new) }
    ensures given { FromFile (elements_given words.old) (record { given = result_ok result; words = words.new }) }
{
    let mut bytes = [0u8; 65536];
    match read(rt, path, &mut bytes)? {
        Input::Whole(n) | Input::Front(n) => elements_of(path, &bytes[..n], words),
    }
}

// The challenges of a text; into cleared words, where no text is named, challenge k, from 1, is the element k.
pub fn read_challenges<'a>(
    rt: &impl Files,
    path: &'a [u8],
    words: &mut [u32],
) -> Result<usize, Fault<'a>>
    ensures prefix_len { IfOk result (λ n. IsPrefixLen n words.new) }
    ensures given { FromFile (challenges_given (length path.now) words.old) (record { given = result_ok result; words = words.new }) }
{
    if path.is_empty() {
        answers::counting::count_up(words);
        Ok(words.len())
    } else {
        read_elements(rt, path, words)
    }
}
