// A file read whole into a buffer, and a file written whole or not at all.
#![tactic(auto)]

ghost use Rattle.std.specs.Prelude.{◌≡◌, ◌≤◌, min, length, IfSome, IfOk};
ghost use Rattle.io.specs.Counts.{IsPrefixLen};
ghost use Rattle.command_files.specs.Inputs.{bytes_read};

use crate::fault::{Fault, Stop};
use crate::system::{create_temp, fill, invalid, open_read, read_full, remove, rename, tell};
use std::io::{Error, Read};
use std::rt::Files;

pub mod fault; // why a command stops
pub mod inputs; // rows and challenges as words
pub mod logs; // a run's log
pub mod system; // the system's files, by their names in bytes

// How many bytes of a file were read: all of them, or those that the buffer takes.
#[derive(Clone, Copy)]
pub enum Input {
    Whole(usize),
    Front(usize),
}

fn read_from(rt: &impl Files, path: &[u8], buffer: &mut [u8]) -> Result<Input, Error>
    ensures { IfOk result (λ input. IsPrefixLen (bytes_read input) buffer.new) }
{
    let mut file = open_read(rt, path)?;
    let count = read_full(&mut file, buffer);
    let more = file.read(&mut [0u8; 1])? != 0;
    if more {
        Ok(Input::Front(count))
    } else {
        Ok(Input::Whole(count))
    }
}

// The file from its start into the front of the buffer.
pub fn read<'a>(rt: &impl Files, path: &'a [u8], buffer: &mut [u8]) -> Result<Input, Fault<'a>>
    ensures { IfOk result (λ input. IsPrefixLen (bytes_read input) buffer.new) }
{
    read_from(rt, path, buffer).map_err(|error| Fault::Failed { path, error })
}

// The front of a room: so many bytes, or all there are.
pub fn front(n: usize, room: &[u8]) -> usize
    ensures { (result ≡ min n (length room.now)) × IsPrefixLen result room.now }
{
    n.min(room.len())
}

// The path with .XXXXXX after it, in the same folder, in the front of the name; none where that does not fit.
fn temporary_name(path: &[u8], name: &mut [u8]) -> Option<usize>
    ensures { IfSome result (λ n. n ≤ length name.new) }
{
    let n = path.len();
    name.get_mut(..n)?.copy_from_slice(path);
    name.get_mut(n..n + 7)?.copy_from_slice(b".XXXXXX");
    Some(n + 7)
}

// All bytes go into the file, which then takes the name.
fn fill_and_name<R: Files>(
    rt: &R,
    file: R::File,
    bytes: &[u8],
    temporary: &[u8],
    path: &[u8],
) -> Result<(), Error> {
    fill(file, bytes)?;
    rename(rt, temporary, path)
}

// Where the bytes do not get the name, no file stays behind.
fn put_new(rt: &impl Files, path: &[u8], name: &mut [u8], bytes: &[u8]) -> Result<(), Error> {
    let file = create_temp(rt, name)?;
    let done = fill_and_name(rt, file, bytes, name, path);
    if done.is_err() {
        let _ = remove(rt, name);
    }
    done
}

fn replace_file(rt: &impl Files, path: &[u8], bytes: &[u8]) -> Result<(), Error> {
    let mut name = [0u8; 4096];
    let n = temporary_name(path, &mut name).ok_or_else(invalid)?;
    put_new(rt, path, &mut name[..n], bytes)
}

// The bytes go to a new file of the same folder, which then takes the name: a file that had it is as it was until then.
pub fn replace<'a>(rt: &impl Files, path: &'a [u8], bytes: &[u8]) -> Result<(), Fault<'a>> {
    replace_file(rt, path, bytes).map_err(|error| Fault::Failed { path, error })
}

// As `put_new`, but a failure after the file is made is told before that file goes.
fn put_new_or_tell<'a>(
    rt: &impl Files,
    path: &'a [u8],
    name: &mut [u8],
    bytes: &[u8],
) -> Result<(), Stop<'a>> {
    let file = create_temp(rt, name).map_err(|error| Fault::Failed { path, error })?;
    if let Err(error) = fill_and_name(rt, file, bytes, name, path) {
        tell(path, error);
        let _ = remove(rt, name);
        return Err(Stop::Told);
    }
    Ok(())
}

// As `replace`, but a failure after the new file is made is told, before that file goes.
pub fn replace_or_tell<'a>(rt: &impl Files, path: &'a [u8], bytes: &[u8]) -> Result<(), Stop<'a>> {
    let mut name = [0u8; 4096];
    let Some(n) = temporary_name(path, &mut name) else {
        let error = invalid();
        return Err(Stop::Untold(Fault::Failed { path, error }));
    };
    put_new_or_tell(rt, path, &mut name[..n], bytes)
}
