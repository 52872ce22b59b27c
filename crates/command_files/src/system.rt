// Files by their names in bytes, over std::fs; and on standard error what failed at a name.
ghost use Rattle.std.specs.Prelude.{◌≡◌};
ghost use Rattle.io.specs.Counts.{IsPrefixLen};

use std::fmt::InlineText;
use std::fs;
use std::fs::{OpenFile, OpenOptions};
use std::io::{Error, ErrorKind, Read, Write};
use std::os::unix::fs::OpenOptionsExt;
use std::rt::Files;

// What the system calls a file that is there, a name that is none, and a name that is no text.
const EXISTS: i32 = 17;

const INVALID: i32 = 22;

const NO_TEXT: i32 = 84;

// The system's words for an error, without their number.
fn words(said: &str) -> &str {
    said.rsplit_once(" (os error ")
        .map_or(said, |(words, _)| words)
}

// Tells on standard error what failed at a name.
pub fn tell(path: &[u8], error: Error) {
    let said = InlineText::<128>::of(error);
    // Stays: `Eprint` prints text, and the bytes of a name need be none.
    io::write_all(2, path);
    io::write_all(2, b": ");
    io::write_all(2, words(said.as_str()).as_bytes());
    io::write_all(2, b"\n");
}

// The error of a name that is none.
pub(crate) fn invalid() -> Error {
    Error::from_raw_os_error(INVALID)
}

// The name as std takes it: text, with no byte 0 in it.
fn as_text(path: &[u8]) -> Result<&str, Error> {
    if path.contains(&0) {
        return Err(invalid());
    }
    str::from_utf8(path).map_err(|_| Error::from_raw_os_error(NO_TEXT))
}

// The file, to be read from its start.
pub fn open_read<R: Files>(rt: &R, path: &[u8]) -> Result<R::File, Error> {
    fs::open(rt, as_text(path)?)
}

// Reads until the buffer is full, the file ends or a read fails, and answers how many bytes are in its front.
pub fn read_full<F: Read>(file: &mut F, buffer: &mut [u8]) -> usize
    ensures { IsPrefixLen result buffer.new }
{
    let mut done = 0;
    while done < buffer.len() {
        match file.read(&mut buffer[done..]) {
            Ok(0) | Err(_) => break,
            Ok(n) => done += n,
        }
    }
    done
}

// A file that is made by this call, and that its owner alone may read and write.
fn open_new<R: Files>(rt: &R, path: &[u8]) -> Result<R::File, Error> {
    let mut how = OpenOptions::new();
    how.read(true).write(true).create_new(true).mode(0o600);
    how.open(rt, as_text(path)?)
}

// The number in the last six bytes, in decimal.
fn put_number(name: &mut [u8], number: u32) {
    let mut left = number;
    for digit in name.iter_mut().rev().take(6) {
        *digit = b'0' + (left % 10) as u8;
        left /= 10;
    }
}

// A new file, whose name gets the first number in its last six bytes that makes it new.
pub(crate) fn create_temp<R: Files>(rt: &R, name: &mut [u8]) -> Result<R::File, Error> {
    for number in 0..1000000 {
        put_number(name, number);
        match open_new(rt, name) {
            Err(error) if error.kind() == ErrorKind::AlreadyExists => {}
            opened => return opened,
        }
    }
    Err(Error::from_raw_os_error(EXISTS))
}

// All bytes go into the file, which is closed. A close tells no failure here, so that the bytes are synced before it.
pub(crate) fn fill<F: Write + OpenFile + Drop>(mut file: F, bytes: &[u8]) -> Result<(), Error> {
    file.write_all(bytes)?;
    file.sync_all()
}

// The first name's file takes the second.
pub(crate) fn rename(rt: &impl Files, from: &[u8], to: &[u8]) -> Result<(), Error> {
    fs::rename(rt, as_text(from)?, as_text(to)?)
}

// The name is no file's any more.
pub(crate) fn remove(rt: &impl Files, path: &[u8]) -> Result<(), Error> {
    fs::remove_file(rt, as_text(path)?)
}
