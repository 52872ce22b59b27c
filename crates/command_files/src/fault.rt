// Why a command stops, and how that is told.
ghost use Rattle.std.specs.Prelude.{◌≡◌};
ghost use Rattle.command_files.specs.declared.fault.Fault.TheVariants as Fault;
ghost use Rattle.command_files.specs.declared.fault.Stop.TheVariants as Stop;

use crate::system::tell;
use answers::{print, say};
use command_text::refusals::Refused;
use refusal::Refusal;
use std::fmt::Display;
use std::io::Error;

// What the system did not do at a name, a refusal, a line of a text that is none of its kind, a file with more than is read of it (`limit` is all that is told after the name,
// with the line's end), and a log of so many bytes that are no words.
#[derive(Drop)]
pub enum Fault<'a> {
    Failed {
        path: &'a [u8],
        error: Error,
    },
    Refused(Refusal),
    BadLine {
        path: &'a [u8],
        line: usize,
        kind: &'static str,
    },
    TooLong {
        path: &'a [u8],
        limit: &'static str,
    },
    SplitWord {
        path: &'a [u8],
        bytes: usize,
    },
}

// A refusal is a fault.
impl From<Refusal> for Fault<'_> {
    ghost from_gives = { λ refusal fault. fault ≡ Fault.Refused refusal };

    fn from(refusal: Refusal) -> Self {
        Fault::Refused(refusal)
    }
}

// What stops a command that tells some failures itself, before it tidies up: a fault that is told already, or one that is not.
#[derive(Drop)]
pub enum Stop<'a> {
    Told,
    Untold(Fault<'a>),
}

// A fault that is not told yet.
impl<'a> From<Fault<'a>> for Stop<'a> {
    ghost from_gives = { λ untold stop. stop ≡ Stop.Untold untold };

    fn from(untold: Fault<'a>) -> Self {
        Stop::Untold(untold)
    }
}

// A refusal that is not told yet.
impl From<Refusal> for Stop<'_> {
    ghost from_gives = { λ refusal stop. stop ≡ Stop.Untold (Fault.Refused refusal) };

    fn from(refusal: Refusal) -> Self {
        Stop::Untold(Fault::Refused(refusal))
    }
}

// The line of a refusal that names a file, by the bytes of its name, which need be no text: what stands before the name, and after it, with the line's end.
fn say_of_file(before: impl Display + Drop, path: &[u8], after: impl Display + Drop) {
    print(before);
    io::write_all(1, path);
    print(after);
}

impl Fault<'_> {
    // Tells it on a line: what the system did not do on standard error, any other on standard output.
    pub fn tell(self) {
        match self {
            Fault::Failed { path, error } => tell(path, error),
            Fault::Refused(refusal) => say(Refused(refusal)),
            Fault::BadLine { path, line, kind } => say_of_file(
                format_args!("refused: line {line} of "),
                path,
                format_args!(" is not {kind}\n"),
            ),
            Fault::TooLong { path, limit } => say_of_file("refused: ", path, limit),
            Fault::SplitWord { path, bytes } => say_of_file(
                "refused: ",
                path,
                format_args!(" has {bytes} bytes, and each word of a log has 4\n"),
            ),
        }
    }
}

impl Stop<'_> {
    // Tells what is not told yet.
    pub fn tell(self) {
        match self {
            Stop::Told => {}
            Stop::Untold(fault) => fault.tell(),
        }
    }
}
