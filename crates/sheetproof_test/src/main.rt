// Runs the command lines of standard input, words with single spaces between them, and prints each before its answer;
// `size NAME` prints the bytes of a file. Then the words of each refusal are printed.
#![tactic(auto)]

ghost use Rattle.io.specs.Counts.{IsPrefixLen};

use answers::{print, say};
use command_files::system::{open_read, read_full};
use command_text::refusals::{Named, Refused, Replayed};
use field::{Ext, Field};
use refusal::{Refusal, Words};
use std::rt::Files;

#[cfg(test)]
mod calls; // tests of what no command line shows

// The line with a byte 0 for each space and after it.
fn split(line: &[u8], args: &mut [u8]) -> usize
    ensures { IsPrefixLen result args.new }
{
    if args.len() <= line.len() {
        return 0;
    }
    for (arg, &b) in args.iter_mut().zip(line) {
        *arg = if b == b' ' { 0 } else { b };
    }
    args[line.len()] = 0;
    line.len() + 1
}

fn say_size(rt: &impl Files, path: &[u8]) {
    let mut bytes = [0u8; 32772];
    match open_read(rt, path) {
        Ok(mut file) => say(format_args!("bytes {}", read_full(&mut file, &mut bytes))),
        Err(_) => print("no such file\n"),
    }
}

// `size` is the one command whose second letter is i.
fn run_line(rt: &impl Files, line: &[u8]) {
    print("$ ");
    io::write_all(1, line);
    say("");
    if line.len() > 5 && line[1] == b'i' {
        return say_size(rt, &line[5..]);
    }
    let mut args = [0u8; 4096];
    let n = split(line, &mut args);
    command::args::run(rt, &args[..n]);
}

// Each line, the last one whether a line's end follows it or not.
fn run_lines(rt: &impl Files, text: &[u8]) {
    for line in text.split_inclusive(|b| *b == b'\n') {
        run_line(rt, line.strip_suffix(b"\n").unwrap_or(line));
    }
}

fn say_refusals(refusals: &[Refusal]) {
    for refusal in refusals {
        say(Refused(*refusal));
    }
}

fn say_plain() {
    say_refusals(&[
        Refusal::RaggedRows,
        Refusal::TooManyRows,
        Refusal::NotPowerOfTwo,
        Refusal::ShortChallenges,
        Refusal::ShortRoom,
        Refusal::ZeroDenominator { row: 1023 },
        Refusal::NonZeroRootSum,
        Refusal::SingleRow,
        Refusal::ZeroRounds,
        Refusal::TooManyRounds,
        Refusal::BadVersion,
        Refusal::BadLength,
    ]);
}

fn say_bad_words() {
    for (place, list) in [
        (0, Words::Rows),
        (30, Words::Rows),
        (47, Words::Proof),
        (14, Words::Challenges),
        (7, Words::Point),
        (0, Words::Own),
    ] {
        say(Refused(Refusal::BadWord { place, list }));
    }
}

fn say_named(places: &[usize], layers: usize, counts: &[usize]) {
    for place in places {
        say(Named {
            place: *place,
            layers,
            counts,
        });
    }
}

// Layers and sub-rounds as in a proof of three rounds, and with counts that are none.
fn say_named_words() {
    say_named(&[3, 4, 51, 52, 64, 87], 3, &[1, 2]);
    say_named(&[4, 39], 0, &[0, 2, 1]);
}

fn say_counts() {
    say_refusals(&[
        Refusal::IncorrectLayerCount {
            expected: 3,
            actual: 255,
        },
        Refusal::IncorrectSumcheckPolyCount {
            expected: 2,
            actual: 0,
        },
        Refusal::IncorrectSubroundCount {
            round: 9,
            expected: 9,
            actual: 8,
        },
    ]);
}

fn element(c0: u32, c1: u32, c2: u32, c3: u32) -> Ext {
    Ext { c0, c1, c2, c3 }
}

fn say_elements() {
    say_refusals(&[
        Refusal::ZeroCheckFailed {
            actual: element(2013265920, 0, 0, 0),
        },
        Refusal::RootConsistencyCheckFailed {
            expected: element(1006632960, 0, 0, 0),
            actual: element(1006632961, 0, 0, 0),
        },
        Refusal::LayerConsistencyCheckFailed {
            round: 1,
            expected: element(0, 1, 2013265919, 0),
            actual: Ext::ZERO,
        },
        Refusal::InvalidZeroRoundValue { actual: Ext::ZERO },
    ]);
}

fn say_logs() {
    say_refusals(&[
        Refusal::LogMismatch { place: 0 },
        Refusal::LogShort { place: 960 },
        Refusal::LogLong { place: 964 },
        Refusal::ZeroRoot,
    ]);
}

fn say_differing(places: &[usize], sized: bool) {
    for place in places {
        let refusal = Refusal::LogMismatch { place: *place };
        say(Replayed { refusal, sized });
    }
}

// Each kind of word of a log, at its first and its last place.
fn say_log_words() {
    say_differing(
        &[
            0, 3, 4, 19, 20, 23, 24, 28, 36, 40, 44, 59, 60, 64, 80, 84, 959,
        ],
        false,
    );
    say_differing(&[0, 3, 4, 27, 28, 963], true);
    let short = Refusal::LogShort { place: 17 };
    let long = Refusal::LogLong { place: 28 };
    for (refusal, sized) in [(short, false), (short, true), (long, true)] {
        say(Replayed { refusal, sized });
    }
}

fn main(rt: HostRuntime) {
    let mut text = [0u8; 8192];
    let n = io::read_full(0, &mut text);
    run_lines(&rt, &text[..n]);
    print("the words of each refusal\n");
    say_plain();
    say_bad_words();
    say_named_words();
    say_counts();
    say_elements();
    say_logs();
    say_log_words();
}
