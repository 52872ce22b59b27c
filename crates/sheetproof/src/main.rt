// `sheetproof`: proves and verifies sheets, shows their fraction tree, and makes them from text.
#![tactic(auto)]

ghost use Rattle.std.specs.Prelude.{◌≤◌, length};
ghost use Rattle.io.specs.Counts.{IsPrefixLen};

use std::env::{Env, FillError};

// An argument and a byte 0 after it go into the buffer from a place on, as far as it goes.
fn put_word(args: &mut [u8], at: usize, word: &[u8]) -> usize
    requires { at ≤ length args.old }
    ensures { result ≤ length args.new }
{
    if args.len() - at <= word.len() {
        return at;
    }
    let end = at + word.len();
    args[at..end].copy_from_slice(word);
    args[end] = 0;
    end + 1
}

// Argument i goes to the front of the word; 0 bytes where it is longer.
fn read_argument(env: &impl Env, i: usize, word: &mut [u8]) -> usize
    ensures { IsPrefixLen result word.new }
{
    env.arg(i, word).unwrap_or(0)
}

fn put_argument(env: &impl Env, args: &mut [u8], at: usize, i: usize) -> usize
    requires { at ≤ length args.old }
    ensures { result ≤ length args.new }
{
    let mut word = io::buffer();
    let n = read_argument(env, i, &mut word);
    put_word(args, at, &word[..n])
}

// How many arguments there are, the program's name among them.
fn argument_count(env: &impl Env) -> usize {
    let mut word = [0u8; 1];
    for i in 0..usize::MAX {
        if matches!(env.arg(i, &mut word), Err(FillError::NotPresent)) {
            return i;
        }
    }
    usize::MAX
}

// The arguments after the program's name.
fn gather(env: &impl Env, args: &mut [u8]) -> usize
    ensures { IsPrefixLen result args.new }
{
    let mut at = 0;
    for i in 1..argument_count(env) {
        at = put_argument(env, args, at, i);
    }
    at
}

fn main(rt: HostRuntime) {
    let mut args = [0u8; 16384];
    let n = gather(&rt, &mut args);
    command::args::run(&rt, &args[..n]);
}
