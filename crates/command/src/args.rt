// The command that the arguments ask for.
use crate::options::Options;
use crate::words::{argument, count};
use command_proofs::replay::replay;
use command_proofs::{prove, verify};
use command_sheets::{make, show};
use refusal::{Proving, Verifying};
use sheet_text::scan::number_at;
use std::rt::Files;

// What the arguments ask for.
#[derive(Clone, Copy)]
enum Command<'a> {
    Prove(prove::Asked<'a>),
    Verify(verify::Asked<'a>),
    Replay {
        proof: &'a [u8],
        rounds: usize,
        modes: Verifying,
        log: &'a [u8],
    },
    Show {
        sheet: &'a [u8],
    },
    Make {
        text: &'a [u8],
        sheet: &'a [u8],
    },
}

fn usage() {
    io::write_all(
        2,
        b"sheetproof prove SHEET PROOF [--live] [--no-assert] [--sized] [--drawn | --challenges TEXT] [--log LOG]\n",
    );
    io::write_all(
        2,
        b"sheetproof verify PROOF ROUNDS [--live] [--empty] [--drawn | --challenges TEXT] [--sheet SHEET] [--log LOG]\n",
    );
    io::write_all(
        2,
        b"sheetproof replay PROOF ROUNDS LOG [--live] [--empty] [--drawn]\n",
    );
    io::write_all(2, b"sheetproof show SHEET\n");
    io::write_all(2, b"sheetproof make TEXT SHEET\n");
}

// The number that a word is in digits.
fn number(word: &[u8]) -> Option<usize> {
    let n = number_at(word, 0);
    if word.is_empty() || n.at != word.len() {
        return None;
    }
    Some(n.value as usize)
}

impl Options {
    fn proving(self) -> Proving {
        Proving {
            live: self.flags.live,
            assert_zero: self.flags.asserted,
            drawn: self.flags.drawn,
            sized: self.flags.sized,
        }
    }

    fn verifying(self) -> Verifying {
        Verifying {
            live: self.flags.live,
            drawn: self.flags.drawn,
            empty: self.flags.empty,
        }
    }
}

// What an option names; empty where it is not given.
fn named(args: &[u8], name: Option<usize>) -> &[u8] {
    match name {
        Some(k) => argument(args, k),
        None => &[],
    }
}

fn read_prove(args: &[u8], n: usize) -> Option<Command<'_>> {
    let options = Options::read(args, 3, n);
    if n < 3 || !options.fit_prove() {
        return None;
    }
    Some(Command::Prove(prove::Asked {
        sheet: argument(args, 1),
        proof: argument(args, 2),
        challenges: named(args, options.names.challenges),
        modes: options.proving(),
        log: named(args, options.names.log),
    }))
}

fn read_verify(args: &[u8], n: usize) -> Option<Command<'_>> {
    let options = Options::read(args, 3, n);
    if n < 3 || !options.fit_verify() {
        return None;
    }
    Some(Command::Verify(verify::Asked {
        proof: argument(args, 1),
        rounds: number(argument(args, 2))?,
        modes: options.verifying(),
        challenges: named(args, options.names.challenges),
        sheet: named(args, options.names.sheet),
        log: named(args, options.names.log),
    }))
}

fn read_replay(args: &[u8], n: usize) -> Option<Command<'_>> {
    let options = Options::read(args, 4, n);
    if n < 4 || !options.fit_replay() {
        return None;
    }
    Some(Command::Replay {
        proof: argument(args, 1),
        rounds: number(argument(args, 2))?,
        modes: options.verifying(),
        log: argument(args, 3),
    })
}

fn read_command(args: &[u8]) -> Option<Command<'_>> {
    let n = count(args);
    match argument(args, 0) {
        b"prove" => read_prove(args, n),
        b"verify" => read_verify(args, n),
        b"replay" => read_replay(args, n),
        b"show" if n == 2 => Some(Command::Show {
            sheet: argument(args, 1),
        }),
        b"make" if n == 3 => Some(Command::Make {
            text: argument(args, 1),
            sheet: argument(args, 2),
        }),
        _ => None,
    }
}

// Does what the arguments ask for, each ended by a byte 0, or says how they are used.
pub fn run(rt: &impl Files, args: &[u8]) {
    let Some(command) = read_command(args) else {
        return usage();
    };
    match command {
        Command::Prove(asked) => prove::prove(rt, asked),
        Command::Verify(asked) => verify::verify(rt, asked),
        Command::Replay {
            proof,
            rounds,
            modes,
            log,
        } => replay(rt, proof, rounds, modes, log),
        Command::Show { sheet } => show(rt, sheet),
        Command::Make { text, sheet } => make(rt, text, sheet),
    }
}
