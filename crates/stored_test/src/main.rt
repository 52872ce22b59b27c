// Runs the cases of standard input and prints each answer; scripts/stored_vectors makes the cases and the answers.
// A case is its size, the operation, the room of the buffer, and bytes or words: all decimal.
#![tactic(auto)]

use refusal::{Refusal, Report};

mod text; // numbers, read and printed
mod proofs; // what is asked of a proof's bytes

// The number of a refusal, or 0.
fn number_of<T: Drop>(answer: Result<T, Refusal>) -> u64 {
    match answer {
        Ok(_) => 0,
        Err(refusal) => u64::from(Report::from(refusal).number),
    }
}

// The number of a sheet's answer, and what done says.
fn show(answer: Result<usize, Refusal>) {
    text::number(number_of(answer));
    text::number(answer.unwrap_or(0) as u64);
}

// Into the first words of a buffer.
fn read_into(bytes: &[u8], rows: &mut [u32], room: usize) {
    if room <= rows.len() {
        show(stored_sheet::read_sheet(bytes, &mut rows[..room]));
    }
}

fn read_sheet(bytes: &[u8], room: usize) {
    let mut rows = [7u32; 64];
    read_into(bytes, &mut rows, room);
    text::words(&rows);
}

fn write_into(words: &[u32], out: &mut [u8], room: usize) {
    if room <= out.len() {
        show(stored_sheet::write_sheet(words, &mut out[..room]));
    }
}

fn write_sheet(words: &[u32], room: usize) {
    let mut out = [7u8; 320];
    write_into(words, &mut out, room);
    text::bytes(&out);
}

// The sheet reader's number for the first k bytes.
fn sheet_prefix(bytes: &[u8], k: usize) {
    let mut rows = [7u32; 64];
    if k <= bytes.len() {
        text::number(number_of(stored_sheet::read_sheet(&bytes[..k], &mut rows)));
    }
}

fn sheet_prefixes(bytes: &[u8]) {
    for k in 0..4096 {
        sheet_prefix(bytes, k);
    }
}

fn on_bytes(op: u32, room: usize, bytes: &[u8]) {
    match op {
        1 => read_sheet(bytes, room),
        3 => proofs::ask(bytes),
        4 => proofs::prefixes(bytes),
        _ => sheet_prefixes(bytes),
    }
}

fn on_words(op: u32, room: usize, words: &[u32]) {
    match op {
        2 => write_sheet(words, room),
        _ => proofs::write(words, room),
    }
}

fn run_case(op: u32, room: usize, given: &[u32]) {
    let mut bytes = [0u8; 4096];
    if op == 2 || op == 6 {
        return on_words(op, room, given);
    }
    let n = text::narrow(given, &mut bytes);
    on_bytes(op, room, &bytes[..n]);
}

// The case of so many numbers from a place on.
fn run_at(given: &[u32], at: usize, size: usize) {
    if given.len() < 3 || given.len() - 3 < at || size < 2 {
        return;
    }
    let from = at + 3;
    if given.len() - from < size - 2 {
        return;
    }
    run_case(
        given[at + 1],
        text::place(given[at + 2]),
        &given[from..from + (size - 2)],
    );
    io::write_all(1, b"\n");
}

fn run(given: &[u32]) {
    let mut at: usize = 0;
    while at < given.len() {
        let size = text::place(given[at]);
        run_at(given, at, size);
        if given.len() - at <= size {
            return;
        }
        at += size + 1;
    }
}

fn main() {
    let mut input = [0u8; 262144];
    let mut given = [0u32; 65536];
    let n = io::read_full(0, &mut input);
    let k = text::numbers(&input[..n], &mut given);
    run(&given[..k]);
}
