// The answers to sample sheets, each after the name of its file.
#![tactic(auto)]

use answers::say;
use command_files::system::{open_read, read_full, tell};
use std::rt::Files;

const SHEETS: [&str; 14] = [
    "k3.sheet",
    "zero64.sheet",
    "degenerate.sheet",
    "over_zero.sheet",
    "nonzero.sheet",
    "one.sheet",
    "none.sheet",
    "three.sheet",
    "badword.sheet",
    "short.sheet",
    "version.sheet",
    "empty.sheet",
    "more.sheet",
    "long.sheet",
];

fn show_file(rt: &impl Files, name: &str) {
    say(name);
    match open_read(rt, name.as_bytes()) {
        Ok(mut file) => {
            let mut sheet = [0u8; 2051];
            let mut rows = [0u32; 512];
            let mut work = [0u32; 2048];
            let n = read_full(&mut file, &mut sheet);
            let more = read_full(&mut file, &mut [0u8; 1]) != 0;
            show::show_input(&sheet[..n], more, &mut rows, &mut work);
        }
        Err(error) => tell(name.as_bytes(), error),
    }
}

fn main(rt: HostRuntime) {
    for name in SHEETS {
        show_file(&rt, name);
    }
}
