// Reads one sheet on standard input, of at most 64 rows, proves and verifies it, and prints the answers.
#![tactic(auto)]

fn main() {
    let mut sheet = [0u8; 2051];
    let mut rows = [0u32; 512];
    let mut work = [0u32; 2048];
    let n = io::read_full(0, &mut sheet);
    let more = io::read_full(0, &mut [0u8; 1]) != 0;
    show::show_input(&sheet[..n], more, &mut rows, &mut work);
}
