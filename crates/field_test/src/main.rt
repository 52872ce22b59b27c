// Runs the cases of standard input and prints each answer; scripts/field_vectors makes the cases and the answers.
// A case is nine numbers of ten digits: the operation, the words of a, the words of b.
#![tactic(auto)]

use field::{Base, Ext, Field};

mod constants; // what the constants of both types stand for

// The number of the first ten digits, its remainder modulo 2^32.
fn number(digits: &[u8]) -> u32 {
    digits.iter().take(10).fold(
        0,
        |v: u32, digit| v.wrapping_mul(10).wrapping_add(u32::from(digit % 16 % 10)),
    )
}

// The operations that both types have, in the order of their codes.
fn operation<F: Field>(op: u32, a: F, b: F) -> F {
    match op {
        0 => a + b,
        1 => a - b,
        2 => a * b,
        3 => -a,
        4 => a.double(),
        5 => a.halve(),
        6 => a.square(),
        _ => a.canonical(),
    }
}

// The tests that both types have.
fn tests<F: Field>(a: F, b: F) -> [u32; 3] {
    [a.equals(b), a.is_zero(), a.is_canonical()].map(u32::from)
}

// The operations of the base, on the first words: four an answer.
fn in_base(op: u32, a: Base, b: Base) -> Ext {
    let [c0, c1, c2, c3] = match op {
        13 => [0, 1, 2, 5].map(|code| operation(code, a, b).value),
        14 => [3, 4, 6, 8].map(|code| operation(code, a, b).value),
        _ => {
            let [equal, zero, canonical] = tests(a, b);
            [equal, zero, canonical, Base::from(b.value).value]
        }
    };
    Ext { c0, c1, c2, c3 }
}

fn answer(op: u32, a: Ext, b: Ext) -> Ext {
    let [equal, zero, canonical] = tests(a, b);
    match op {
        0..=6 | 8 => operation(op, a, b),
        7 => a * Base { value: b.c0 },
        9 => a * Base::SIXTH,
        10 => Ext::from(equal),
        11 => Ext::from(zero),
        12 => Ext::from(canonical),
        _ => in_base(op, Base { value: a.c0 }, Base { value: b.c0 }),
    }
}

fn print(e: Ext) {
    for (word, after) in [(e.c0, b','), (e.c1, b','), (e.c2, b','), (e.c3, b'\n')] {
        io::print_decimal(1, word as u64);
        io::write_all(1, &[after]);
    }
}

// A case, eleven bytes a number.
fn run(case: &[u8]) {
    let mut words = [0; 9];
    for (word, digits) in words.iter_mut().zip(case.chunks_exact(11)) {
        *word = number(digits);
    }
    let [op, a0, a1, a2, a3, b0, b1, b2, b3] = words;
    let a = Ext {
        c0: a0,
        c1: a1,
        c2: a2,
        c3: a3,
    };
    let b = Ext {
        c0: b0,
        c1: b1,
        c2: b2,
        c3: b3,
    };
    print(answer(op, a, b));
}

fn main() {
    constants::hold();
    let mut bytes = [0u8; 65536];
    let n = io::read_full(0, &mut bytes);
    for case in bytes[..n].chunks_exact(99) {
        run(case);
    }
}
