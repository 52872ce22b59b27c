// The lines that programs print of a run: counts, sum, claims and point.
#![tactic(auto)]

use field::Ext;
use std::fmt;
use std::fmt::{Display, Write};
use step::Frac;

pub mod counting; // the challenges of a run to which none are given

// An element after a space, by its four words.
#[derive(Clone, Copy)]
struct Whole(Ext);

impl Display for Whole {
    fn fmt<W: fmt::Write>(&self, f: &mut fmt::Formatter<W>) -> fmt::Result {
        let Ext { c0, c1, c2, c3 } = self.0;
        write!(f, " {c0},{c1},{c2},{c3}")
    }
}

// What was proved: the rows, the rounds, and the numerator and the denominator of the sum, on a line each.
#[derive(Clone, Copy)]
pub struct Proved {
    pub rows: usize,
    pub rounds: usize,
    pub sum: Frac,
}

impl Display for Proved {
    fn fmt<W: fmt::Write>(&self, f: &mut fmt::Formatter<W>) -> fmt::Result {
        writeln!(f, "rows {}", self.rows)?;
        writeln!(f, "rounds {}", self.rounds)?;
        write!(f, "sum{}{}", Whole(self.sum.p), Whole(self.sum.q))
    }
}

// What was verified: verdict 0, the two claims, and the first coordinates of the point, one for each round.
#[derive(Clone, Copy)]
pub struct Accepted<'a> {
    pub stated: Frac,
    pub point: &'a [u32],
    pub rounds: usize,
}

impl Display for Accepted<'_> {
    fn fmt<W: fmt::Write>(&self, f: &mut fmt::Formatter<W>) -> fmt::Result {
        writeln!(f, "verdict {}", 0u64)?;
        writeln!(f, "numer{}", Whole(self.stated.p))?;
        writeln!(f, "denom{}", Whole(self.stated.q))?;
        write!(f, "point")?;
        let (coordinates, _) = self.point.as_chunks::<4>();
        for &[c0, c1, c2, c3] in coordinates.iter().take(self.rounds) {
            write!(f, "{}", Whole(Ext { c0, c1, c2, c3 }))?;
        }
        Ok(())
    }
}

// Standard output, which takes each piece of a text by itself. Where that fails nothing is told, and the next piece is tried all the same.
#[derive(Clone, Copy)]
struct Out;

impl Write for Out {
    fn write_str(&mut self, piece: &str) -> fmt::Result {
        io::write_all(1, piece.as_bytes());
        Ok(())
    }
}

// A text, to standard output.
pub fn print(text: impl Display + Drop) {
    let mut out = Out;
    let _ = out.write(text);
}

// A line, to standard output: its end is a piece of its own.
pub fn say(line: impl Display + Drop) {
    let mut out = Out;
    let _ = out.writeln(line);
}
