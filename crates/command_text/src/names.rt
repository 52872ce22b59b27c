// The names of a row's sides, of a layer's claims and of a sub-round's sums, by their numbers from 0.
ghost use Rattle.std.specs.Prelude.{◌≡◌};
ghost use Rattle.command_text.specs.Names.{side_of, claim_of, sum_of};

use std::fmt;

// The numerator or the denominator of a row.
#[derive(Clone, Copy)]
pub enum Side {
    P,
    Q,
}

impl Side {
    // The side with a number: 0 is p.
    pub fn of(number: usize) -> Side
        ensures { result ≡ side_of number }
    {
        match number {
            0 => Side::P,
            _ => Side::Q,
        }
    }
}

// After the word of a row.
impl fmt::Display for Side {
    fn fmt<W: fmt::Write>(&self, f: &mut fmt::Formatter<W>) -> fmt::Result {
        f.write_str(match self {
            Side::P => " of its p",
            Side::Q => " of its q",
        })
    }
}

// One of the four claims of a layer.
#[derive(Clone, Copy)]
pub enum Claim {
    P0,
    Q0,
    P1,
    Q1,
}

impl Claim {
    // The claim with a number, in the order in which a proof has them.
    pub fn of(number: usize) -> Claim
        ensures { result ≡ claim_of number }
    {
        match number {
            0 => Claim::P0,
            1 => Claim::Q0,
            2 => Claim::P1,
            _ => Claim::Q1,
        }
    }
}

// After the layer.
impl fmt::Display for Claim {
    fn fmt<W: fmt::Write>(&self, f: &mut fmt::Formatter<W>) -> fmt::Result {
        f.write_str(match self {
            Claim::P0 => ", p0",
            Claim::Q0 => ", q0",
            Claim::P1 => ", p1",
            Claim::Q1 => ", q1",
        })
    }
}

// The value of a sub-round's sum at 1, 2 or 3.
#[derive(Clone, Copy)]
pub enum Sum {
    S1,
    S2,
    S3,
}

impl Sum {
    // The value with a number, in the order in which a proof has them.
    pub fn of(number: usize) -> Sum
        ensures { result ≡ sum_of number }
    {
        match number {
            0 => Sum::S1,
            1 => Sum::S2,
            _ => Sum::S3,
        }
    }
}

// After the sub-round.
impl fmt::Display for Sum {
    fn fmt<W: fmt::Write>(&self, f: &mut fmt::Formatter<W>) -> fmt::Result {
        f.write_str(match self {
            Sum::S1 => ", s(1)",
            Sum::S2 => ", s(2)",
            Sum::S3 => ", s(3)",
        })
    }
}
