// Recorded cases: numbers read from decimal text into lent buffers, and answers printed.
#![tactic(auto)]

pub mod read; // numbers, elements and lists out of a text
pub mod print; // numbers, elements and lists to standard output
pub mod replay; // the cases of a text, one after the other

// A text, and the place where it goes on.
#[derive(Clone, Copy)]
pub struct Cases<'a> {
    pub text: &'a [u8],
    pub at: usize,
}
