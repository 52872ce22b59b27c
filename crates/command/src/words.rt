// The arguments of a command in one buffer, each ended by a byte 0; and which of them are options.
ghost use Rattle.std.specs.Prelude.{◌≡◌, ◌==◌, count_by};
ghost use Rattle.command.specs.Arguments.{argument, word_of};

// An option that is a mode by itself.
#[derive(Clone, Copy)]
pub enum Mode {
    Live,
    NoAssert,
    Drawn,
    Sized,
    NoRows,
}

// An option after which a name stands.
#[derive(Clone, Copy)]
pub enum Name {
    Challenges,
    Sheet,
    Log,
}

// What a word is: an option, any other word, or nothing.
#[derive(Clone, Copy)]
pub enum Word {
    Empty,
    Mode(Mode),
    Name(Name),
    Other,
}

// How many arguments there are.
pub fn count(args: &[u8]) -> usize
    ensures { result ≡ count_by (λ b. b == 0) args.now }
{
    args.iter().filter(|b| **b == 0).count()
}

// Argument k, from 0; empty where there is none.
pub fn argument(args: &[u8], k: usize) -> &[u8]
    ensures { result.now ≡ argument k args.now }
{
    args.split(|b| *b == 0).nth(k).unwrap_or(&[])
}

#[tactic(auto, unfolding(crate::specs::Arguments::word_of))]
fn read_word(word: &[u8]) -> Word
    ensures { result ≡ word_of word.now }
{
    match word {
        b"" => Word::Empty,
        b"--challenges" => Word::Name(Name::Challenges),
        b"--sheet" => Word::Name(Name::Sheet),
        b"--log" => Word::Name(Name::Log),
        b"--live" => Word::Mode(Mode::Live),
        b"--no-assert" => Word::Mode(Mode::NoAssert),
        b"--drawn" => Word::Mode(Mode::Drawn),
        b"--sized" => Word::Mode(Mode::Sized),
        b"--empty" => Word::Mode(Mode::NoRows),
        _ => Word::Other,
    }
}

// What argument k is.
pub fn word_at(args: &[u8], k: usize) -> Word
    ensures { result ≡ word_of (argument k args.now) }
{
    read_word(argument(args, k))
}
