// What the options after the names of a command mean.
ghost use Rattle.std.specs.Prelude.{◌≡◌, not, ◌&&◌, ◌-◌, is_none};
ghost use Rattle.command.specs.Meaning.{set, named, is_name, none, taken, options_from, whole, one_source, nameless};

use crate::words::{Mode, Name, Word, word_at};

// What the options that are modes set.
#[derive(Clone, Copy)]
pub struct Flags {
    pub live: bool,
    pub asserted: bool,
    pub drawn: bool,
    pub sized: bool,
    pub empty: bool,
}

// The arguments that name a text of challenges, a sheet, and a file for the log.
#[derive(Clone, Copy)]
pub struct Names {
    pub challenges: Option<usize>,
    pub sheet: Option<usize>,
    pub log: Option<usize>,
}

// Modes, names, whether all of it is known, and the option whose name is still to come.
#[derive(Clone, Copy)]
pub struct Options {
    pub flags: Flags,
    pub names: Names,
    pub known: bool,
    pub awaits: Option<Name>,
}

impl Flags {
    fn with(self, mode: Mode) -> Flags
        ensures { result ≡ set self mode }
    {
        match mode {
            Mode::Live => Flags { live: true, ..self },
            Mode::NoAssert => Flags {
                asserted: false,
                ..self
            },
            Mode::Drawn => Flags {
                drawn: true,
                ..self
            },
            Mode::Sized => Flags {
                sized: true,
                ..self
            },
            Mode::NoRows => Flags {
                empty: true,
                ..self
            },
        }
    }
}

impl Names {
    fn with(self, name: Name, k: usize) -> Names
        ensures { result ≡ named self name k }
    {
        match name {
            Name::Challenges => Names {
                challenges: Some(k),
                ..self
            },
            Name::Sheet => Names {
                sheet: Some(k),
                ..self
            },
            Name::Log => Names {
                log: Some(k),
                ..self
            },
        }
    }
}

impl Word {
    fn is_name(self) -> bool
        ensures { result ≡ is_name self }
    {
        !matches!(self, Word::Empty)
    }
}

impl Options {
    // The modes of the sandbox, and no name.
    fn none() -> Options
        ensures { result ≡ none }
    {
        Options {
            flags: Flags {
                live: false,
                asserted: true,
                drawn: false,
                sized: false,
                empty: false,
            },
            names: Names {
                challenges: None,
                sheet: None,
                log: None,
            },
            known: true,
            awaits: None,
        }
    }

    // Argument k, which is this word.
    fn take(self, word: Word, k: usize) -> Options
        ensures { result ≡ taken self word k }
    {
        match (self.awaits, word) {
            (Some(name), _) => Options {
                names: self.names.with(name, k),
                known: self.known && word.is_name(),
                awaits: None,
                ..self
            },
            (None, Word::Mode(mode)) => Options {
                flags: self.flags.with(mode),
                ..self
            },
            (None, Word::Name(name)) => Options {
                awaits: Some(name),
                ..self
            },
            (None, _) => Options {
                known: false,
                ..self
            },
        }
    }

    // The options from argument `first` to the last, n of them in all.
    pub fn read(args: &[u8], first: usize, n: usize) -> Options
        ensures { result ≡ options_from (n - first) first none args.now }
    {
        let mut options = Options::none();
        for k in first..n {
            options = options.take(word_at(args, k), k);
        }
        options
    }

    // All words are known, and no name is missing.
    fn is_whole(self) -> bool
        ensures { result ≡ whole self }
    {
        self.known && self.awaits.is_none()
    }

    // Where challenges are drawn, none are named.
    fn has_one_source(self) -> bool
        ensures { result ≡ one_source self }
    {
        !self.flags.drawn || self.names.challenges.is_none()
    }

    fn is_nameless(self) -> bool
        ensures { result ≡ nameless self }
    {
        self.names.challenges.is_none() && self.names.sheet.is_none() && self.names.log.is_none()
    }

    // Nothing about the sum's numerator, which is always asked to be zero, or about the size, which the proof's version says.
    fn is_verifiers(self) -> bool
        ensures { result ≡ (self.flags.asserted && not self.flags.sized) }
    {
        self.flags.asserted && !self.flags.sized
    }

    // Whether they are those of `prove`: all known, challenges not both drawn and named, and none that `verify` alone takes: no sheet beside the one that is proved, and
    // nothing about no rows, which are always proved.
    pub fn fit_prove(self) -> bool
        ensures { result ≡ ((whole self && one_source self) && (is_none self.names.sheet && not self.flags.empty)) }
    {
        self.is_whole() && self.has_one_source() && self.names.sheet.is_none() && !self.flags.empty
    }

    // Whether they are those of `verify`: all known, challenges not both drawn and named, and none that `prove` alone takes.
    pub fn fit_verify(self) -> bool
        ensures { result ≡ ((whole self && one_source self) && (self.flags.asserted && not self.flags.sized)) }
    {
        self.is_whole() && self.has_one_source() && self.is_verifiers()
    }

    // Whether they are those of `replay`: all known, nothing named, as its log stands in the place of challenges, and none that `prove` alone takes.
    pub fn fit_replay(self) -> bool
        ensures { result ≡ ((whole self && nameless self) && (self.flags.asserted && not self.flags.sized)) }
    {
        self.is_whole() && self.is_nameless() && self.is_verifiers()
    }
}
