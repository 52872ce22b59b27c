// The transcript over lent buffers: elements are observed into a log, and challenges are drawn from it or taken from those supplied.
#![tactic(auto)]

ghost use Rattle.std.specs.Prelude.{◌≡◌, false, cond, List, ℕ, ◌+◌, ◌*◌, ◌<◌, ◌≤◌, length, take};
ghost use Rattle.field.specs.Base.{P};
ghost use Rattle.field.specs.Element.{dec, Canon, Is};
ghost use Rattle.shake.specs.Drawn.{message, Holds};
ghost use Rattle.transcript.specs.Source.{supplied, label, drawn_source};
ghost use Rattle.transcript.specs.Log.{Drawing, Enough, Observing, Steps, WordDrawn, log_of, source_of, state};
ghost use Rattle.transcript.specs.Bound.{bound};
ghost use Rattle.transcript.specs.Used.{unused, used_at};

use field::Ext;
use shake::Sponge;

// A log, of which the first `put` words are written, and the challenges, of which `used` are taken: supplied in a buffer, or drawn from the log by a sponge
// that has taken in whole blocks of it.
#[derive(Drop)]
pub struct Transcript<'a> {
    pub log: &'a mut [u32],
    pub challenges: &'a [u32],
    pub drawn: bool,
    pub put: usize,
    pub used: usize,
    pub sponge: Sponge,
}

// What a run used up: the challenges sampled, and the words of the log written.
#[derive(Clone, Copy)]
pub struct Used {
    pub challenges: usize,
    pub words: usize,
}

// A drawn word, and the sponge that has all whole blocks before it.
#[derive(Clone, Copy)]
pub struct DrawnWord {
    pub sponge: Sponge,
    pub word: u32,
}

impl Used {
    // Nothing is used up.
    pub fn nothing() -> Used
        ensures { result ≡ unused }
    {
        Used {
            challenges: 0,
            words: 0,
        }
    }
}

// A word is drawn over the label and the log, of which s has taken in some blocks, and goes into it with its top bit set.
fn draw_word(log: &mut [u32], put: usize, s: Sponge) -> DrawnWord
    requires { (put < length log.old) × Holds s (message label (take put log.old)) }
    ensures { WordDrawn log.old log.new put result }
{
    let t = shake::absorb(s, b"frac-gkr/1", &log[..put]);
    let v = shake::draw(t, b"frac-gkr/1", &log[..put]);
    log[put] = 2147483648 + v;
    DrawnWord { sponge: t, word: v }
}

impl<'a> Transcript<'a> {
    // Nothing is written or used yet, and nothing taken in.
    pub fn new(log: &'a mut [u32], challenges: &'a [u32], drawn: bool) -> Transcript<'a>
        ensures same { result.log.ghost_name ≡ log.entry.ghost_name }
        ensures buffers { (result.log.now ≡ log.old) × (result.challenges.now ≡ challenges.now) × (result.drawn ≡ drawn) }
        ensures begun { (result.put ≡ 0) × (result.used ≡ 0) × ((m : List ℕ) → Holds result.sponge m) }
    {
        Transcript {
            log,
            challenges,
            drawn,
            put: 0,
            used: 0,
            sponge: shake::start(),
        }
    }

    // What is used up so far.
    pub fn used_up(&self) -> Used
        ensures { result ≡ used_at (state self.now) }
    {
        Used {
            challenges: self.used,
            words: self.put,
        }
    }

    // An element goes into the log.
    pub fn observe_ext(&mut self, e: Ext)
        requires room { self.old.put + 4 ≤ length self.old.log.now }
        requires canon { Canon e }
        ensures same { self.new.log.ghost_name ≡ self.old.log.ghost_name }
        ensures sponge { self.new.sponge ≡ self.old.sponge }
        ensures steps { Steps (state self.old) (state self.new) 4 0 (Observing.observe (dec e) (log_of (state self.old))) }
    {
        let put = self.put;
        self.log[put] = e.c0;
        self.log[put + 1] = e.c1;
        self.log[put + 2] = e.c2;
        self.log[put + 3] = e.c3;
        self.put += 4;
    }

    // Of a proof that binds its size, the number of rounds goes into the log.
    pub fn observe_size(&mut self, sized: bool, n: usize)
        requires room { self.old.put + cond sized 4 0 ≤ length self.old.log.now }
        requires small { n < P }
        ensures same { self.new.log.ghost_name ≡ self.old.log.ghost_name }
        ensures sponge { self.new.sponge ≡ self.old.sponge }
        ensures steps { Steps (state self.old) (state self.new) (cond sized 4 0) 0 (bound sized n (log_of (state self.old))) }
    {
        if sized {
            self.observe_ext(Ext {
                c0: n as u32,
                c1: 0,
                c2: 0,
                c3: 0,
            });
        }
    }

    // The next challenge that was supplied goes into the log, with the top bits of its words set.
    fn take_ext(&mut self) -> Ext
        requires room { self.old.put + 4 ≤ length self.old.log.now }
        requires enough { Enough (state self.old) 1 }
        requires supplied { self.old.drawn ≡ false }
        ensures same { self.new.log.ghost_name ≡ self.old.log.ghost_name }
        ensures steps { Steps (state self.old) (state self.new) 4 1 ((Drawing (supplied self.old.challenges.now)).drawn (log_of (state self.old))) }
        ensures value { Is result (supplied self.old.challenges.now (log_of (state self.old))) }
    {
        let used = self.used;
        let x = field::load(self.challenges, used);
        let put = self.put;
        self.log[put] = 2147483648 + x.c0;
        self.log[put + 1] = 2147483648 + x.c1;
        self.log[put + 2] = 2147483648 + x.c2;
        self.log[put + 3] = 2147483648 + x.c3;
        self.put = put + 4;
        self.used = used + 1;
        x
    }

    // The next challenge is drawn, word by word.
    fn draw_ext(&mut self) -> Ext
        requires room { self.old.put + 4 ≤ length self.old.log.now }
        requires enough { Enough (state self.old) 1 }
        ensures same { self.new.log.ghost_name ≡ self.old.log.ghost_name }
        ensures steps { Steps (state self.old) (state self.new) 4 1 ((Drawing drawn_source).drawn (log_of (state self.old))) }
        ensures value { Is result (drawn_source (log_of (state self.old))) }
    {
        let put = self.put;
        let a = draw_word(self.log, put, self.sponge);
        let b = draw_word(self.log, put + 1, a.sponge);
        let c = draw_word(self.log, put + 2, b.sponge);
        let d = draw_word(self.log, put + 3, c.sponge);
        self.put += 4;
        self.used += 1;
        self.sponge = d.sponge;
        Ext {
            c0: a.word,
            c1: b.word,
            c2: c.word,
            c3: d.word,
        }
    }

    // The next challenge, drawn or supplied, goes into the log, with the top bits of its words set.
    pub fn sample_ext(&mut self) -> Ext
        requires room { self.old.put + 4 ≤ length self.old.log.now }
        requires enough { Enough (state self.old) 1 }
        ensures same { self.new.log.ghost_name ≡ self.old.log.ghost_name }
        ensures steps { Steps (state self.old) (state self.new) 4 1 ((Drawing (source_of (state self.old))).drawn (log_of (state self.old))) }
        ensures value { Is result (source_of (state self.old) (log_of (state self.old))) }
    {
        if self.drawn {
            self.draw_ext()
        } else {
            self.take_ext()
        }
    }
}
