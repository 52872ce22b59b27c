// Numbers, elements and lists out of a text, by a place in it that goes on; and buffers filled before a call.
ghost use Rattle.std.specs.Prelude.{◌≡◌, ℕ, min};
ghost use Rattle.cases.specs.Text.{digit_of, grown, number_at, word_of, byte_of, word_at, element_at, ListAt, Filled};

use crate::Cases;
use field::Ext;

// What a number of a text becomes in a list: its remainder, as far as the type goes.
pub trait Cut: Copy {
    ghost cut: { ℕ → Self };

    // The number's remainder.
    fn cut(v: u64) -> Self
        ensures { result ≡ cut v };
}

impl Cut for u32 {
    ghost cut = { word_of };

    fn cut(v: u64) -> u32 {
        (v % 4294967296) as u32
    }
}

impl Cut for u8 {
    ghost cut = { byte_of };

    fn cut(v: u64) -> u8 {
        (v % 256) as u8
    }
}

fn digit(b: u8) -> u64
    ensures { result ≡ digit_of b }
{
    u64::from(b.wrapping_sub(48))
}

fn grow(v: u64, d: u64) -> u64
    ensures { result ≡ grown v d }
{
    v.saturating_mul(10).saturating_add(d)
}

fn least(v: u64, most: usize) -> usize
    ensures { result ≡ min v most }
{
    most.min(v as usize)
}

impl Cases<'_> {
    // The number whose digits stand at the place, at most 2^64 - 1; the text goes on after the byte that ends it.
    pub fn number(&mut self) -> u64
        ensures same { self.new.text.now ≡ self.old.text.now }
        ensures value { record { value = result; at = self.new.at } ≡ number_at self.old.text.now self.old.at }
    {
        let mut value = 0;
        while self.at < self.text.len() {
            let d = digit(self.text[self.at]);
            self.at += 1;
            if 9 < d {
                return value;
            }
            value = grow(value, d);
        }
        value
    }

    // The same, its remainder modulo 2^32.
    pub fn word(&mut self) -> u32
        ensures same { self.new.text.now ≡ self.old.text.now }
        ensures value { record { value = result; at = self.new.at } ≡ word_at self.old.text.now self.old.at }
    {
        u32::cut(self.number())
    }

    // Four words one after the other: an element.
    pub fn element(&mut self) -> Ext
        ensures same { self.new.text.now ≡ self.old.text.now }
        ensures value { record { value = result; at = self.new.at } ≡ element_at self.old.text.now self.old.at }
    {
        let c0 = self.word();
        let c1 = self.word();
        let c2 = self.word();
        let c3 = self.word();
        Ext { c0, c1, c2, c3 }
    }

    // A list of words or bytes into the front of the target, and how many: of a longer one what goes into it.
    pub fn list<T: Cut>(&mut self, target: &mut [T]) -> usize
        ensures same { self.new.text.now ≡ self.old.text.now }
        ensures listed { ListAt T.cut self.old.text.now self.old.at target.old target.new (record { count = result; at = self.new.at }) }
    {
        let count = least(self.number(), target.len());
        for i in 0..count {
            target[i] = T::cut(self.number());
        }
        count
    }
}

// Fills the front of the target, as far as it goes, and answers how many that is.
pub fn fill<T: Copy>(target: &mut [T], count: u64, v: T) -> usize
    ensures { Filled v count target.old target.new result }
{
    let n = least(count, target.len());
    for slot in &mut target[..n] {
        *slot = v;
    }
    n
}
