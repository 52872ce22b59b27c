// The extension: operations take any words, by their remainders, and answer the canonical ones.
ghost use Rattle.std.specs.Prelude.{◌≡◌};
ghost use Rattle.field.specs.Base.{of};
ghost use Rattle.field.specs.Ext as E;
ghost use Rattle.field.specs.Element.{dec, enc, canon_words};
ghost use Rattle.field.specs.BaseElement as W;
ghost use Rattle.field.specs.ElementLaws.{dec_enc, enc_dec, canon_true, enc_of_is, same_of_enc, zero_is, one_is, one_and_one_is, half_is, sixth_is};
ghost use Rattle.field.specs.Extension.{Extension};

use crate::{Base, Ext, Field};
use std::ops::{Add, Mul, Neg, Sub};

impl Ext {
    // c0 + c1·x + c2·x² + c3·x³, by canonical words.
    pub fn new(c0: u32, c1: u32, c2: u32, c3: u32) -> Ext
        ensures { result ≡ enc (E.ext c0 c1 c2 c3) }
    {
        Ext { c0, c1, c2, c3 }.canonical()
    }
}

// The element of the base that a word stands for, in the extension.
impl From<u32> for Ext {
    ghost from_gives = { λ word result. result ≡ enc (E.emb (of word)) };

    fn from(word: u32) -> Ext {
        Ext::new(word, 0, 0, 0)
    }
}

// The same of an element of the base.
impl From<Base> for Ext {
    ghost from_gives = { λ b result. result ≡ enc (E.emb (W.dec b)) };

    fn from(b: Base) -> Ext {
        Ext::from(b.value)
    }
}

// The sum.
impl Add for Ext {
    type Output = Ext;

    ghost add_gives = { λ a b result. result ≡ enc (E.add (dec a) (dec b)) };

    fn add(self, other: Ext) -> Ext {
        self.reduced().plus(other.reduced())
    }
}

// The difference.
impl Sub for Ext {
    type Output = Ext;

    ghost sub_gives = { λ a b result. result ≡ enc (E.add (dec a) (E.neg (dec b))) };

    fn sub(self, other: Ext) -> Ext {
        self.reduced().minus(other.reduced())
    }
}

// The opposite: with the element it sums to zero.
impl Neg for Ext {
    type Output = Ext;

    ghost neg_gives = { λ a result. result ≡ enc (E.neg (dec a)) };

    fn neg(self) -> Ext {
        Ext::ZERO.minus(self.reduced())
    }
}

// The product, where x⁴ = 11.
impl Mul for Ext {
    type Output = Ext;

    ghost mul_gives = { λ a b result. result ≡ enc (E.mul (dec a) (dec b)) };

    fn mul(self, other: Ext) -> Ext {
        self.reduced().times(other.reduced())
    }
}

// The product with an element of the base.
impl Mul<Base> for Ext {
    type Output = Ext;

    ghost mul_gives = { λ a b result. result ≡ enc (E.mul (dec a) (E.emb (W.dec b))) };

    fn mul(self, b: Base) -> Ext {
        self.times_word(b.value)
    }
}

impl Field for Ext {
    ghost field = { Extension };

    ghost dec = { dec };

    ghost enc = { enc };

    ghost canon = { canon_words };

    ghost ZERO = { record { c0 = 0; c1 = 0; c2 = 0; c3 = 0 } };

    const ZERO: Ext = Ext {
        c0: 0,
        c1: 0,
        c2: 0,
        c3: 0,
    };

    ghost ONE = { record { c0 = 1; c1 = 0; c2 = 0; c3 = 0 } };

    const ONE: Ext = Ext {
        c0: 1,
        c1: 0,
        c2: 0,
        c3: 0,
    };

    ghost TWO = { record { c0 = 2; c1 = 0; c2 = 0; c3 = 0 } };

    const TWO: Ext = Ext {
        c0: 2,
        c1: 0,
        c2: 0,
        c3: 0,
    };

    ghost HALF = { record { c0 = 1006632961; c1 = 0; c2 = 0; c3 = 0 } };

    const HALF: Ext = Ext {
        c0: 1006632961,
        c1: 0,
        c2: 0,
        c3: 0,
    };

    ghost SIXTH = { record { c0 = 1677721601; c1 = 0; c2 = 0; c3 = 0 } };

    const SIXTH: Ext = Ext {
        c0: 1677721601,
        c1: 0,
        c2: 0,
        c3: 0,
    };

    fn canonical(self) -> Ext {
        self.reduced()
    }

    #[tactic(auto, unfolding(crate::specs::Ext::half, crate::specs::Base::half))]
    fn halve(self) -> Ext {
        self * Base::HALF
    }

    #[tactic(auto, unfolding(crate::specs::Element::canon_words))]
    fn is_canonical(self) -> bool {
        let p = Base::ORDER_U32;
        self.c0 < p && self.c1 < p && self.c2 < p && self.c3 < p
    }

    ghost may_add = { λ _ _. tt };

    ghost may_sub = { λ _ _. tt };

    ghost may_mul = { λ _ _. tt };

    ghost may_neg = { λ _. tt };

    ghost add_is = { λ _ _ _ e. e };

    ghost sub_is = { λ _ _ _ e. e };

    ghost mul_is = { λ _ _ _ e. e };

    ghost neg_is = { λ _ _ e. e };

    ghost dec_enc = { dec_enc };

    ghost enc_dec = { λ a e. enc_dec (canon_true a e) };

    ghost eq_is = { same_of_enc };

    ghost zero_is = { enc_of_is zero_is };

    ghost one_is = { enc_of_is one_is };

    ghost two_is = { enc_of_is one_and_one_is };

    ghost half_is = { enc_of_is half_is };

    ghost sixth_is = { enc_of_is sixth_is };
}
