// The base field: operations take any word, by its remainder, and answer the canonical one.
ghost use Rattle.std.specs.Prelude.{◌≡◌, refl, ltb};
ghost use Rattle.field.specs.Base as B;
ghost use Rattle.field.specs.Base.{P, of};
ghost use Rattle.field.specs.BaseElement.{dec, enc};
ghost use Rattle.field.specs.ElementLaws.{base_dec_enc, base_canonical, base_zero, base_one, base_two, base_half, base_sixth};
ghost use Rattle.field.specs.PrimeField.{PrimeField};

use crate::words::{add_word, mul_word, rest_word, sub_word};
use crate::{Base, Field};
use std::ops::{Add, Mul, Neg, Sub};

// The element that a word stands for, by its canonical word.
impl From<u32> for Base {
    ghost from_gives = { λ word result. result ≡ enc (of word) };

    fn from(word: u32) -> Base {
        Base {
            value: rest_word(word),
        }
    }
}

// The sum.
impl Add for Base {
    type Output = Base;

    ghost add_gives = { λ a b result. result ≡ enc (B.add (dec a) (dec b)) };

    fn add(self, other: Base) -> Base {
        Base {
            value: add_word(rest_word(self.value), rest_word(other.value)),
        }
    }
}

// The difference.
impl Sub for Base {
    type Output = Base;

    ghost sub_gives = { λ a b result. result ≡ enc (B.add (dec a) (B.neg (dec b))) };

    fn sub(self, other: Base) -> Base {
        Base {
            value: sub_word(rest_word(self.value), rest_word(other.value)),
        }
    }
}

// The opposite: with the element it sums to zero.
impl Neg for Base {
    type Output = Base;

    ghost neg_gives = { λ a result. result ≡ enc (B.neg (dec a)) };

    fn neg(self) -> Base {
        Base {
            value: sub_word(0, rest_word(self.value)),
        }
    }
}

// The product.
impl Mul for Base {
    type Output = Base;

    ghost mul_gives = { λ a b result. result ≡ enc (B.mul (dec a) (dec b)) };

    fn mul(self, other: Base) -> Base {
        Base {
            value: mul_word(self.value, other.value),
        }
    }
}

impl Field for Base {
    ghost field = { PrimeField };

    ghost dec = { dec };

    ghost enc = { enc };

    ghost canon = { λ a. ltb a.value P };

    ghost ZERO = { record { value = 0 } };

    const ZERO: Base = Base { value: 0 };

    ghost ONE = { record { value = 1 } };

    const ONE: Base = Base { value: 1 };

    ghost TWO = { record { value = 2 } };

    const TWO: Base = Base { value: 2 };

    ghost HALF = { record { value = 1006632961 } };

    const HALF: Base = Base { value: 1006632961 };

    ghost SIXTH = { record { value = 1677721601 } };

    const SIXTH: Base = Base { value: 1677721601 };

    fn canonical(self) -> Base {
        Base::from(self.value)
    }

    #[tactic(auto, unfolding(crate::specs::Base::half))]
    fn halve(self) -> Base {
        self * Base::HALF
    }

    fn is_canonical(self) -> bool {
        self.value < Base::ORDER_U32
    }

    ghost may_add = { λ _ _. tt };

    ghost may_sub = { λ _ _. tt };

    ghost may_mul = { λ _ _. tt };

    ghost may_neg = { λ _. tt };

    ghost add_is = { λ _ _ _ e. e };

    ghost sub_is = { λ _ _ _ e. e };

    ghost mul_is = { λ _ _ _ e. e };

    ghost neg_is = { λ _ _ e. e };

    ghost dec_enc = { base_dec_enc };

    ghost enc_dec = { base_canonical };

    ghost eq_is = { λ _ _. refl };

    ghost zero_is = { base_zero };

    ghost one_is = { base_one };

    ghost two_is = { base_two };

    ghost half_is = { base_half };

    ghost sixth_is = { base_sixth };
}
