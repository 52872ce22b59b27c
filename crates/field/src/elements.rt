// What both types of elements have: one contract, over the field that the values stand for.
ghost use Rattle.std.specs.Prelude.{◌≡◌, Bool, true};
ghost use Rattle.ring.specs.Field as Model;

use std::ops::{Add, Mul, Neg, Sub};

// Elements of a field. Operations take any words, by their remainders, and answer the canonical ones.
pub trait Field: Copy
    + Eq
    + Add<Output = Self>
    + Sub<Output = Self>
    + Mul<Output = Self>
    + Neg<Output = Self> {
    // The field, the element that a value stands for, the canonical value of an element, and whether a value is canonical.
    ghost field: { Model.Field };

    ghost dec: { Self → field.ring.carrier };

    ghost enc: { field.ring.carrier → Self };

    ghost canon: { Self → Bool };

    // The constants: `zero_is` and the laws beside it say which elements they are.
    ghost ZERO: { Self };

    const ZERO: Self;

    ghost ONE: { Self };

    const ONE: Self;

    ghost TWO: { Self };

    const TWO: Self;

    // The inverse of 2.
    ghost HALF: { Self };

    const HALF: Self;

    // The inverse of 6.
    ghost SIXTH: { Self };

    const SIXTH: Self;

    // The same element by its canonical words.
    fn canonical(self) -> Self
        ensures { result ≡ enc (dec self) };

    // Half of the element: the product with the inverse of 2.
    fn halve(self) -> Self
        ensures { result ≡ enc (field.ring.mul (dec self) field.half) };

    // Whether each word is below the prime.
    fn is_canonical(self) -> bool
        ensures { result ≡ canon self };

    // Twice the element.
    final fn double(self) -> Self
        ensures { result ≡ enc (field.ring.add (dec self) (dec self)) }
    {
        self + self
    }

    // The product with itself.
    final fn square(self) -> Self
        ensures { result ≡ enc (field.ring.mul (dec self) (dec self)) }
    {
        self * self
    }

    // Whether both values stand for the same element.
    final fn equals(self, other: Self) -> bool
        ensures { result ≡ field.same (dec self) (dec other) }
    {
        self.canonical() == other.canonical()
    }

    // Whether the value stands for zero.
    final fn is_zero(self) -> bool
        ensures { result ≡ field.same (dec self) field.ring.nil }
    {
        self.canonical() == Self::ZERO
    }

    // The sum, the difference, the product and the opposite, at any words.
    ghost may_add: { (a b : Self) → Self.Add.can_add a b };

    ghost may_sub: { (a b : Self) → Self.Sub.can_sub a b };

    ghost may_mul: { (a b : Self) → Self.Mul.can_mul a b };

    ghost may_neg: { (a : Self) → Self.Neg.can_neg a };

    ghost add_is: { (a b r : Self) → Self.Add.add_gives a b r → r ≡ enc (field.ring.add (dec a) (dec b)) };

    ghost sub_is: { (a b r : Self) → Self.Sub.sub_gives a b r → r ≡ enc (field.ring.add (dec a) (field.ring.neg (dec b))) };

    ghost mul_is: { (a b r : Self) → Self.Mul.mul_gives a b r → r ≡ enc (field.ring.mul (dec a) (dec b)) };

    ghost neg_is: { (a r : Self) → Self.Neg.neg_gives a r → r ≡ enc (field.ring.neg (dec a)) };

    // Canonical values and elements are one another's inverses, and `==` of canonical values is the test on elements.
    ghost dec_enc: { (x : field.ring.carrier) → dec (enc x) ≡ x };

    ghost enc_dec: { (a : Self) → canon a ≡ true → enc (dec a) ≡ a };

    ghost eq_is: { (x y : field.ring.carrier) → Self.eq (enc x) (enc y) ≡ field.same x y };

    // The elements of the constants.
    ghost zero_is: { ZERO ≡ enc field.ring.nil };

    ghost one_is: { ONE ≡ enc field.ring.one };

    ghost two_is: { TWO ≡ enc (field.ring.add field.ring.one field.ring.one) };

    ghost half_is: { HALF ≡ enc field.half };

    ghost sixth_is: { SIXTH ≡ enc field.sixth };
}
