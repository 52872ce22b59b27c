// The prime. A constant of a type has no contract: a function for each states which number it is.
ghost use Rattle.std.specs.Prelude.{◌≡◌};
ghost use Rattle.field.specs.Base as B;

use crate::Base;

impl Base {
    // The prime, in both widths that words are reduced in.
    pub const ORDER_U32: u32 = 2013265921;

    pub const ORDER_U64: u64 = Base::ORDER_U32 as u64;

    // The prime.
    pub fn order() -> u32
        ensures { result ≡ B.P }
    {
        Base::ORDER_U32
    }

    // The same, as products are reduced by it.
    pub fn wide_order() -> u64
        ensures { result ≡ B.P }
    {
        Base::ORDER_U64
    }
}
