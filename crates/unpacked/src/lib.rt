// The forms in which the crate `products` keeps numbers, sums and exact products while it works: a signed significand and an exponent, in place of a pattern.
// Their definitions are in specs/, their laws in proofs/. The functions on them are private modules of `products`, since they need operands in normal form.
#![tactic(auto)]

ghost use Rattle.std.specs.Prelude.{◌≡◌, ltb};
ghost use Rattle.unpacked.specs.Number.{zero_number, no_number, minus_tiny};

// The bias of a Number's exponent: its value is sig × 2^(exp - BIAS) units. The smallest number, 2^23 × 2^-23 units, has the exponent 377.
pub const BIAS: u32 = 400;

// The exponent of zero: far below 377, so that zero is the summand that is shifted, and 60 or more, so that normalising a sum makes no exponent negative.
pub const ZERO_EXPONENT: u32 = 64;

// The exponent of the largest number, which is (2^24 - 1) × 2^253 units.
pub const LARGEST_EXPONENT: u32 = BIAS + 253;

// The exponent of none. A sum with none has an exponent near it, a product with none a larger one than any product of two numbers.
pub const NONE_EXPONENT: u32 = 2000;

// The least significand above zero in normal form: 2^23.
const LEAST_SIGNIFICAND: i64 = 0x80_0000;

// The significand of none, which makes it a negative value in normal form.
pub const NONE_SIGNIFICAND: i64 = -LEAST_SIGNIFICAND;

// Number, Aligned and Product stay three types: each counts in units of its own, and no function but the change of sign serves two of them.

// A number, sig × 2^(exp - BIAS) units, with |sig| from 2^23 to 2^24, or zero; or none, which stands for an overflow or a pattern with exponent field 255.
// None is a negative value far below all numbers, so that a sum with it is far below all numbers too. No Option: the laws of sums speak of none as of a number.
// No ghost field: no one fact holds of all. It is a number, none, and also a sum of 24 bits before the largest number limits it, so these stay clauses.
#[derive(Clone, Copy, Debug, PartialEq, Eq)]
pub struct Number {
    pub sig: i64,
    pub exp: u32,
}

// The sum of two numbers before it is rounded: w × 2^(exp - 436) units. 436 is BIAS + 36, since w has 36 guard bits.
#[derive(Clone, Copy, Debug, PartialEq, Eq)]
pub struct Aligned {
    pub w: i64,
    pub exp: u32,
}

// The exact product of two numbers: sig × 2^(exp - 950) units, with |sig| from 2^47 to 2^48, or zero.
// No ghost field says so: `times` asks its factors to be in normal form and no more, and zero times one that lies between numbers and none is not formed.
#[derive(Clone, Copy, Debug, PartialEq, Eq)]
pub struct Product {
    pub sig: i64,
    pub exp: u32,
}

// An exact product and its rank: an integer made of exponent and significand, such that ranks are ordered as the products are.
#[derive(Clone, Copy, Debug, PartialEq, Eq)]
pub struct Corner {
    pub product: Product,
    pub rank: i64,
}

pub fn zero() -> Number
    ensures { result ≡ zero_number }
{
    Number {
        sig: 0,
        exp: ZERO_EXPONENT,
    }
}

pub fn none() -> Number
    ensures { result ≡ no_number }
{
    Number {
        sig: NONE_SIGNIFICAND,
        exp: NONE_EXPONENT,
    }
}

// -2^-125, which is -2^23 × 2^1 units: what method 3 adds to a radius, negated.
pub fn minus_tiny() -> Number
    ensures { result ≡ minus_tiny }
{
    Number {
        sig: -LEAST_SIGNIFICAND,
        exp: BIAS + 1,
    }
}

// Whether x is none: its exponent is above that of the largest number.
pub fn is_none(x: Number) -> bool
    ensures { result ≡ ltb 653 x.exp }
{
    LARGEST_EXPONENT < x.exp
}
