// A cell of A whose bounds are unpacked: once for all entries of its row. Used by method 1 (classical.rt, sums.rt) and by one pair more (pair.rt).
ghost use Rattle.std.specs.Prelude.{◌≡◌, ◌+◌, ltb};
ghost use Rattle.unpacked.specs.Number.{IsNumber};
ghost use Rattle.products.specs.Apart.{IsApart, lower_number, upper_number, zero_apart};

use crate::pattern::unpack;
use unpacked::{Number, ZERO_EXPONENT};

// The sum of the exponents of two zeros.
const BOTH_ZERO: u32 = ZERO_EXPONENT + ZERO_EXPONENT;

// Significands and exponents of the bounds. The fields are not two Numbers, so that there is no padding and an array is cleared by one memset.
#[derive(Clone, Copy)]
pub struct Apart {
    pub lower_sig: i64,
    pub upper_sig: i64,
    pub lower_exp: u32,
    pub upper_exp: u32,
}

impl Apart {
    // The value that an array is filled with before its cells are known.
    pub fn zero() -> Self
        ensures { result ≡ zero_apart }
    {
        Apart {
            lower_sig: 0,
            upper_sig: 0,
            lower_exp: 0,
            upper_exp: 0,
        }
    }

    // The cell with the patterns lo and hi as bounds.
    pub fn new(lo: u32, hi: u32) -> Self
        ensures { IsApart lo hi result }
    {
        let x = unpack(lo);
        let y = unpack(hi);
        Apart {
            lower_sig: x.sig,
            upper_sig: y.sig,
            lower_exp: x.exp,
            upper_exp: y.exp,
        }
    }

    // The lower bound.
    pub fn lower(self) -> Number
        ensures { result ≡ lower_number self }
    {
        Number {
            sig: self.lower_sig,
            exp: self.lower_exp,
        }
    }

    // The upper bound.
    pub fn upper(self) -> Number
        ensures { result ≡ upper_number self }
    {
        Number {
            sig: self.upper_sig,
            exp: self.upper_exp,
        }
    }

    // Whether the cell is not [0, 0], whose corner products add nothing. Zero has the exponent 64, all other numbers a larger one.
    pub fn is_nonzero(self) -> bool
        requires { IsNumber (lower_number self) × IsNumber (upper_number self) }
        ensures { result ≡ ltb 128 ((lower_number self).exp + (upper_number self).exp) }
    {
        BOTH_ZERO < self.lower_exp + self.upper_exp
    }
}
