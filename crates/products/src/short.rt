// The directions in which sums and products of unpacked numbers are rounded, as types: down, and to nearest. Up is down with the other sign.
ghost use Rattle.std.proofs.Math.Option.{Option};
ghost use Rattle.std.specs.Prelude.{◌≡◌, ◌^◌, ◌≤◌, ℕ, ℤ, nat_abs};
ghost use Rattle.std.specs.Int.Signed.{shr_z};
ghost use Rattle.unpacked.specs.declared.Number.{Number};
ghost use Rattle.unpacked.specs.Number.{worth, Normal, Holds};
ghost use Rattle.unpacked.specs.Cuts.{DownOf, NearOf, limited, limited_near, nearest_of};
ghost use Rattle.products.specs.Short.{ShortLaws};
ghost use Rattle.products.specs.ShortProofs.{down_laws, near_laws};

use crate::number::fits;
use crate::shifts::{lowered, nearest};
use binary32::direction::{Direction, Down, Near};
use unpacked::{LARGEST_EXPONENT, NONE_EXPONENT, NONE_SIGNIFICAND, Number, none};

// `part` is t / m as an integer, `limited` what the largest number leaves of a value of 24 bits, `Sum` a sum of 24 bits before it is limited.
pub trait Short: Direction {
    ghost part: { ℤ → ℕ → ℤ };

    ghost limited: { ℤ → Option ℤ };

    ghost Sum: { ℤ → Number → Type 0 };

    // t / 2^n, rounded.
    fn shorten(t: i64, n: u32) -> i64
        requires { (nat_abs t ≤ 2 ^ 62) × (1 ≤ n) × (n ≤ 61) }
        ensures { result ≡ part t (2 ^ n) };

    // x, which is rounded to 24 bits already, as a binary32 number or none.
    fn limit(x: Number) -> Number
        requires { Normal x × (x.exp ≤ 4002) }
        ensures { Holds (limited (worth x)) result };

    // The same for the sum of a step.
    fn limit_sum(x: Number) -> Number
        requires { Normal x × (x.exp ≤ 4002) }
        ensures { Holds (limited (worth x)) result }
    {
        Self::limit(x)
    }

    ghost laws: { ShortLaws Self.way part limited Sum };
}

// 2^24 - 1, the significand of the largest number.
const LARGEST_SIGNIFICAND: i64 = 0xFF_FFFF;

impl Short for Down {
    ghost part = { shr_z };

    ghost limited = { limited };

    ghost Sum = { DownOf };

    ghost laws = { down_laws };

    fn shorten(t: i64, n: u32) -> i64 {
        lowered(t, n)
    }

    // The largest number where x is above it, none where x is below all numbers.
    fn limit(x: Number) -> Number {
        if fits(x) {
            return x;
        }
        if x.sig < 0 {
            return none();
        }
        Number {
            sig: LARGEST_SIGNIFICAND,
            exp: LARGEST_EXPONENT,
        }
    }

    // The usual case first: a smaller exponent than that of the largest number.
    fn limit_sum(x: Number) -> Number {
        if x.exp < LARGEST_EXPONENT {
            return x;
        }
        Self::limit(x)
    }
}

impl Short for Near {
    ghost part = { nearest_of };

    ghost limited = { limited_near };

    ghost Sum = { NearOf };

    ghost laws = { near_laws };

    fn shorten(t: i64, n: u32) -> i64 {
        nearest(t, n)
    }

    // None where |x| is above the largest number. Chosen field by field, so that x stays in registers.
    fn limit(x: Number) -> Number {
        let ok = fits(x);
        Number {
            sig: if ok { x.sig } else { NONE_SIGNIFICAND },
            exp: if ok { x.exp } else { NONE_EXPONENT },
        }
    }
}
