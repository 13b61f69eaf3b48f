// Numbers unpacked into significand and exponent: comparison with the largest number, sign changes, and rounding to 24 bits.
ghost use Rattle.std.specs.Prelude.{◌≡◌, ◌^◌, ◌≤◌, ◌<◌, leb, nat_abs};
ghost use Rattle.std.proofs.Math.Option.{some};
ghost use Rattle.rounding.specs.Format.{binary32, MAX};
ghost use Rattle.unpacked.specs.Number.{worth, Normal, Holds, Opposite, Absolute, Negative, Scaled};
ghost use Rattle.unpacked.specs.Cuts.{Cut, OrLow};

use crate::shifts::{GUARD, digits, raised, widened};
use crate::short::Short;
use binary32::direction::Down;
use unpacked::{BIAS, LARGEST_EXPONENT, Number, ZERO_EXPONENT};

// 2^24, one more than the significand of the largest number.
pub const PAST_LARGEST: u64 = 0x100_0000;

// How many bits of a sum are dropped when it is rounded to 24: it is first shifted up to 62 bits, and 62 - 24 is 38.
pub const DROPPED: u32 = 38;

// Dropping 38 bits, of which 36 are guard bits, adds 2 to the exponent.
pub const GAIN: u32 = DROPPED - GUARD;

// Whether |x| is at most the largest number.
#[tactic(auto, using(unpacked::proofs::Worths::fits_below, unpacked::proofs::Worths::fits_beyond, unpacked::proofs::Worths::fits_last))]
pub fn fits(x: Number) -> bool
    requires { Normal x }
    ensures { result ≡ leb (nat_abs (worth x)) (MAX binary32) }
{
    if x.exp < LARGEST_EXPONENT {
        return true;
    }
    if LARGEST_EXPONENT < x.exp {
        return false;
    }
    x.sig.unsigned_abs() < PAST_LARGEST
}

// -x
pub fn opposite(x: Number) -> Number
    requires { Normal x }
    ensures { Opposite x result }
{
    Number {
        sig: -x.sig,
        exp: x.exp,
    }
}

// |x|
pub fn absolute(x: Number) -> Number
    requires { Normal x }
    ensures { Absolute x result }
{
    if x.sig < 0 {
        return opposite(x);
    }
    x
}

// -|x|
pub fn negative(x: Number) -> Number
    requires { Normal x }
    ensures { Negative x result }
{
    if x.sig < 0 {
        return x;
    }
    opposite(x)
}

// x × 2^n, for x other than zero.
pub fn scaled(x: Number, n: u32) -> Number
    requires { Normal x × (0 < nat_abs x.sig) × (x.exp ≤ 2000) × (n ≤ 300) }
    ensures { Scaled x n result }
{
    Number {
        sig: x.sig,
        exp: x.exp + n,
    }
}

// The exponent of a rounded w: e, or that of zero where w is 0.
fn or_low(w: i64, e: u32) -> u32
    ensures { OrLow w e result }
{
    if w == 0 { ZERO_EXPONENT } else { e }
}

// w × 2^(exp - 436) units, rounded to 24 bits: w is shifted up by z places to 62 bits, then 38 bits are dropped.
pub fn cut<D: Short>(w: i64, exp: u32) -> Number
    requires { (nat_abs w ≤ 2 ^ 61) × (64 ≤ exp) × (exp ≤ 4000) }
    ensures { Cut D.part w exp result }
{
    let z = u64::leading_zeros(digits(w) * 4 + 3);
    Number {
        sig: D::shorten(widened(w, z), DROPPED),
        exp: or_low(w, exp + GAIN - z),
    }
}

// z units as a Number, for |z| up to 2^24.
pub fn whole(z: i64) -> Number
    requires { nat_abs z ≤ 2 ^ 24 }
    ensures { Holds (some z) result }
{
    cut::<Down>(raised(z), BIAS)
}
