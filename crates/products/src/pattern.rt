// From a pattern to its unpacked number, and back.
ghost use Rattle.std.specs.Prelude.{◌≡◌, cond, false, ◌⊎◌, ◌*◌, ◌%◌, ◌^◌, ◌≤◌, ◌<◌, ltb};
ghost use Rattle.binary32.specs.Number.{pattern_of};
ghost use Rattle.unpacked.specs.Number.{worth, IsNumber, Unpacked};
ghost use Rattle.unpacked.specs.Cuts.{fields_of};

use crate::number::whole;
use crate::shifts::{ALL, with_sign};
use binary32::Binary32;
use unpacked::{BIAS, Number, none};

// The exponent field of infinities and NaNs.
const NOT_FINITE: u32 = 255;

// Exponent field 1 stands for (2^23 + fraction) × 2^0 units, so a normal number has its field + 399 as exponent.
const FIELD_TO_EXPONENT: u32 = BIAS - 1;

// The number of a pattern with exponent field 0 (zero or subnormal), or none for exponent field 255.
fn unpack_other(p: u32) -> Number
    requires { (p % 2 ^ 31 < 2 ^ 23) ⊎ (255 * 2 ^ 23 ≤ p % 2 ^ 31) }
    ensures { Unpacked p result }
{
    let t = p % Binary32::SIGN;
    if t < Binary32::HIDDEN {
        return whole(with_sign(Binary32::SIGN <= p, u64::from(t)));
    }
    none()
}

// Whether an exponent field is that of a normal number.
fn is_normal(e: u32) -> bool
    ensures { result ≡ cond (ltb e 1) false (ltb e 255) }
{
    if e < 1 {
        return false;
    }
    e < NOT_FINITE
}

// The number of a pattern; none for exponent field 255.
pub fn unpack(p: u32) -> Number
    ensures { Unpacked p result }
{
    let t = p % Binary32::SIGN;
    let e = t / Binary32::HIDDEN;
    if is_normal(e) {
        return Number {
            sig: with_sign(
                Binary32::SIGN <= p,
                u64::from(t % Binary32::HIDDEN + Binary32::HIDDEN),
            ),
            exp: e + FIELD_TO_EXPONENT,
        };
    }
    unpack_other(p)
}

// The pattern without sign of m × 2^(exp - 400) units: m has 24 bits, and below the exponent 400 its last bits are zeros that are shifted out.
#[tactic(auto, using(unpacked::proofs::Packing::fields_high, unpacked::proofs::Packing::fields_capped))]
fn fields(m: u64, exp: u32) -> u32
    requires { (m ≤ 2 ^ 24) × (64 ≤ exp) × (exp ≤ 653) }
    ensures { result ≡ fields_of m exp }
{
    if BIAS <= exp {
        // m has 24 bits here and below; a TryFrom would need a way out that is never taken.
        return (exp - BIAS) * Binary32::HIDDEN + m as u32;
    }
    (m >> (BIAS - exp).min(ALL)) as u32
}

// The pattern of a number.
pub fn pack(x: Number) -> u32
    requires { IsNumber x }
    ensures { result ≡ pattern_of (worth x) }
{
    let t = fields(x.sig.unsigned_abs(), x.exp);
    if x.sig < 0 {
        return Binary32::SIGN + t;
    }
    t
}
