// The operations of binary32 on 32-bit patterns: each rounds the exact result once. Only integer arithmetic is used, no machine floats.
// The pattern of minus zero is read as zero, and a zero result is the pattern 0.
#![tactic(auto)]

ghost use Rattle.std.specs.Prelude.{◌≡◌};
ghost use Rattle.binary32.specs.Operations.{checked_of, answer, add, sub, mul, midpoint};

pub mod direction;
mod exact;
pub mod finite;
mod funnel;
pub mod midpoints;
pub mod order;
pub mod partial;
mod parts;

use direction::Direction;
use refusals::reason::Reason;

// A number of the format, by its pattern; and the format: its precision, its unit, 2^-149, and the patterns of its extreme values.
#[derive(Clone, Copy, Debug, PartialEq, Eq)]
pub struct Binary32 {
    pub bits: u32,
}

impl Binary32 {
    // Bits of a significand.
    pub const PRECISION: u32 = 24;

    // One unit, the smallest positive number, is 2^-149.
    pub const SMALLEST_EXPONENT: u32 = 149;

    // The patterns of MAX and -MAX, and of the infinities, which stand for "no finite result" inside the library.
    pub const LARGEST: u32 = 0x7F7F_FFFF;

    pub const LEAST: u32 = 0xFF7F_FFFF;

    pub const INFINITY: u32 = 0x7F80_0000;

    pub const MINUS_INFINITY: u32 = 0xFF80_0000;

    // The sign bit, and the implicit leading bit of a significand, one above the fraction: one step of the exponent field.
    pub const SIGN: u32 = 0x8000_0000;

    pub const HIDDEN: u32 = 0x80_0000;
}

// The answer of an operation on a and b with the result r, where exponent field 255 in r means that there is no finite result.
#[tactic(auto, unfolding(crate::specs::Operations::checked_of))]
fn checked(a: u32, b: u32, r: u32) -> Result<u32, Reason>
    ensures { result ≡ checked_of a b r }
{
    if !finite::are_finite(a, b) {
        return Err(Reason::NotFinite);
    }
    if finite::is_finite(r) {
        return Ok(r);
    }
    Err(Reason::TooLarge)
}

// a + b, rounded once.
pub fn add<D: Direction>(a: u32, b: u32) -> Result<u32, Reason>
    ensures { result ≡ answer (add D.way) a b }
{
    checked(a, b, partial::add::<D>(a, b))
}

// a - b, rounded once.
pub fn sub<D: Direction>(a: u32, b: u32) -> Result<u32, Reason>
    ensures { result ≡ answer (sub D.way) a b }
{
    checked(a, b, partial::sub::<D>(a, b))
}

// a × b, rounded once.
pub fn mul<D: Direction>(a: u32, b: u32) -> Result<u32, Reason>
    ensures { result ≡ answer (mul D.way) a b }
{
    checked(a, b, partial::mul::<D>(a, b))
}

// The exact midpoint of a and b, rounded once.
pub fn midpoint<D: Direction>(a: u32, b: u32) -> Result<u32, Reason>
    ensures { result ≡ answer (midpoint D.way) a b }
{
    checked(a, b, partial::midpoint::<D>(a, b))
}
