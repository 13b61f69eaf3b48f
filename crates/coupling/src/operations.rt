// The operations of binary32, for callers in C. One function for each name in coupling.h: C passes no type parameter.
// Each takes two patterns and returns the pattern of the result; or it refuses and returns 0x7F800003 (refusal 3, an operand has exponent field 255)
// or 0x7F800005 (refusal 5, the result is too large for binary32).
ghost use Rattle.std.specs.Prelude.{◌≡◌};
ghost use Rattle.binary32.specs.Operations.{add_down, add_up, add_near, sub_down, sub_up, sub_near};
ghost use Rattle.binary32.specs.Operations.{mul_down, mul_up, mul_near, midpoint_down, midpoint_up, midpoint_near};
ghost use Rattle.coupling.specs.Operations.{pattern_for};

use binary32::Binary32;
use binary32::direction::{Down, Near, Up};
use refusals::reason::Reason;

// The pattern of the result, or the number of the reason added to the pattern of infinity: no result has exponent field 255.
fn pattern_for(answer: Result<u32, Reason>) -> u32
    ensures { result ≡ pattern_for answer }
{
    match answer {
        Ok(p) => p,
        Err(reason) => Binary32::INFINITY + u32::from(reason.number()),
    }
}

pub fn coupling_add_down(a: u32, b: u32) -> u32
    ensures { result ≡ pattern_for (add_down a b) }
{
    pattern_for(binary32::add::<Down>(a, b))
}

pub fn coupling_add_up(a: u32, b: u32) -> u32
    ensures { result ≡ pattern_for (add_up a b) }
{
    pattern_for(binary32::add::<Up>(a, b))
}

pub fn coupling_add_near(a: u32, b: u32) -> u32
    ensures { result ≡ pattern_for (add_near a b) }
{
    pattern_for(binary32::add::<Near>(a, b))
}

pub fn coupling_sub_down(a: u32, b: u32) -> u32
    ensures { result ≡ pattern_for (sub_down a b) }
{
    pattern_for(binary32::sub::<Down>(a, b))
}

pub fn coupling_sub_up(a: u32, b: u32) -> u32
    ensures { result ≡ pattern_for (sub_up a b) }
{
    pattern_for(binary32::sub::<Up>(a, b))
}

pub fn coupling_sub_near(a: u32, b: u32) -> u32
    ensures { result ≡ pattern_for (sub_near a b) }
{
    pattern_for(binary32::sub::<Near>(a, b))
}

pub fn coupling_mul_down(a: u32, b: u32) -> u32
    ensures { result ≡ pattern_for (mul_down a b) }
{
    pattern_for(binary32::mul::<Down>(a, b))
}

pub fn coupling_mul_up(a: u32, b: u32) -> u32
    ensures { result ≡ pattern_for (mul_up a b) }
{
    pattern_for(binary32::mul::<Up>(a, b))
}

pub fn coupling_mul_near(a: u32, b: u32) -> u32
    ensures { result ≡ pattern_for (mul_near a b) }
{
    pattern_for(binary32::mul::<Near>(a, b))
}

pub fn coupling_midpoint_down(a: u32, b: u32) -> u32
    ensures { result ≡ pattern_for (midpoint_down a b) }
{
    pattern_for(binary32::midpoint::<Down>(a, b))
}

pub fn coupling_midpoint_up(a: u32, b: u32) -> u32
    ensures { result ≡ pattern_for (midpoint_up a b) }
{
    pattern_for(binary32::midpoint::<Up>(a, b))
}

pub fn coupling_midpoint_near(a: u32, b: u32) -> u32
    ensures { result ≡ pattern_for (midpoint_near a b) }
{
    pattern_for(binary32::midpoint::<Near>(a, b))
}
