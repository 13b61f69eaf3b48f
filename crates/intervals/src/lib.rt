// Intervals of binary32 numbers in two representations: bounds [a, b] with a ≤ b, and midpoint and radius <m, r> with r ≥ 0.
#![tactic(auto)]

ghost use Rattle.std.specs.Prelude.{◌≡◌};
ghost use Rattle.refusals.specs.Answer.{done};
ghost use Rattle.intervals.specs.Conversion.{fault_of, radius_fault_of, mid_of, mid_up_of, rad_of, midrad_of, OptimalFor, outward_of, bounds_of};

use binary32::direction::{Down, Up};
use binary32::finite::are_finite;
use binary32::midpoints::{NearUp, near_up};
use binary32::order::at_most;
use binary32::partial;
use refusals::reason::Reason;

pub mod matrix;
pub mod slices;

// Bounds stay two words side by side: the functions for C and the definitions take them so.

// The fault of a pair of bounds: NotFinite, a bound has exponent field 255; Crossed, the lower bound is above the upper.
#[tactic(auto, unfolding(crate::specs::Conversion::fault_of))]
pub fn check(lo: u32, hi: u32) -> Result<(), Reason>
    ensures { result ≡ fault_of lo hi }
{
    if !are_finite(lo, hi) {
        return Err(Reason::NotFinite);
    }
    if at_most(lo, hi) {
        Ok(())
    } else {
        Err(Reason::Crossed)
    }
}

// The fault of a midpoint and a radius: NotFinite, one has exponent field 255; Crossed, the radius is negative.
// It stays beside `check`: one function for both would take the number that r may not be below as a third argument.
#[tactic(auto, unfolding(crate::specs::Conversion::radius_fault_of))]
fn check_radius(m: u32, r: u32) -> Result<(), Reason>
    ensures { result ≡ radius_fault_of m r }
{
    if !are_finite(m, r) {
        return Err(Reason::NotFinite);
    }
    if at_most(0, r) {
        Ok(())
    } else {
        Err(Reason::Crossed)
    }
}

// The distance from the midpoint to the farther bound, rounded up. That is the lower bound where the midpoint to nearest is the one rounded up too, and so
// not below the exact one. Never refused.
fn radius(lo: u32, hi: u32, mid: NearUp) -> u32
    requires { (fault_of lo hi ≡ done) × (mid.near ≡ mid_of lo hi) × (mid.up ≡ mid_up_of lo hi) }
    ensures { result ≡ rad_of lo hi }
{
    if mid.near == mid.up {
        return partial::sub::<Up>(mid.near, lo);
    }
    partial::sub::<Up>(hi, mid.near)
}

// Bounds [a, b] to <m, r>: m is the exact midpoint to nearest, r is the larger of m - a and b - m, rounded up. Neither overflows, and no pair of
// binary32 numbers that encloses [a, b] has a smaller radius.
#[tactic(auto, unfolding(crate::specs::Conversion::midrad_of))]
pub fn to_midrad(lo: u32, hi: u32) -> Result<(u32, u32), Reason>
    ensures answer { result ≡ midrad_of lo hi }
    ensures optimal { OptimalFor lo hi (result) }
{
    check(lo, hi)?;
    let mid = near_up(lo, hi);
    Ok((mid.near, radius(lo, hi, mid)))
}

// lo - amount rounded down and hi + amount rounded up.
pub fn outward(lo: u32, hi: u32, amount: u32) -> Result<(u32, u32), Reason>
    ensures { result ≡ outward_of lo hi amount }
{
    Ok((
        binary32::sub::<Down>(lo, amount)?,
        binary32::add::<Up>(hi, amount)?,
    ))
}

// <m, r> to bounds: m - r rounded down and m + r rounded up.
#[tactic(auto, unfolding(crate::specs::Conversion::bounds_of))]
pub fn to_bounds(m: u32, r: u32) -> Result<(u32, u32), Reason>
    ensures { result ≡ bounds_of m r }
{
    check_radius(m, r)?;
    outward(m, m, r)
}
