// The exact midpoint of two patterns, rounded to nearest and rounded up, by one cut. The two tell on which side of the exact midpoint the nearest
// number lies: where they are equal it is not below.
ghost use Rattle.std.specs.Prelude.{◌≡◌};
ghost use Rattle.rounding.specs.Rounding.{up, near};
ghost use Rattle.binary32.specs.Number.{hold_up, hold_near};
ghost use Rattle.binary32.specs.Operations.{midpoint, with₂};

use crate::Binary32;
use crate::direction::{Near, Up};
use crate::exact::total;
use crate::funnel::{cut, pattern};

// A value rounded to nearest and rounded up; infinity where there is no finite result.
#[derive(Clone, Copy, Debug, PartialEq, Eq)]
pub struct NearUp {
    pub near: u32,
    pub up: u32,
}

// The exact midpoint of a and b, rounded to nearest and rounded up; infinity where a pattern has exponent field 255.
// One cut serves both: two calls of `funnel::round` were tried and take 24 instructions more, a fifth.
pub fn near_up(a: u32, b: u32) -> NearUp
    ensures nears { result.near ≡ hold_near (with₂ (midpoint near) a b) }
    ensures ups { result.up ≡ hold_up (with₂ (midpoint up) a b) }
{
    let Some(x) = total(a, b, Binary32::SMALLEST_EXPONENT - 1) else {
        return NearUp {
            near: Binary32::INFINITY,
            up: Binary32::INFINITY,
        };
    };
    let c = cut(x);
    NearUp {
        near: pattern::<Near>(c),
        up: pattern::<Up>(c),
    }
}
