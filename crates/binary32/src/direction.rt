// The directions of rounding as types: a function that is generic over `Direction` rounds down, up or to nearest.
ghost use Rattle.std.specs.Prelude.{◌≡◌, ℕ, ℤ, ◌^◌};
ghost use Rattle.rounding.specs.Format.{binary32};
ghost use Rattle.rounding.specs.Rounding.{down, up, near};
ghost use Rattle.binary32.specs.Number.{largest, least, infinity, minus_infinity};
ghost use Rattle.binary32.specs.Operations.{Way};
ghost use Rattle.binary32.specs.declared.funnel.Ways.{Ways};
ghost use Rattle.binary32.specs.Directions.{DirectionLaws};
ghost use Rattle.binary32.specs.DirectionProofs.{down_laws, up_laws, near_laws};

use crate::Binary32;
use crate::funnel::Ways;

// `way` is the rounding of exact values. NONE is the pattern of "no finite number", BELOW and ABOVE are those of a value that is too large for binary32.
pub trait Direction {
    ghost way: { Way };

    ghost picked: { Ways → ℤ };

    ghost NONE: { ℕ };

    ghost BELOW: { ℕ };

    ghost ABOVE: { ℕ };

    const NONE: u32;

    const BELOW: u32;

    const ABOVE: u32;

    // The significand of this direction.
    fn pick(c: Ways) -> i64
        ensures { result ≡ picked c };

    ghost laws: { DirectionLaws way picked NONE BELOW ABOVE };
}

// The greatest number not above the exact value.
#[derive(Clone, Copy, Debug, PartialEq, Eq)]
pub struct Down;

impl Direction for Down {
    ghost way = { down };

    ghost picked = { λ c. c.down };

    ghost NONE = { minus_infinity };

    ghost BELOW = { minus_infinity };

    ghost ABOVE = { largest };

    ghost laws = { down_laws };

    const NONE: u32 = Binary32::MINUS_INFINITY;

    const BELOW: u32 = Binary32::MINUS_INFINITY;

    const ABOVE: u32 = Binary32::LARGEST;

    fn pick(c: Ways) -> i64 {
        c.down
    }
}

// The least number not below the exact value.
#[derive(Clone, Copy, Debug, PartialEq, Eq)]
pub struct Up;

impl Direction for Up {
    ghost way = { up };

    ghost picked = { λ c. c.up };

    ghost NONE = { infinity };

    ghost BELOW = { least };

    ghost ABOVE = { infinity };

    ghost laws = { up_laws };

    const NONE: u32 = Binary32::INFINITY;

    const BELOW: u32 = Binary32::LEAST;

    const ABOVE: u32 = Binary32::INFINITY; // up has no number: refused

    fn pick(c: Ways) -> i64 {
        c.up
    }
}

// The number closest to the exact value, ties to the even fraction.
#[derive(Clone, Copy, Debug, PartialEq, Eq)]
pub struct Near;

impl Direction for Near {
    ghost way = { near };

    ghost picked = { λ c. c.near };

    ghost NONE = { infinity };

    ghost BELOW = { infinity };

    ghost ABOVE = { infinity };

    ghost laws = { near_laws };

    const NONE: u32 = Binary32::INFINITY;

    const BELOW: u32 = Binary32::INFINITY;

    const ABOVE: u32 = Binary32::INFINITY;

    fn pick(c: Ways) -> i64 {
        c.near
    }
}
