// Whether patterns are those of finite numbers.
ghost use Rattle.std.specs.Prelude.{◌≡◌};
ghost use Rattle.binary32.specs.Number.{finite, finites};

use crate::Binary32;

// Whether the exponent field is not 255.
pub fn is_finite(p: u32) -> bool
    ensures { result ≡ finite p }
{
    p % Binary32::SIGN < Binary32::INFINITY
}

// Whether neither exponent field is 255.
pub fn are_finite(a: u32, b: u32) -> bool
    ensures { result ≡ finites a b }
{
    is_finite(a) && is_finite(b)
}
