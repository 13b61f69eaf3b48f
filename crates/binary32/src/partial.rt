// Operations on patterns where exponent field 255 means "none" (no finite number): the result is none where an operand is none, or where it is
// too large for binary32. None is returned as minus infinity by rounding down, as infinity otherwise.
// So of many steps only the last result must be tested: it is none if any step was. No Option: the clauses promise a pattern (`hold D.NONE`).
ghost use Rattle.std.specs.Prelude.{◌≡◌};
ghost use Rattle.binary32.specs.Number.{hold};
ghost use Rattle.binary32.specs.Operations.{add, sub, mul, midpoint, with₂};

use crate::Binary32;
use crate::direction::Direction;
use crate::exact::{product, total};
use crate::funnel::round;
use crate::order::negate;

// a × b, rounded once.
pub fn mul<D: Direction>(a: u32, b: u32) -> u32
    ensures { result ≡ hold D.NONE (with₂ (mul D.way) a b) }
{
    round::<D>(product(a, b))
}

// a + b, rounded once.
pub fn add<D: Direction>(a: u32, b: u32) -> u32
    ensures { result ≡ hold D.NONE (with₂ (add D.way) a b) }
{
    round::<D>(total(a, b, Binary32::SMALLEST_EXPONENT))
}

// The exact midpoint of a and b, rounded once.
pub fn midpoint<D: Direction>(a: u32, b: u32) -> u32
    ensures { result ≡ hold D.NONE (with₂ (midpoint D.way) a b) }
{
    round::<D>(total(a, b, Binary32::SMALLEST_EXPONENT - 1))
}

// a - b, rounded once.
pub fn sub<D: Direction>(a: u32, b: u32) -> u32
    ensures { result ≡ hold D.NONE (with₂ (sub D.way) a b) }
{
    add::<D>(a, negate(b))
}
