// Two summands brought to the larger of their exponents and added, before the sum is rounded. Called by plus.rt.
ghost use Rattle.std.specs.Prelude.{◌≡◌, ◌^◌, ltb, pos, nat_abs};
ghost use Rattle.algebra.specs.Order.{◌≼◌};
ghost use Rattle.unpacked.specs.Cuts.{Summands, AlignedIs, earlier, later};

use crate::shifts::{ALL, GUARD, added, lowered, raised};
use unpacked::{Aligned, Number};

// -2^60: below it a sum with 36 guard bits has 25 bits in front of them, one too many.
const LONGEST: i64 = -0x1000_0000_0000_0000;

// Dropped where a sum has 25 bits in front of the guard bits.
pub const GUARD_AND_CARRY: u32 = GUARD + 1;

// The summand with the larger exponent, x where the exponents are equal, and the other one. (binary32's exact.rt orders summands of a type of its own.)
#[tactic(auto, unfolding(unpacked::specs::Cuts::earlier, unpacked::specs::Cuts::later))]
fn in_order(x: Number, y: Number) -> (Number, Number)
    ensures { result ≡ (earlier x y, later x y) }
{
    if x.exp < y.exp { (y, x) } else { (x, y) }
}

// x + y with 36 guard bits: exact, or, where the smaller summand loses bits by its shift, rounded down in the last guard bit.
pub fn align(x: Number, y: Number) -> Aligned
    requires { Summands x y }
    ensures { AlignedIs x y result }
{
    let (b, s) = in_order(x, y);
    let d = (b.exp - s.exp).min(ALL);
    Aligned {
        w: added(raised(b.sig), lowered(raised(s.sig), d)),
        exp: b.exp,
    }
}

// Whether w, a sum of two summands of which neither is above zero, has 25 bits in front of its guard bits.
pub fn carried(w: i64) -> bool
    requires { w ≼ pos 0 }
    ensures { result ≡ ltb (2 ^ 60) (nat_abs w) }
{
    w < LONGEST
}
