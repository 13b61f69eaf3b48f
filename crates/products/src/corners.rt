// The corner products of two cells (each bound of one times each bound of the other), exact, and the least and the greatest of them. Called by sums.rt.
ghost use Rattle.std.specs.Prelude.{◌≡◌, nat_abs, ◌*ℤ◌, ◌^◌, ◌≤◌};
ghost use Rattle.unpacked.specs.Number.{worth, IsNumber};
ghost use Rattle.unpacked.specs.Corners.{CornerAt, by_sign, rank_of, lesser_of, greater_of};

use crate::times::times;
use unpacked::{Corner, Number};

// 2^47, the least significand of 48 bits: of two positive products, the one with the larger exponent has at least as large a rank.
const RANK_STEP: i64 = 0x8000_0000_0000;

// |sig| + exp × 2^47 with the sign of sig: products are ordered as their ranks are.
fn rank(sig: i64, exp: u32) -> i64
    requires { (nat_abs sig ≤ 2 ^ 48) × (exp ≤ 5000) }
    ensures { result ≡ rank_of sig exp }
{
    let k = i64::from(exp) * RANK_STEP;
    if sig < 0 { sig - k } else { sig + k }
}

// x × y, with its rank.
fn corner_of(x: Number, y: Number) -> Corner
    requires { IsNumber x × IsNumber y }
    ensures { CornerAt (worth x *ℤ worth y) result }
{
    let p = times(x, y);
    Corner {
        product: p,
        rank: rank(p.sig, p.exp),
    }
}

// x × y, or x × z where x is negative: the lesser of the two where y is not above z, and the greater where z is not above y.
pub fn corner_by_sign(x: Number, y: Number, z: Number) -> Corner
    requires { IsNumber x × IsNumber y × IsNumber z }
    ensures { CornerAt (worth x *ℤ by_sign (worth x) (worth y) (worth z)) result }
{
    if x.sig < 0 {
        corner_of(x, z)
    } else {
        corner_of(x, y)
    }
}

// `lesser_of` and `greater_of` fix which of two products with one rank is taken, so these stay two functions;
// with `if .. { x } else { y }` method 1 takes 0.9 % more instructions.

// The lesser of two products.
#[tactic(auto, unfolding(unpacked::specs::Corners::lesser_of))]
pub fn lesser(x: Corner, y: Corner) -> Corner
    ensures { result ≡ lesser_of x y }
{
    if x.rank <= y.rank {
        return x;
    }
    y
}

// The greater of two products.
#[tactic(auto, unfolding(unpacked::specs::Corners::greater_of))]
pub fn greater(x: Corner, y: Corner) -> Corner
    ensures { result ≡ greater_of x y }
{
    if x.rank <= y.rank {
        return y;
    }
    x
}
