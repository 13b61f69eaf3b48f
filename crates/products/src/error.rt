// Method 5's bound E on the error of its centre, from G, which is kept negated.
ghost use Rattle.std.specs.Prelude.{◌≡◌, ◌^◌, ◌≤◌, neg_ℤ};
ghost use Rattle.rounding.specs.Format.{binary32, spacing};
ghost use Rattle.unpacked.specs.Number.{worth, IsNumber, Below};
ghost use Rattle.products.specs.CentreSize.{TwiceError};

use crate::number::{PAST_LARGEST, scaled, whole};
use crate::plus::plus_negative;
use crate::shifts::with_sign;
use binary32::direction::Down;
use unpacked::{BIAS, Number};

// -2^-126, the least normal number negated: -2^23 units.
const MINUS_NORMAL: i64 = -0x80_0000;

// j, where spacing(x) is 2^j units. A significand of 2^24 has 25 bits.
fn spacing_exponent(x: Number) -> u32
    requires { IsNumber x }
    ensures { (2 ^ result ≡ spacing binary32 (worth x)) × (result ≤ 254) }
{
    if x.exp < BIAS {
        return 0;
    }
    if x.sig.unsigned_abs() < PAST_LARGEST {
        return x.exp - BIAS;
    }
    x.exp - BIAS + 1
}

// -2 × E, where E is (k + 1) × spacing(G) + 2^-126, rounded up, and size is -G. The product and the doubling are exact.
pub fn twice_error(size: Number, k: usize) -> Number
    requires { IsNumber size × Below size × (k ≤ 32) }
    ensures { TwiceError k (neg_ℤ (worth size)) result }
{
    // `as`, since a usize has no `From` into u64.
    let spacings = scaled(whole(with_sign(true, k as u64 + 1)), spacing_exponent(size));
    scaled(plus_negative::<Down>(spacings, whole(MINUS_NORMAL)), 1)
}
