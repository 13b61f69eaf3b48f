// The one place where the operations round: sig × 2^exp × 2^-149 units, by one count of leading zeros and one arithmetic shift.
// The shift gives c, which is w / 2^n rounded down, also for negative w. The remainder r decides whether up and nearest add 1:
//
//     remainder r of w / 2^n       down    up       to nearest
//     r = 0                        c       c        c
//     0 < r < 2^n / 2              c       c + 1    c
//     r = 2^n / 2                  c       c + 1    c or c + 1, the even one
//     2^n / 2 < r                  c       c + 1    c + 1
ghost use Rattle.std.specs.Prelude.{◌≡◌, ◌^◌, ◌≤◌, ◌<◌, nat_abs};
ghost use Rattle.std.specs.Int.Signed.{shr_z};
ghost use Rattle.rounding.specs.Quotient.{rem};
ghost use Rattle.binary32.specs.Number.{hold};
ghost use Rattle.binary32.specs.Steps.{packed, Split, IsCut, Small, Safe, exactly, of};

use crate::Binary32;
use crate::direction::Direction;
use crate::parts::Parts;

// The significands of the three roundings. Each result is its significand × 2^shift units.
#[derive(Clone, Copy)]
pub struct Ways {
    pub down: i64,
    pub up: i64,
    pub near: i64,
    pub shift: u32,
}

// The remainder w - c × 2^n.
fn rest(w: i64, c: i64, n: u32) -> u64
    requires { (nat_abs w < 2 ^ 61) × (n ≤ 62) × (c ≡ shr_z w (2 ^ n)) }
    ensures { result ≡ rem w (2 ^ n) }
{
    // What floor leaves is not negative.
    (w - (c << n)) as u64
}

// w / 2^n, rounded in all three directions, with the shift that was passed in. `>>` keeps the sign and rounds down.
pub fn split(w: i64, n: u32, shift: u32) -> Ways
    requires { (nat_abs w < 2 ^ 61) × (n ≤ 62) }
    ensures { Split w (2 ^ n) shift result }
{
    let c = w >> n;
    let r = rest(w, c, n);
    let odd = c.unsigned_abs() % 2;
    let up = c + i64::from(0 < r);
    let near = c + i64::from((1u64 << n) < 2 * r + odd);
    Ways {
        down: c,
        up,
        near,
        shift,
    }
}

// A significand is first shifted up to this many bits.
const WIDE: u32 = 61;

// How many of them are dropped where 24 are kept.
const DROPPED: u32 = WIDE - Binary32::PRECISION;

// 2^24 units is 2^173 × 2^-149 units: a value of 173 bits or more keeps 24 of them, a shorter one is rounded to whole units.
const FULL: u32 = Binary32::SMALLEST_EXPONENT + Binary32::PRECISION;

// The exponent of 2^61 units.
const WIDE_UNITS: u32 = Binary32::SMALLEST_EXPONENT + WIDE;

// x × 2^-149 units, rounded in all three directions: to 24 bits from 2^24 units on, to whole units below (subnormal numbers).
pub fn cut(x: Parts) -> Ways
    requires { Small x.sig x.exp }
    ensures { IsCut (of x) result }
{
    if x.sig == 0 {
        return Ways {
            down: 0,
            up: 0,
            near: 0,
            shift: 0,
        };
    }
    let zeros = x.sig.unsigned_abs().leading_zeros();
    let top = 64 - zeros + x.exp;
    let wide = x.sig << (zeros - 3);
    if FULL <= top {
        return split(wide, DROPPED, top - FULL);
    }
    split(wide, (WIDE_UNITS - top).min(62), 0)
}

// The pattern of c × 2^shift units. Where that is too large for binary32: `below` for negative c, `above` for positive c.
#[tactic(auto, unfolding(crate::specs::Steps::packed))]
fn pack(c: i64, shift: u32, below: u32, above: u32) -> u32
    requires { (nat_abs c ≤ 2 ^ 24) × (shift ≤ 500) }
    ensures { result ≡ packed c shift below above }
{
    // c has 24 bits, so that `as` loses nothing.
    let t = shift * Binary32::HIDDEN + c.unsigned_abs() as u32;
    if t < Binary32::INFINITY {
        if c < 0 { Binary32::SIGN + t } else { t }
    } else if c < 0 {
        below
    } else {
        above
    }
}

// The pattern of this direction's significand.
pub fn pattern<D: Direction>(c: Ways) -> u32
    requires { (nat_abs (D.picked c) ≤ 2 ^ 24) × (c.shift ≤ 500) }
    ensures { result ≡ packed (D.picked c) c.shift D.BELOW D.ABOVE }
{
    pack(D::pick(c), c.shift, D::BELOW, D::ABOVE)
}

// An exact value, rounded in this direction; D::NONE where an operand has exponent field 255 or there is no finite result.
pub fn round<D: Direction>(x: Option<Parts>) -> u32
    requires { Safe x }
    ensures { result ≡ hold D.NONE (exactly D.way x) }
{
    match x {
        Some(x) => pattern::<D>(cut(x)),
        None => D::NONE,
    }
}
