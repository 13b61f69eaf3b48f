// The value of an operation before it is rounded: exact in at most 61 bits, or a value with the same three roundings as the exact one.
// None: an operand has exponent field 255.
ghost use Rattle.std.specs.Prelude.{◌≡◌, ◌-◌, ◌^◌, ◌≤◌, ◌<◌, pos, nat_abs, ◌+ℤ◌, ◌*ℤ◌};
ghost use Rattle.binary32.specs.Operations.{mul, lifted, with₂};
ghost use Rattle.binary32.specs.Steps.{ShortFactors, Summands, Larger, Same, ProductIs, SumIs, Rounds, earlier, later, of};

use crate::finite::are_finite;
use crate::parts::{Parts, decode};

// x × y, exactly.
pub fn times(x: Parts, y: Parts) -> Parts
    requires { ShortFactors x y }
    ensures { ProductIs x y result }
{
    Parts {
        sig: x.sig * y.sig,
        exp: x.exp + y.exp,
    }
}

// x × 2^n + y
fn shifted_sum(x: i64, n: u32, y: i64) -> i64
    requires { (nat_abs x ≤ 2 ^ 24) × (nat_abs y ≤ 2 ^ 24) × (n ≤ 36) }
    ensures { result ≡ x *ℤ pos (2 ^ n) +ℤ y }
{
    (x << n) + y
}

// The most places that the exact sum of two numbers may have below the first.
const CLOSE: u32 = 36;

// x + y. Where the exponents differ by more than 36, y only acts as a sticky bit: its sign, 36 places below x, gives the same three roundings.
fn joined(x: Parts, y: Parts, lift: u32) -> Parts
    requires { Larger x y lift }
    ensures { Same (2 ^ (149 - lift)) (of x +ℤ of y) result }
{
    let d = x.exp - y.exp;
    if d <= CLOSE {
        return Parts {
            sig: shifted_sum(x.sig, d, y.sig),
            exp: y.exp + lift,
        };
    }
    Parts {
        sig: shifted_sum(x.sig, CLOSE, y.sig.signum()),
        exp: x.exp - CLOSE + lift,
    }
}

// The summand with the larger exponent, and the other one; x first where the exponents are equal.
#[tactic(auto, unfolding(crate::specs::Steps::earlier, crate::specs::Steps::later))]
fn ordered(x: Parts, y: Parts) -> (Parts, Parts)
    ensures { result ≡ (earlier x y, later x y) }
{
    if x.exp < y.exp { (y, x) } else { (x, y) }
}

// (x + y) × 2^(lift - 149) units.
pub fn plus(x: Parts, y: Parts, lift: u32) -> Parts
    requires { Summands x y lift }
    ensures { SumIs x y lift result }
{
    let (first, second) = ordered(x, y);
    joined(first, second, lift)
}

// a × b, or None where a pattern has exponent field 255.
pub fn product(a: u32, b: u32) -> Option<Parts>
    ensures { Rounds (λ way. with₂ (mul way) a b) result }
{
    if are_finite(a, b) {
        return Some(times(decode(a), decode(b)));
    }
    None
}

// (a + b) × 2^(lift - 149), or None where a pattern has exponent field 255: with lift 149 the sum, with lift 148 the midpoint.
pub fn total(a: u32, b: u32, lift: u32) -> Option<Parts>
    requires { lift ≤ 149 }
    ensures { Rounds (λ way. with₂ (lifted lift way) a b) result }
{
    if are_finite(a, b) {
        return Some(plus(decode(a), decode(b), lift));
    }
    None
}
