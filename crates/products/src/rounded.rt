// Exact products of 48 bits rounded to binary32: down, up and to nearest. The usual case is in times.rt, the rare ones are here.
ghost use Rattle.std.specs.Prelude.{◌^◌, ◌≤◌, ◌<◌, ℤ, nat_abs};
ghost use Rattle.rounding.specs.Format.{binary32};
ghost use Rattle.unpacked.specs.Number.{Holds};
ghost use Rattle.unpacked.specs.Exact.{Exact, Formed, Rounded, RoundedUp};

use crate::number::whole;
use crate::shifts::ALL;
use crate::short::Short;
use crate::times::{LARGEST_PRODUCT, PRODUCT_BIAS, WHOLE, is_usual, shortened, turned};
use binary32::direction::Down;
use unpacked::{Number, Product, none};

// A product of at most 2^23 units (subnormal or zero), rounded to a whole number of units.
fn small<D: Short>(p: Product) -> Number
    requires { (nat_abs p.sig ≤ 2 ^ 48) × (p.exp < 926) }
    ensures { (X : ℤ) → Exact X p → Holds (D.way binary32 (2 ^ 149) X) result }
{
    whole(D::shorten(p.sig, (PRODUCT_BIAS - p.exp).min(ALL)))
}

// A product that is subnormal, zero, near the largest number or above it, or that has a factor none, rounded.
fn rare<D: Short>(p: Product) -> Number
    requires { Formed p }
    ensures { Rounded D.way p result }
{
    if p.exp < WHOLE {
        return small::<D>(p);
    }
    if LARGEST_PRODUCT < p.exp {
        return none();
    }
    D::limit(shortened::<D>(p))
}

// p, rounded; none where a factor is none or p has no rounded value.
pub fn rounded<D: Short>(p: Product) -> Number
    requires { Formed p }
    ensures { Rounded D.way p result }
{
    if is_usual(p.exp) {
        shortened::<D>(p)
    } else {
        rare::<D>(p)
    }
}

// -q, where q is p rounded up; none where a factor is none or p is above all numbers. It is computed as -p rounded down.
pub fn rounded_up(p: Product) -> Number
    requires { Formed p }
    ensures { RoundedUp p result }
{
    rounded::<Down>(turned(p))
}
