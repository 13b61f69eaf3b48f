// Products of unpacked numbers: exact in 48 bits, and rounded to the first 24 of these.
ghost use Rattle.std.specs.Prelude.{◌≡◌, cond, false, ◌^◌, ◌≤◌, ltb, nat_abs};
ghost use Rattle.unpacked.specs.Exact.{Factors, ProductIs, Short, Turned};

use crate::shifts::{digits, multiplied, twice};
use crate::short::Short;
use unpacked::{BIAS, LARGEST_EXPONENT, Number, Product};

// The bias of a Product's exponent: its value is sig × 2^(exp - 950) units. 950 is 2 × 400 for the factors' biases, 149 since a unit times a unit
// is 2^-149 units, and 1 since a product of 47 bits is doubled to have 48.
pub const PRODUCT_BIAS: u32 = 950;

// 2^47: a product below it has 47 bits.
const FULL: u64 = 0x8000_0000_0000;

// Half of a product's 48 bits.
const HALF: u32 = 24;

// From this exponent on, the first 24 bits of a product are a whole number of units, so that rounding keeps all of them.
pub const WHOLE: u32 = PRODUCT_BIAS - HALF;

// The exponent of a product less that of the number made of its first 24 bits.
const TO_NUMBER: u32 = WHOLE - BIAS;

// From this exponent on, a rounded product has the exponent of the largest number or a larger one, and may overflow.
const LARGE: u32 = TO_NUMBER + LARGEST_EXPONENT;

// The largest exponent of a product of two numbers; above it a factor is none.
pub const LARGEST_PRODUCT: u32 = LARGEST_EXPONENT + LARGEST_EXPONENT + 1;

// x × y, exact: a product of 47 bits is doubled, so that all have 48.
pub fn times(x: Number, y: Number) -> Product
    requires { Factors x y }
    ensures { ProductIs x y result }
{
    let p = multiplied(x.sig, y.sig);
    if digits(p) < FULL {
        return Product {
            sig: twice(p),
            exp: x.exp + y.exp,
        };
    }
    Product {
        sig: p,
        exp: x.exp + y.exp + 1,
    }
}

// Whether rounding a product with the exponent e to its first 24 bits gives a number in every direction: neither subnormal nor too large.
pub fn is_usual(e: u32) -> bool
    ensures { result ≡ cond (ltb e 926) false (ltb e 1179) }
{
    if e < WHOLE {
        return false;
    }
    e < LARGE
}

// p, rounded to its first 24 bits.
pub fn shortened<D: Short>(p: Product) -> Number
    requires { (nat_abs p.sig ≤ 2 ^ 48) × (926 ≤ p.exp) }
    ensures { Short D.part p result }
{
    Number {
        sig: D::shorten(p.sig, HALF),
        exp: p.exp - TO_NUMBER,
    }
}

// -p
pub fn turned(p: Product) -> Product
    requires { nat_abs p.sig ≤ 2 ^ 48 }
    ensures { Turned p result }
{
    Product {
        sig: -p.sig,
        exp: p.exp,
    }
}
