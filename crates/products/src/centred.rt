// The running sums of methods 4 and 7: a value whose step adds one product to the centres and one to the radius and hands back the next value.
// A step has a const parameter, so that each loop has a copy of it: the compiler inlines a function with one caller,
// and a step is too large to be inlined twice.
ghost use Rattle.std.specs.Prelude.{◌≡◌, ltb};
ghost use Rattle.binary32.specs.Order.{magnitude_of};
ghost use Rattle.unpacked.specs.Number.{IsNumber};
ghost use Rattle.unpacked.specs.Exact.{Formed, RoundedDown, RoundedUp};
ghost use Rattle.products.specs.Terms.{SizeDown, adds_of};

use crate::number::absolute;
use crate::pattern::unpack;
use crate::plus::{plus, plus_negative};
use crate::rounded::{rounded, rounded_up};
use crate::times::times;
use binary32::Binary32;
use binary32::direction::Down;
use binary32::order::magnitude;
use unpacked::{Number, Product, is_none, zero};

// The lower centre, and the upper centre and the radius negated, so that all three are rounded down. All are numbers: a step that overflows gives None.
// (That the negated radius is not above zero stays a clause: the parts of method 7 are taken from it.)
#[derive(Clone, Copy)]
pub struct Centred {
    pub lower: Number,
    pub opposed: Number,
    pub radius: Number,
    ghost lower_number: { IsNumber lower },
    ghost opposed_number: { IsNumber opposed },
    ghost radius_number: { IsNumber radius },
}

// Whether a factor is not zero: a product with zero adds nothing.
pub fn is_nonzero(p: u32) -> bool
    ensures { result ≡ ltb 0 (magnitude_of p) }
{
    0 < p % Binary32::SIGN
}

// Whether the step for u × w cannot be left out: u is not zero, or w is none. u is a number.
#[tactic(auto, unfolding(crate::specs::Terms::adds_of))]
pub fn adds(u: u32, w: u32) -> bool
    ensures { result ≡ adds_of u w }
{
    is_nonzero(u) || Binary32::INFINITY <= w % Binary32::SIGN
}

// |p| rounded down: p rounded down, or the opposite of p rounded up where p is negative.
fn size_down(p: Product, below: Number, above: Number) -> Number
    requires { Formed p × RoundedDown p below × RoundedUp p above }
    ensures { SizeDown p result }
{
    if p.sig < 0 {
        return above;
    }
    below
}

impl Centred {
    ghost use Rattle.std.proofs.Math.Option.{Option};
    ghost use Rattle.std.specs.Prelude.{◌≤◌, ℤ};
    ghost use Rattle.binary32.specs.Number.{Finite};
    ghost use Rattle.unpacked.specs.Number.{Below, Holds, zero_number};
    ghost use Rattle.products.specs.Centred.{growth, shrinkage, Added, Stepped};

    pub fn new() -> Self
        ensures { (result.lower ≡ zero_number) × (result.opposed ≡ zero_number) × (result.radius ≡ zero_number) }
    {
        Centred {
            lower: zero(),
            opposed: zero(),
            radius: zero(),
        }
    }

    // These sums, or None where one of them is none.
    fn whole(lower: Number, opposed: Number, radius: Number) -> Option<Centred>
        requires { (lower.exp ≤ 653 → IsNumber lower) × (opposed.exp ≤ 653 → IsNumber opposed) × (radius.exp ≤ 653 → IsNumber radius) }
        ensures { (l o r : Option ℤ) → Holds l lower → Holds o opposed → Holds r radius → Stepped l o r result }
    {
        if is_none(lower) || is_none(opposed) || is_none(radius) {
            return None;
        }
        Some(Centred {
            lower,
            opposed,
            radius,
        })
    }

    // Adds x × y to both centres and |x| × |v| to the radius, by methods 4 and 7. METHOD changes nothing of that: each method's loop gets a copy of its own.
    pub fn step<const METHOD: u32>(self, x: u32, y: u32, v: u32) -> Option<Centred>
        requires { Below self.radius × Finite x }
        ensures { Added self x y (growth x v) result }
    {
        let f = unpack(x);
        let w = magnitude(v);
        let p = times(f, unpack(y));
        let q = times(absolute(f), unpack(w));
        let radius = plus_negative::<Down>(self.radius, rounded_up(q));
        let lower = plus::<Down>(self.lower, rounded::<Down>(p));
        let opposed = plus::<Down>(self.opposed, rounded_up(p));
        Centred::whole(lower, opposed, radius)
    }

    // Method 7, for the parts: adds x × y to both centres and takes |x| × |y| from the radius.
    pub fn step_parts(self, x: u32, y: u32) -> Option<Centred>
        ensures { Added self x y (shrinkage x y) result }
    {
        let p = times(unpack(x), unpack(y));
        let below = rounded::<Down>(p);
        let above = rounded_up(p);
        let lower = plus::<Down>(self.lower, below);
        let opposed = plus::<Down>(self.opposed, above);
        let radius = plus::<Down>(self.radius, size_down(p, below, above));
        Centred::whole(lower, opposed, radius)
    }
}
