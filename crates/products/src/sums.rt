// The running sums of one entry by method 1: a value that a step takes, with a pair of cells, and returns. Its last step, `ends`, serves methods 3, 4, 5 and 7.
ghost use Rattle.unpacked.specs.Number.{IsNumber};

use crate::apart::Apart;
use crate::corners::{corner_by_sign, greater, lesser};
use crate::number::opposite;
use crate::pattern::{pack, unpack};
use crate::plus::plus;
use crate::rounded::{rounded, rounded_up};
use binary32::direction::Down;
use unpacked::{Number, is_none, zero};

// The lower sum, and the negated upper sum: rounding x up is negating -x rounded down, so both sums are rounded down. Both are numbers:
// a step that overflows gives None.
#[derive(Clone, Copy)]
pub struct Sums {
    pub lower: Number,
    pub opposed: Number,
    ghost lower_number: { IsNumber lower },
    ghost opposed_number: { IsNumber opposed },
}

// The row and column of an entry that is refused.
#[derive(Clone, Copy)]
pub struct Place {
    pub row: usize,
    pub column: usize,
}

impl Sums {
    ghost use Rattle.std.proofs.Math.Option.{Option};
    ghost use Rattle.std.specs.Prelude.{◌≡◌, ◌≤◌, true, ℤ, neg_ℤ};
    ghost use Rattle.rounding.specs.Format.{binary32};
    ghost use Rattle.enclosure.specs.Arithmetic.{of};
    ghost use Rattle.enclosure.specs.RunningSums.{add_pair};
    ghost use Rattle.binary32.specs.Number.{finites, pattern_of};
    ghost use Rattle.unpacked.specs.Number.{worth, Holds, zero_number};
    ghost use Rattle.products.specs.Apart.{Cells};
    ghost use Rattle.products.specs.Classical.{apart_cell, pattern_cell};
    ghost use Rattle.products.specs.Pair.{range_of};
    ghost use Rattle.products.specs.Running.{HoldsRange, Summed, Ended, bounds_of};

    // Both sums are zero.
    pub fn new() -> Self
        ensures { (result.lower ≡ zero_number) × (result.opposed ≡ zero_number) }
    {
        Sums {
            lower: zero(),
            opposed: zero(),
        }
    }

    // The sums with these two numbers as bounds.
    pub fn of_bounds(lower: u32, upper: u32) -> Self
        requires { finites lower upper ≡ true }
        ensures { bounds_of result ≡ range_of (lower, upper) }
    {
        Sums {
            lower: unpack(lower),
            opposed: opposite(unpack(upper)),
        }
    }

    // These sums, or None where one of them is none. (Each of the four types of sums has a `whole` of its own fields.)
    fn whole(lower: Number, opposed: Number) -> Option<Sums>
        requires { (lower.exp ≤ 653 → IsNumber lower) × (opposed.exp ≤ 653 → IsNumber opposed) }
        ensures { (l o : Option ℤ) → Holds l lower → Holds o opposed → Summed l o result }
    {
        if is_none(lower) || is_none(opposed) {
            return None;
        }
        Some(Sums { lower, opposed })
    }

    // Adds a pair of cells, a of A and [bl, bu] of B: the least of their four corner products to the lower sum, all rounded down, and the greatest to the
    // upper sum, all rounded up. USE changes nothing of that: each caller gets a copy of its own. The compiler inlines a function with one caller, and a
    // step is too large to be inlined twice.
    pub fn step<const USE: u32>(self, a: Apart, bl: u32, bu: u32) -> Option<Sums>
        requires { Cells a bl bu }
        ensures { HoldsRange (add_pair (of binary32) (bounds_of self) (apart_cell a) (pattern_cell bl bu)) result }
    {
        let w = a.lower();
        let x = a.upper();
        let y = unpack(bl);
        let z = unpack(bu);
        let low = lesser(corner_by_sign(w, y, z), corner_by_sign(x, y, z)).product;
        let high = greater(corner_by_sign(w, z, y), corner_by_sign(x, z, y)).product;
        let lower = plus::<Down>(self.lower, rounded::<Down>(low));
        let opposed = plus::<Down>(self.opposed, rounded_up(high));
        Sums::whole(lower, opposed)
    }

    // The bounds of an entry by methods 3, 4, 5 and 7: lower centre - radius, rounded down, and upper centre + radius, rounded up.
    // `opposed` is the negated upper centre, and `radius` the negated radius. METHOD changes nothing, as USE above.
    pub fn ends<const METHOD: u32>(lower: Number, opposed: Number, radius: Number) -> Option<Sums>
        requires { IsNumber lower × IsNumber opposed × IsNumber radius }
        ensures { Ended lower opposed radius result }
    {
        Sums::whole(plus::<Down>(lower, radius), plus::<Down>(opposed, radius))
    }

    // The pattern of the lower sum.
    pub fn lower(self) -> u32
        ensures { result ≡ pattern_of (worth self.lower) }
    {
        pack(self.lower)
    }

    // The pattern of the upper sum.
    pub fn upper(self) -> u32
        ensures { result ≡ pattern_of (neg_ℤ (worth self.opposed)) }
    {
        pack(opposite(self.opposed))
    }
}
