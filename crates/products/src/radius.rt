// A sum of the radius: rA × (|mB| + rB) over l in methods 3, 4 and 7, (|mA| + rA) × (|mB| + rB) in method 5. A radius is kept negated,
// so that rounding it up is rounding down.
ghost use Rattle.unpacked.specs.Number.{IsNumber, Below};
ghost use Rattle.products.specs.Centred.{Grown};
ghost use Rattle.products.specs.Continued.{Continued};
ghost use Rattle.products.specs.Line.{line_of};

use crate::centred::adds;
use crate::operands::Line;
use crate::pattern::unpack;
use crate::plus::plus_negative;
use crate::rounded::rounded_up;
use crate::times::times;
use binary32::direction::Down;
use binary32::order::magnitude;
use unpacked::{Number, is_none};

// The radius plus |u| × |v|, rounded up.
fn grown(radius: Number, u: u32, v: u32) -> Number
    requires { IsNumber radius × Below radius }
    ensures { Grown radius u v result }
{
    let a = magnitude(u);
    let b = magnitude(v);
    plus_negative::<Down>(radius, rounded_up(times(unpack(a), unpack(b))))
}

// The radius plus |u| × |w| for each pair of the line, u and w. The loop ends at the first overflow, and the result is then none. By index: the cells of a
// column are n apart, and step_by beside a row is no plainer. This loop, `parts` and `sum_pairs` differ in sums and step: over a closure each would be as long.
pub fn outer(radius: Number, line: Line) -> Number
    requires { IsNumber radius × Below radius }
    ensures { Continued (line_of line.entry) radius result }
{
    let mut r = radius;
    for l in 0..line.k {
        let u = line.first(l);
        let w = line.second(l);
        if adds(u, w) {
            r = grown(r, u, w);
            if is_none(r) {
                return r;
            }
        }
    }
    r
}
