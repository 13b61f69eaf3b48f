// The running sums of method 5's centre: a value whose step adds one product to the centre and its magnitude to the size, and hands back the next value.
ghost use Rattle.unpacked.specs.Number.{IsNumber, Below};

use crate::number::negative;
use crate::pattern::unpack;
use crate::plus::{plus, plus_negative};
use crate::rounded::rounded;
use crate::row::Pairs;
use crate::times::times;
use binary32::direction::Near;
use unpacked::{Number, ZERO_EXPONENT, is_none, zero};

// C, and G negated: the sum of the products, and minus the sum of their magnitudes, both to nearest. Both are numbers: a step that overflows gives
// None.
#[derive(Clone, Copy)]
pub struct CentreSize {
    pub centre: Number,
    pub size: Number,
    ghost centre_number: { IsNumber centre },
    ghost size_number: { IsNumber size },
    ghost below: { Below size },
}

impl CentreSize {
    ghost use Rattle.std.proofs.Math.Option.{Option};
    ghost use Rattle.std.specs.Prelude.{◌≡◌, ◌≤◌, ℤ};
    ghost use Rattle.binary32.specs.Number.{value_of, Finite};
    ghost use Rattle.unpacked.specs.Number.{worth, Holds, zero_number};
    ghost use Rattle.products.specs.CentreSize.{SizedKept, SizedStep, SizedAll};
    ghost use Rattle.products.specs.Paired.{pairs_of};

    pub fn new() -> Self
        ensures { (result.centre ≡ zero_number) × (result.size ≡ zero_number) }
    {
        CentreSize {
            centre: zero(),
            size: zero(),
        }
    }

    // These sums, or None where one of them is none.
    fn whole(centre: Number, size: Number) -> Option<CentreSize>
        requires { (centre.exp ≤ 653 → IsNumber centre) × (size.exp ≤ 653 → IsNumber size) × Below size }
        ensures { (c g : Option ℤ) → Holds c centre → Holds g size → SizedKept c g result }
    {
        if is_none(centre) || is_none(size) {
            return None;
        }
        Some(CentreSize { centre, size })
    }

    // Adds x × y to the centre and |x| × |y| to the size.
    fn step(self, x: Number, y: u32) -> Option<CentreSize>
        requires { IsNumber x × Finite y }
        ensures { SizedStep self (worth x) (value_of y) result }
    {
        let t = rounded::<Near>(times(x, unpack(y)));
        let centre = plus::<Near>(self.centre, t);
        let size = plus_negative::<Near>(self.size, negative(t));
        CentreSize::whole(centre, size)
    }

    // The sums after a step for each pair, or None at the first overflow. A product with zero, which alone has the exponent 64, adds nothing. By index: the
    // cells of a column are n apart, and step_by beside a row is no plainer.
    pub fn sum_pairs(self, pairs: Pairs) -> Option<CentreSize>
        ensures { SizedAll (pairs_of pairs.entry) self result }
    {
        let mut s = self;
        for l in 0..pairs.k {
            let x = pairs.first(l);
            if ZERO_EXPONENT < x.exp {
                s = s.step(x, pairs.second(l))?;
            }
        }
        Some(s)
    }
}
