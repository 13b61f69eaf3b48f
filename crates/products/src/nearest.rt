// The running sums of method 3: a value whose step adds one product to the centre and one to the radius and hands back the next value.
ghost use Rattle.unpacked.specs.Number.{IsNumber, Below};

use crate::number::absolute;
use crate::pattern::unpack;
use crate::plus::{plus, plus_negative};
use crate::rounded::{rounded, rounded_up};
use crate::times::times;
use binary32::direction::{Down, Near};
use binary32::order::magnitude;
use unpacked::{Number, is_none, zero};

// Not one struct with CentreSize of method 5: the second sum there is to nearest, of another bound, and so are the step and its definition.
// The centre, rounded to nearest, and the radius, negated and rounded down. Both are numbers: a step that overflows gives None.
#[derive(Clone, Copy)]
pub struct Nearest {
    pub centre: Number,
    pub radius: Number,
    ghost centre_number: { IsNumber centre },
    ghost radius_number: { IsNumber radius },
    ghost below: { Below radius },
}

impl Nearest {
    ghost use Rattle.std.proofs.Math.Option.{Option};
    ghost use Rattle.std.specs.Prelude.{◌≡◌, ◌≤◌, ℤ};
    ghost use Rattle.binary32.specs.Number.{Finite};
    ghost use Rattle.unpacked.specs.Number.{Holds, zero_number};
    ghost use Rattle.products.specs.Centred.{NearAdded, NearStepped};

    pub fn new() -> Self
        ensures { (result.centre ≡ zero_number) × (result.radius ≡ zero_number) }
    {
        Nearest {
            centre: zero(),
            radius: zero(),
        }
    }

    // These sums, or None where one of them is none.
    fn whole(centre: Number, radius: Number) -> Option<Nearest>
        requires { (centre.exp ≤ 653 → IsNumber centre) × (radius.exp ≤ 653 → IsNumber radius) × Below radius }
        ensures { (c r : Option ℤ) → Holds c centre → Holds r radius → NearStepped c r result }
    {
        if is_none(centre) || is_none(radius) {
            return None;
        }
        Some(Nearest { centre, radius })
    }

    // Adds x × y to the centre and |x| × |v| to the radius.
    pub fn step(self, x: u32, y: u32, v: u32) -> Option<Nearest>
        requires { Finite x }
        ensures { NearAdded self x y x v result }
    {
        let f = unpack(x);
        let w = magnitude(v);
        let p = times(f, unpack(y));
        let q = times(absolute(f), unpack(w));
        let centre = plus::<Near>(self.centre, rounded::<Near>(p));
        let radius = plus_negative::<Down>(self.radius, rounded_up(q));
        Nearest::whole(centre, radius)
    }
}
