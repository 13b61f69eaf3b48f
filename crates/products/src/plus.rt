// Sums of unpacked numbers, rounded down or to nearest: a shift, an addition, a count of leading zeros and a shift.
// A sum of two numbers is a whole number of units, so a subnormal sum is exact and needs no case of its own.
// To nearest, a summand that loses bits by its shift is at most 2^-13 of the last bit of the other one, which is then the nearest value;
// so no sticky bit is kept.
ghost use Rattle.std.proofs.Math.Option.{Option, bind};
ghost use Rattle.std.specs.Prelude.{◌≤◌, ℤ, ◌+ℤ◌};
ghost use Rattle.rounding.specs.Format.{binary32};
ghost use Rattle.unpacked.specs.Number.{worth, IsNumber, Below, Holds, Part};
ghost use Rattle.unpacked.specs.Cuts.{Summands, Filled, CutFilled};

use crate::number::cut;
use crate::shifts::GUARD;
use crate::short::Short;
use crate::summands::{GUARD_AND_CARRY, align, carried};
use unpacked::Number;

// x + y, rounded to 24 bits, as if there were no largest number.
fn add<D: Short>(x: Number, y: Number) -> Number
    requires { Summands x y }
    ensures { D.Sum (worth x +ℤ worth y) result }
{
    let s = align(x, y);
    cut::<D>(s.w, s.exp)
}

// The next three stand beside `cut`, `add` and `plus`: to count no leading zeros is a tenth of method 3's time,
// and a flag for it at each call is no plainer than a name.

// w × 2^(exp - 436) units, rounded to 24 bits, for w from -2^61 to -2^59 or 0: its length is known, so no leading zeros are counted.
fn cut_negative<D: Short>(w: i64, exp: u32) -> Number
    requires { Filled w exp × (exp ≤ 4000) }
    ensures { CutFilled D.part w exp result }
{
    if carried(w) {
        return Number {
            sig: D::shorten(w, GUARD_AND_CARRY),
            exp: exp + 1,
        };
    }
    Number {
        sig: D::shorten(w, GUARD),
        exp,
    }
}

// x + y, rounded to 24 bits as if there were no largest number, where neither is above zero, so that no leading bits cancel.
fn add_negative<D: Short>(x: Number, y: Number) -> Number
    requires { Summands x y × Below x × Below y }
    ensures { D.Sum (worth x +ℤ worth y) result }
{
    let s = align(x, y);
    cut_negative::<D>(s.w, s.exp)
}

// s + y, rounded; none where y is none or the sum has no rounded value.
pub fn plus<D: Short>(s: Number, y: Number) -> Number
    requires { IsNumber s × Part y }
    ensures { (t : Option ℤ) → Holds t y → Holds (bind t λ v. D.way binary32 1 (worth s +ℤ v)) result }
{
    D::limit_sum(add::<D>(s, y))
}

// The same where neither s nor y is above zero.
pub fn plus_negative<D: Short>(s: Number, y: Number) -> Number
    requires { IsNumber s × Part y × Below s × Below y }
    ensures { (t : Option ℤ) → Holds t y → Holds (bind t λ v. D.way binary32 1 (worth s +ℤ v)) result }
{
    D::limit_sum(add_negative::<D>(s, y))
}
