// Method 4: the centre is summed twice, down for the lower bound and up for the upper one.
ghost use Rattle.std.specs.Prelude.{◌*◌};
ghost use Rattle.enclosure.specs.Methods.{four};
ghost use Rattle.products.specs.Derived.{Derived, outer_of};
ghost use Rattle.products.specs.MidRad.{Fits, entries_of};
ghost use Rattle.products.specs.Spot.{MiddleSum, spot};

use crate::centred::Centred;
use crate::entries::{Shape, Steps};
use crate::operands::{Line, Operands};
use crate::radius::outer;
use crate::sums::Sums;
use unpacked::is_none;

// wb has |m| + r for each cell of B.
#[derive(Clone, Copy)]
pub struct Four<'a> {
    pub of: Operands<'a>,
    pub wb: &'a [u32],
}

impl<'a> Steps for Four<'a> {
    type Row = ();

    type Sum = Centred;

    ghost shape = { λ s. s.of.shape };

    ghost ready = { λ s. Fits s.of (s.of.shape.m * s.of.shape.n) (s.of.shape.m * s.of.shape.n)
        × Derived outer_of (s.of.shape.k * s.of.shape.n) s.of.mb.now s.of.rb.now s.wb.now };

    ghost entry = { λ s. entries_of four s.of };

    ghost place = { λ row. Unit {0} };

    ghost row_of = { λ s i row. Unit {0} };

    ghost after = { λ s i j l t. MiddleSum (spot s.of i j) l t };

    fn shape(self) -> Shape {
        self.of.shape
    }

    fn blank(self) {}

    fn take_apart(self, _i: usize, _row: &mut ()) {}

    fn start(self) -> Centred {
        Centred::new()
    }

    fn step(self, _row: &(), s: Centred, i: usize, j: usize, l: usize) -> Option<Centred> {
        self.of.step::<4>(s, i, j, l)
    }

    fn finish(self, _row: &(), s: Centred, i: usize, j: usize) -> Option<Sums> {
        let Shape { k, n, .. } = self.of.shape;
        let line = Line {
            k,
            n,
            i,
            j,
            row: self.of.ra,
            column: self.wb,
        };
        let radius = outer(s.radius, line);
        if is_none(radius) {
            return None;
        }
        Sums::ends::<4>(s.lower, s.opposed, radius)
    }
}
