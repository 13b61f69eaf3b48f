// Method 3: one centre, rounded to nearest, serves both bounds.
ghost use Rattle.std.specs.Prelude.{◌*◌};
ghost use Rattle.enclosure.specs.Methods.{three};
ghost use Rattle.products.specs.Derived.{Derived, outer_of, raised_of, factor_of};
ghost use Rattle.products.specs.MidRad.{Fits, entries_of};
ghost use Rattle.products.specs.Spot.{FirstSum, spot};

use crate::centred::adds;
use crate::entries::{Shape, Steps};
use crate::nearest::Nearest;
use crate::number::opposite;
use crate::operands::{Line, Operands};
use crate::plus::plus_negative;
use crate::radius::outer;
use crate::sums::Sums;
use binary32::direction::Down;
use unpacked::{is_none, minus_tiny};

// vb has rB' for each cell of B, wb |m| + r.
#[derive(Clone, Copy)]
pub struct Three<'a> {
    pub of: Operands<'a>,
    pub vb: &'a [u32],
    pub wb: &'a [u32],
}

impl<'a> Steps for Three<'a> {
    type Row = ();

    type Sum = Nearest;

    ghost shape = { λ s. s.of.shape };

    ghost ready = { λ s. Fits s.of (s.of.shape.m * s.of.shape.n) (s.of.shape.m * s.of.shape.n)
        × Derived (raised_of (factor_of s.of.shape.k)) (s.of.shape.k * s.of.shape.n) s.of.mb.now s.of.rb.now s.vb.now
        × Derived outer_of (s.of.shape.k * s.of.shape.n) s.of.mb.now s.of.rb.now s.wb.now };

    ghost entry = { λ s. entries_of three s.of };

    ghost place = { λ row. Unit {0} };

    ghost row_of = { λ s i row. Unit {0} };

    ghost after = { λ s i j l t. FirstSum (spot s.of i j) l t };

    fn shape(self) -> Shape {
        self.of.shape
    }

    fn blank(self) {}

    fn take_apart(self, _i: usize, _row: &mut ()) {}

    fn start(self) -> Nearest {
        Nearest::new()
    }

    fn step(self, _row: &(), s: Nearest, i: usize, j: usize, l: usize) -> Option<Nearest> {
        let b = l * self.of.shape.n + j;
        let x = self.of.ma[i * self.of.shape.k + l];
        let v = self.vb[b];
        if !adds(x, v) {
            return Some(s);
        }
        s.step(x, self.of.mb[b], v)
    }

    // The radius gets 2^-125 between its two sums.
    fn finish(self, _row: &(), s: Nearest, i: usize, j: usize) -> Option<Sums> {
        let Shape { k, n, .. } = self.of.shape;
        let inner = plus_negative::<Down>(s.radius, minus_tiny());
        if is_none(inner) {
            return None;
        }
        let line = Line {
            k,
            n,
            i,
            j,
            row: self.of.ra,
            column: self.wb,
        };
        let radius = outer(inner, line);
        if is_none(radius) {
            return None;
        }
        Sums::ends::<3>(s.centre, opposite(s.centre), radius)
    }
}
