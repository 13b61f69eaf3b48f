// Method 5: one centre C, rounded to nearest, serves both bounds. G, the sum of the magnitudes of its terms, tells how large its error can be, and is taken
// from the radius. Each row of A is unpacked once for all its entries.
ghost use Rattle.std.specs.Prelude.{◌≡◌, ◌*◌, ◌≤◌, neg_ℤ, length};
ghost use Rattle.rounding.specs.Rounding.{negate};
ghost use Rattle.enclosure.specs.Methods.{five};
ghost use Rattle.unpacked.specs.Number.{worth, IsNumber, Below, Holds};
ghost use Rattle.products.specs.CentreSize.{radius_for};
ghost use Rattle.products.specs.Derived.{Derived, outer_of, part_of};
ghost use Rattle.products.specs.Line.{line_of};
ghost use Rattle.products.specs.MidRad.{Fits, entries_of};
ghost use Rattle.products.specs.Row.{RowUnpacked};

use crate::centre_size::CentreSize;
use crate::entries::{Shape, Steps};
use crate::error::twice_error;
use crate::number::opposite;
use crate::operands::{Line, Operands};
use crate::plus::plus;
use crate::radius::outer;
use crate::row::{Pairs, unpack_row};
use crate::sums::Sums;
use binary32::direction::Down;
use refusals::sizes::LARGEST_SIZE;
use unpacked::{Number, is_none, zero};

// The radius, negated: the sum of (|mA| + rA) × (|mB| + rB), then - G, then + 2 × E. size is -G.
fn radius(size: Number, line: Line) -> Number
    requires { IsNumber size × Below size × (line.k ≤ 32) }
    ensures { Holds (negate (radius_for (line_of line.entry) (neg_ℤ (worth size)))) result }
{
    let less = plus::<Down>(opposite(size), outer(zero(), line));
    plus::<Down>(twice_error(size, line.k), less)
}

// A row of A unpacked: its midpoints and its parts.
#[derive(Clone, Copy)]
pub struct Unpacked {
    pub mids: [Number; LARGEST_SIZE],
    pub parts: [Number; LARGEST_SIZE],
}

// wa and wb have |m| + r for each cell of A and of B, pa and pb the part p.
#[derive(Clone, Copy)]
pub struct Five<'a> {
    pub of: Operands<'a>,
    pub wa: &'a [u32],
    pub pa: &'a [u32],
    pub wb: &'a [u32],
    pub pb: &'a [u32],
}

impl<'a> Steps for Five<'a> {
    type Row = Unpacked;

    type Sum = ();

    ghost shape = { λ s. s.of.shape };

    ghost ready = { λ s. Fits s.of (s.of.shape.m * s.of.shape.n) (s.of.shape.m * s.of.shape.n)
        × Derived outer_of (s.of.shape.m * s.of.shape.k) s.of.ma.now s.of.ra.now s.wa.now
        × Derived part_of (s.of.shape.m * s.of.shape.k) s.of.ma.now s.of.ra.now s.pa.now
        × Derived outer_of (s.of.shape.k * s.of.shape.n) s.of.mb.now s.of.rb.now s.wb.now
        × Derived part_of (s.of.shape.k * s.of.shape.n) s.of.mb.now s.of.rb.now s.pb.now };

    ghost entry = { λ s. entries_of five s.of };

    ghost place = { λ row. (length row.mids ≡ 32) × (length row.parts ≡ 32) };

    ghost row_of = { λ s i row. RowUnpacked s.of.shape.k i s.of.ma.now row.mids × RowUnpacked s.of.shape.k i s.pa.now row.parts };

    ghost after = { λ s i j l t. Unit {0} };

    fn shape(self) -> Shape {
        self.of.shape
    }

    fn blank(self) -> Unpacked {
        Unpacked {
            mids: [zero(); LARGEST_SIZE],
            parts: [zero(); LARGEST_SIZE],
        }
    }

    fn take_apart(self, i: usize, row: &mut Unpacked) {
        unpack_row(self.of.shape.k, i, self.of.ma, &mut row.mids);
        unpack_row(self.of.shape.k, i, self.pa, &mut row.parts);
    }

    // The sums are worked out in the end, by functions of their own.
    fn start(self) {}

    fn step(self, _row: &Unpacked, _s: (), _i: usize, _j: usize, _l: usize) -> Option<()> {
        Some(())
    }

    fn finish(self, row: &Unpacked, _s: (), i: usize, j: usize) -> Option<Sums> {
        let Shape { k, n, .. } = self.of.shape;
        let mids = Pairs {
            k,
            n,
            j,
            row: &row.mids,
            column: self.of.mb,
        };
        let s = CentreSize::new().sum_pairs(mids)?;
        let parts = Pairs {
            k,
            n,
            j,
            row: &row.parts,
            column: self.pb,
        };
        let t = s.sum_pairs(parts)?;
        let line = Line {
            k,
            n,
            i,
            j,
            row: self.wa,
            column: self.wb,
        };
        let r = radius(t.size, line);
        if is_none(r) {
            return None;
        }
        Sums::ends::<5>(t.centre, opposite(t.centre), r)
    }
}
