// Method 7: it continues the sums of method 4 over the parts p: pA × pB is added to both centres, and |pA| × |pB| is taken from the radius.
ghost use Rattle.std.specs.Prelude.{◌*◌};
ghost use Rattle.enclosure.specs.Methods.{seven};
ghost use Rattle.products.specs.Continued.{Numbers, PartsAdded};
ghost use Rattle.products.specs.Derived.{Derived, outer_of, part_of};
ghost use Rattle.products.specs.Line.{line_of};
ghost use Rattle.products.specs.MidRad.{Fits, entries_of};
ghost use Rattle.products.specs.Spot.{MiddleSum, spot};

use crate::centred::{Centred, is_nonzero};
use crate::entries::{Shape, Steps};
use crate::operands::{Line, Operands};
use crate::radius::outer;
use crate::sums::Sums;
use unpacked::is_none;

// The sums after a step for each pair of the line, or None at the first overflow. By index: the cells of a column are n
// apart, and step_by beside a row is no plainer.
fn parts(sums: Centred, line: Line) -> Option<Centred>
    requires { Numbers (line_of line) }
    ensures { PartsAdded (line_of line.entry) sums result }
{
    let mut s = sums;
    for l in 0..line.k {
        let x = line.first(l);
        if is_nonzero(x) {
            s = s.step_parts(x, line.second(l))?;
        }
    }
    Some(s)
}

// pa and pb have the part p for each cell of A and of B, wb |m| + r for each cell of B.
#[derive(Clone, Copy)]
pub struct Seven<'a> {
    pub of: Operands<'a>,
    pub pa: &'a [u32],
    pub wb: &'a [u32],
    pub pb: &'a [u32],
}

impl<'a> Steps for Seven<'a> {
    type Row = ();

    type Sum = Centred;

    ghost shape = { λ s. s.of.shape };

    ghost ready = { λ s. Fits s.of (s.of.shape.m * s.of.shape.n) (s.of.shape.m * s.of.shape.n)
        × Derived part_of (s.of.shape.m * s.of.shape.k) s.of.ma.now s.of.ra.now s.pa.now
        × Derived outer_of (s.of.shape.k * s.of.shape.n) s.of.mb.now s.of.rb.now s.wb.now
        × Derived part_of (s.of.shape.k * s.of.shape.n) s.of.mb.now s.of.rb.now s.pb.now };

    ghost entry = { λ s. entries_of seven s.of };

    ghost place = { λ row. Unit {0} };

    ghost row_of = { λ s i row. Unit {0} };

    ghost after = { λ s i j l t. MiddleSum (spot s.of i j) l t };

    fn shape(self) -> Shape {
        self.of.shape
    }

    fn blank(self) {}

    fn take_apart(self, _i: usize, _row: &mut ()) {}

    fn start(self) -> Centred {
        Centred::new()
    }

    fn step(self, _row: &(), s: Centred, i: usize, j: usize, l: usize) -> Option<Centred> {
        self.of.step::<7>(s, i, j, l)
    }

    fn finish(self, _row: &(), s: Centred, i: usize, j: usize) -> Option<Sums> {
        let Shape { k, n, .. } = self.of.shape;
        let wide = Line {
            k,
            n,
            i,
            j,
            row: self.of.ra,
            column: self.wb,
        };
        let radius = outer(s.radius, wide);
        if is_none(radius) {
            return None;
        }
        let cut = Line {
            k,
            n,
            i,
            j,
            row: self.pa,
            column: self.pb,
        };
        let sums = Centred {
            lower: s.lower,
            opposed: s.opposed,
            radius,
        };
        let t = parts(sums, cut)?;
        Sums::ends::<7>(t.lower, t.opposed, t.radius)
    }
}
