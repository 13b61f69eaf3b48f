// Method 1, classical: one pass along a row of A and a column of B carries both sums of an entry. Each row of A is unpacked once for all its entries.
ghost use Rattle.std.specs.Prelude.{ℕ, length, get_or, ◌≡◌, ◌<◌, ◌+◌, ◌*◌, ltb};
ghost use Rattle.enclosure.specs.Methods.{classical};
ghost use Rattle.binary32.specs.Order.{magnitude_of};
ghost use Rattle.matrices.specs.Matrix.{of_bounds};
ghost use Rattle.matrices.specs.Entries.{entry_at};
ghost use Rattle.products.specs.Apart.{IsApart, zero_apart};
ghost use Rattle.products.specs.Classical.{SumsAfter};
ghost use Rattle.products.specs.Written.{Sizes, Written};

use crate::apart::Apart;
use crate::entries::{Shape, Steps, entries};
use crate::sums::{Place, Sums};
use binary32::Binary32;
use intervals::matrix::LentMatrix;
use refusals::sizes::LARGEST_SIZE;

// Whether the cell [lo, hi] is not [0, 0], with zeros of either sign. The corner products of [0, 0] add nothing.
fn is_nonzero(lo: u32, hi: u32) -> bool
    ensures { result ≡ ltb 0 (magnitude_of lo + magnitude_of hi) }
{
    0 < lo % Binary32::SIGN + hi % Binary32::SIGN
}

// A and B by their bounds, by rows. Not two LentMatrix: their sizes would stand beside `shape` a second time.
#[derive(Clone, Copy)]
pub struct Classical<'a> {
    pub shape: Shape,
    pub al: &'a [u32],
    pub au: &'a [u32],
    pub bl: &'a [u32],
    pub bu: &'a [u32],
}

impl<'a> Steps for Classical<'a> {
    type Row = [Apart; LARGEST_SIZE];

    type Sum = Sums;

    ghost shape = { λ s. s.shape };

    ghost ready = { λ s. Sizes s.shape.m s.shape.k s.shape.n (of_bounds s.al.now s.au.now) (of_bounds s.bl.now s.bu.now)
        (s.shape.m * s.shape.n) (s.shape.m * s.shape.n) };

    ghost entry = { λ s. entry_at classical s.shape.k s.shape.n (of_bounds s.al.now s.au.now) (of_bounds s.bl.now s.bu.now) };

    ghost place = { λ row. length row ≡ 32 };

    ghost row_of = { λ s i row. (length row ≡ 32)
        × ((l : ℕ) → l < s.shape.k → IsApart (get_or s.al.now (i * s.shape.k + l) 0) (get_or s.au.now (i * s.shape.k + l) 0) (get_or row l zero_apart)) };

    ghost after = { λ s i j l t. SumsAfter s.shape.k s.shape.n (of_bounds s.al.now s.au.now) (of_bounds s.bl.now s.bu.now) i j l t };

    fn shape(self) -> Shape {
        self.shape
    }

    fn blank(self) -> [Apart; LARGEST_SIZE] {
        [Apart::zero(); LARGEST_SIZE]
    }

    // By index: of a slice that iter_mut writes beside two others nothing is known.
    fn take_apart(self, i: usize, row: &mut [Apart; LARGEST_SIZE]) {
        for l in 0..self.shape.k {
            let c = i * self.shape.k + l;
            row[l] = Apart::new(self.al[c], self.au[c]);
        }
    }

    fn start(self) -> Sums {
        Sums::new()
    }

    fn step(
        self,
        row: &[Apart; LARGEST_SIZE],
        s: Sums,
        _i: usize,
        j: usize,
        l: usize,
    ) -> Option<Sums> {
        let a = row[l];
        if !a.is_nonzero() {
            return Some(s);
        }
        let b = l * self.shape.n + j;
        let y = self.bl[b];
        let z = self.bu[b];
        if !is_nonzero(y, z) {
            return Some(s);
        }
        s.step::<1>(a, y, z)
    }

    fn finish(self, _row: &[Apart; LARGEST_SIZE], s: Sums, _i: usize, _j: usize) -> Option<Sums> {
        Some(s)
    }
}

// Writes the entries by rows until one is refused, and returns its row and column, or None. Not inlined: its loops then have the registers to themselves.
#[inline(never)]
pub fn by_bounds(a: &LentMatrix, b: &LentMatrix, lo: &mut [u32], up: &mut [u32]) -> Option<Place>
    requires { Sizes a.now.rows a.now.columns b.now.columns
        (of_bounds a.now.lowers.now a.now.uppers.now) (of_bounds b.now.lowers.now b.now.uppers.now) (length lo.old) (length up.old) }
    ensures { Written (entry_at classical a.now.columns b.now.columns
        (of_bounds a.now.lowers.now a.now.uppers.now) (of_bounds b.now.lowers.now b.now.uppers.now))
        a.now.rows b.now.columns lo.old up.old result lo.new up.new }
{
    let steps = Classical {
        shape: Shape {
            m: a.rows,
            k: a.columns,
            n: b.columns,
        },
        al: a.lowers,
        au: a.uppers,
        bl: b.lowers,
        bu: b.uppers,
    };
    entries(steps, lo, up)
}
