// The matrices of a product by methods 3, 4, 5 and 7, the step over midpoints that methods 4 and 7 share, and the pairs of a row and a column.
ghost use Rattle.products.specs.Continued.{Reaches};

use crate::centred::{Centred, is_nonzero};
use crate::entries::Shape;

// A and B as midpoints and radii, by rows.
#[derive(Clone, Copy)]
pub struct Operands<'a> {
    pub shape: Shape,
    pub ma: &'a [u32],
    pub ra: &'a [u32],
    pub mb: &'a [u32],
    pub rb: &'a [u32],
}

impl<'a> Operands<'a> {
    ghost use Rattle.std.specs.Prelude.{◌<◌, ◌*◌};
    ghost use Rattle.products.specs.MidRad.{Fits};
    ghost use Rattle.products.specs.Spot.{MiddleSum, MiddleAfter, spot};

    // The sums in row i and column j with pair l added, or None where one of them is refused.
    pub fn step<const METHOD: u32>(
        self,
        s: Centred,
        i: usize,
        j: usize,
        l: usize,
    ) -> Option<Centred>
        requires { Fits self (self.shape.m * self.shape.n) (self.shape.m * self.shape.n)
            × (i < self.shape.m) × (j < self.shape.n) × (l < self.shape.k) × MiddleSum (spot self i j) l s }
        ensures { MiddleAfter (spot self.entry i j) l result }
    {
        let x = self.ma[i * self.shape.k + l];
        if !is_nonzero(x) {
            return Some(s);
        }
        let b = l * self.shape.n + j;
        s.step::<METHOD>(x, self.mb[b], self.rb[b])
    }
}

// Row i of patterns with k columns, and column j of patterns with n columns: their k pairs are within the slices.
#[derive(Clone, Copy)]
pub struct Line<'a> {
    pub k: usize,
    pub n: usize,
    pub i: usize,
    pub j: usize,
    pub row: &'a [u32],
    pub column: &'a [u32],
    ghost reaches: { Reaches (record { k = k; n = n; i = i; j = j; row = row.now; column = column.now }) },
}

impl<'a> Line<'a> {
    ghost use Rattle.std.specs.Prelude.{◌≡◌, ◌<◌};
    ghost use Rattle.products.specs.Continued.{first, second};
    ghost use Rattle.products.specs.Line.{line_of};

    // The pattern of pair l in the row.
    pub fn first(self, l: usize) -> u32
        requires { l < self.k }
        ensures { result ≡ first (line_of self.entry) l }
    {
        self.row[self.i * self.k + l]
    }

    // The pattern of pair l in the column.
    pub fn second(self, l: usize) -> u32
        requires { l < self.k }
        ensures { result ≡ second (line_of self.entry) l }
    {
        self.column[l * self.n + self.j]
    }
}
