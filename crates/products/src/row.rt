// A row of patterns unpacked, once for all entries of the row; and its pairs with a column. Used by method 5.
ghost use Rattle.std.specs.Prelude.{◌≡◌, ◌≤◌, length};
ghost use Rattle.products.specs.CentreSize.{Paired};
ghost use Rattle.products.specs.Row.{RowReaches, RowUnpacked};

use crate::pattern::unpack;
use unpacked::Number;

// The numbers of row i of the patterns (k columns), into the front of out. By index: of a slice that iter_mut writes beside another nothing is known.
pub fn unpack_row(k: usize, i: usize, patterns: &[u32], out: &mut [Number])
    requires { RowReaches k i patterns.now × (k ≤ length out.old) }
    ensures { RowUnpacked k i patterns.now out.new }
{
    for l in 0..k {
        out[l] = unpack(patterns[i * k + l]);
    }
}

// The first k numbers of a row, and column j of patterns with n columns: their k pairs are within the slices, and numbers. Not Line, whose row holds patterns
// and begins at row i.
#[derive(Clone, Copy)]
pub struct Pairs<'a> {
    pub k: usize,
    pub n: usize,
    pub j: usize,
    pub row: &'a [Number],
    pub column: &'a [u32],
    ghost paired: { Paired (record { k = k; n = n; j = j; row = row.now; column = column.now }) },
}

impl<'a> Pairs<'a> {
    ghost use Rattle.std.specs.Prelude.{◌<◌};
    ghost use Rattle.products.specs.CentreSize.{number, pattern};
    ghost use Rattle.products.specs.Paired.{pairs_of};

    // The number of pair l in the row.
    pub fn first(self, l: usize) -> Number
        requires { l < self.k }
        ensures { result ≡ number (pairs_of self.entry) l }
    {
        self.row[l]
    }

    // The pattern of pair l in the column.
    pub fn second(self, l: usize) -> u32
        requires { l < self.k }
        ensures { result ≡ pattern (pairs_of self.entry) l }
    {
        self.column[l * self.n + self.j]
    }
}
