// The entries of a product by rows, up to the first that is refused: what each method says of an entry, and the loops over rows, columns and pairs.
ghost use Rattle.std.specs.Prelude.{ℕ, ◌≡◌, ◌≤◌, ◌<◌, ◌+◌, ◌*◌, length};
ghost use Rattle.std.proofs.Math.Option.{Option};
ghost use Rattle.enclosure.specs.Methods.{Range};
ghost use Rattle.products.specs.declared.entries.Shape.{Shape};
ghost use Rattle.products.specs.Entries.{Going};
ghost use Rattle.products.specs.Running.{HoldsRange};
ghost use Rattle.products.specs.Written.{Written};

use crate::sums::{Place, Sums};

// A has m rows and k columns, B has k rows and n columns.
#[derive(Clone, Copy)]
pub struct Shape {
    pub m: usize,
    pub k: usize,
    pub n: usize,
}

// The steps of a method to the entry in row i and column j: it is none where one of them is refused.
pub trait Steps: Copy {
    // What is worked out once for a row of A.
    type Row: Copy;

    // The sums of an entry, of which some pairs were added.
    type Sum: Copy;

    ghost shape: { Self → Shape };

    // What the steps need. `Fits` and `Derived` stand in each impl: which values are worked out differs.
    ghost ready: { Self → Type 0 };

    // The entry at a position by rows.
    ghost entry: { Self → ℕ → Option Range };

    // A row's own place, and row i in it.
    ghost place: { Self.Row → Type 0 };

    ghost row_of: { Self → ℕ → Self.Row → Type 0 };

    // The sums in row i and column j after l pairs.
    ghost after: { Self → ℕ → ℕ → ℕ → Self.Sum → Type 0 };

    fn shape(self) -> Shape
        ensures { result ≡ shape self };

    // A place for rows.
    fn blank(self) -> Self::Row
        ensures { place result };

    // Puts row i of A there.
    fn take_apart(self, i: usize, row: &mut Self::Row)
        requires { ready self × (i < (shape self).m) × place row.old }
        ensures { place row.new × row_of self i row.new };

    // The sums of no pairs.
    fn start(self) -> Self::Sum
        ensures { (i j : ℕ) → after self i j 0 result };

    // The sums with pair l added.
    fn step(self, row: &Self::Row, s: Self::Sum, i: usize, j: usize, l: usize) -> Option<Self::Sum>
        requires { ready self × (i < (shape self).m) × (j < (shape self).n) × (l < (shape self).k)
            × row_of self i row.now × after self i j l s }
        ensures { Going (after self i j (l + 1)) (entry self (i * (shape self).n + j)) result };

    // The entry of the sums of all pairs.
    fn finish(self, row: &Self::Row, s: Self::Sum, i: usize, j: usize) -> Option<Sums>
        requires { ready self × (i < (shape self).m) × (j < (shape self).n)
            × row_of self i row.now × after self i j (shape self).k s }
        ensures { HoldsRange (entry self (i * (shape self).n + j)) result };
}

// Writes the entries by rows until one is refused, and returns its row and column, or None: an Option, as of a search (std's `position`). Rule of the
// project: nested loops over rows, columns and pairs, which a label leaves at the first overflow, with its place.
pub fn entries<M: Steps>(of: M, lo: &mut [u32], up: &mut [u32]) -> Option<Place>
    requires { M.ready of × ((M.shape of).m ≤ 32) × ((M.shape of).n ≤ 32)
        × ((M.shape of).m * (M.shape of).n ≤ length lo.old) × ((M.shape of).m * (M.shape of).n ≤ length up.old) }
    ensures { Written (M.entry of) (M.shape of).m (M.shape of).n lo.old up.old result lo.new up.new }
{
    let Shape { m, k, n } = of.shape();
    let mut row = of.blank();
    let mut place = None;
    'search: for i in 0..m {
        of.take_apart(i, &mut row);
        for j in 0..n {
            let mut s = of.start();
            for l in 0..k {
                let Some(next) = of.step(&row, s, i, j, l) else {
                    place = Some(Place { row: i, column: j });
                    break 'search;
                };
                s = next;
            }
            let Some(e) = of.finish(&row, s, i, j) else {
                place = Some(Place { row: i, column: j });
                break 'search;
            };
            let at = i * n + j;
            lo[at] = e.lower();
            up[at] = e.upper();
        }
    }
    place
}
