// All checks of a product before it computes anything, in their fixed order: refusals 9, 1, 2, then 3 and 4 for A's cells by rows, then for B's.
ghost use Rattle.std.specs.Prelude.{◌≡◌};
ghost use Rattle.matrices.specs.Matrix.{of_bounds};
ghost use Rattle.matrices.specs.Checks.{Covered, given, check_operands, check_lent, check_both, check_of};

use crate::checks::{check_cells, check_sizes};
use crate::methods::check_method;
use intervals::matrix::LentMatrix;
use refusals::Refusal;
use refusals::sizes::check_lengths;

// Refusal 2 for the slices of A, then of B, with so many cells.
#[tactic(auto, unfolding(crate::specs::Checks::check_operands))]
fn check_operands(
    a_cells: usize,
    b_cells: usize,
    a: LentMatrix,
    b: LentMatrix,
) -> Result<(), Refusal>
    ensures { result ≡ check_operands a_cells b_cells
        (of_bounds a.entry.lowers.now a.entry.uppers.now) (of_bounds b.entry.lowers.now b.entry.uppers.now) }
{
    check_lengths(1, a_cells, a.lowers.len(), a.uppers.len())?;
    check_lengths(2, b_cells, b.lowers.len(), b.uppers.len())
}

// The lengths of the slices that a caller lends for writing: midpoints and radii of A and B, then the bounds of the result.
#[derive(Clone, Copy)]
pub struct Lent {
    pub ma: usize,
    pub ra: usize,
    pub mb: usize,
    pub rb: usize,
    pub lo: usize,
    pub up: usize,
}

// Refusal 2 for the work slices, then for the result, with a, b and c cells.
#[tactic(auto, unfolding(crate::specs::Checks::check_lent))]
fn check_lent(a: usize, b: usize, c: usize, lent: Lent) -> Result<(), Refusal>
    ensures { result ≡ check_lent a b c lent.ma lent.ra lent.mb lent.rb lent.lo lent.up }
{
    check_lengths(0, a, lent.ma, lent.ra)?;
    check_lengths(0, b, lent.mb, lent.rb)?;
    check_lengths(3, c, lent.lo, lent.up)
}

// Refusals 3 and 4 for A's cells, then for B's.
#[tactic(auto, unfolding(crate::specs::Checks::check_both))]
fn check_both(a: &LentMatrix, b: &LentMatrix) -> Result<(), Refusal>
    requires { Covered a.now.rows a.now.columns a.now.lowers.now a.now.uppers.now
        × Covered b.now.rows b.now.columns b.now.lowers.now b.now.uppers.now }
    ensures { result ≡ check_both a.now.rows a.now.columns b.now.rows b.now.columns
        (of_bounds a.now.lowers.now a.now.uppers.now) (of_bounds b.now.lowers.now b.now.uppers.now) }
{
    check_cells(1, *a)?;
    check_cells(2, *b)
}

// All checks, in their order. By the method's number, though `product` has the Method already: the definition begins with it.
#[tactic(auto, unfolding(crate::specs::Checks::check_of, crate::specs::Checks::check_shapes, crate::specs::Checks::check_slices))]
pub fn check_all(method: u32, a: LentMatrix, b: LentMatrix, lent: Lent) -> Result<(), Refusal>
    ensures { result ≡ check_of (given method a.entry.rows a.entry.columns b.entry.rows b.entry.columns
        a.entry.lowers.now a.entry.uppers.now b.entry.lowers.now b.entry.uppers.now
        lent.ma lent.ra lent.mb lent.rb lent.lo lent.up) }
{
    check_method(method)?;
    check_sizes(a, b)?;
    let a_cells = a.rows * a.columns;
    let b_cells = b.rows * b.columns;
    check_operands(a_cells, b_cells, a, b)?;
    check_lent(a_cells, b_cells, a.rows * b.columns, lent)?;
    check_both(&a, &b)
}
