// The checks of a product on its matrices: their sizes (refusal 1), and each cell (refusals 3 and 4).
ghost use Rattle.std.specs.Prelude.{◌≡◌, eqb};
ghost use Rattle.refusals.specs.Answer.{unless};
ghost use Rattle.refusals.specs.declared.reason.Reason.TheVariants.{WrongSize};
ghost use Rattle.refusals.specs.Refusal.{of_matrix};
ghost use Rattle.matrices.specs.Matrix.{of_bounds};
ghost use Rattle.matrices.specs.Checks.{Covered, check_sizes, check_cells};

use intervals::check;
use intervals::matrix::LentMatrix;
use refusals::Refusal;
use refusals::reason::Reason;
use refusals::sizes::check_size;

// Refusal 1 where A's columns are not as many as B's rows.
fn check_inner(a_columns: usize, b_rows: usize) -> Result<(), Refusal>
    ensures { result ≡ unless (eqb a_columns b_rows) (of_matrix WrongSize 2) }
{
    if a_columns == b_rows {
        return Ok(());
    }
    Err(Refusal::of_matrix(Reason::WrongSize, 2))
}

// Refusal 1 for A's sizes, then for B's, then for the mismatch of the two.
#[tactic(auto, unfolding(crate::specs::Checks::check_sizes))]
pub fn check_sizes(a: LentMatrix, b: LentMatrix) -> Result<(), Refusal>
    ensures { result ≡ check_sizes a.entry.rows a.entry.columns b.entry.rows b.entry.columns }
{
    check_size(1, a.rows, a.columns)?;
    check_size(2, b.rows, b.columns)?;
    check_inner(a.columns, b.rows)
}

// Refusal 3 or 4 for the first faulty cell by rows.
#[tactic(auto, using(refusals::proofs::SizeLaws::small, crate::proofs::CheckLaws::passed_none, crate::proofs::CheckLaws::passed_more, crate::proofs::CheckLaws::cells_done))]
pub fn check_cells(matrix: u8, cells: LentMatrix) -> Result<(), Refusal>
    requires { Covered cells.rows cells.columns cells.lowers.now cells.uppers.now }
    ensures { result ≡ check_cells matrix cells.entry.rows cells.entry.columns
        (of_bounds cells.entry.lowers.now cells.entry.uppers.now) }
{
    // By index: row and column come from it; a zip of both slices under enumerate left four goals open. Both are below 32, so that `as` loses nothing.
    for c in 0..cells.rows * cells.columns {
        let row = (c / cells.columns) as u8;
        let column = (c % cells.columns) as u8;
        check(cells.lowers[c], cells.uppers[c]).map_err(|reason| Refusal::of_cell(
            reason, matrix, row, column,
        ))?;
    }
    Ok(())
}
