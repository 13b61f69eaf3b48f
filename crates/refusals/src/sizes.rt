// The checks of one matrix for refusals 1 and 2: sizes from 1 to 32, and slices with at least as many words as the matrix has cells.
ghost use Rattle.std.specs.Prelude.{◌≡◌};
ghost use Rattle.refusals.specs.Sizes.{sized, check_size, check_lengths, check_fit};

use crate::Refusal;
use crate::reason::Reason;

// The most rows or columns of a matrix.
pub const LARGEST_SIZE: usize = 32;

// The most cells of a matrix.
pub const MOST_CELLS: usize = LARGEST_SIZE * LARGEST_SIZE;

// Whether both sizes are from 1 to 32.
fn are_sizes(rows: usize, columns: usize) -> bool
    ensures { result ≡ sized rows columns }
{
    1 <= rows && rows <= LARGEST_SIZE && 1 <= columns && columns <= LARGEST_SIZE
}

// Refusal 1 where a size is not from 1 to 32.
#[tactic(auto, unfolding(crate::specs::Sizes::check_size))]
pub fn check_size(matrix: u8, rows: usize, columns: usize) -> Result<(), Refusal>
    ensures { result ≡ check_size matrix rows columns }
{
    if are_sizes(rows, columns) {
        return Ok(());
    }
    Err(Refusal::of_matrix(Reason::WrongSize, matrix))
}

// Refusal 2 where a slice is shorter than the matrix has cells.
#[tactic(auto, unfolding(crate::specs::Sizes::check_lengths))]
pub fn check_lengths(matrix: u8, cells: usize, lowers: usize, uppers: usize) -> Result<(), Refusal>
    ensures { result ≡ check_lengths matrix cells lowers uppers }
{
    if lowers < cells || uppers < cells {
        return Err(Refusal::of_matrix(Reason::ShortSlice, matrix));
    }
    Ok(())
}

// Refusal 1, then 2.
#[tactic(auto, using(crate::proofs::SizeLaws::size_tells, crate::proofs::SizeLaws::small), unfolding(crate::specs::Sizes::check_fit))]
pub fn check_fit(
    matrix: u8,
    rows: usize,
    columns: usize,
    lowers: usize,
    uppers: usize,
) -> Result<(), Refusal>
    ensures { result ≡ check_fit matrix rows columns lowers uppers }
{
    check_size(matrix, rows, columns)?;
    check_lengths(matrix, rows * columns, lowers, uppers)
}
