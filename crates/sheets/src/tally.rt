// Checks the cells of a matrix that is to be written, and counts those that are not [0, 0].
ghost use Rattle.std.specs.Prelude.{◌≡◌, ◌*◌, ◌≤◌, ◌<◌, length};
ghost use Rattle.sheets.specs.Writing.{scan_to};

use crate::cell::handed;
use intervals::matrix::LentMatrix;
use refusals::Refusal;

// Refusal 3 or 4 for the first faulty cell by rows, or the number of cells that are not [0, 0].
pub fn scan(matrix: LentMatrix) -> Result<usize, Refusal>
    requires { (0 < matrix.columns) × (matrix.rows ≤ 32) × (matrix.columns ≤ 32)
        × (matrix.rows * matrix.columns ≤ length matrix.lowers.now) × (matrix.rows * matrix.columns ≤ length matrix.uppers.now) }
    ensures { result ≡ scan_to matrix.entry.columns matrix.entry.lowers.now matrix.entry.uppers.now (matrix.entry.rows * matrix.entry.columns) }
{
    let LentMatrix {
        rows,
        columns,
        lowers,
        uppers,
    } = matrix;
    let mut count = 0;
    // By index: row and column come from it, and two slices are read side by side. Both are below 32, so that `as` loses nothing.
    for p in 0..rows * columns {
        let row = (p / columns) as u8;
        let column = (p % columns) as u8;
        let cell = handed(lowers[p], uppers[p]).map_err(|reason| Refusal::of_cell(
            reason, 0, row, column,
        ))?;
        if cell.is_some() {
            count += 1;
        }
    }
    Ok(count)
}
