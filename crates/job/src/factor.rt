// The left factor of a product of sheets. Its bounds stand in the front of two arrays of 1,024 patterns, by rows; its rows and columns in a `Sizes`.
// The two arrays stay parameters, since they are written: of a struct of them and the sizes, clauses would speak of its entry and its exit.
// The method stays a number: `products::product` takes it so, and promises refusal 9 for every other number.
ghost use Rattle.std.specs.Prelude.{◌≡◌, ◌*◌, ◌≤◌, ◌++◌, length, take, drop};
ghost use Rattle.refusals.specs.Sizes.{largest_size, most_cells};
ghost use Rattle.job.specs.Factor.{in_front, in_arrays, read_as, factor_of};
ghost use Rattle.job.specs.Fold.{times_of, step_of};

use intervals::matrix::LentMatrix;
use refusals::Refusal;
use refusals::reason::Reason;
use refusals::sizes::MOST_CELLS;
use sheets::Sizes;

// Reads a sheet. Where it is refused, the refusal gets this matrix number.
pub fn read_as(
    matrix: u8,
    s: &[u8],
    lowers: &mut [u32; MOST_CELLS],
    uppers: &mut [u32; MOST_CELLS],
) -> Result<Sizes, Refusal>
    ensures { in_arrays result lowers.new uppers.new ≡ read_as matrix s.now }
{
    sheets::read(s, lowers, uppers).map_err(|r| r.named(matrix))
}

// The matrix of these sizes in the front of two arrays.
pub fn in_front<'a>(
    sizes: Sizes,
    lowers: &'a [u32; MOST_CELLS],
    uppers: &'a [u32; MOST_CELLS],
) -> LentMatrix<'a>
    requires { sizes.rows * sizes.columns ≤ most_cells }
    ensures { factor_of result ≡ in_front sizes.rows sizes.columns lowers.now uppers.now }
{
    let n = sizes.rows * sizes.columns;
    LentMatrix {
        rows: sizes.rows,
        columns: sizes.columns,
        lowers: &lowers[..n],
        uppers: &uppers[..n],
    }
}

// Copies the first count patterns.
pub fn copy(count: usize, from: &[u32], to: &mut [u32])
    requires { (count ≤ length from.now) × (count ≤ length to.old) }
    ensures { to.new ≡ take count from.now ++ drop count to.old }
{
    to[..count].copy_from_slice(&from[..count]);
}

// The left factor in lo and up times the right one: the product takes the left factor's place. A refusal gets this matrix number.
fn multiply(
    method: u32,
    matrix: u8,
    left: Sizes,
    right: LentMatrix,
    lo: &mut [u32; MOST_CELLS],
    up: &mut [u32; MOST_CELLS],
) -> Result<Sizes, Refusal>
    requires { (left.rows * left.columns ≤ most_cells) × (left.rows * right.columns ≤ most_cells) }
    ensures { in_arrays result lo.new up.new ≡ times_of method matrix
        (in_front left.rows left.columns lo.old up.old) (factor_of right.entry) }
{
    let mut ma = [0u32; MOST_CELLS];
    let mut ra = [0u32; MOST_CELLS];
    let mut mb = [0u32; MOST_CELLS];
    let mut rb = [0u32; MOST_CELLS];
    let mut cl = [0u32; MOST_CELLS];
    let mut cu = [0u32; MOST_CELLS];
    products::product(
        method,
        in_front(left, lo, up),
        right,
        &mut ma,
        &mut ra,
        &mut mb,
        &mut rb,
        &mut cl,
        &mut cu,
    )
    .map_err(|r| r.named(matrix))?;
    let rows = left.rows;
    let columns = right.columns;
    copy(rows * columns, &cl, lo);
    copy(rows * columns, &cu, up);
    Ok(Sizes { rows, columns })
}

// The left factor in lo and up times the matrix of the sheet s, which is read as matrix `position`. Refusal 1 where the two do not fit.
pub fn times_sheet(
    method: u32,
    matrix: u8,
    position: u8,
    left: Sizes,
    s: &[u8],
    lo: &mut [u32; MOST_CELLS],
    up: &mut [u32; MOST_CELLS],
) -> Result<Sizes, Refusal>
    requires { (left.rows ≤ largest_size) × (left.columns ≤ largest_size) }
    ensures { in_arrays result lo.new up.new
        ≡ step_of method matrix position (in_front left.rows left.columns lo.old up.old) s.now }
{
    let mut bl = [0u32; MOST_CELLS];
    let mut bu = [0u32; MOST_CELLS];
    let right = read_as(position, s, &mut bl, &mut bu)?;
    if left.columns != right.rows {
        return Err(Refusal::of_matrix(Reason::WrongSize, position));
    }
    multiply(method, matrix, left, in_front(right, &bl, &bu), lo, up)
}
