// Reading and writing sheets, and products of matrices, for callers in C. Each returns one number: a read 100 × rows + columns, a write the
// length of the sheet, a product 0; or, where it refuses, 1,000,000 × number + 10,000 × matrix + 100 × row + column of the refusal.
ghost use Rattle.std.specs.Prelude.{◌≡◌, length};
ghost use Rattle.refusals.specs.Answer.{coded};
ghost use Rattle.sheets.specs.Reading.{read_of, lowers_after, uppers_after, read_with, lowers_with, uppers_with};
ghost use Rattle.sheets.specs.Writing.{write_of, out_after};
ghost use Rattle.sheets.specs.Trip.{TripOf};
ghost use Rattle.coupling.specs.Cells.{sizes_code, SmallSizes, Called};

use crate::length_code;
use intervals::matrix::LentMatrix;
use refusals::Refusal;
use sheets::Sizes;

// The answer of a read: 100 × rows + columns, or the refusal's code. (One function with `length_code` would take a closure, and the bound that its cast
// needs would stand at each closure.)
fn sizes_code(answer: Result<Sizes, Refusal>) -> u32
    requires { SmallSizes answer }
    ensures { result ≡ coded sizes_code answer }
{
    match answer {
        // Both are at most 32: a TryFrom would need a way out that is never taken.
        Ok(Sizes { rows, columns }) => (100 * rows + columns) as u32,
        Err(r) => r.code(),
    }
}

// Reads the matrix of a sheet, each cell widened by its wear, into the front of the two slices; a refusal leaves both as they were.
pub fn coupling_read(sheet: &[u8], lowers: &mut [u32], uppers: &mut [u32]) -> u32
    ensures answer { result ≡ coded sizes_code (read_of sheet.now (length lowers.old) (length uppers.old)) }
    ensures below { lowers.new ≡ lowers_after sheet.now
        (read_of sheet.now (length lowers.old) (length uppers.old)) lowers.old }
    ensures above { uppers.new ≡ uppers_after sheet.now
        (read_of sheet.now (length lowers.old) (length uppers.old)) uppers.old }
{
    sizes_code(sheets::read(sheet, lowers, uppers))
}

// The same with a mill's own amounts for the wear classes, eight patterns in 32 bytes, in the place of the fixed ones.
pub fn coupling_read_with(
    amounts: &[u8],
    sheet: &[u8],
    lowers: &mut [u32],
    uppers: &mut [u32],
) -> u32
    ensures answer { result ≡ coded sizes_code
        (read_with amounts.now sheet.now (length lowers.old) (length uppers.old)) }
    ensures below { lowers.new ≡ lowers_with amounts.now sheet.now
        (read_with amounts.now sheet.now (length lowers.old) (length uppers.old)) lowers.old }
    ensures above { uppers.new ≡ uppers_with amounts.now sheet.now
        (read_with amounts.now sheet.now (length lowers.old) (length uppers.old)) uppers.old }
{
    sizes_code(sheets::read_with(amounts, sheet, lowers, uppers))
}

// Writes the sheet of a matrix into the front of out; a refusal leaves out as it was. A read of the sheet gives a matrix with the same values.
pub fn coupling_write(
    rows: usize,
    columns: usize,
    lowers: &[u32],
    uppers: &[u32],
    out: &mut [u8],
) -> u32
    ensures answer { result ≡ coded (λ n. n) (write_of rows columns lowers.now uppers.now (length out.old)) }
    ensures left { out.new ≡ out_after rows columns lowers.now uppers.now
        (write_of rows columns lowers.now uppers.now (length out.old)) out.old }
    ensures trip { TripOf rows columns lowers.now uppers.now
        (write_of rows columns lowers.now uppers.now (length out.old)) out.new }
{
    let matrix = LentMatrix {
        rows,
        columns,
        lowers,
        uppers,
    };
    length_code(sheets::put(matrix, out))
}

// A times B by method 1, 3, 4, 5 or 7: the bounds of the product in lo and up, the midpoints and radii of A and B in ma, ra, mb and rb.
// The bounds enclose the product of any two matrices of fractions whose entries lie in the cells of A and B.
pub fn coupling_product(
    method: u32,
    a_rows: usize,
    a_columns: usize,
    b_rows: usize,
    b_columns: usize,
    al: &[u32],
    au: &[u32],
    bl: &[u32],
    bu: &[u32],
    ma: &mut [u32],
    ra: &mut [u32],
    mb: &mut [u32],
    rb: &mut [u32],
    lo: &mut [u32],
    up: &mut [u32],
) -> u32
    ensures { Called method a_rows a_columns b_rows b_columns
        al.now au.now bl.now bu.now
        ma.old ra.old mb.old rb.old lo.old up.old
        result ma.new ra.new mb.new rb.new lo.new up.new }
{
    let a = LentMatrix {
        rows: a_rows,
        columns: a_columns,
        lowers: al,
        uppers: au,
    };
    let b = LentMatrix {
        rows: b_rows,
        columns: b_columns,
        lowers: bl,
        uppers: bu,
    };
    refusals::code(products::product(method, a, b, ma, ra, mb, rb, lo, up))
}
