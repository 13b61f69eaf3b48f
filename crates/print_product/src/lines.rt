// The lines of the printed text, written to the start of a buffer. Each function returns how many bytes it wrote.
ghost use Rattle.std.specs.Prelude.{◌+◌, ◌*◌, ◌≤◌, ◌<◌, length};
ghost use Rattle.print_product.specs.Lines.{product_line, cell_line, refused_line};
ghost use Rattle.print_product.specs.Printed.{cell_lines, product_text};
ghost use Rattle.print_product.specs.Put.{Put};

use crate::put;
use refusals::Refusal;
use refusals::sizes::MOST_CELLS;
use sheets::Sizes;

// A product, and the method that it was made by. Its cells stand by rows in the front of the two arrays.
#[derive(Clone, Copy)]
pub struct Product<'a> {
    pub method: u8,
    pub sizes: Sizes,
    pub lowers: &'a [u32; MOST_CELLS],
    pub uppers: &'a [u32; MOST_CELLS],
    ghost digit: { method < 10 },
    ghost rows: { sizes.rows ≤ 32 },
    ghost some_column: { 0 < sizes.columns },
    ghost columns: { sizes.columns ≤ 32 },
}

// The line "product", method, rows, columns.
#[tactic(auto, using(crate::proofs::DigitLaws::below_ten, crate::proofs::DigitLaws::below_hundred, crate::proofs::DigitLaws::decimal_length))]
fn product_line(out: &mut [u8], product: &Product) -> usize
    requires { 16 ≤ length out.old }
    ensures { Put (product_line product.now.method product.now.sizes.rows product.now.sizes.columns) out.old result out.new }
{
    let method = usize::from(product.method);
    let Sizes { rows, columns } = product.sizes;
    let mut n = put::bytes(out, b"product ");
    n += put::decimal(&mut out[n..], method, b' ');
    n += put::decimal(&mut out[n..], rows, b' ');
    n + put::decimal(&mut out[n..], columns, b'\n')
}

// The line of a cell: row, column, lower bound, upper bound.
#[tactic(auto, using(crate::proofs::DigitLaws::below_hundred, crate::proofs::DigitLaws::decimal_length, crate::proofs::DigitLaws::hexadecimal_length))]
fn cell_line(out: &mut [u8], row: usize, column: usize, lower: u32, upper: u32) -> usize
    requires { (row < 100) × (column < 100) × (24 ≤ length out.old) }
    ensures { Put (cell_line row column lower upper) out.old result out.new }
{
    let mut n = put::decimal(out, row, b' ');
    n += put::decimal(&mut out[n..], column, b' ');
    n += put::hexadecimal(&mut out[n..], lower, b' ');
    n + put::hexadecimal(&mut out[n..], upper, b'\n')
}

// The lines of the cells, by rows.
#[tactic(auto, using(crate::proofs::LineLaws::wide, crate::proofs::LineLaws::cells_length, sheets::proofs::Counting::div_lt, sheets::proofs::Counting::mod_lt), unfolding(crate::specs::Printed::cell_lines))]
fn cell_lines(out: &mut [u8], product: &Product) -> usize
    requires { 24 * (product.now.sizes.rows * product.now.sizes.columns) ≤ length out.old }
    ensures { Put (cell_lines product.now.sizes.columns product.now.lowers.now product.now.uppers.now
        (product.now.sizes.rows * product.now.sizes.columns)) out.old result out.new }
{
    let Sizes { rows, columns } = product.sizes;
    let mut n = 0;
    // By index: row and column come from it, and two slices are read side by side.
    for p in 0..rows * columns {
        let (row, column) = (p / columns, p % columns);
        let (lower, upper) = (product.lowers[p], product.uppers[p]);
        n += cell_line(&mut out[n..], row, column, lower, upper);
    }
    n
}

// The whole text of a product. 24,592 bytes are enough for it: 16 for the first line and 24 for each of 1,024 cells.
#[tactic(auto, using(crate::proofs::Puts::put_more, crate::proofs::LineLaws::product_length, refusals::proofs::SizeLaws::small))]
pub fn product_text(out: &mut [u8], product: &Product) -> usize
    requires { 24592 ≤ length out.old }
    ensures { Put (product_text product.now.method product.now.sizes.rows product.now.sizes.columns
        product.now.lowers.now product.now.uppers.now) out.old result out.new }
{
    let n = product_line(out, product);
    n + cell_lines(&mut out[n..], product)
}

// The line "refused", number, matrix, row, column.
#[tactic(auto, using(crate::proofs::DigitLaws::below_thousand, crate::proofs::DigitLaws::decimal_length))]
pub fn refused_line(out: &mut [u8], refusal: Refusal) -> usize
    requires { 24 ≤ length out.old }
    ensures { Put (refused_line refusal) out.old result out.new }
{
    let Refusal {
        reason,
        matrix,
        row,
        column,
    } = refusal;
    let number = reason.number();
    let mut n = put::bytes(out, b"refused ");
    n += put::decimal(&mut out[n..], usize::from(number), b' ');
    n += put::decimal(&mut out[n..], usize::from(matrix), b' ');
    n += put::decimal(&mut out[n..], usize::from(row), b' ');
    n + put::decimal(&mut out[n..], usize::from(column), b'\n')
}
