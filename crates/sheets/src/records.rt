// Writes the cells of a matrix into a buffer as the records of a sheet.
ghost use Rattle.std.specs.Prelude.{◌≡◌, ◌++◌, ◌+◌, ◌*◌, ◌≤◌, ◌<◌, length, drop, take};
ghost use Rattle.sheets.specs.Cell.{handed_of};
ghost use Rattle.sheets.specs.Sheet.{bytes_of, head_bytes, over, tally, count_to, next_of, cell_bytes, records_to};

use crate::amount::Kind;
use crate::cell::handed;
use crate::layout::Record;
use intervals::matrix::LentMatrix;

// Writes the 16 bytes of a record from index `at` on.
pub fn put_record(out: &mut [u8], at: usize, r: Record)
    requires { at + 16 ≤ length out.old }
    ensures { out.new ≡ over at (bytes_of r) out.old }
{
    let bytes = r.bytes();
    // `copy_from_slice` was tried and is slower: a write takes 17 % more instructions.
    for j in 0..16 {
        out[at + j] = bytes[j];
    }
}

// Writes the head of a sheet of `count` records, the head counted. What is written is an amount sheet: its kind is in byte 6, the third of the four that
// a cell has its lower bound in.
#[tactic(auto, unfolding(crate::specs::Sheet::record_bytes))]
pub fn put_head(out: &mut [u8], first: u16, rows: u8, columns: u8, count: u16)
    requires { 16 ≤ length out.old }
    ensures { out.new ≡ over 0 (head_bytes first rows columns count) out.old }
{
    let kind = u32::from(Kind::Amounts.byte());
    let head = Record {
        next: first,
        row: rows,
        column: columns,
        lower: u32::from(count) + 65536 * kind,
        upper: 0,
        wear: 0,
    };
    put_record(out, 0, head);
}

// The next index in record k of a chain of records 1 to `total`: k + 1, or 0 in the last record.
#[tactic(auto, unfolding(crate::specs::Sheet::next_of))]
pub fn next_of(total: usize, k: usize) -> u16
    requires { k ≤ 1024 }
    ensures { result ≡ next_of total k }
{
    // At most 1,024: a TryFrom would need a way out that is never taken.
    if k < total { (k + 1) as u16 } else { 0 }
}

// Writes a cell as record k + 1, unless it is [0, 0]; returns the number of cells written so far.
#[tactic(auto, unfolding(crate::specs::Sheet::tally, crate::specs::Sheet::cell_bytes, crate::specs::Sheet::record_bytes))]
fn put_cell(
    out: &mut [u8],
    k: usize,
    total: usize,
    row: u8,
    column: u8,
    lower: u32,
    upper: u32,
) -> usize
    requires { (16 * (k + 1) + 16 * tally (handed_of lower upper) ≤ length out.old) × (k ≤ 1023) }
    ensures { (result ≡ k + tally (handed_of lower upper))
        × (out.new ≡ over (16 * (k + 1)) (cell_bytes (next_of total (k + 1)) row column (handed_of lower upper)) out.old) }
{
    match handed(lower, upper) {
        Ok(Some((lower, upper))) => {
            let next = next_of(total, k + 1);
            let cell = Record {
                next,
                row,
                column,
                lower,
                upper,
                wear: 0,
            };
            put_record(out, 16 * (k + 1), cell);
            k + 1
        }
        _ => k,
    }
}

// Writes the records of all cells that are not [0, 0] behind the head.
pub fn put_cells(out: &mut [u8], total: usize, matrix: LentMatrix)
    requires { (0 < matrix.columns) × (matrix.rows ≤ 32) × (matrix.columns ≤ 32)
        × (matrix.rows * matrix.columns ≤ length matrix.lowers.now) × (matrix.rows * matrix.columns ≤ length matrix.uppers.now)
        × (total ≡ count_to matrix.lowers.now matrix.uppers.now (matrix.rows * matrix.columns)) × (16 * (total + 1) ≤ length out.old) }
    ensures { out.new ≡ take 16 out.old
        ++ records_to matrix.entry.columns total matrix.entry.lowers.now matrix.entry.uppers.now (matrix.entry.rows * matrix.entry.columns)
        ++ drop (16 * (total + 1)) out.old }
{
    let LentMatrix {
        rows,
        columns,
        lowers,
        uppers,
    } = matrix;
    let mut k = 0;
    // By index: row and column come from it, and two slices are read side by side.
    for p in 0..rows * columns {
        k = put_cell(
            out,
            k,
            total,
            (p / columns) as u8,
            (p % columns) as u8,
            lowers[p],
            uppers[p],
        );
    }
}
