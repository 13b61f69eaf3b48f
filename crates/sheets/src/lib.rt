// The coupling sheet: a matrix of intervals as records of 16 bytes, each with the index of the next one. Reading, writing, and the checks of both.
#![tactic(auto)]

ghost use Rattle.std.specs.Prelude.{◌≡◌, length};
ghost use Rattle.sheets.specs.Reading.{read_of, lowers_after, uppers_after, read_with, lowers_with, uppers_with};
ghost use Rattle.sheets.specs.Writing.{write_of, out_after, front_of};
ghost use Rattle.sheets.specs.Trip.{TripOf};

mod amount;
mod cell;
mod chain;
pub mod cut;
mod layout;
pub mod load;
mod matrix;
mod reading;
mod records;
mod tally;
pub mod wear;
pub mod worn;

use intervals::matrix::LentMatrix;
use refusals::Refusal;
use refusals::reason::Reason;
use refusals::sizes::check_fit;

// Rows and columns of a matrix. No ghost field bounds them: `read_by` makes one of the two bytes of a head before they are checked.
#[derive(Clone, Copy)]
pub struct Sizes {
    pub rows: usize,
    pub columns: usize,
}

// Reads the matrix of a sheet, each cell widened by its wear, into the front of the two slices; a refusal leaves both as they were.
#[tactic(auto, unfolding(crate::specs::Reading::read_of, crate::specs::Reading::slice_after))]
pub fn read(s: &[u8], lowers: &mut [u32], uppers: &mut [u32]) -> Result<Sizes, Refusal>
    ensures answer { result ≡ read_of s.now (length lowers.old) (length uppers.old) }
    ensures below { lowers.new ≡ lowers_after s.now result lowers.old }
    ensures above { uppers.new ≡ uppers_after s.now result uppers.old }
{
    let fixed = wear::fixed();
    reading::read(&fixed, s, lowers, uppers)
}

// The same with a mill's own amounts for the wear classes, eight patterns in 32 bytes, in the place of the fixed table. They are checked first: 6, 3, 13.
#[tactic(auto, using(crate::proofs::Loads::with_loaded, crate::proofs::Loads::with_refused, crate::proofs::Loads::loaded_is), unfolding(crate::specs::Reading::slice_with))]
pub fn read_with(
    amounts: &[u8],
    s: &[u8],
    lowers: &mut [u32],
    uppers: &mut [u32],
) -> Result<Sizes, Refusal>
    ensures answer { result ≡ read_with amounts.now s.now (length lowers.old) (length uppers.old) }
    ensures below { lowers.new ≡ lowers_with amounts.now s.now result lowers.old }
    ensures above { uppers.new ≡ uppers_with amounts.now s.now result uppers.old }
{
    let loaded = load::read(amounts)?;
    reading::read(&loaded, s, lowers, uppers)
}

// The answer of a write, the length of the sheet in bytes, into a buffer of `room` bytes. Checks sizes (1), slice lengths (2), the cells by rows (3, 4),
// then the room (11).
#[tactic(auto, unfolding(crate::specs::Writing::write_of))]
pub fn check_write(matrix: LentMatrix, room: usize) -> Result<usize, Refusal>
    ensures { result ≡ write_of
        matrix.entry.rows matrix.entry.columns matrix.entry.lowers.now matrix.entry.uppers.now room }
{
    let LentMatrix {
        rows,
        columns,
        lowers,
        uppers,
    } = matrix;
    check_fit(0, rows, columns, lowers.len(), uppers.len())?;
    let k = tally::scan(matrix)?;
    let needed = 16 * (k + 1);
    if room < needed {
        return Err(Refusal::of_matrix(Reason::NoRoom, 0));
    }
    Ok(needed)
}

// Writes the sheet of a matrix into the front of out; a refusal leaves out as it was.
// `read` of what was written gives a matrix with the same values.
#[tactic(auto, unfolding(crate::specs::Writing::out_after))]
pub fn put(matrix: LentMatrix, out: &mut [u8]) -> Result<usize, Refusal>
    ensures answer { result ≡ write_of
        matrix.entry.rows matrix.entry.columns matrix.entry.lowers.now matrix.entry.uppers.now (length out.old) }
    ensures left { out.new ≡ out_after
        matrix.entry.rows matrix.entry.columns matrix.entry.lowers.now matrix.entry.uppers.now result out.old }
    ensures trip { TripOf
        matrix.entry.rows matrix.entry.columns matrix.entry.lowers.now matrix.entry.uppers.now result out.new }
{
    let LentMatrix { rows, columns, .. } = matrix;
    let n = check_write(matrix, out.len())?;
    let total = n / 16 - 1;
    // `as` loses nothing here; `TryFrom` would add an error that cannot come.
    records::put_head(
        out,
        records::next_of(total, 0),
        rows as u8,
        columns as u8,
        (total + 1) as u16,
    );
    records::put_cells(out, total, matrix);
    Ok(n)
}

// The same, but returns the part of out that was written, from its start; the part is empty on a refusal.
// The contract of `put` says what is left in the rest of out.
#[tactic(auto, using(crate::proofs::Outs::part_size, crate::proofs::Outs::part_done, crate::proofs::Outs::part_refused))]
pub fn write<'a, 'b>(matrix: LentMatrix<'b>, out: &'a mut [u8]) -> &'a mut [u8]
    ensures start { result.ref_ptr ≡ out.entry.ref_ptr }
    ensures part { result.now ≡ front_of
        matrix.entry.rows matrix.entry.columns matrix.entry.lowers.now matrix.entry.uppers.now
        (write_of matrix.entry.rows matrix.entry.columns matrix.entry.lowers.now matrix.entry.uppers.now (length out.old)) }
{
    let n = put(matrix, out).unwrap_or(0);
    &mut out[..n]
}
