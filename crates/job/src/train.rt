// A train of couplings: one buffer of 1 to 8 sheets back to back, multiplied from the left. A sheet is read only when its turn comes.
ghost use Rattle.std.specs.Prelude.{◌≡◌, ◌≤◌, ◌-◌, length};
ghost use Rattle.refusals.specs.Sizes.{largest_size};
ghost use Rattle.job.specs.Factor.{in_front, in_arrays};
ghost use Rattle.job.specs.Fold.{fold_from};
ghost use Rattle.job.specs.Train.{most_sheets, check_count, next_length, sheets_in, train_product};

use crate::factor::{read_as, times_sheet};
use matrices::methods::check_method;
use refusals::Refusal;
use refusals::reason::Reason;
use refusals::sizes::MOST_CELLS;
use sheets::Sizes;
use sheets::cut::first_length;

// The most sheets of a train.
const MOST_SHEETS: u32 = 8;

// Refusal 12 where the number of sheets is not from 1 to 8.
#[tactic(auto, unfolding(crate::specs::Train::check_count))]
fn check_count(count: u32) -> Result<(), Refusal>
    ensures { result ≡ check_count count }
{
    if count < 1 || MOST_SHEETS < count {
        return Err(Refusal::of_matrix(Reason::WrongCount, 0));
    }
    Ok(())
}

// The length of the next sheet in s, after which `more` others come. The last sheet is not cut.
#[tactic(auto, unfolding(crate::specs::Train::next_length))]
fn next_length(more: u8, s: &[u8]) -> usize
    ensures { (result ≡ next_length more s.now) × (result ≤ length s.now) }
{
    if more == 0 {
        return s.len();
    }
    first_length(s)
}

// The left factor in lo and up, which is the first sheet's matrix, times the other sheets, which stand in s.
fn times_others(
    method: u32,
    count: u8,
    first: Sizes,
    s: &[u8],
    lo: &mut [u32; MOST_CELLS],
    up: &mut [u32; MOST_CELLS],
) -> Result<Sizes, Refusal>
    requires { (1 ≤ count) × (count ≤ most_sheets) × (first.rows ≤ largest_size) × (first.columns ≤ largest_size) }
    ensures { in_arrays result lo.new up.new
        ≡ fold_from method 9 2 (in_front first.rows first.columns lo.old up.old) (sheets_in (count - 1) s.now) }
{
    let mut rest = s;
    let mut product = first;
    for position in 2..count + 1 {
        let end = next_length(count - position, rest);
        product = times_sheet(method, 9, position, product, &rest[..end], lo, up)?;
        rest = &rest[end..];
    }
    Ok(product)
}

// Checks the method (refusal 9) and the count (12), then multiplies the count sheets in s from the left.
#[tactic(auto, unfolding(crate::specs::Train::train_product))]
pub fn product(
    method: u32,
    count: u32,
    s: &[u8],
    lo: &mut [u32; MOST_CELLS],
    up: &mut [u32; MOST_CELLS],
) -> Result<Sizes, Refusal>
    ensures { in_arrays result lo.new up.new ≡ train_product method count s.now }
{
    check_method(method)?;
    check_count(count)?;
    // From 1 to 8: a TryFrom would need a way out that is never taken.
    let count = count as u8;
    let end = next_length(count - 1, s);
    let first = read_as(1, &s[..end], lo, up)?;
    times_others(method, count, first, &s[end..], lo, up)
}
