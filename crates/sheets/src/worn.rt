// A cell that is read, with its wear amount: checked, and its bounds moved outward.
ghost use Rattle.std.specs.Prelude.{◌≡◌};
ghost use Rattle.refusals.specs.Answer.{done, then};
ghost use Rattle.sheets.specs.Cell.{worn_fault, widened_of};

use crate::cell::widen;
use binary32::finite::is_finite;
use binary32::order::{at_most, magnitude};
use intervals::check;
use refusals::reason::Reason;

// The fault of a cell that is read: NotFinite, a bound or the amount is not a number; Crossed, the lower bound is above the upper.
#[tactic(auto, unfolding(crate::specs::Cell::worn_fault))]
fn worn_fault(lower: u32, upper: u32, amount: u32) -> Result<(), Reason>
    ensures { result ≡ worn_fault lower upper amount }
{
    if !is_finite(amount) {
        return Err(Reason::NotFinite);
    }
    check(lower, upper)
}

// The cell widened by this amount: lower bound less amount, rounded down, and upper bound plus amount, rounded up. Refused for its fault,
// or where it is then too large.
#[tactic(auto, using(crate::proofs::Bounding::worn_tells), unfolding(crate::specs::Cell::widened_of))]
pub fn widened(lower: u32, upper: u32, amount: u32) -> Result<(u32, u32), Reason>
    ensures { result ≡ widened_of lower upper amount }
{
    worn_fault(lower, upper, amount)?;
    widen(lower, upper, amount)
}

// The pattern of 2^127. A sum of two numbers below it is at most the largest number.
const HALF: u32 = 0x7F00_0000;

// Why such a cell is refused, without its widened bounds. Nothing is worked out where amount and bounds are below 2^127 in magnitude.
pub fn check_worn(lower: u32, upper: u32, amount: u32) -> Result<(), Reason>
    ensures { result ≡ then (widened_of lower upper amount) done }
{
    if amount < HALF
        && magnitude(lower) < HALF
        && magnitude(upper) < HALF
        && at_most(lower, upper)
    {
        return Ok(());
    }
    widened(lower, upper, amount)?;
    Ok(())
}
