// The wear amount of one cell, by the kind of its sheet.
ghost use Rattle.std.specs.Prelude.{◌≡◌};
ghost use Rattle.refusals.specs.Answer.{done};
ghost use Rattle.sheets.specs.Kind.{byte_of};
ghost use Rattle.sheets.specs.Amount.{below_zero, check_wear, wear_amount};

use crate::layout::Record;
use crate::wear::LAST_CLASS;
use binary32::Binary32;
use binary32::finite::is_finite;
use refusals::Refusal;
use refusals::reason::Reason;

// The kind of a sheet: whether the last four bytes of a cell hold a wear class or the wear amount itself. A match for each record, and neither a trait nor a
// closure: the definitions go by it.
#[derive(Clone, Copy, Debug, PartialEq, Eq)]
pub enum Kind {
    Classes,
    Amounts,
}

impl Kind {
    // Its byte in the head of a sheet: by name, where a From would hide what it gives.
    pub fn byte(self) -> u8
        ensures { result ≡ byte_of self }
    {
        match self {
            Kind::Classes => 0,
            Kind::Amounts => 1,
        }
    }
}

// Whether p is a number below zero.
#[tactic(auto, using(crate::proofs::CellAmounts::not_below, crate::proofs::CellAmounts::below))]
fn is_below_zero(p: u32) -> bool
    ensures { result ≡ below_zero p }
{
    p > Binary32::SIGN && is_finite(p)
}

// The check of a record's wear. In a class sheet: 6, one of bytes 13 to 15 is not zero; 10, the class is above 7. In an amount sheet: 14, the amount is
// below zero.
#[tactic(auto, unfolding(crate::specs::Amount::check_wear))]
pub fn check_wear(kind: Kind, r: Record) -> Result<(), Refusal>
    ensures { result ≡ check_wear kind r }
{
    match kind {
        Kind::Classes => {
            if r.wear <= LAST_CLASS {
                return Ok(());
            }
            if r.wear > 255 {
                return Err(Refusal::of_matrix(Reason::WrongLayout, 0));
            }
            Err(Refusal::of_cell(Reason::UnknownClass, 0, r.row, r.column))
        }
        Kind::Amounts => {
            if is_below_zero(r.wear) {
                return Err(Refusal::of_cell(Reason::NegativeAmount, 0, r.row, r.column));
            }
            Ok(())
        }
    }
}

// What a read holds the wear of a cell against: the kind of the sheet, and the amounts of the eight wear classes.
#[derive(Clone, Copy)]
pub struct Rule<'a> {
    pub kind: Kind,
    pub amounts: &'a [u32; 8],
}

impl<'a> Rule<'a> {
    // The amount of a record whose wear passes: that of its class, or itself.
    #[tactic(auto, using(crate::proofs::CellAmounts::class_tells), unfolding(crate::specs::Amount::wear_amount))]
    pub fn amount(self, r: Record) -> u32
        requires { check_wear self.kind r ≡ done }
        ensures { result ≡ wear_amount self.entry.kind self.entry.amounts.now r.wear }
    {
        match self.kind {
            // A cast: `usize` has no `From<u32>`.
            Kind::Classes => self.amounts[r.wear as usize],
            Kind::Amounts => r.wear,
        }
    }
}
