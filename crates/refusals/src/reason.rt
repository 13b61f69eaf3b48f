// Why a call was not carried out. The numbers that callers see are those of `number_of`.
ghost use Rattle.std.specs.Prelude.{◌≡◌};
ghost use Rattle.refusals.specs.Reason.{number_of};
ghost use Rattle.refusals.specs.Refusal.{of_matrix};

use crate::Refusal;

// The reasons, with their numbers.
#[derive(Clone, Copy, Debug, PartialEq, Eq, Hash)]
pub enum Reason {
    // A size is not from 1 to 32, two matrices do not fit, or 32 pairs are taken already.
    WrongSize = 1,
    // A slice is shorter than its cells or than a running entry.
    ShortSlice = 2,
    // A bound or a wear amount has exponent field 255.
    NotFinite = 3,
    // A lower bound is above the upper one, or a radius is below zero.
    Crossed = 4,
    // A result is too large for binary32.
    TooLarge = 5,
    // A length, a record count or a kind is wrong, or a byte that must be zero is not.
    WrongLayout = 6,
    // An index is not below the record count, or a cell is outside the matrix.
    Outside = 7,
    // The cells of a chain do not rise by row, then column.
    NotRising = 8,
    // The method is not 1, 3, 4, 5 or 7.
    UnknownMethod = 9,
    // A wear class is above 7.
    UnknownClass = 10,
    // The buffer is shorter than the sheet to be written.
    NoRoom = 11,
    // The number of sheets is not from 1 to 8.
    WrongCount = 12,
    // The first wear amount of a load is not zero, or one is below the one before it.
    WrongLoad = 13,
    // A wear amount is below zero.
    NegativeAmount = 14,
}

impl Reason {
    // The number of this reason, as callers see it: by name, where a From<Reason> for u8 would hide what it gives.
    pub fn number(self) -> u8
        ensures { result ≡ number_of self }
    {
        self as u8
    }
}

// The refusal that names no matrix and no cell.
impl From<Reason> for Refusal {
    ghost from_gives = { λ reason r. r ≡ of_matrix reason 0 };

    fn from(reason: Reason) -> Refusal {
        Refusal::of_matrix(reason, 0)
    }
}
