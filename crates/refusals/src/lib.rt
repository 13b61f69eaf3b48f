// A refusal: why a call was not carried out (reason.rt), with matrix, row and column. Also the checks of sizes and slice lengths (sizes.rt).
#![tactic(auto)]

ghost use Rattle.std.specs.Prelude.{◌≡◌};
ghost use Rattle.refusals.specs.Refusal.{of_matrix, of_cell, named, code_of};
ghost use Rattle.refusals.specs.Answer.{coded};

pub mod reason;
pub mod sizes;

use reason::Reason;

// The reason; the matrix: 1 A, 2 B, 3 the result, 0 none of them, and in a train the sheet's position, 1 to 8, or 9 for a product or the writing;
// and the row and column of a cell, 0 where no cell is named. The matrix is a number, since in a train it is a position.
#[derive(Clone, Copy)]
pub struct Refusal {
    pub reason: Reason,
    pub matrix: u8,
    pub row: u8,
    pub column: u8,
}

impl Refusal {
    // A refusal that names no cell.
    pub fn of_matrix(reason: Reason, matrix: u8) -> Self
        ensures { result ≡ of_matrix reason matrix }
    {
        Self::of_cell(reason, matrix, 0, 0)
    }

    // A refusal that names a cell.
    pub fn of_cell(reason: Reason, matrix: u8, row: u8, column: u8) -> Self
        ensures { result ≡ of_cell reason matrix row column }
    {
        Refusal {
            reason,
            matrix,
            row,
            column,
        }
    }

    // The same refusal with this matrix number.
    pub fn named(self, matrix: u8) -> Refusal
        ensures { result ≡ named matrix self }
    {
        Refusal { matrix, ..self }
    }

    // As one number: 1,000,000 × the number of the reason + 10,000 × matrix + 100 × row + column.
    pub fn code(self) -> u32
        ensures { result ≡ code_of self }
    {
        1_000_000 * u32::from(self.reason.number())
            + 10_000 * u32::from(self.matrix)
            + 100 * u32::from(self.row)
            + u32::from(self.column)
    }
}

// For a caller in C: 0, or the refusal's code.
pub fn code(answer: Result<(), Refusal>) -> u32
    ensures { result ≡ coded (λ v. 0) answer }
{
    match answer {
        Ok(()) => 0,
        Err(r) => r.code(),
    }
}
