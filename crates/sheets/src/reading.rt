// Reads a sheet against eight wear amounts: those of the fixed table (wear.rt), or a mill's own (load.rt).
ghost use Rattle.std.specs.Prelude.{◌≡◌, length};
ghost use Rattle.sheets.specs.Reading.{read_by, cell_lower, cell_upper, slice_by};

use crate::amount::Rule;
use crate::chain::follow;
use crate::matrix::fill;
use crate::{Sizes, layout};
use intervals::slices::clear;
use refusals::Refusal;
use refusals::reason::Reason;
use refusals::sizes::check_fit;

// The answer of a read into slices of these lengths. Checks length and head (6), sizes (1), slice lengths (2), then each cell of the chain.
#[tactic(auto, using(crate::proofs::Frames::framed_tells, crate::proofs::Answers::read_fit, crate::proofs::Answers::read_followed))]
fn check(amounts: &[u32; 8], s: &[u8], lowers: usize, uppers: usize) -> Result<Sizes, Refusal>
    ensures { result ≡ read_by amounts.now s.now lowers uppers }
{
    if !layout::is_framed(s) {
        return Err(Refusal::of_matrix(Reason::WrongLayout, 0));
    }
    let rows = usize::from(s[2]);
    let columns = usize::from(s[3]);
    let kind = layout::kind(s);
    check_fit(0, rows, columns, lowers, uppers)?;
    let sizes = Sizes { rows, columns };
    follow(
        Rule { kind, amounts },
        s,
        sizes,
        usize::from(layout::u16_at(s, 0)),
    )?;
    Ok(sizes)
}

// Reads the matrix of a sheet into the front of the two slices; a refusal leaves both as they were.
pub fn read(
    amounts: &[u32; 8],
    s: &[u8],
    lowers: &mut [u32],
    uppers: &mut [u32],
) -> Result<Sizes, Refusal>
    ensures answer { result ≡ read_by amounts.now s.now (length lowers.old) (length uppers.old) }
    ensures below { lowers.new ≡ slice_by amounts.now cell_lower s.now result lowers.old }
    ensures above { uppers.new ≡ slice_by amounts.now cell_upper s.now result uppers.old }
{
    let sizes = check(amounts, s, lowers.len(), uppers.len())?;
    let Sizes { rows, columns } = sizes;
    let kind = layout::kind(s);
    clear(rows * columns, lowers);
    clear(rows * columns, uppers);
    fill(
        Rule { kind, amounts },
        s,
        sizes,
        usize::from(layout::u16_at(s, 0)),
        lowers,
        uppers,
    );
    Ok(sizes)
}
