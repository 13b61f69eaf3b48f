// The matrix of a sheet whose chain passed all checks (chain.rt): each cell of the chain, widened, is put at its position.
ghost use Rattle.std.specs.Prelude.{◌≡◌, ◌+◌, ◌*◌, ◌≤◌, ◌<◌, length};
ghost use Rattle.refusals.specs.Answer.{done};
ghost use Rattle.sheets.specs.Layout.{count_of};
ghost use Rattle.sheets.specs.Amount.{check_wear, wear_amount, cell_amount};
ghost use Rattle.sheets.specs.Cell.{worn_fault};
ghost use Rattle.sheets.specs.Chain.{worn_cell, walk_all};
ghost use Rattle.sheets.specs.Reading.{put_in, cell_lower, cell_upper};

use crate::Sizes;
use crate::amount::Rule;
use crate::cell::widen;
use crate::chain::Cell;
use crate::layout::{Record, record_at};
use refusals::Refusal;

// The cell of a record that passed all checks, widened by its amount.
#[tactic(auto, using(crate::proofs::Bounding::worn_tells), unfolding(crate::specs::Cell::widened_of))]
fn passed(rule: Rule, columns: usize, r: Record) -> Result<Cell, Refusal>
    requires { (columns ≤ 32) × (r.row < 32) × (r.column < 32) × (check_wear rule.kind r ≡ done)
        × (worn_fault r.lower r.upper (wear_amount rule.kind rule.amounts.now r.wear) ≡ done) }
    ensures { result ≡ worn_cell columns r (wear_amount rule.entry.kind rule.entry.amounts.now r.wear) }
{
    let (lower, upper) = widen(r.lower, r.upper, rule.amount(r)).map_err(|reason| Refusal::of_cell(
        reason, 0, r.row, r.column,
    ))?;
    Ok(Cell {
        next: usize::from(r.next),
        position: r.position(columns),
        lower,
        upper,
    })
}

// Puts the cells of the chain at their positions. The loop ends because positions rise; `least` serves only that proof.
pub fn fill(
    rule: Rule,
    s: &[u8],
    sizes: Sizes,
    first: usize,
    lowers: &mut [u32],
    uppers: &mut [u32],
)
    requires { (sizes.rows ≤ 32) × (sizes.columns ≤ 32) × (16 * count_of s.now ≡ length s.now)
        × (sizes.rows * sizes.columns ≤ length lowers.old) × (sizes.rows * sizes.columns ≤ length uppers.old)
        × ((walk_all (cell_amount rule.kind rule.amounts.now) s.now sizes.rows sizes.columns first).verdict ≡ done) }
    ensures { (lowers.new ≡ put_in cell_lower lowers.old
        (walk_all (cell_amount rule.entry.kind rule.entry.amounts.now) s.now sizes.rows sizes.columns first).cells)
        × (uppers.new ≡ put_in cell_upper uppers.old
        (walk_all (cell_amount rule.entry.kind rule.entry.amounts.now) s.now sizes.rows sizes.columns first).cells) }
{
    let mut index = first;
    let mut least = 0;
    // A chain: no sequence to go over.
    while index != 0 {
        let Ok(c) = passed(rule, sizes.columns, record_at(s, index)) else {
            return;
        };
        let position = c.position;
        lowers[position] = c.lower;
        uppers[position] = c.upper;
        index = c.next;
        least = position + 1;
    }
}
