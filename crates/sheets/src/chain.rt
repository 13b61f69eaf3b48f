// Follows the chain of a sheet's cells and checks each record: 7, 8, then 6 and 10 in a class sheet or 14 in an amount sheet, then 3, 4, 5. Writes nothing.
ghost use Rattle.std.specs.Prelude.{◌≡◌, ◌+◌, ◌*◌, ◌≤◌, length};
ghost use Rattle.refusals.specs.Answer.{done, then};
ghost use Rattle.sheets.specs.Layout.{count_of};
ghost use Rattle.sheets.specs.Amount.{cell_amount};
ghost use Rattle.sheets.specs.Chain.{judge_of, walk_all};

use crate::Sizes;
use crate::amount::{Rule, check_wear};
use crate::layout::{Record, record_at};
use crate::worn::check_worn;
use refusals::Refusal;
use refusals::reason::Reason;

// A cell of the chain with its widened bounds. `next` is the index of the next record, `position` is row × columns + column.
#[derive(Clone, Copy)]
pub struct Cell {
    pub next: usize,
    pub position: usize,
    pub lower: u32,
    pub upper: u32,
}

// Checks one record of the chain. Its position must be `least` or more, one past that of the cell before it.
fn judge(rule: Rule, sizes: Sizes, least: usize, r: Record) -> Result<(), Refusal>
    requires { (sizes.rows ≤ 32) × (sizes.columns ≤ 32) }
    ensures { result ≡ then (judge_of (cell_amount rule.entry.kind rule.entry.amounts.now) sizes.rows sizes.columns least r) done }
{
    let Sizes { rows, columns } = sizes;
    let row = usize::from(r.row);
    let column = usize::from(r.column);
    if row >= rows {
        return Err(Refusal::of_matrix(Reason::Outside, 0));
    }
    if column >= columns {
        return Err(Refusal::of_matrix(Reason::Outside, 0));
    }
    let position = r.position(columns);
    if position < least {
        return Err(Refusal::of_matrix(Reason::NotRising, 0));
    }
    check_wear(rule.kind, r)?;
    check_worn(r.lower, r.upper, rule.amount(r)).map_err(|reason| Refusal::of_cell(
        reason, 0, r.row, r.column,
    ))
}

// Checks the whole chain, whose first record has the index `first`. Index 0 ends the chain. (`fill` takes these four too: a struct of them would be made
// once, in reading.rt, and be taken apart at once.)
pub fn follow(rule: Rule, s: &[u8], sizes: Sizes, first: usize) -> Result<(), Refusal>
    requires { (sizes.rows ≤ 32) × (sizes.columns ≤ 32) × (16 * count_of s.now ≡ length s.now) }
    ensures { result ≡ (walk_all (cell_amount rule.entry.kind rule.entry.amounts.now) s.now sizes.rows sizes.columns first).verdict }
{
    let mut index = first;
    let mut least = 0;
    // A chain: no sequence to go over.
    while index != 0 {
        if index >= s.len() / 16 {
            return Err(Refusal::of_matrix(Reason::Outside, 0));
        }
        let r = record_at(s, index);
        judge(rule, sizes, least, r)?;
        index = usize::from(r.next);
        least = r.position(sizes.columns) + 1;
    }
    Ok(())
}
