// The two bounds of one cell: checked before they are written; and when they are read, moved outward by a wear amount once they passed all checks (worn.rt).
ghost use Rattle.std.specs.Prelude.{◌≡◌};
ghost use Rattle.binary32.specs.Number.{Finite};
ghost use Rattle.refusals.specs.Answer.{done};
ghost use Rattle.intervals.specs.Conversion.{fault_of, outward_of};
ghost use Rattle.sheets.specs.Cell.{canonical_of, both_zero, handed_of};

use binary32::Binary32;
use intervals::{check, outward};
use refusals::reason::Reason;

// The pattern p, or 0 for minus zero.
#[tactic(auto, using(crate::proofs::Bounding::canonical_minus_zero, crate::proofs::Bounding::canonical_same))]
fn canonical(p: u32) -> u32
    requires { Finite p }
    ensures { result ≡ canonical_of p }
{
    if p == Binary32::SIGN { 0 } else { p }
}

// Whether both patterns are 0.
#[tactic(auto, unfolding(crate::specs::Cell::both_zero))]
fn is_zero(a: u32, b: u32) -> bool
    ensures { result ≡ both_zero a b }
{
    a == 0 && b == 0
}

// Checks a cell that is to be written: None for [0, 0], which gets no record; else its bounds, with minus zero replaced by 0; or its fault.
#[tactic(auto, using(crate::proofs::Bounding::handed_fine, crate::proofs::Bounding::fine_finite, binary32::proofs::Held::finite_is), unfolding(crate::specs::Cell::handed_of))]
pub fn handed(lower: u32, upper: u32) -> Result<Option<(u32, u32)>, Reason>
    ensures { result ≡ handed_of lower upper }
{
    check(lower, upper)?;
    let a = canonical(lower);
    let b = canonical(upper);
    if is_zero(a, b) {
        return Ok(None);
    }
    Ok(Some((a, b)))
}

// A cell without fault, its bounds moved outward by an amount. 0 leaves their values as they are.
#[tactic(auto, using(crate::proofs::Bounding::fine_finite, crate::proofs::Exact::outward_none, crate::proofs::Exact::zero_is, binary32::proofs::Held::finite_is))]
pub fn widen(lower: u32, upper: u32, amount: u32) -> Result<(u32, u32), Reason>
    requires { fault_of lower upper ≡ done }
    ensures { result ≡ outward_of lower upper amount }
{
    if amount == 0 {
        return Ok((canonical(lower), canonical(upper)));
    }
    outward(lower, upper, amount)
}
