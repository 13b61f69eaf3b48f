// One pair of cells more for the sums of an entry by method 1, all as patterns: for callers that carry an entry from pair to pair.
ghost use Rattle.std.specs.Prelude.{◌≡◌};
ghost use Rattle.products.specs.Pair.{pair_fault, pair_added};

use crate::apart::Apart;
use crate::sums::Sums;
use binary32::finite::are_finite;
use intervals::check;
use refusals::reason::Reason;

// The fault of a pair and of the sums so far: that of the first cell, then of the second; NotFinite, a sum is not a number.
#[tactic(auto, unfolding(crate::specs::Pair::pair_fault))]
fn pair_fault(lower: u32, upper: u32, al: u32, au: u32, bl: u32, bu: u32) -> Result<(), Reason>
    ensures { result ≡ pair_fault (lower, upper) (al, au) (bl, bu) }
{
    check(al, au)?;
    check(bl, bu)?;
    if are_finite(lower, upper) {
        Ok(())
    } else {
        Err(Reason::NotFinite)
    }
}

// The sums [lower, upper] with the pair of cells [al, au] and [bl, bu] added: the least of the four corner products to the lower sum, all rounded down, and
// the greatest to the upper sum, all rounded up. Refused with NotFinite or Crossed, or with TooLarge where a step is. Six patterns, as a running entry has
// them: a struct would be made for this call alone.
#[tactic(auto, unfolding(crate::specs::Pair::pair_added))]
pub fn add_pair(
    lower: u32,
    upper: u32,
    al: u32,
    au: u32,
    bl: u32,
    bu: u32,
) -> Result<(u32, u32), Reason>
    ensures { result ≡ pair_added (lower, upper) (al, au) (bl, bu) }
{
    pair_fault(lower, upper, al, au, bl, bu)?;
    let Some(s) = Sums::of_bounds(lower, upper).step::<2>(Apart::new(al, au), bl, bu) else {
        return Err(Reason::TooLarge);
    };
    Ok((s.lower(), s.upper()))
}
