// A mill's own wear amounts: eight patterns in 32 bytes, which take the place of the fixed table (wear.rt) for one read.
ghost use Rattle.std.specs.Prelude.{◌≡◌, length};
ghost use Rattle.sheets.specs.Load.{patterns_of, all_finite, rising, ascending, amounts_fault, load_of};

use crate::layout::u32_at;
use binary32::finite::is_finite;
use binary32::order::{at_most, magnitude};
use refusals::reason::Reason;
use std::array;

// The eight patterns of a load.
#[tactic(auto, unfolding(crate::specs::Load::patterns_of))]
fn patterns(load: &[u8]) -> [u32; 8]
    requires { length load.now ≡ 32 }
    ensures { result ≡ patterns_of load.now }
{
    array::from_fn(|c| u32_at(load, 4 * c))
}

// Whether each amount is a number.
fn are_finite(amounts: &[u32; 8]) -> bool
    ensures { result ≡ all_finite amounts.now }
{
    amounts.iter().all(|p| is_finite(*p))
}

// Whether none of them is below the one before it.
fn rise(amounts: &[u32; 8]) -> bool
    ensures { result ≡ rising amounts.now }
{
    (0..7).all(|c| at_most(amounts[c], amounts[c + 1]))
}

// Whether the first amount is zero, of either sign, and none is below the one before it.
#[tactic(auto, unfolding(crate::specs::Load::ascending))]
fn ascend(amounts: &[u32; 8]) -> bool
    ensures { result ≡ ascending amounts.now }
{
    magnitude(amounts[0]) == 0 && rise(amounts)
}

// The fault of eight amounts: NotFinite, one has exponent field 255; WrongLoad, the first is not zero or one is below the one before it.
#[tactic(auto, unfolding(crate::specs::Load::amounts_fault))]
fn check(amounts: &[u32; 8]) -> Result<(), Reason>
    ensures { result ≡ amounts_fault amounts.now }
{
    if !are_finite(amounts) {
        return Err(Reason::NotFinite);
    }
    if ascend(amounts) {
        Ok(())
    } else {
        Err(Reason::WrongLoad)
    }
}

// The eight amounts of a load. A length other than 32 is refused before all else.
#[tactic(auto, unfolding(crate::specs::Load::load_fault, crate::specs::Load::load_of))]
pub fn read(bytes: &[u8]) -> Result<[u32; 8], Reason>
    ensures { result ≡ load_of bytes.now }
{
    if bytes.len() != 32 {
        return Err(Reason::WrongLayout);
    }
    let amounts = patterns(bytes);
    check(&amounts)?;
    Ok(amounts)
}
