// The fixed table of wear amounts: how far both bounds of a cell of each class are moved outward when it is read.
ghost use Rattle.std.specs.Prelude.{◌≡◌, ℕ, ◌<◌, pos};
ghost use Rattle.binary32.specs.Number.{value_of};
ghost use Rattle.sheets.specs.Wear.{units_of, fixed_amounts, amount_in};

// The highest wear class.
pub const LAST_CLASS: u32 = 7;

// The patterns of the amounts: 0 for class 0, 2^(c - 11) for class c from 1 to 7.
const WEAR: [u32; 8] = [
    0,
    0x3A80_0000,
    0x3B00_0000,
    0x3B80_0000,
    0x3C00_0000,
    0x3C80_0000,
    0x3D00_0000,
    0x3D80_0000,
];

// The eight amounts.
#[tactic(auto, using(crate::proofs::Amounts::table_is, crate::proofs::Amounts::amount_right))]
pub fn fixed() -> [u32; 8]
    ensures { (result ≡ fixed_amounts) × ((c : ℕ) → c < 8 → value_of (amount_in result c) ≡ pos (units_of c)) }
{
    WEAR
}
