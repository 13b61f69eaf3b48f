// Sheets back to back: where the first one ends.
ghost use Rattle.std.specs.Prelude.{◌≡◌, ◌≤◌, length};
ghost use Rattle.sheets.specs.Cut.{first_length};

use crate::layout::u16_at;

// The length of the first sheet in s, which others follow: 16 × its record count, or all of s where s is shorter or ends before the count.
#[tactic(auto, unfolding(crate::specs::Cut::first_length))]
pub fn first_length(s: &[u8]) -> usize
    ensures { (result ≡ first_length s.now) × (result ≤ length s.now) }
{
    if s.len() < 6 {
        return s.len();
    }
    s.len().min(16 * usize::from(u16_at(s, 4)))
}
