// Clearing slices of patterns that the caller lent.
ghost use Rattle.std.specs.Prelude.{◌≡◌};
ghost use Rattle.intervals.specs.Slices.{cleared};

// Sets the first count patterns to 0, or all where there are fewer.
#[tactic(auto, unfolding(crate::specs::Slices::cleared))]
pub fn clear(count: usize, out: &mut [u32])
    ensures { out.new ≡ cleared count out.old }
{
    let end = count.min(out.len());
    out[..end].fill(0);
}
