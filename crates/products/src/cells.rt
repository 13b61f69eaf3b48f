// The cells of a matrix converted to midpoints and radii, into slices that the caller lent. Used by methods 3, 4, 5 and 7.
ghost use Rattle.std.specs.Prelude.{◌≡◌, ◌≤◌, length};
ghost use Rattle.matrices.specs.Lists.{front};
ghost use Rattle.matrices.specs.Matrix.{of_bounds, AllFine, mid_at, rad_at};

use intervals::to_midrad;

// Writes the midpoints and radii of the first count cells, which have no fault, to the front of mids and rads. By index: of two slices that iter_mut writes
// side by side nothing is known.
pub fn convert(count: usize, lowers: &[u32], uppers: &[u32], mids: &mut [u32], rads: &mut [u32])
    requires { (count ≤ length lowers.now) × (count ≤ length uppers.now)
        × (count ≤ length mids.old) × (count ≤ length rads.old) × AllFine (of_bounds lowers.now uppers.now) count }
    ensures mids_after { mids.new ≡ front count (mid_at (of_bounds lowers.now uppers.now)) mids.old }
    ensures rads_after { rads.new ≡ front count (rad_at (of_bounds lowers.now uppers.now)) rads.old }
{
    for c in 0..count {
        let Ok((m, r)) = to_midrad(lowers[c], uppers[c]) else {
            return;
        };
        mids[c] = m;
        rads[c] = r;
    }
}
