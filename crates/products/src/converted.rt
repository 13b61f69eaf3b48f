// Methods 3, 4, 5 and 7, from midpoints and radii: values that depend on one cell are computed first (derived.rt), then the entries.
// A function for each method, since each works out other arrays; it is not inlined, so that its loops have the registers to themselves. The two slices that
// are written stay parameters, as in lib.rt.
ghost use Rattle.std.specs.Prelude.{◌≡◌, length};
ghost use Rattle.enclosure.specs.Methods.{three, four, five, seven};
ghost use Rattle.matrices.specs.declared.methods.Method.TheVariants.{Classical};
ghost use Rattle.matrices.specs.Methods.{meant};
ghost use Rattle.products.specs.MidRad.{EntriesOf, Fits};

use crate::derived::{derive_all, outer, part, raised, raised_radius};
use crate::entries::entries;
use crate::five::Five;
use crate::four::Four;
use crate::operands::Operands;
use crate::seven::Seven;
use crate::sums::Place;
use crate::three::Three;
use matrices::methods::Method;
use refusals::sizes::MOST_CELLS;

// Method 3: vb has (c × |m|) + r and wb has |m| + r of B's cells.
#[inline(never)]
fn by_three(of: Operands, lo: &mut [u32], up: &mut [u32]) -> Option<Place>
    requires { Fits of (length lo.old) (length up.old) }
    ensures { EntriesOf three of.entry lo.old up.old result lo.new up.new }
{
    let mut vb = [0u32; MOST_CELLS];
    let mut wb = [0u32; MOST_CELLS];
    let c = raised(of.shape.k);
    let cells = of.shape.k * of.shape.n;
    derive_all(|m, r| raised_radius(c, m, r), cells, of.mb, of.rb, &mut vb);
    derive_all(outer, cells, of.mb, of.rb, &mut wb);
    let steps = Three {
        of,
        vb: &vb,
        wb: &wb,
    };
    entries(steps, lo, up)
}

// Method 4: wb has |m| + r of B's cells.
#[inline(never)]
fn by_four(of: Operands, lo: &mut [u32], up: &mut [u32]) -> Option<Place>
    requires { Fits of (length lo.old) (length up.old) }
    ensures { EntriesOf four of.entry lo.old up.old result lo.new up.new }
{
    let mut wb = [0u32; MOST_CELLS];
    derive_all(outer, of.shape.k * of.shape.n, of.mb, of.rb, &mut wb);
    entries(Four { of, wb: &wb }, lo, up)
}

// Method 5: wa and wb have |m| + r of A's and B's cells, pa and pb their parts.
#[inline(never)]
fn by_five(of: Operands, lo: &mut [u32], up: &mut [u32]) -> Option<Place>
    requires { Fits of (length lo.old) (length up.old) }
    ensures { EntriesOf five of.entry lo.old up.old result lo.new up.new }
{
    let mut wa = [0u32; MOST_CELLS];
    let mut pa = [0u32; MOST_CELLS];
    let mut wb = [0u32; MOST_CELLS];
    let mut pb = [0u32; MOST_CELLS];
    let a_cells = of.shape.m * of.shape.k;
    let b_cells = of.shape.k * of.shape.n;
    derive_all(outer, a_cells, of.ma, of.ra, &mut wa);
    derive_all(part, a_cells, of.ma, of.ra, &mut pa);
    derive_all(outer, b_cells, of.mb, of.rb, &mut wb);
    derive_all(part, b_cells, of.mb, of.rb, &mut pb);
    let steps = Five {
        of,
        wa: &wa,
        pa: &pa,
        wb: &wb,
        pb: &pb,
    };
    entries(steps, lo, up)
}

// Method 7: pa and pb have the parts of A's and B's cells, wb has |m| + r of B's.
#[inline(never)]
fn by_seven(of: Operands, lo: &mut [u32], up: &mut [u32]) -> Option<Place>
    requires { Fits of (length lo.old) (length up.old) }
    ensures { EntriesOf seven of.entry lo.old up.old result lo.new up.new }
{
    let mut pa = [0u32; MOST_CELLS];
    let mut wb = [0u32; MOST_CELLS];
    let mut pb = [0u32; MOST_CELLS];
    let b_cells = of.shape.k * of.shape.n;
    derive_all(part, of.shape.m * of.shape.k, of.ma, of.ra, &mut pa);
    derive_all(outer, b_cells, of.mb, of.rb, &mut wb);
    derive_all(part, b_cells, of.mb, of.rb, &mut pb);
    let steps = Seven {
        of,
        pa: &pa,
        wb: &wb,
        pb: &pb,
    };
    entries(steps, lo, up)
}

// Writes the entries by this method, which is not the classical one, by rows until one is refused, and returns its row and column, or None. One match a call:
// closures in the place of the four functions would be named by the same match.
pub fn converted(by: Method, of: Operands, lo: &mut [u32], up: &mut [u32]) -> Option<Place>
    requires { (by ≡ Classical → ⊥) × Fits of (length lo.old) (length up.old) }
    ensures { EntriesOf (meant by) of.entry lo.old up.old result lo.new up.new }
{
    match by {
        Method::Three => by_three(of, lo, up),
        Method::Four => by_four(of, lo, up),
        Method::Five => by_five(of, lo, up),
        _ => by_seven(of, lo, up),
    }
}
