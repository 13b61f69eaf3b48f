// Products of interval matrices by five methods: 1 (classical), 3, 4, 5 and 7. The result encloses all products of matrices that lie in A and B.
#![tactic(auto)]

ghost use Rattle.std.specs.Prelude.{◌≤◌, length};
ghost use Rattle.matrices.specs.Product.{Leaves};
ghost use Rattle.products.specs.Written.{InReach, Finished};
ghost use Rattle.matrices.specs.Demand.{KeepsCalled};

use cells::convert;
use classical::by_bounds;
use converted::converted;
use entries::Shape;
use intervals::matrix::LentMatrix;
use intervals::slices::clear;
use matrices::check_order::{Lent, check_all};
use matrices::methods::Method;
use operands::Operands;
use refusals::Refusal;
use refusals::reason::Reason;
use sums::Place;

mod apart;
mod cells;
mod centre_size;
mod centred;
mod classical;
mod converted;
mod corners;
mod derived;
mod entries;
mod error;
mod five;
mod four;
mod nearest;
mod number;
mod operands;
pub mod pair;
mod pattern;
mod plus;
mod radius;
mod rounded;
mod row;
mod seven;
mod shifts;
mod short;
mod summands;
mod sums;
mod three;
mod times;

// The end of a product: where an entry was refused, sets all cells of the result to 0 and returns refusal 5 with its row and column. Both are below 32, so
// that `as` loses nothing; a TryFrom would need a way out, and is no plainer.
#[tactic(auto, using(intervals::proofs::Clearing::cleared_front))]
fn finish(place: Option<Place>, count: usize, lo: &mut [u32], up: &mut [u32]) -> Result<(), Refusal>
    requires { (count ≤ length lo.old) × (count ≤ length up.old) × InReach place }
    ensures { Finished place count lo.old up.old result lo.new up.new }
{
    match place {
        None => Ok(()),
        Some(Place { row, column }) => {
            clear(count, lo);
            clear(count, up);
            Err(Refusal::of_cell(Reason::TooLarge, 3, row as u8, column as u8))
        }
    }
}

// A times B by this method: the bounds of the product in lo and up; by methods 3, 4, 5 and 7 also the midpoints and radii of A and B in ma, ra, mb and rb.
// The method is a number: refusal 9 for every other number is promised. The slices that are written stay parameters of their own: of a struct of them,
// the clauses would say `s.entry.ma.now` and `s.exit.ma.now`: no plainer.
pub fn product(
    method: u32,
    a: LentMatrix,
    b: LentMatrix,
    ma: &mut [u32],
    ra: &mut [u32],
    mb: &mut [u32],
    rb: &mut [u32],
    lo: &mut [u32],
    up: &mut [u32],
) -> Result<(), Refusal>
    ensures left { Leaves method a.entry.rows a.entry.columns b.entry.rows b.entry.columns
        a.entry.lowers.now a.entry.uppers.now b.entry.lowers.now b.entry.uppers.now
        ma.old ra.old mb.old rb.old lo.old up.old result
        ma.new ra.new mb.new rb.new lo.new up.new }
    ensures keeps { KeepsCalled method a.entry.rows a.entry.columns b.entry.rows b.entry.columns
        a.entry.lowers.now a.entry.uppers.now b.entry.lowers.now b.entry.uppers.now
        ma.old ra.old mb.old rb.old lo.old up.old
        lo.new up.new }
{
    let by = Method::try_from(method)?;
    let lent = Lent {
        ma: ma.len(),
        ra: ra.len(),
        mb: mb.len(),
        rb: rb.len(),
        lo: lo.len(),
        up: up.len(),
    };
    check_all(method, a, b, lent)?;
    let count = a.rows * b.columns;
    // One match a call.
    match by {
        Method::Classical => finish(by_bounds(&a, &b, lo, up), count, lo, up),
        _ => {
            convert(a.rows * a.columns, a.lowers, a.uppers, ma, ra);
            convert(b.rows * b.columns, b.lowers, b.uppers, mb, rb);
            let of = Operands {
                shape: Shape {
                    m: a.rows,
                    k: a.columns,
                    n: b.columns,
                },
                ma,
                ra,
                mb,
                rb,
            };
            finish(converted(by, of, lo, up), count, lo, up)
        }
    }
}
