// The sheet jobs: two sheets (`run`), or a train of 1 to 8 sheets (`run_train`), are read and multiplied from the left, and the product's sheet is written.
// They work in arrays of 1,024 patterns on the stack. A refusal leaves the out buffer as it was. The method is a number, which refusal 9 is promised for.
#![tactic(auto)]

ghost use Rattle.std.specs.Prelude.{◌≡◌, length};
ghost use Rattle.job.specs.Factor.{in_arrays, Few};
ghost use Rattle.job.specs.Delivery.{written_of, out_of, BackOf};
ghost use Rattle.job.specs.Job.{job_product, job_of, array_after, factor_lowers, factor_uppers};
ghost use Rattle.job.specs.Train.{train_product, train_of};
ghost use Rattle.job.specs.Demand.{JobKeeps};
ghost use Rattle.job.specs.TrainDemand.{TrainKeeps};

use factor::{copy, in_front, read_as, times_sheet};
use matrices::methods::check_method;
use refusals::Refusal;
use refusals::sizes::MOST_CELLS;
use sheets::Sizes;

mod factor;
mod train;

// Checks the method (refusal 9), reads A's sheet, reads B's, and multiplies.
#[tactic(auto, unfolding(crate::specs::Job::job_product))]
fn product_of_two(
    method: u32,
    a: &[u8],
    b: &[u8],
    lo: &mut [u32; MOST_CELLS],
    up: &mut [u32; MOST_CELLS],
) -> Result<Sizes, Refusal>
    ensures { in_arrays result lo.new up.new ≡ job_product method a.now b.now }
{
    check_method(method)?;
    let left = read_as(1, a, lo, up)?;
    times_sheet(method, 3, 2, left, b, lo, up)
}

// Writes the sheet of a product, which stands in lo and up. A refusal by the writer gets this matrix number.
fn deliver(
    matrix: u8,
    product: Result<Sizes, Refusal>,
    lo: &[u32; MOST_CELLS],
    up: &[u32; MOST_CELLS],
    out: &mut [u8],
) -> Result<usize, Refusal>
    requires { Few product }
    ensures answer { result ≡ written_of matrix (in_arrays product lo.now up.now) (length out.old) }
    ensures left { out.new ≡ out_of (in_arrays product lo.now up.now) result out.old }
    ensures back { BackOf (in_arrays product lo.now up.now) result out.new }
{
    let sizes = product?;
    sheets::put(in_front(sizes, lo, up), out).map_err(|r| r.named(matrix))
}

// The product of two sheets: its bounds in the front of lo and up. A refusal leaves both as they were.
pub fn multiply_sheets(
    method: u32,
    a: &[u8],
    b: &[u8],
    lo: &mut [u32; MOST_CELLS],
    up: &mut [u32; MOST_CELLS],
) -> Result<Sizes, Refusal>
    ensures answer { in_arrays result lo.new up.new ≡ job_product method a.now b.now }
    ensures below { lo.new ≡ array_after factor_lowers (job_product method a.now b.now) lo.old }
    ensures above { up.new ≡ array_after factor_uppers (job_product method a.now b.now) up.old }
{
    let mut l = [0u32; MOST_CELLS];
    let mut u = [0u32; MOST_CELLS];
    let sizes = product_of_two(method, a, b, &mut l, &mut u)?;
    let n = sizes.rows * sizes.columns;
    copy(n, &l, lo);
    copy(n, &u, up);
    Ok(sizes)
}

// The sheet job: returns the length of the sheet written, or the refusal. A refusal by the writer names matrix 3.
// The cells of the written sheet enclose the product of any two matrices of fractions whose entries lie in the cells of a and b.
pub fn run(method: u32, a: &[u8], b: &[u8], out: &mut [u8]) -> Result<usize, Refusal>
    ensures answer { result ≡ job_of method a.now b.now (length out.old) }
    ensures left { out.new ≡ out_of (job_product method a.now b.now) result out.old }
    ensures keeps { JobKeeps method a.now b.now result out.new }
{
    let mut lo = [0u32; MOST_CELLS];
    let mut up = [0u32; MOST_CELLS];
    let product = product_of_two(method, a, b, &mut lo, &mut up);
    deliver(3, product, &lo, &up, out)
}

// The same for a train of count sheets back to back, 1 to 8. The matrix of a refusal is the sheet's position, or 9 for a product and the writing.
// The cells of the written sheet enclose the product, from the left, of any matrices of fractions whose entries lie in the cells of the sheets.
pub fn run_train(method: u32, count: u32, sheets: &[u8], out: &mut [u8]) -> Result<usize, Refusal>
    ensures answer { result ≡ train_of method count sheets.now (length out.old) }
    ensures left { out.new ≡ out_of (train_product method count sheets.now) result out.old }
    ensures keeps { TrainKeeps method count sheets.now result out.new }
{
    let mut lo = [0u32; MOST_CELLS];
    let mut up = [0u32; MOST_CELLS];
    let product = train::product(method, count, sheets, &mut lo, &mut up);
    deliver(9, product, &lo, &up, out)
}
