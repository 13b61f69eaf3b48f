// The library's functions, as callers in C get them from coupling_c: the sheet jobs here, sheets and matrix products in cells.rt; the operations, the
// conversions and the running entry in files of their own. What a function takes and returns is numbers and slices, as C can pass them.
#![tactic(auto)]

ghost use Rattle.std.specs.Prelude.{◌≡◌, length};
ghost use Rattle.refusals.specs.Answer.{coded};
ghost use Rattle.job.specs.Delivery.{out_of};
ghost use Rattle.job.specs.Job.{job_product, job_of};
ghost use Rattle.job.specs.Train.{train_product, train_of};
ghost use Rattle.job.specs.Demand.{JobKeeps};
ghost use Rattle.job.specs.TrainDemand.{TrainKeeps};
ghost use Rattle.coupling.specs.Cells.{Short};

use refusals::Refusal;

pub mod cells;
pub mod conversions;
pub mod operations;
pub mod running_value;
mod running_words;

// The answer of a write: the length of the sheet, or the refusal's code.
fn length_code(answer: Result<usize, Refusal>) -> u32
    requires { Short answer }
    ensures { result ≡ coded (λ n. n) answer }
{
    match answer {
        // A length of at most 16,400: a TryFrom would need a way out that is never taken.
        Ok(n) => n as u32,
        Err(r) => r.code(),
    }
}

// Reads the sheets a and b, multiplies them and writes the sheet of the product to the front of out.
// Returns its length, or 1,000,000 × number + 10,000 × matrix + 100 × row + column of the refusal.
// The cells of the written sheet enclose the product of any two matrices of fractions whose entries lie in the cells of a and b.
pub fn coupling_multiply(method: u32, a: &[u8], b: &[u8], out: &mut [u8]) -> u32
    ensures answer { result ≡ coded (λ n. n) (job_of method a.now b.now (length out.old)) }
    ensures left { out.new ≡ out_of (job_product method a.now b.now)
        (job_of method a.now b.now (length out.old)) out.old }
    ensures keeps { JobKeeps method a.now b.now
        (job_of method a.now b.now (length out.old)) out.new }
{
    length_code(job::run(method, a, b, out))
}

// The same for a train: count sheets, 1 to 8, that stand back to back. They are multiplied from the left, and a sheet is read only when its turn comes.
// The cells of the written sheet enclose the product of any matrices of fractions whose entries lie in the cells of the sheets, and each single
// multiplication by method 4 keeps its bound on the width.
pub fn coupling_train(method: u32, count: u32, sheets: &[u8], out: &mut [u8]) -> u32
    ensures answer { result ≡ coded (λ n. n) (train_of method count sheets.now (length out.old)) }
    ensures left { out.new ≡ out_of (train_product method count sheets.now)
        (train_of method count sheets.now (length out.old)) out.old }
    ensures keeps { TrainKeeps method count sheets.now
        (train_of method count sheets.now (length out.old)) out.new }
{
    length_code(job::run_train(method, count, sheets, out))
}
