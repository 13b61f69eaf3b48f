// The two conversions of an interval, for callers in C. Each takes two patterns, writes two and returns 0; or it refuses, returns
// 1,000,000 × number of the refusal and writes nothing.
ghost use Rattle.std.specs.Prelude.{◌≡◌};
ghost use Rattle.refusals.specs.Answer.{coded, unplaced};
ghost use Rattle.intervals.specs.Conversion.{midrad_of, bounds_of};
ghost use Rattle.coupling.specs.Conversions.{first_after, second_after, OptimalWords};

use intervals::{to_bounds, to_midrad};
use refusals::Refusal;
use refusals::reason::Reason;

// Writes the two numbers of an answer, unless it is a refusal. Returns 0 or the refusal's code.
fn put_two(answer: Result<(u32, u32), Reason>, first: &mut u32, second: &mut u32) -> u32
    ensures answer { result ≡ coded (λ _. 0) (unplaced answer) }
    ensures first { first.new ≡ first_after answer first.old }
    ensures second { second.new ≡ second_after answer second.old }
{
    match answer {
        Ok((one, other)) => {
            *first = one;
            *second = other;
            0
        }
        Err(reason) => Refusal::from(reason).code(),
    }
}

// Bounds to midpoint and radius. No pair of binary32 numbers that encloses the range has a smaller radius.
pub fn coupling_to_midrad(lower: u32, upper: u32, mid: &mut u32, rad: &mut u32) -> u32
    ensures answer { result ≡ coded (λ _. 0) (unplaced (midrad_of lower upper)) }
    ensures first { mid.new ≡ first_after (midrad_of lower upper) mid.old }
    ensures second { rad.new ≡ second_after (midrad_of lower upper) rad.old }
    ensures optimal { OptimalWords lower upper (midrad_of lower upper) mid.new rad.new }
{
    put_two(to_midrad(lower, upper), mid, rad)
}

// Midpoint and radius to bounds.
pub fn coupling_to_bounds(mid: u32, rad: u32, lower: &mut u32, upper: &mut u32) -> u32
    ensures answer { result ≡ coded (λ _. 0) (unplaced (bounds_of mid rad)) }
    ensures first { lower.new ≡ first_after (bounds_of mid rad) lower.old }
    ensures second { upper.new ≡ second_after (bounds_of mid rad) upper.old }
{
    put_two(to_bounds(mid, rad), lower, upper)
}
