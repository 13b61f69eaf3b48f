// Signs, magnitudes and order of patterns. Patterns are compared by their values, so both zeros are equal.
ghost use Rattle.std.specs.Prelude.{◌≡◌};
ghost use Rattle.binary32.specs.Number.{negated};
ghost use Rattle.binary32.specs.Order.{magnitude_of, key_of, at_most, least_of, greatest_of};

use crate::Binary32;
use crate::parts::with_sign;

// The pattern with its sign bit changed.
#[tactic(auto, unfolding(crate::specs::Number::negated))]
pub fn negate(p: u32) -> u32
    ensures { result ≡ negated p }
{
    if p < Binary32::SIGN {
        p + Binary32::SIGN
    } else {
        p - Binary32::SIGN
    }
}

// The pattern with its sign bit cleared.
pub fn magnitude(p: u32) -> u32
    ensures { result ≡ magnitude_of p }
{
    p % Binary32::SIGN
}

// An integer that rises with the value of the pattern, 0 for both zeros.
#[tactic(auto, unfolding(crate::specs::Order::key_of))]
fn key(p: u32) -> i64
    ensures { result ≡ key_of p }
{
    with_sign(Binary32::SIGN <= p, magnitude(p))
}

// Whether the value of a is at most that of b.
#[tactic(auto, using(crate::proofs::Orders::key_order))]
pub fn at_most(a: u32, b: u32) -> bool
    ensures { result ≡ at_most a b }
{
    key(a) <= key(b)
}

// `least` and `greatest` stay two functions of one line each: a common one would take the two results of the test as parameters.

// The pattern with the lesser value; a where the values are equal.
#[tactic(auto, unfolding(crate::specs::Order::least_of))]
pub fn least(a: u32, b: u32) -> u32
    ensures { result ≡ least_of a b }
{
    if at_most(a, b) { a } else { b }
}

// The pattern with the greater value; b where the values are equal.
#[tactic(auto, unfolding(crate::specs::Order::greatest_of))]
pub fn greatest(a: u32, b: u32) -> u32
    ensures { result ≡ greatest_of a b }
{
    if at_most(a, b) { b } else { a }
}
