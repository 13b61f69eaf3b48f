// Rounding to a binary number format as definitions (specs/) and laws (proofs/). Nothing calls the function below: every crate must have one.
#![tactic(auto)]

ghost use Rattle.std.specs.Prelude.{◌≡◌};

pub fn zero() -> u64
    ensures { result ≡ 0 }
{
    0
}
