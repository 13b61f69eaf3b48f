// A pattern split into significand and exponent, and a sign put before a magnitude. Used by exact.rt, funnel.rt and order.rt.
ghost use Rattle.std.specs.Prelude.{◌≡◌};
ghost use Rattle.binary32.specs.Number.{Finite, signed_by};
ghost use Rattle.binary32.specs.Steps.{Decoded};

use crate::Binary32;

// Not the Number of crate unpacked, whose exponent counts from another unit and whose values may be none. sig × 2^exp:
// in units for the number of a pattern, in 2^-149 of a unit for an exact product or sum.
#[derive(Clone, Copy)]
pub struct Parts {
    pub sig: i64,
    pub exp: u32,
}

// m, or -m where `neg` is set.
pub fn with_sign(neg: bool, m: u32) -> i64
    ensures { result ≡ signed_by neg m }
{
    let s = i64::from(m);
    if neg { -s } else { s }
}

// The number of a pattern: its fraction, with the implicit leading bit where the exponent field is not 0, and its exponent.
// (`Finite p` stays a clause: patterns come out of slices as words, here and where `products` and `sheets` ask it.)
pub fn decode(p: u32) -> Parts
    requires { Finite p }
    ensures { Decoded p result }
{
    let t = p % Binary32::SIGN;
    let e = t / Binary32::HIDDEN;
    let f = t % Binary32::HIDDEN;
    let neg = Binary32::SIGN <= p;
    if e == 0 {
        return Parts {
            sig: with_sign(neg, f),
            exp: 0,
        };
    }
    Parts {
        sig: with_sign(neg, f + Binary32::HIDDEN),
        exp: e - 1,
    }
}
