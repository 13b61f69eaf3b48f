// Shifts, products and roundings of 64-bit integers: each function's contract is the exact integer that it returns.
ghost use Rattle.std.specs.Prelude.{◌≡◌, ◌-◌, ◌*◌, ◌^◌, ◌≤◌, ◌<◌, pos, nat_abs, ◌+ℤ◌, ◌*ℤ◌};
ghost use Rattle.std.specs.Int.Signed.{mag, shr_z};
ghost use Rattle.rounding.specs.Quotient.{rem};
ghost use Rattle.binary32.specs.Number.{signed_by};
ghost use Rattle.unpacked.specs.Cuts.{nearest_of};

// How many guard bits a significand gets before it is added: 24 + 36 bits, a carry and the sign fit into 64 bits.
pub const GUARD: u32 = 36;

// A shift by this many places loses all bits of a significand with its guard bits: 0 or -1 remains.
pub const ALL: u32 = 61;

// `with_sign` is in binary32's parts.rt too, for 32 bits: two lines, which a module that all crates see would not make plainer.

// 2^n
fn power(n: u32) -> i64
    requires { n ≤ 62 }
    ensures { result ≡ pos (2 ^ n) }
{
    1 << n
}

// m, or -m where neg is set.
pub fn with_sign(neg: bool, m: u64) -> i64
    requires { m < 2 ^ 62 }
    ensures { result ≡ signed_by neg m }
{
    // No bit is lost: m is below 2^62.
    let s = m as i64;
    if neg { -s } else { s }
}

// s × 2^36: s with its guard bits.
pub fn raised(s: i64) -> i64
    requires { nat_abs s ≤ 2 ^ 24 }
    ensures { result ≡ s *ℤ pos (2 ^ 36) }
{
    s * 0x10_0000_0000
}

// t / 2^n, rounded down, for negative t too: the shift keeps the sign.
pub fn lowered(t: i64, n: u32) -> i64
    requires { n ≤ 63 }
    ensures { result ≡ shr_z t (2 ^ n) }
{
    t >> n
}

// x + y
pub fn added(x: i64, y: i64) -> i64
    requires { (nat_abs x ≤ 2 ^ 61) × (nat_abs y ≤ 2 ^ 62) }
    ensures { result ≡ x +ℤ y }
{
    x + y
}

// w, or -1 - w where w is negative. It has as many bits as w in two's complement, without the sign.
pub fn digits(w: i64) -> u64
    ensures { result ≡ mag w }
{
    if w < 0 { (-1 - w) as u64 } else { w as u64 }
}

// w × 2^z
pub fn widened(w: i64, z: u32) -> i64
    requires { (z ≤ 62) × (nat_abs w * 2 ^ z ≤ 2 ^ 62) }
    ensures { result ≡ w *ℤ pos (2 ^ z) }
{
    w * power(z)
}

// The last bit of c.
fn odd(c: i64) -> i64
    requires { nat_abs c ≤ 2 ^ 61 }
    ensures { result ≡ pos (rem c 2) }
{
    c - lowered(c, 1) * 2
}

// 2^(n - 1) - 1, which is one less than half of 2^n.
fn half(n: u32) -> i64
    requires { (1 ≤ n) × (n ≤ 61) }
    ensures { result ≡ pos (2 ^ (n - 1) - 1) }
{
    power(n - 1) - 1
}

// t / 2^n to nearest, ties to even: floor((t + 2^(n-1) - 1 + last bit of floor(t / 2^n)) / 2^n).
pub fn nearest(t: i64, n: u32) -> i64
    requires { (nat_abs t ≤ 2 ^ 62) × (1 ≤ n) × (n ≤ 61) }
    ensures { result ≡ nearest_of t (2 ^ n) }
{
    lowered(t + half(n) + odd(lowered(t, n)), n)
}

// p × 2
pub fn twice(p: i64) -> i64
    requires { nat_abs p ≤ 2 ^ 48 }
    ensures { result ≡ p *ℤ pos 2 }
{
    p * 2
}

// a × b
pub fn multiplied(a: i64, b: i64) -> i64
    requires { (nat_abs a ≤ 2 ^ 24) × (nat_abs b ≤ 2 ^ 24) }
    ensures { result ≡ a *ℤ b }
{
    a * b
}
