// Values that methods 3, 4, 5 and 7 work out once for each cell, from its midpoint m and radius r, before the entries. Called by converted.rt.
ghost use Rattle.std.specs.Prelude.{ℕ, ◌≡◌, ◌≤◌, length};
ghost use Rattle.std.proofs.Math.Option.{bind};
ghost use Rattle.binary32.specs.Number.{value_of, held};
ghost use Rattle.products.specs.Derived.{MidRad, MidRads, MadeOf, outer_of, raised_of, part_of, raised_factor};

use binary32::direction::Up;
use binary32::order::{least, magnitude, negate};
use binary32::{Binary32, partial};

// The patterns of (k + 2) × 2^-24 for k from 0 to 32. Each is exact.
const RAISED: [u32; 33] = [
    0x3400_0000,
    0x3440_0000,
    0x3480_0000,
    0x34A0_0000,
    0x34C0_0000,
    0x34E0_0000,
    0x3500_0000,
    0x3510_0000,
    0x3520_0000,
    0x3530_0000,
    0x3540_0000,
    0x3550_0000,
    0x3560_0000,
    0x3570_0000,
    0x3580_0000,
    0x3588_0000,
    0x3590_0000,
    0x3598_0000,
    0x35A0_0000,
    0x35A8_0000,
    0x35B0_0000,
    0x35B8_0000,
    0x35C0_0000,
    0x35C8_0000,
    0x35D0_0000,
    0x35D8_0000,
    0x35E0_0000,
    0x35E8_0000,
    0x35F0_0000,
    0x35F8_0000,
    0x3600_0000,
    0x3604_0000,
    0x3608_0000,
];

// The pattern of method 3's factor (k + 2) × 2^-24.
pub fn raised(k: usize) -> u32
    requires { k ≤ 32 }
    ensures { held result ≡ raised_factor k }
{
    RAISED[k]
}

// |m| + r, rounded up; infinity where it overflows.
#[tactic(auto, using(crate::proofs::Derivations::outer_held))]
pub fn outer(m: u32, r: u32) -> u32
    requires { MidRad m r }
    ensures { held result ≡ outer_of (value_of m) (value_of r) }
{
    partial::add::<Up>(magnitude(m), r)
}

// Method 3's rB': (c × |m|) + r, each step rounded up; infinity where one overflows.
pub fn raised_radius(c: u32, m: u32, r: u32) -> u32
    requires { MidRad m r }
    ensures { held result ≡ bind (held c) λ f. raised_of f (value_of m) (value_of r) }
{
    partial::add::<Up>(partial::mul::<Up>(c, magnitude(m)), r)
}

// p of methods 5 and 7: sign(m) × min(|m|, r), which is exact.
pub fn part(m: u32, r: u32) -> u32
    requires { MidRad m r }
    ensures { held result ≡ part_of (value_of m) (value_of r) }
{
    let p = least(magnitude(m), r);
    if m < Binary32::SIGN { p } else { negate(p) }
}

// What `of` makes of the first count cells, into the front of out. By index: of a slice that iter_mut writes beside two others nothing is known.
pub fn derive_all<F: Fn(u32, u32) -> u32>(
    of: F,
    count: usize,
    m: &[u32],
    r: &[u32],
    out: &mut [u32],
)
    requires cells { MidRads count m.now r.now × (count ≤ length out.old) }
    requires callable { (x y : ℕ) → MidRad x y → F.pre of x y }
    ensures { MadeOf (F.post of) count m.now r.now out.new }
{
    for c in 0..count {
        out[c] = of(m[c], r[c]);
    }
}
