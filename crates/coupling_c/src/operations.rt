// The operations of binary32, for callers in C. Each takes two patterns and returns the pattern of the result; or it refuses and returns
// 0x7F800003 (refusal 3, an operand has exponent field 255) or 0x7F800005 (refusal 5, the result is too large for binary32).
ghost use Rattle.std.specs.Prelude.{◌≡◌};
ghost use Rattle.binary32.specs.Operations.{add_down, add_up, add_near, sub_down, sub_up, sub_near};
ghost use Rattle.binary32.specs.Operations.{mul_down, mul_up, mul_near, midpoint_down, midpoint_up, midpoint_near};
ghost use Rattle.coupling.specs.Operations.{pattern_for};

#[unsafe(no_mangle)]
pub extern "C" fn coupling_add_down(a: u32, b: u32) -> u32
    ensures { result ≡ pattern_for (add_down a b) }
{
    coupling::operations::coupling_add_down(a, b)
}

#[unsafe(no_mangle)]
pub extern "C" fn coupling_add_up(a: u32, b: u32) -> u32
    ensures { result ≡ pattern_for (add_up a b) }
{
    coupling::operations::coupling_add_up(a, b)
}

#[unsafe(no_mangle)]
pub extern "C" fn coupling_add_near(a: u32, b: u32) -> u32
    ensures { result ≡ pattern_for (add_near a b) }
{
    coupling::operations::coupling_add_near(a, b)
}

#[unsafe(no_mangle)]
pub extern "C" fn coupling_sub_down(a: u32, b: u32) -> u32
    ensures { result ≡ pattern_for (sub_down a b) }
{
    coupling::operations::coupling_sub_down(a, b)
}

#[unsafe(no_mangle)]
pub extern "C" fn coupling_sub_up(a: u32, b: u32) -> u32
    ensures { result ≡ pattern_for (sub_up a b) }
{
    coupling::operations::coupling_sub_up(a, b)
}

#[unsafe(no_mangle)]
pub extern "C" fn coupling_sub_near(a: u32, b: u32) -> u32
    ensures { result ≡ pattern_for (sub_near a b) }
{
    coupling::operations::coupling_sub_near(a, b)
}

#[unsafe(no_mangle)]
pub extern "C" fn coupling_mul_down(a: u32, b: u32) -> u32
    ensures { result ≡ pattern_for (mul_down a b) }
{
    coupling::operations::coupling_mul_down(a, b)
}

#[unsafe(no_mangle)]
pub extern "C" fn coupling_mul_up(a: u32, b: u32) -> u32
    ensures { result ≡ pattern_for (mul_up a b) }
{
    coupling::operations::coupling_mul_up(a, b)
}

#[unsafe(no_mangle)]
pub extern "C" fn coupling_mul_near(a: u32, b: u32) -> u32
    ensures { result ≡ pattern_for (mul_near a b) }
{
    coupling::operations::coupling_mul_near(a, b)
}

#[unsafe(no_mangle)]
pub extern "C" fn coupling_midpoint_down(a: u32, b: u32) -> u32
    ensures { result ≡ pattern_for (midpoint_down a b) }
{
    coupling::operations::coupling_midpoint_down(a, b)
}

#[unsafe(no_mangle)]
pub extern "C" fn coupling_midpoint_up(a: u32, b: u32) -> u32
    ensures { result ≡ pattern_for (midpoint_up a b) }
{
    coupling::operations::coupling_midpoint_up(a, b)
}

#[unsafe(no_mangle)]
pub extern "C" fn coupling_midpoint_near(a: u32, b: u32) -> u32
    ensures { result ≡ pattern_for (midpoint_near a b) }
{
    coupling::operations::coupling_midpoint_near(a, b)
}
