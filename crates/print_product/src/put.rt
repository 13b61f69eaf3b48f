// Pieces of text, written to the start of a buffer: bytes, and numbers with the byte behind them. Each function returns how many bytes it wrote.
// std's formatting promises its text where it answers Ok alone; `printed` promises it for every input.
ghost use Rattle.std.specs.Prelude.{◌≡◌, [], ◌∷◌, ◌++◌, ◌+◌, ◌≤◌, ◌<◌, length};
ghost use Rattle.print_product.specs.Digits.{digit, digits, digit_count, decimal, hexadecimal};
ghost use Rattle.print_product.specs.Put.{Put};

// The ASCII codes of the hexadecimal digits.
const DIGITS: [u8; 16] = *b"0123456789ABCDEF";

// The bytes of text.
pub fn bytes(out: &mut [u8], text: &[u8]) -> usize
    requires { length text.now ≤ length out.old }
    ensures { Put text.now out.old result out.new }
{
    out[..text.len()].copy_from_slice(text);
    text.len()
}

// The ASCII code of a hexadecimal digit: 0 to 9, then A to F.
#[tactic(auto, unfolding(crate::specs::Digits::digit))]
fn digit(d: usize) -> u8
    requires { d < 16 }
    ensures { result ≡ digit d }
{
    DIGITS[d]
}

// The last count digits of n in this base, then the byte `end`.
fn digits(out: &mut [u8], base: usize, count: usize, n: usize, end: u8) -> usize
    requires { (0 < base) × (base ≤ 16) × (count + 1 ≤ length out.old) }
    ensures { Put (digits base count n ++ (end ∷ [])) out.old result out.new }
{
    out[count] = end;
    let mut rest = n;
    // By index, from the last digit: the invariant is about the digits from i on, and a chain over iter_mut has no i.
    for i in (0..count).rev() {
        out[i] = digit(rest % base);
        rest /= base;
    }
    count + 1
}

// How many decimal digits a number has.
#[tactic(auto, using(crate::proofs::DigitLaws::count_one, crate::proofs::DigitLaws::count_two, crate::proofs::DigitLaws::count_three, crate::proofs::DigitLaws::count_four))]
fn digit_count(n: usize) -> usize
    requires { n < 10000 }
    ensures { result ≡ digit_count n }
{
    match n {
        0..=9 => 1,
        10..=99 => 2,
        100..=999 => 3,
        _ => 4,
    }
}

// n in decimal, then the byte `end`.
pub fn decimal(out: &mut [u8], n: usize, end: u8) -> usize
    requires { (n < 10000) × (digit_count n + 1 ≤ length out.old) }
    ensures { Put (decimal n ++ (end ∷ [])) out.old result out.new }
{
    digits(out, 10, digit_count(n), n, end)
}

// A pattern in eight hexadecimal capitals, then the byte `end`.
pub fn hexadecimal(out: &mut [u8], p: u32, end: u8) -> usize
    requires { 9 ≤ length out.old }
    ensures { Put (hexadecimal p ++ (end ∷ [])) out.old result out.new }
{
    // `usize::from` takes no u32.
    digits(out, 16, 8, p as usize, end)
}
