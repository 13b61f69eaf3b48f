// The first part of the input: the digit of the method.
ghost use Rattle.std.specs.Prelude.{◌≡◌};
ghost use Rattle.print_product.specs.Input.{method_in};

// The method: the value of the first byte as a digit; 0, which is no method, where that is no digit or the input is empty. (A number: each digit is
// printed or refused by the job.)
#[tactic(auto, unfolding(crate::specs::Input::digit_value))]
pub fn method(input: &[u8]) -> u8
    ensures { result ≡ method_in input.now }
{
    match input.first() {
        Some(b) if b.is_ascii_digit() => *b - b'0',
        _ => 0,
    }
}
