// The running entry for callers in C. Its value is in a lent slice of 11 numbers: the patterns of the lower and the upper bound, the number of pairs taken, and
// the eight wear amounts in force. Each call returns 0; or it refuses, returns 1,000,000 × number of the refusal and leaves the slice as it was.
ghost use Rattle.std.specs.Prelude.{◌≡◌};
ghost use Rattle.refusals.specs.Answer.{coded, done, then};
ghost use Rattle.running.specs.History.{take, exchange};
ghost use Rattle.coupling.specs.RunningValue.{gauged, start_in, take_in, amounts_in, words_after, Begins, GoesOn};

use crate::running_words::{check_room, put, value_in};
use refusals::Refusal;
use running::Running;
use running::cell::Gauged;

// Starts the value.
#[tactic(auto, unfolding(crate::specs::RunningValue::start_in))]
fn start(value: &mut [u32]) -> Result<(), Refusal>
    ensures answer { result ≡ then (start_in value.old) done }
    ensures left { value.new ≡ words_after (start_in value.old) value.old }
{
    check_room(value)?;
    put(Running::new(), value);
    Ok(())
}

// Takes a pair of cells.
#[tactic(auto, unfolding(crate::specs::RunningValue::take_in))]
fn take(value: &mut [u32], a: Gauged, b: Gauged) -> Result<(), Refusal>
    ensures answer { result ≡ then (take_in value.old a b) done }
    ensures left { value.new ≡ words_after (take_in value.old a b) value.old }
{
    check_room(value)?;
    let next = value_in(value).take(a, b)?;
    put(next, value);
    Ok(())
}

// Exchanges the amounts.
#[tactic(auto, unfolding(crate::specs::RunningValue::amounts_in))]
fn exchange(value: &mut [u32], load: &[u8]) -> Result<(), Refusal>
    ensures answer { result ≡ then (amounts_in value.old load.now) done }
    ensures left { value.new ≡ words_after (amounts_in value.old load.now) value.old }
{
    check_room(value)?;
    // Not `?`, and the refusal by its fields: passed on whole, it stays in memory, where it shares bytes with the value, and a call takes 1.5 of this time.
    match value_in(value).exchange(load) {
        Ok(next) => {
            put(next, value);
            Ok(())
        }
        Err(r) => Err(Refusal::of_cell(r.reason, r.matrix, r.row, r.column)),
    }
}

// Begins with [0, 0], no pairs and the fixed wear amounts.
pub fn coupling_running_start(value: &mut [u32]) -> u32
    ensures answer { result ≡ coded (λ _. 0) (start_in value.old) }
    ensures left { value.new ≡ words_after (start_in value.old) value.old }
    ensures begins { Begins value.old value.new }
{
    refusals::code(start(value))
}

// Takes a pair of cells, each with its wear class. The bounds and the number are then those of the entry by method 1 over all pairs taken since the start, each
// widened by the amounts in force when it was taken; the bounds enclose whatever is picked from these cells.
pub fn coupling_running_take(
    value: &mut [u32],
    a_lower: u32,
    a_upper: u32,
    a_class: u32,
    b_lower: u32,
    b_upper: u32,
    b_class: u32,
) -> u32
    ensures answer { result ≡ coded (λ _. 0)
        (take_in value.old (gauged a_lower a_upper a_class) (gauged b_lower b_upper b_class)) }
    ensures left { value.new ≡ words_after
        (take_in value.old (gauged a_lower a_upper a_class) (gauged b_lower b_upper b_class)) value.old }
    ensures goes_on { GoesOn
        (λ h. take h (gauged a_lower a_upper a_class) (gauged b_lower b_upper b_class)) value.old value.new }
{
    let a = Gauged {
        lower: a_lower,
        upper: a_upper,
        class: a_class,
    };
    let b = Gauged {
        lower: b_lower,
        upper: b_upper,
        class: b_class,
    };
    refusals::code(take(value, a, b))
}

// Exchanges the wear amounts for those of a load, 32 bytes, for the pairs that follow.
pub fn coupling_running_amounts(value: &mut [u32], load: &[u8]) -> u32
    ensures answer { result ≡ coded (λ _. 0) (amounts_in value.old load.now) }
    ensures left { value.new ≡ words_after (amounts_in value.old load.now) value.old }
    ensures goes_on { GoesOn (λ h. exchange h load.now) value.old value.new }
{
    refusals::code(exchange(value, load))
}
