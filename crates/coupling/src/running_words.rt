// The value of a running entry in a lent slice: its first 11 numbers, which the functions for C (running_value.rt) read and write.
ghost use Rattle.std.specs.Prelude.{◌≡◌, ◌++◌, ◌≤◌, leb, OnOk, length, drop};
ghost use Rattle.refusals.specs.declared.reason.Reason.TheVariants.{ShortSlice};
ghost use Rattle.refusals.specs.Refusal.{of_matrix};
ghost use Rattle.refusals.specs.Answer.{unless};
ghost use Rattle.coupling.specs.RunningValue.{words_of, value_in};

use refusals::Refusal;
use refusals::reason::Reason;
use running::Running;

// How many numbers a value has.
pub const WORDS: usize = 11;

// Refusal 2 for a slice that is too short for a value.
pub fn check_room(words: &[u32]) -> Result<(), Refusal>
    ensures value { result ≡ unless (leb 11 (length words.now)) (of_matrix ShortSlice 0) }
    ensures room { OnOk result (11 ≤ length words.now) }
{
    if words.len() < WORDS {
        return Err(Refusal::of_matrix(Reason::ShortSlice, 0));
    }
    Ok(())
}

// The value in the front of a slice, number by number, as its definition has it: no From, which takes no slice that may be too short.
pub fn value_in(words: &[u32]) -> Running
    requires { 11 ≤ length words.now }
    ensures { result ≡ value_in words.now }
{
    Running {
        lower: words[0],
        upper: words[1],
        pairs: words[2],
        amounts: [
            words[3], words[4], words[5], words[6], words[7], words[8], words[9], words[10],
        ],
    }
}

// The numbers of a value, as `value_in` reads them.
fn words_of(v: Running) -> [u32; WORDS]
    ensures { result ≡ words_of v }
{
    let a = v.amounts;
    [
        v.lower, v.upper, v.pairs, a[0], a[1], a[2], a[3], a[4], a[5], a[6], a[7],
    ]
}

// Puts a value into the front of a slice.
pub fn put(v: Running, words: &mut [u32])
    requires { 11 ≤ length words.old }
    ensures { words.new ≡ words_of v ++ drop 11 words.old }
{
    words[..WORDS].copy_from_slice(&words_of(v));
}
