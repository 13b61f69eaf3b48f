// The running entry: the range of one bar while its linkages are gauged one after another. It is a value that takes a pair of cells, each with its wear
// class, and comes back with the range by method 1 and the number of pairs taken.
#![tactic(auto)]

ghost use Rattle.std.specs.Prelude.{◌≡◌};
ghost use Rattle.refusals.specs.Answer.{then, done};
ghost use Rattle.running.specs.Value.{new_of, sums_of, take_of, exchange_of, show_of};
ghost use Rattle.running.specs.History.{AnswersAfter, ShowsEntry};

use cell::Gauged;
use products::pair::add_pair;
use refusals::Refusal;
use refusals::reason::Reason;
use refusals::sizes::LARGEST_SIZE;
use sheets::{load, wear};

pub mod cell;

// The lower and the upper sum over the pairs taken, the number of these pairs, and the wear amounts in force, that of class 0 first.
#[derive(Clone, Copy)]
pub struct Running {
    pub lower: u32,
    pub upper: u32,
    pub pairs: u32,
    pub amounts: [u32; 8],
}

// What a value shows: the range so far, and the number of pairs taken.
#[derive(Clone, Copy)]
pub struct Shown {
    pub lower: u32,
    pub upper: u32,
    pub pairs: u32,
}

// The most pairs that a value takes: the largest inner size of a product.
const MOST_PAIRS: u32 = LARGEST_SIZE as u32; // 32; a const takes no TryFrom

impl Running {
    // The value before the first pair: [0, 0], no pairs, and the fixed amounts.
    #[tactic(auto, unfolding(crate::specs::Value::new_of))]
    pub fn new() -> Self
        ensures { result ≡ new_of }
    {
        Running {
            lower: 0,
            upper: 0,
            pairs: 0,
            amounts: wear::fixed(),
        }
    }

    // The sums with a pair of cells added. Refused for a thirty-third pair, then by the first cell, by the second, and by the sums.
    #[tactic(auto, unfolding(crate::specs::Value::sums_of))]
    fn sums(self, a: Gauged, b: Gauged) -> Result<(u32, u32), Reason>
        ensures { result ≡ sums_of self a b }
    {
        if self.pairs >= MOST_PAIRS {
            return Err(Reason::WrongSize);
        }
        let (al, au) = a.widened(&self.amounts)?;
        let (bl, bu) = b.widened(&self.amounts)?;
        add_pair(self.lower, self.upper, al, au, bl, bu)
    }

    // The value with a pair of cells taken. On a refusal the caller still has the value before.
    #[tactic(auto, using(crate::proofs::Calls::sums_room), unfolding(crate::specs::Value::take_of))]
    pub fn take(self, a: Gauged, b: Gauged) -> Result<Running, Refusal>
        ensures answer { result ≡ take_of self a b }
        ensures history { AnswersAfter self a b (then result done) }
    {
        let (lower, upper) = self.sums(a, b)?;
        Ok(Running {
            lower,
            upper,
            pairs: self.pairs + 1,
            ..self
        })
    }

    // The value with its amounts exchanged for those of a load, 32 bytes, for the pairs that follow. Refused with 6, 3 or 13;
    // the caller still has the value before.
    #[tactic(auto, unfolding(crate::specs::Value::exchange_of))]
    pub fn exchange(self, bytes: &[u8]) -> Result<Running, Refusal>
        ensures { result ≡ exchange_of self bytes.now }
    {
        let amounts = load::read(bytes)?;
        Ok(Running { amounts, ..self })
    }

    // The range so far and the number of pairs taken. For a value carried on by these calls from its beginning the range is the entry by method 1 over
    // all pairs taken, each widened by the amounts in force when it was taken, and encloses whatever is picked from them.
    #[tactic(auto, unfolding(crate::specs::Value::show_of))]
    pub fn show(self) -> Shown
        ensures shown { result ≡ show_of self }
        ensures history { ShowsEntry self result }
    {
        Shown {
            lower: self.lower,
            upper: self.upper,
            pairs: self.pairs,
        }
    }
}
