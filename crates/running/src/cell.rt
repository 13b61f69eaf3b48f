// A cell as it is gauged, with its wear class, and as it is taken: widened.
ghost use Rattle.std.specs.Prelude.{◌≡◌};
ghost use Rattle.running.specs.Gauged.{gauged_of};

use refusals::reason::Reason;
use sheets::wear::LAST_CLASS;
use sheets::worn;

// A cell as it was gauged: its bounds and its wear class. The class is any number: `gauged_of` refuses those above 7.
#[derive(Clone, Copy)]
pub struct Gauged {
    pub lower: u32,
    pub upper: u32,
    pub class: u32,
}

impl Gauged {
    // The bounds, widened by the amount of the cell's class among eight. Refused where the class is above 7, and by the widening.
    #[tactic(auto, unfolding(crate::specs::Gauged::gauged_of))]
    pub fn widened(self, amounts: &[u32; 8]) -> Result<(u32, u32), Reason>
        ensures { result ≡ gauged_of amounts.now self }
    {
        if self.class > LAST_CLASS {
            return Err(Reason::UnknownClass);
        }
        // A cast: `usize` has no `From<u32>`.
        let class = self.class as usize;
        worn::widened(self.lower, self.upper, amounts[class])
    }
}
