// The methods of a product, and the check of a method's number.
ghost use Rattle.std.specs.Prelude.{◌≡◌};
ghost use Rattle.matrices.specs.Checks.{check_method};
ghost use Rattle.matrices.specs.Methods.{Numbered};

use refusals::Refusal;
use refusals::reason::Reason;

// Method 1 is called classical; the others have their numbers: 3, 4, 5 and 7.
#[derive(Clone, Copy, Debug, PartialEq, Eq)]
pub enum Method {
    Classical,
    Three,
    Four,
    Five,
    Seven,
}

impl TryFrom<u32> for Method {
    type Error = Refusal;

    ghost try_from_gives = { Numbered };

    // Refusal 9 where the number is not 1, 3, 4, 5 or 7.
    #[tactic(auto, unfolding(crate::specs::Methods::method_answer, crate::specs::Checks::method_of))]
    fn try_from(number: u32) -> Result<Self, Refusal> {
        match number {
            1 => Ok(Method::Classical),
            3 => Ok(Method::Three),
            4 => Ok(Method::Four),
            5 => Ok(Method::Five),
            7 => Ok(Method::Seven),
            _ => Err(Refusal::of_matrix(Reason::UnknownMethod, 0)),
        }
    }
}

// Refusal 9 where there is no method with this number.
#[tactic(auto, using(crate::proofs::MethodLaws::checked_method, crate::proofs::MethodLaws::refused_method))]
pub fn check_method(method: u32) -> Result<(), Refusal>
    ensures { result ≡ check_method method }
{
    Method::try_from(method)?;
    Ok(())
}
