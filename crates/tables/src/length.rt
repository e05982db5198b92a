ghost use Rattle.std.specs.Prelude.{◌≡◌};
ghost use Rattle.scope.specs.Answers.{length_fault, length_answer};
ghost use Rattle.tables.specs.Told.{fault_of, told_length};

use crate::answer::Refusal;

// A length that is asked for.
#[derive(Clone, Copy, Debug, PartialEq, Eq)]
pub struct Length {
    pub ticks: u32,
}

impl Length {
    // An asked length: at most 1,000,000.
    pub const LONGEST: u32 = 1000000;

    pub fn new(ticks: u32) -> Result<Length, Refusal>
        ensures { told_length result ≡ length_answer ticks }
    {
        if Length::LONGEST < ticks {
            return Err(Refusal::Asked);
        }
        Ok(Length { ticks })
    }
}

// Refusal 7 of a length.
#[tactic(auto, using(crate::proofs::FaultLaws::answered), unfolding(scope::specs::Answers::length_answer))]
pub fn check_length(ticks: u32) -> Result<(), Refusal>
    ensures { fault_of result ≡ length_fault ticks }
{
    Length::new(ticks)?;
    Ok(())
}
