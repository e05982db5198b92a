// A list of numbers that is read k at a time, and room for one.
ghost use Rattle.std.specs.Prelude.{◌≡◌};
ghost use Rattle.scope.specs.Numbers.{bad_count};
ghost use Rattle.scope.specs.Answers.{room_fault};
ghost use Rattle.tables.specs.Told.{fault_of};

use crate::answer::Refusal;

// Whether the numbers are not in pieces of k, or are over `most` pieces. No list but an empty one is in pieces of 0.
#[tactic(auto, using(theory::specs::Lists::whole_count, theory::specs::Lists::left_over_count, theory::specs::Lists::none_count))]
pub fn bad_count(list: &[u32], k: usize, most: usize) -> bool
    ensures { result ≡ bad_count k most list.now }
{
    let numbers = list.len();
    if k == 0 {
        return numbers != 0;
    }
    if numbers % k != 0 {
        return true;
    }
    most < numbers / k
}

// Refusal 8 of a lent buffer that has no room for so many numbers.
pub fn check_room(needed: usize, room: usize) -> Result<(), Refusal>
    ensures { fault_of result ≡ room_fault needed room }
{
    if room < needed {
        return Err(Refusal::Room(needed as u64));
    }
    Ok(())
}
