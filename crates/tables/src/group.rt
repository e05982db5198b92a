// A list of tasks that was checked: it is lent once and asked over and over.
ghost use Rattle.theory.specs.Answers.{LegalGroup};

use crate::answer::Refusal;
use crate::task::check_tasks;

// Tasks, in threes, which keep their rules. How many there are is read off the list, `tasks.len() / 3`: the laws of lists speak of that number.
#[derive(Clone, Copy)]
pub struct Group<'a> {
    pub tasks: &'a [u32],
    pub ghost legal: { LegalGroup tasks.now },
}

impl<'a> Group<'a> {
    ghost use Rattle.std.specs.Prelude.{◌≡◌};
    ghost use Rattle.tables.specs.Lent.{told_group, group_answer};

    // Refusals 4 5.
    #[tactic(auto, using(crate::proofs::FaultLaws::answered), unfolding(crate::specs::Lent::group_answer))]
    pub fn new(tasks: &'a [u32]) -> Result<Group<'a>, Refusal>
        ensures { told_group result ≡ group_answer tasks.now }
    {
        check_tasks(tasks)?;
        Ok(Group { tasks })
    }
}
