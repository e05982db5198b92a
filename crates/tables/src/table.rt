// A list of windows that was checked: it is lent once and asked over and over.
ghost use Rattle.std.specs.Prelude.{◌≡◌};
ghost use Rattle.scope.specs.Windows.{framed};
ghost use Rattle.theory.specs.Answers.{LegalTable};

use crate::answer::Refusal;
use crate::window::check_table;

// A frame and its windows, in pairs, which keep their rules. How many there are is read off the list, as of tasks.
#[derive(Clone, Copy)]
pub struct Table<'a> {
    pub frame: u32,
    pub windows: &'a [u32],
    pub ghost legal: { LegalTable (framed frame) windows.now },
}

impl<'a> Table<'a> {
    ghost use Rattle.tables.specs.Lent.{told_table, table_answer};

    // Refusals 1 2 3.
    #[tactic(auto, using(crate::proofs::FaultLaws::answered), unfolding(crate::specs::Lent::table_answer))]
    pub fn new(frame: u32, windows: &'a [u32]) -> Result<Table<'a>, Refusal>
        ensures { told_table result ≡ table_answer frame windows.now }
    {
        check_table(frame, windows)?;
        Ok(Table { frame, windows })
    }
}
