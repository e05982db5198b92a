ghost use Rattle.std.specs.Prelude.{◌≡◌};
ghost use Rattle.scope.specs.Limits.{teams};
ghost use Rattle.scope.specs.Answers.{group_fault, ◌or_else◌};
ghost use Rattle.scope.specs.Shared.{shared_fault};
ghost use Rattle.tables.specs.Told.{board_of, fault_of};

use crate::table::{Owned, check_shared};
use tables::answer::Refusal;
use tables::board::Board;
use tables::task::check_tasks;

// Refusals: a table's, then 4 5.
#[tactic(auto, using(tables::proofs::FaultLaws::answered))]
pub fn check_group(board: Board, windows: &[u32], tasks: &[u32]) -> Result<(), Refusal>
    ensures { fault_of result ≡ (shared_fault teams (board_of board) windows.now or_else group_fault tasks.now) }
{
    check_shared(Owned::TEAMS, board, windows)?;
    check_tasks(tasks)
}
