ghost use Rattle.std.specs.Prelude.{◌≡◌};
ghost use Rattle.scope.specs.Shared.{verdict_for};
ghost use Rattle.tables.specs.Told.{board_of, told_verdict};
ghost use Rattle.records.specs.Numbers.{numbers_of};

use crate::flat::Flat;
use tables::answer::{Refusal, Verdict};
use tables::board::Board;
use tables::task::Task;

// Whether the group meets its deadlines under earliest deadline first, or the miss. Refusals: a table's, then 4 (only of too many records) 5 6.
pub fn verdict(board: Board, windows: &[u32], tasks: &[Task]) -> Result<Verdict, Refusal>
    ensures { told_verdict result ≡ verdict_for (board_of board) windows.now (numbers_of tasks.now) }
{
    let flat = Flat::new(tasks);
    checker::verdict::verdict(board, windows, flat.numbers())
}
