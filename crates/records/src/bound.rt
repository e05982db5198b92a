ghost use Rattle.std.specs.Prelude.{◌≡◌};
ghost use Rattle.scope.specs.Shared.{bound_for};
ghost use Rattle.tables.specs.Told.{board_of, told_bound};
ghost use Rattle.records.specs.Numbers.{numbers_of};

use crate::flat::Flat;
use tables::answer::Refusal;
use tables::board::Board;
use tables::task::Task;

// The response bound of task `index` under fixed priority, lower index first. Refusals: a table's, then 4 (only of too many records) 5 7.
pub fn bound(
    board: Board,
    windows: &[u32],
    tasks: &[Task],
    index: u32,
) -> Result<Option<u32>, Refusal>
    ensures { told_bound result ≡ bound_for (board_of board) windows.now (numbers_of tasks.now) index }
{
    let flat = Flat::new(tasks);
    checker::bound::bound(board, windows, flat.numbers(), index)
}
