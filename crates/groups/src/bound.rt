ghost use Rattle.std.specs.Prelude.{◌≡◌};
ghost use Rattle.scope.specs.Shared.{bound_for};
ghost use Rattle.tables.specs.Told.{board_of, told_bound};

use crate::gather::Gathered;
use tables::answer::Refusal;
use tables::board::Board;

// The response bound of task `index` under fixed priority, lower index first. Refusals: a table's, then 4 5 7.
pub fn bound(
    board: Board,
    windows: &[u32],
    numbers: &[u32],
    index: u32,
) -> Result<Option<u32>, Refusal>
    ensures { told_bound result ≡ bound_for (board_of board) windows.now numbers.now index }
{
    let gathered = Gathered::new(numbers);
    records::bound::bound(board, windows, gathered.tasks(), index)
}
