ghost use Rattle.std.specs.Prelude.{◌≡◌};
ghost use Rattle.scope.specs.Shared.{bound_for};
ghost use Rattle.tables.specs.Told.{board_of};
ghost use Rattle.host.specs.Told.{c_bound};

use host::answer::Answer;
use tables::board::Board;

// Refusals: a table's, then 4 5 7.
#[unsafe(no_mangle)]
pub extern "C" fn palikudyom_bound(
    board: Board,
    windows: &[u32],
    tasks: &[u32],
    index: u32,
) -> Answer
    ensures { result ≡ c_bound (bound_for (board_of board) windows.now tasks.now index) }
{
    host::bound::palikudyom_bound(board, windows, tasks, index)
}
