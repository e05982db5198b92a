ghost use Rattle.std.specs.Prelude.{◌≡◌};
ghost use Rattle.scope.specs.Shared.{verdict_for};
ghost use Rattle.tables.specs.Told.{board_of};
ghost use Rattle.host.specs.Told.{c_verdict};

use host::answer::Answer;
use tables::board::Board;

// Refusals: a table's, then 4 5 6.
#[unsafe(no_mangle)]
pub extern "C" fn palikudyom_verdict(board: Board, windows: &[u32], tasks: &[u32]) -> Answer
    ensures { result ≡ c_verdict (verdict_for (board_of board) windows.now tasks.now) }
{
    host::verdict::palikudyom_verdict(board, windows, tasks)
}
