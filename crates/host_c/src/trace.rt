ghost use Rattle.std.specs.Prelude.{◌≡◌};
ghost use Rattle.scope.specs.Shared.{replay_for};
ghost use Rattle.tables.specs.Told.{board_of};
ghost use Rattle.host.specs.Told.{c_replay};

use host::answer::Answer;
use tables::board::Board;

// A board's trace against the tick machine. Refusals: 9, a table's, then 4 5 10 11; 9 and 11 are about the trace.
#[unsafe(no_mangle)]
pub extern "C" fn palikudyom_replay(
    board: Board,
    windows: &[u32],
    tasks: &[u32],
    trace: &[u8],
) -> Answer
    ensures { result ≡ c_replay (replay_for (board_of board) windows.now tasks.now trace.now) }
{
    host::trace::palikudyom_replay(board, windows, tasks, trace)
}
