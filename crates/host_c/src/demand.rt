ghost use Rattle.std.specs.Prelude.{◌≡◌};
ghost use Rattle.scope.specs.Answers.{demand_answer};
ghost use Rattle.scope.specs.Shared.{margin_for};
ghost use Rattle.tables.specs.Told.{board_of};
ghost use Rattle.host.specs.Told.{c_amount, c_margin};

use host::answer::Answer;
use tables::board::Board;

// Refusals 4 5 7.
#[unsafe(no_mangle)]
pub extern "C" fn palikudyom_demand(tasks: &[u32], length: u32) -> Answer
    ensures { result ≡ c_amount (demand_answer tasks.now length) }
{
    host::demand::palikudyom_demand(tasks, length)
}

// Refusals: a table's, then 4 5 7.
#[unsafe(no_mangle)]
pub extern "C" fn palikudyom_margin(
    board: Board,
    windows: &[u32],
    tasks: &[u32],
    length: u32,
) -> Answer
    ensures { result ≡ c_margin (margin_for (board_of board) windows.now tasks.now length) }
{
    host::demand::palikudyom_margin(board, windows, tasks, length)
}
