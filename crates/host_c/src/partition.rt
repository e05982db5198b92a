ghost use Rattle.std.specs.Prelude.{◌≡◌, length};
ghost use Rattle.scope.specs.Shared.{critical_for, critical_out_for, delay_for, outage_for};
ghost use Rattle.tables.specs.Told.{board_of};
ghost use Rattle.host.specs.Told.{c_amount, c_delay};

use host::answer::Answer;
use tables::board::Board;

// How many critical windows, two numbers each in `out`. Refusals: a table's, then 8.
#[unsafe(no_mangle)]
pub extern "C" fn palikudyom_critical(board: Board, windows: &[u32], out: &mut [u32]) -> Answer
    ensures answer { result ≡ c_amount (critical_for (board_of board) windows.now (length out.old)) }
    ensures buffer { out.new ≡ critical_out_for (board_of board) windows.now out.old }
{
    host::partition::palikudyom_critical(board, windows, out)
}

// Refusals: a table's.
#[unsafe(no_mangle)]
pub extern "C" fn palikudyom_delay(board: Board, windows: &[u32]) -> Answer
    ensures { result ≡ c_delay (delay_for (board_of board) windows.now) }
{
    host::partition::palikudyom_delay(board, windows)
}

// Refusals: a table's.
#[unsafe(no_mangle)]
pub extern "C" fn palikudyom_outage(board: Board, windows: &[u32]) -> Answer
    ensures { result ≡ c_amount (outage_for (board_of board) windows.now) }
{
    host::partition::palikudyom_outage(board, windows)
}
