ghost use Rattle.std.specs.Prelude.{◌≡◌, length};
ghost use Rattle.scope.specs.Shared.{run_for, run_out_for};
ghost use Rattle.tables.specs.Told.{board_of};
ghost use Rattle.host.specs.Told.{c_ran};

use host::answer::Answer;
use tables::board::Board;

// Each job's count goes into `counts`. Refusals: a table's, then 4 5 10 11 8.
#[unsafe(no_mangle)]
pub extern "C" fn palikudyom_run(
    board: Board,
    windows: &[u32],
    tasks: &[u32],
    ticks: u32,
    jobs: &[u32],
    counts: &mut [u32],
) -> Answer
    ensures answer { result ≡ c_ran (run_for (board_of board) windows.now tasks.now
        ticks jobs.now (length counts.old)) }
    ensures buffer { counts.new ≡ run_out_for (board_of board) windows.now tasks.now
        ticks jobs.now counts.old }
{
    host::run::palikudyom_run(board, windows, tasks, ticks, jobs, counts)
}
