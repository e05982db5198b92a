ghost use Rattle.std.specs.Prelude.{◌≡◌, length};
ghost use Rattle.scope.specs.Shared.{run_for, run_out_for};
ghost use Rattle.tables.specs.Told.{board_of};
ghost use Rattle.machine.specs.Told.{told_ran};
ghost use Rattle.records.specs.Numbers.{numbers_of};

use crate::flat::Flat;
use machine::run::Ran;
use tables::answer::Refusal;
use tables::board::Board;
use tables::task::Task;

// Runs a job list of a group on a table for n ticks: the answer, and one count for each job in the lent buffer.
// Refusals: a table's, then 4 (only of too many records) 5 10 11 8.
pub fn run(
    board: Board,
    windows: &[u32],
    tasks: &[Task],
    n: u32,
    jobs: &[u32],
    counts: &mut [u32],
) -> Result<Ran, Refusal>
    ensures answer { told_ran result ≡ run_for (board_of board) windows.now (numbers_of tasks.now)
        n jobs.now (length counts.old) }
    ensures buffer { counts.new ≡ run_out_for (board_of board) windows.now (numbers_of tasks.now)
        n jobs.now counts.old }
{
    let flat = Flat::new(tasks);
    machine::run::run(board, windows, flat.numbers(), n, jobs, counts)
}
