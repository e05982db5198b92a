ghost use Rattle.std.specs.Prelude.{◌≡◌, length};
ghost use Rattle.scope.specs.Shared.{run_for, run_out_for};
ghost use Rattle.tables.specs.Told.{board_of};
ghost use Rattle.machine.specs.Told.{told_ran};

use crate::gather::Gathered;
use machine::run::Ran;
use tables::answer::Refusal;
use tables::board::Board;

// Runs a job list of a group on a table for n ticks: the answer, and one count for each job in the lent buffer. Refusals: a table's, then 4 5 10 11 8.
pub fn run(
    board: Board,
    windows: &[u32],
    numbers: &[u32],
    n: u32,
    jobs: &[u32],
    counts: &mut [u32],
) -> Result<Ran, Refusal>
    ensures answer { told_ran result ≡ run_for (board_of board) windows.now numbers.now
        n jobs.now (length counts.old) }
    ensures buffer { counts.new ≡ run_out_for (board_of board) windows.now numbers.now
        n jobs.now counts.old }
{
    let gathered = Gathered::new(numbers);
    records::run::run(board, windows, gathered.tasks(), n, jobs, counts)
}
