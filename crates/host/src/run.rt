ghost use Rattle.std.specs.Prelude.{◌≡◌, length};
ghost use Rattle.scope.specs.Shared.{run_for, run_out_for};
ghost use Rattle.tables.specs.Told.{board_of};
ghost use Rattle.machine.specs.Told.{ran_of};
ghost use Rattle.host.specs.Told.{c_ran, ran};

use crate::answer::{Answer, one};
use machine::run::{Ran, run};
use tables::board::Board;

impl From<Ran> for Answer {
    ghost from_gives = { λ r answer. answer ≡ ran (ran_of r) };

    fn from(ran: Ran) -> Answer {
        match ran {
            Ran::Met { backlog } => one(Answer::MET, u64::from(backlog)),
            Ran::Missed {
                instant,
                job,
                backlog,
            } => Answer {
                code: Answer::MISSED,
                a: u64::from(instant),
                b: u64::from(job),
                c: u64::from(backlog),
                d: 0,
            },
        }
    }
}

// Each job's count goes into `counts`. Refusals: a table's, then 4 5 10 11 8.
pub fn palikudyom_run(
    board: Board,
    windows: &[u32],
    tasks: &[u32],
    ticks: u32,
    jobs: &[u32],
    counts: &mut [u32],
) -> Answer
    ensures answer { result ≡ c_ran (run_for (board_of board) windows.now tasks.now
        ticks jobs.now (length counts.old)) }
    ensures buffer { counts.new ≡ run_out_for (board_of board) windows.now tasks.now
        ticks jobs.now counts.old }
{
    run(board, windows, tasks, ticks, jobs, counts).into()
}
