ghost use Rattle.std.specs.Prelude.{◌≡◌, ℕ, ◌≤◌, Bool, length};
ghost use Rattle.scope.specs.Numbers.{written};
ghost use Rattle.scope.specs.Windows.{framed, supplied_by};
ghost use Rattle.scope.specs.Tasks.{tasks_of};
ghost use Rattle.scope.specs.Jobs.{jobs_of};
ghost use Rattle.scope.specs.Run.{ran, counts as countsBy};
ghost use Rattle.scope.specs.Answers.{◌or_else◌, group_fault, job_list_fault, job_fault, room_fault};
ghost use Rattle.scope.specs.Shared.{run_for, run_out_for};
ghost use Rattle.tables.specs.Told.{board_of, fault_of};
ghost use Rattle.machine.specs.Told.{ran_of, told_ran};
ghost use Rattle.machine.specs.Rule.{rule};

use crate::course::Course;
use crate::late::late;
use crate::places::Place;
use crate::tick::advance;
use jobs::check::check_jobs;
use shared::table::{Room, own_table};
use tables::answer::Refusal;
use tables::board::Board;
use tables::list::check_room;
use tables::task::Task;

// What a run answers.
#[derive(Clone, Copy, Debug, PartialEq, Eq)]
pub enum Ran {
    Met {
        backlog: u32,
    },
    Missed {
        instant: u32,
        job: u32,
        backlog: u32,
    },
}

// The run of a course under a rule `before`, which is tied to the machine's once: the buffer is cleared, the state is advanced to the run's end,
// and a job that is late there is the miss.
fn run_legal(course: Course<'_, '_, '_>, counts: &mut [u32]) -> Ran
    ghost before: { ℕ → ℕ → Bool }
    requires tied { rule (tasks_of course.tasks.now) (jobs_of course.jobs.now) ≡ before }
    requires room { length (jobs_of course.jobs.now) ≤ length counts.old }
    ensures answer { ran_of result ≡ ran (supplied_by (framed course.entry.table.frame) course.entry.table.windows.now)
        before (tasks_of course.entry.tasks.now) (jobs_of course.entry.jobs.now) course.entry.ticks }
    ensures buffer { counts.new ≡ written (countsBy (supplied_by (framed course.entry.table.frame) course.entry.table.windows.now)
        before (tasks_of course.entry.tasks.now) (jobs_of course.entry.jobs.now) course.entry.ticks) counts.old }
{
    counts[..course.jobs.len() / 3].fill(0);
    let mut places = [Place::NOWHERE; Task::MOST];
    let s = advance(course, &mut places, counts);
    let backlog = s.backlog;
    match late(s.pending, &places, s.instant) {
        None => Ran::Met { backlog },
        Some(job) => Ran::Missed {
            instant: s.instant,
            job,
            backlog,
        },
    }
}

// The checks of a run that come after its table's, in document 01's order: 4 5 10 11 8, where `room` is how many counts the lent buffer has room for.
#[tactic(auto, using(tables::proofs::FaultLaws::passed, theory::specs::Lists::pieces_length, crate::proofs::RunLaws::in_turn_lem))]
fn check_run(tasks: &[u32], n: u32, jobs: &[u32], room: usize) -> Result<(), Refusal>
    ensures { fault_of result ≡ (group_fault tasks.now or_else job_list_fault n jobs.now
        or_else job_fault (tasks_of tasks.now) n (jobs_of jobs.now) or_else room_fault (length (jobs_of jobs.now)) room) }
{
    check_jobs(tasks, n, jobs)?;
    check_room(jobs.len() / 3, room)
}

// Runs a job list of a group on the asked owner's windows of a shared table, as if they were the table (document 02, request 4), for n ticks:
// the answer, and one count for each job in the lent buffer. Refusals: a table's, then 4 5 10 11 8.
pub fn run(
    board: Board,
    windows: &[u32],
    tasks: &[u32],
    n: u32,
    jobs: &[u32],
    counts: &mut [u32],
) -> Result<Ran, Refusal>
    ensures answer { told_ran result ≡ run_for (board_of board) windows.now
        tasks.now n jobs.now (length counts.old) }
    ensures buffer { counts.new ≡ run_out_for (board_of board) windows.now
        tasks.now n jobs.now counts.old }
{
    let mut room = Room::new();
    let table = own_table(board, windows, &mut room)?;
    check_run(tasks, n, jobs, counts.len())?;
    let course = Course {
        table,
        tasks,
        jobs,
        ticks: n,
    };
    Ok(run_legal(course, counts))
}
