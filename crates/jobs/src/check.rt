ghost use Rattle.std.specs.Prelude.{◌≡◌, ◌*◌, ◌≤◌, length};
ghost use Rattle.scope.specs.Limits.{most_tasks, most_ticks, most_jobs};
ghost use Rattle.scope.specs.Tasks.{tasks_of};
ghost use Rattle.scope.specs.Jobs.{jobs_of, in_order, job_legal};
ghost use Rattle.scope.specs.Answers.{◌or_else◌, group_fault, job_list_fault, job_fault, run_ticks_answer};
ghost use Rattle.tables.specs.Told.{fault_of};
ghost use Rattle.jobs.specs.Legal.{FreeTable};
ghost use Rattle.jobs.specs.Told.{told_run};

use crate::job::job_at;
use tables::answer::Refusal;
use tables::group::Group;
use tables::list::bad_count;
use tables::task::{Task, task_at};

// The ticks of a run.
#[derive(Clone, Copy, Debug, PartialEq, Eq)]
pub struct Run {
    pub ticks: u32,
}

impl Run {
    // Ticks of a run: 0 to 1,100,000.
    pub const TICKS: u32 = 1100000;

    // Jobs of a run: 0 to 4,096.
    pub const JOBS: usize = 4096;

    #[tactic(auto, using(tables::proofs::FaultLaws::answered), unfolding(scope::specs::Answers::run_ticks_answer, scope::specs::Answers::job_list_fault, scope::specs::Answers::fault_if, scope::specs::Numbers::bad_count))]
    pub fn new(ticks: u32) -> Result<Run, Refusal>
        ensures { told_run result ≡ run_ticks_answer ticks }
    {
        if Run::TICKS < ticks {
            return Err(Refusal::JobList);
        }
        Ok(Run { ticks })
    }
}

// Refusal 10.
#[tactic(auto, using(tables::proofs::FaultLaws::fault_of_lem, tables::proofs::FaultLaws::none_of, crate::proofs::Legality::bad_list, crate::proofs::Legality::good_list), unfolding(scope::specs::Answers::run_ticks_answer))]
fn check_job_list(n: u32, jobs: &[u32]) -> Result<(), Refusal>
    ensures { fault_of result ≡ job_list_fault n jobs.now }
{
    if bad_count(jobs, 3, Run::JOBS) {
        return Err(Refusal::JobList);
    }
    Run::new(n)?;
    Ok(())
}

// Whether job j comes after the one before it, by tick and then by task.
fn in_order(jobs: &[u32], j: usize) -> bool
    ensures { result ≡ in_order (jobs_of jobs.now) j }
{
    if j == 0 {
        return true;
    }
    let previous = job_at(jobs, j - 1);
    let job = job_at(jobs, j);
    (previous.release, previous.task) < (job.release, job.task)
}

// Whether job j keeps its rule; `free` has the first tick at which each task may be released again. One test a line: the laws go by the test that fails.
#[tactic(auto, using(crate::proofs::Legality::bad_order, crate::proofs::Legality::bad_task_lem, crate::proofs::Legality::bad_none, crate::proofs::Legality::bad_most, crate::proofs::Legality::bad_late, crate::proofs::Legality::by_free, theory::specs::Lists::pieces_length))]
fn job_legal(tasks: &[u32], n: u32, jobs: &[u32], j: usize, free: [u32; Task::MOST]) -> bool
    requires { (length (tasks_of tasks.now) ≤ most_tasks) × FreeTable (tasks_of tasks.now) (jobs_of jobs.now) j free }
    ensures { result ≡ job_legal (tasks_of tasks.now) n (jobs_of jobs.now) j }
{
    let job = job_at(jobs, j);
    if !in_order(jobs, j) {
        return false;
    }
    let i = job.task as usize;
    if tasks.len() / 3 <= i {
        return false;
    }
    if job.work == 0 {
        return false;
    }
    if task_at(tasks, i).work < job.work {
        return false;
    }
    if n <= job.release {
        return false;
    }
    free[i] <= job.release
}

// Refusal 11, at the lowest index.
fn check_each_job(group: Group<'_>, n: u32, jobs: &[u32]) -> Result<(), Refusal>
    requires { (length jobs.now ≤ 3 * most_jobs) × (n ≤ most_ticks) }
    ensures { fault_of result ≡ job_fault (tasks_of group.entry.tasks.now) n (jobs_of jobs.now) }
{
    let mut free = [0; Task::MOST];
    for j in 0..jobs.len() / 3 {
        if !job_legal(group.tasks, n, jobs, j, free) {
            return Err(Refusal::Job(j as u64));
        }
        let job = job_at(jobs, j);
        let i = job.task as usize;
        free[i] = job.release + task_at(group.tasks, i).period;
    }
    Ok(())
}

// The checks of a group's job list for a run of n ticks: 4 5 10 11.
#[tactic(auto, using(tables::proofs::FaultLaws::stopped, tables::proofs::FaultLaws::passed, tables::proofs::FaultLaws::fault_of_lem, tables::proofs::FaultLaws::none_of, theory::specs::Answers::job_list_legal), unfolding(tables::specs::Lent::group_answer))]
pub fn check_jobs(tasks: &[u32], n: u32, jobs: &[u32]) -> Result<(), Refusal>
    ensures { fault_of result ≡ (group_fault tasks.now or_else job_list_fault n jobs.now
        or_else job_fault (tasks_of tasks.now) n (jobs_of jobs.now)) }
{
    let group = Group::new(tasks)?;
    check_job_list(n, jobs)?;
    check_each_job(group, n, jobs)
}
