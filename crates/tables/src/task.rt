ghost use Rattle.std.specs.Prelude.{◌≡◌, ◌/◌};
ghost use Rattle.scope.specs.Tasks.{task, tasks_of, task_at, task_legal, task_demand};
ghost use Rattle.scope.specs.Answers.{task_list_fault, task_fault, group_fault, task_answer};
ghost use Rattle.tables.specs.Told.{task_of, fault_of, told_task};

use crate::answer::Refusal;
use crate::board::in_range;
use crate::list::bad_count;

// A task: C is the work, T the period (least distance of releases), D the deadline after release.
#[derive(Clone, Copy, Debug, PartialEq, Eq)]
pub struct Task {
    pub work: u32,
    pub period: u32,
    pub deadline: u32,
}

impl Task {
    // Tasks of a group: 0 to 32.
    pub const MOST: usize = 32;

    // C, T and D: 1 to 1,000,000.
    pub const LARGEST: u32 = 1000000;

    pub fn new(work: u32, period: u32, deadline: u32) -> Result<Task, Refusal>
        ensures { told_task result ≡ task_answer (record { C = work; T = period; D = deadline }) }
    {
        let task = Task {
            work,
            period,
            deadline,
        };
        if task.legal() {
            return Ok(task);
        }
        Err(Refusal::Task(0))
    }

    // Whether the task keeps its rule.
    fn legal(self) -> bool
        ensures { result ≡ task_legal (task_of self) }
    {
        let most = Task::LARGEST;
        let period = self.period;
        let deadline = self.deadline;
        in_range(self.work, most)
            && in_range(period, most)
            && in_range(deadline, most)
            && deadline <= period
    }

    // The demand of a length. Nothing is checked: numbers that are no task's have a demand by the same definition.
    pub fn demand(self, length: u32) -> u64
        ensures { result ≡ task_demand (task_of self) length }
    {
        let deadline = self.deadline;
        let period = self.period;
        let work = self.work;
        if length < deadline {
            return 0;
        }
        let jobs = u64::from(whole_periods(length - deadline, period)) + 1;
        jobs * u64::from(work)
    }
}

// How many periods a length holds: none of a period of no ticks.
fn whole_periods(length: u32, period: u32) -> u32
    ensures { result ≡ length / period }
{
    length.checked_div(period).unwrap_or(0)
}

// Whether three numbers are a task's.
pub fn is_task(work: u32, period: u32, deadline: u32) -> bool
    ensures { result ≡ task_legal (task work period deadline) }
{
    Task::new(work, period, deadline).is_ok()
}

// Task i of a list of threes; past the last one the task 0 0 0. `window_at`, `job_at` and `owned_at` are of the same shape and stay four: each is total and
// promises a definition of its own.
pub fn task_at(tasks: &[u32], i: usize) -> Task
    ensures { task_of result ≡ task_at (tasks_of tasks.now) i }
{
    if i < tasks.len() / 3 {
        let work = tasks[3 * i];
        let period = tasks[3 * i + 1];
        let deadline = tasks[3 * i + 2];
        return Task {
            work,
            period,
            deadline,
        };
    }
    Task {
        work: 0,
        period: 0,
        deadline: 0,
    }
}

// Refusal 4.
pub fn check_task_list(tasks: &[u32]) -> Result<(), Refusal>
    ensures { fault_of result ≡ task_list_fault tasks.now }
{
    if bad_count(tasks, 3, Task::MOST) {
        return Err(Refusal::TaskList);
    }
    Ok(())
}

// Whether the numbers of task i are a task's.
fn is_task_at(tasks: &[u32], i: usize) -> bool
    ensures { result ≡ task_legal (task_at (tasks_of tasks.now) i) }
{
    let task = task_at(tasks, i);
    is_task(task.work, task.period, task.deadline)
}

// Refusal 5, at the lowest index.
fn check_each_task(tasks: &[u32]) -> Result<(), Refusal>
    ensures { fault_of result ≡ task_fault (tasks_of tasks.now) }
{
    match (0..tasks.len() / 3).find(|&i| !is_task_at(tasks, i)) {
        Some(i) => Err(Refusal::Task(i as u64)),
        None => Ok(()),
    }
}

// Refusals 4 and 5.
#[tactic(auto, using(crate::proofs::FaultLaws::answered), unfolding(scope::specs::Answers::group_fault))]
pub fn check_tasks(tasks: &[u32]) -> Result<(), Refusal>
    ensures { fault_of result ≡ group_fault tasks.now }
{
    check_task_list(tasks)?;
    check_each_task(tasks)
}
