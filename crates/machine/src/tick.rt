// One whole tick of a run, as document 01 has it: releases, the backlog, work if the tick is supplied, the count of a job that ended, and the miss test.
ghost use Rattle.std.specs.Prelude.{◌≡◌, ◌≤◌, ℕ, length};
ghost use Rattle.std.specs.declared.option.Option.TheVariants.{Some};
ghost use Rattle.scope.specs.Tasks.{tasks_of};
ghost use Rattle.scope.specs.Jobs.{jobs_of};
ghost use Rattle.jobs.specs.Told.{job_of};
ghost use Rattle.machine.specs.State.{whole, next_of, release_at, goes_to_of};
ghost use Rattle.machine.specs.Relation.{Arriving, noted, Noting, Begins, ReadyFor, TickedFor, OverFor};

use crate::course::Course;
use crate::pending::Pending;
use crate::places::{Place, put, serve};
use crate::state::RunState;
use jobs::job::{Job, job_at};
use tables::task::{Task, task_at};

// The next job is released: it takes its task's place.
fn next_job(s: RunState, tasks: &[u32], job: Job, places: &mut [Place; Task::MOST]) -> RunState
    requires { Arriving (tasks_of tasks.now) (job_of job) s }
    ensures { whole result places.new ≡ next_of (tasks_of tasks.now) (job_of job) (whole s places.old) }
{
    let i = job.task;
    let due = job.release + task_at(tasks, i as usize).deadline;
    put(places, i, job.work, due, s.next as u32);
    s.admitted(i, due)
}

// The jobs that are released at the instant.
#[tactic(auto, using(crate::proofs::Releasing::can_arrive, crate::proofs::Releasing::release_yes, crate::proofs::Releasing::release_no, crate::proofs::Releasing::release_end, theory::specs::Lists::pieces_length))]
fn release(s: RunState, course: Course<'_, '_, '_>, places: &mut [Place; Task::MOST]) -> RunState
    requires { s.next ≤ length (jobs_of course.jobs.now) }
    ensures { whole result places.new ≡ release_at (tasks_of course.entry.tasks.now) (jobs_of course.entry.jobs.now) (whole s places.old) }
{
    let mut t = s;
    for j in s.next..course.jobs.len() / 3 {
        let job = job_at(course.jobs, j);
        if job.release != t.instant {
            return t;
        }
        t = next_job(t, course.tasks, job, places);
    }
    t
}

// The task that a tick goes to: none if it is not supplied.
#[tactic(auto, unfolding(crate::specs::State::goes_to_of))]
fn goes_to(on: bool, pending: Pending, places: &[Place; Task::MOST]) -> Option<u32>
    ensures { result ≡ goes_to_of on pending.bits places.now }
{
    if on { pending.earliest(places) } else { None }
}

// The count of job j, which ended at instant k, is written, if there is one.
#[tactic(auto, unfolding(crate::specs::Relation::noted))]
fn note(jobs: &[u32], k: u32, j: Option<u32>, counts: &mut [u32])
    requires { (i : ℕ) → j ≡ Some i → Noting (jobs_of jobs.now) k i counts.old }
    ensures { counts.new ≡ noted (jobs_of jobs.now) k j counts.old }
{
    if let Some(j) = j {
        let x = j as usize;
        counts[x] = k - job_at(jobs, x).release;
    }
}

// The whole tick, on the state by value. Whether it is supplied, the state's cursor tells: one window is looked at, not the whole table.
// Where the cursor goes on is asked for at once, before a buffer is written, so that the window is read once.
fn step(
    s: RunState,
    course: Course<'_, '_, '_>,
    places: &mut [Place; Task::MOST],
    counts: &mut [u32],
) -> RunState
    requires { ReadyFor course s places.old counts.old }
    ensures { TickedFor course.entry s places.old counts.old result places.new counts.new }
{
    let fed = release(s, course, places);
    let counted = fed.counted();
    let cursor = s.cursor;
    let on = cursor.is_on(course.table.windows);
    let next = cursor.next(course.table.frame, course.table.windows);
    let i = goes_to(on, fed.pending, places);
    let done = serve(places, i);
    let worked = counted.worked(i, done, next);
    note(course.jobs, worked.instant, worked.done, counts);
    worked.tested(places)
}

// One state is advanced in place, tick by tick: the thin form over the by-value step. Its one line stays: docs/DECISIONS.md, "One state, in place".
fn tick(
    s: &mut RunState,
    course: Course<'_, '_, '_>,
    places: &mut [Place; Task::MOST],
    counts: &mut [u32],
)
    requires { ReadyFor course s.old places.old counts.old }
    ensures { TickedFor course.entry s.old places.old counts.old s.new places.new counts.new }
{
    *s = step(*s, course, places, counts);
}

// The run up to its end: one state, advanced in place. The end moves at a miss.
pub(crate) fn advance(
    course: Course<'_, '_, '_>,
    places: &mut [Place; Task::MOST],
    counts: &mut [u32],
) -> RunState
    requires { Begins (jobs_of course.jobs.now) counts.old }
    ensures { OverFor course.entry counts.old result places.new counts.new }
{
    let mut s = RunState::new(course.ticks);
    while s.instant < s.end {
        tick(&mut s, course, places, counts);
    }
    s
}
