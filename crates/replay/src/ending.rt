// The machine's completions, one after another, out of a run's counts.
ghost use Rattle.std.specs.Prelude.{◌≡◌, length};
ghost use Rattle.scope.specs.Jobs.{jobs_of};
ghost use Rattle.replay.specs.Ending.{next_end, sooner_than, nearer_of, completion_in, told_seen};

use crate::counted::Counted;
use jobs::job::job_at;

// The instant after a job's last work, and its task.
#[derive(Clone, Copy, Debug, PartialEq, Eq)]
pub struct Completion {
    pub instant: u32,
    pub task: u32,
}

// Whether an instant is sooner than the best so far; where there is none, whether it is no later than the last.
fn sooner(best: Option<Completion>, finish: u64, last: u32) -> bool
    ensures { result ≡ sooner_than (told_seen best) finish last }
{
    match best {
        None => finish <= u64::from(last),
        Some(b) => finish < u64::from(b.instant),
    }
}

// A job of this task, which is complete at instant `finish` if its count is not 0, in place of the best so far if it is sooner.
#[tactic(auto, using(crate::proofs::EndingLaws::nearer_none, crate::proofs::EndingLaws::nearer_before, crate::proofs::EndingLaws::nearer_late, crate::proofs::EndingLaws::nearer_is))]
fn nearer(
    best: Option<Completion>,
    task: u32,
    count: u32,
    finish: u64,
    after: u32,
    last: u32,
) -> Option<Completion>
    ensures { told_seen result ≡ nearer_of (told_seen best) task count finish after last }
{
    if count == 0 || finish <= u64::from(after) || !sooner(best, finish, last) {
        return best;
    }
    Some(Completion {
        instant: finish as u32,
        task,
    })
}

impl Counted<'_> {
    // The machine's first completion after one instant and no later than another.
    pub(crate) fn completion_after(self, after: u32, last: u32) -> Option<Completion>
        ensures { told_seen result ≡ completion_in (jobs_of self.entry.jobs.now) self.entry.counts.now
            (next_end (jobs_of self.entry.jobs.now) self.entry.counts.now after last (length (jobs_of self.entry.jobs.now))) }
    {
        let mut best = None;
        for j in 0..self.jobs.len() / 3 {
            let job = job_at(self.jobs, j);
            let count = self.counts[j];
            let finish = u64::from(job.release) + u64::from(count);
            best = nearer(best, job.task, count, finish, after, last);
        }
        best
    }
}
