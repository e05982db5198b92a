ghost use Rattle.std.specs.Prelude.{◌≡◌};
ghost use Rattle.scope.specs.Jobs.{jobs_of, job_at};
ghost use Rattle.jobs.specs.Told.{job_of};

// A job: the tick at which it is released, the index of its task, and its work.
#[derive(Clone, Copy, Debug, PartialEq, Eq)]
pub struct Job {
    pub release: u32,
    pub task: u32,
    pub work: u32,
}

// Job j of a list of threes; past the last one the job 0 0 0.
#[tactic(auto, using(theory::specs::Lists::piece_past, theory::specs::Lists::three_at))]
pub fn job_at(jobs: &[u32], j: usize) -> Job
    ensures { job_of result ≡ job_at (jobs_of jobs.now) j }
{
    if jobs.len() / 3 <= j {
        return Job {
            release: 0,
            task: 0,
            work: 0,
        };
    }
    let release = jobs[3 * j];
    let task = jobs[3 * j + 1];
    let work = jobs[3 * j + 2];
    Job {
        release,
        task,
        work,
    }
}
