// A run's jobs with their counts: they are lent once and asked over and over.
ghost use Rattle.std.specs.Prelude.{◌≤◌, length};
ghost use Rattle.scope.specs.Jobs.{jobs_of};

// Jobs, in threes, and a count for each.
#[derive(Clone, Copy)]
pub(crate) struct Counted<'a> {
    pub(crate) jobs: &'a [u32],
    pub(crate) counts: &'a [u32],
    pub(crate) ghost room: { length (jobs_of jobs.now) ≤ length counts.now },
}
