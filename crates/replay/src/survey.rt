// How long a trace is: the first pass over its bytes, and refusals 9 and 10.
ghost use Rattle.std.specs.Prelude.{◌≡◌, ◌||◌, nat_lt};
ghost use Rattle.scope.specs.Limits.{most_ticks, most_jobs};
ghost use Rattle.scope.specs.Answers.{fault_if};
ghost use Rattle.scope.specs.Trace.{trace_of};
ghost use Rattle.tables.specs.Told.{fault_of};
ghost use Rattle.replay.specs.Surveyed.{surveyed, told_extent};

use crate::read::Reader;
use jobs::check::Run;
use plan::number::Damaged;
use tables::answer::Refusal;

// The ticks of the run, no more than one too many, and the number of releases.
#[derive(Clone, Copy)]
pub(crate) struct Extent {
    pub(crate) ticks: u32,
    pub(crate) releases: usize,
}

// It reads, and may find damage; the passes after it go over `records`, which reads no damage.
pub(crate) fn survey(bytes: &[u8]) -> Result<Extent, Damaged>
    ensures { told_extent result ≡ surveyed (trace_of bytes.now) }
{
    let mut reader = Reader::new(bytes);
    let mut ticks = 0;
    let mut releases = 0;
    while reader.at < bytes.len() {
        let (record, after) = reader.next(bytes)?;
        reader = after;
        ticks = record.instant + 1;
        releases += usize::from(record.is_release());
    }
    Ok(Extent { ticks, releases })
}

impl Extent {
    // Refusal 10.
    pub(crate) fn check(self) -> Result<(), Refusal>
        ensures { fault_of result ≡ fault_if (nat_lt most_ticks self.ticks || nat_lt most_jobs self.releases) 10 0 }
    {
        if Run::TICKS < self.ticks || Run::JOBS < self.releases {
            return Err(Refusal::JobList);
        }
        Ok(())
    }
}
