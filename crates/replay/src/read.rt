// A trace's records, one after another. Document 02, request 2.
ghost use Rattle.std.specs.Prelude.{◌≡◌, ◌+◌, min};
ghost use Rattle.scope.specs.Limits.{most_ticks};
ghost use Rattle.scope.specs.Trace.{read_kind, read_record, elapsed as elapsedFrom, goes_before, is_release};
ghost use Rattle.plan.specs.Told.{told_number};
ghost use Rattle.replay.specs.Reading.{told_stamped, record_of, turn_of, stamped_at, start_of, told_passed, passed};

use jobs::check::Run;
use plan::number::{Damaged, Number, read_number};

// What a record says of a job: it is released with its work, or its last work was done before.
#[derive(Clone, Copy)]
pub(crate) enum Event {
    Release { task: u32, work: u32 },
    Completion { task: u32 },
}

// A record at its instant of the run.
#[derive(Clone, Copy)]
pub(crate) struct Record {
    pub(crate) instant: u32,
    pub(crate) event: Event,
}

impl Record {
    pub(crate) fn is_release(self) -> bool
        ensures { result ≡ is_release (record_of self) }
    {
        match self.event {
            Event::Release { .. } => true,
            Event::Completion { .. } => false,
        }
    }

    fn task(self) -> u32
        ensures { result ≡ (record_of self).task }
    {
        match self.event {
            Event::Release { task, .. } => task,
            Event::Completion { task } => task,
        }
    }

    // Records come in this order: by instant, then completions before releases, then by rising task index.
    fn turn(self) -> (u32, bool, u32)
        ensures { result ≡ turn_of (record_of self) }
    {
        (self.instant, self.is_release(), self.task())
    }

    // Whether another may come right after it.
    pub(crate) fn goes_before(self, next: Record) -> bool
        ensures { result ≡ goes_before (record_of self) (record_of next) }
    {
        self.turn() < next.turn()
    }
}

// A record as it is stamped, with the offset after it.
#[derive(Clone, Copy)]
struct Stamped {
    event: Event,
    stamp: u32,
    next: usize,
}

fn read_kind(bytes: &[u8], at: usize) -> Result<Number, Damaged>
    ensures { told_number result ≡ read_kind bytes.now at }
{
    let kind = read_number(bytes, at)?;
    if 1 < kind.value {
        return Err(Damaged { at });
    }
    Ok(kind)
}

// The stamp of an event, at the offset after it.
fn read_stamp(event: Event, bytes: &[u8], at: usize) -> Result<Stamped, Damaged>
    ensures { told_stamped result ≡ stamped_at event bytes.now at }
{
    let stamp = read_number(bytes, at)?;
    Ok(Stamped {
        event,
        stamp: stamp.value,
        next: stamp.next,
    })
}

#[tactic(auto, using(crate::proofs::ReadLaws::kind_fails, crate::proofs::ReadLaws::task_fails, crate::proofs::ReadLaws::work_fails, crate::proofs::ReadLaws::release_is, crate::proofs::ReadLaws::completion_is))]
fn read_record(bytes: &[u8], at: usize) -> Result<Stamped, Damaged>
    ensures { told_stamped result ≡ read_record bytes.now at }
{
    let kind = read_kind(bytes, at)?;
    let task = read_number(bytes, kind.next)?;
    if kind.value == 0 {
        let work = read_number(bytes, task.next)?;
        let release = Event::Release {
            task: task.value,
            work: work.value,
        };
        return read_stamp(release, bytes, work.next);
    }
    read_stamp(Event::Completion { task: task.value }, bytes, task.next)
}

// The ticks from one stamp to the next: the counter goes past its top back to 0.
#[tactic(auto, using(crate::proofs::ReadLaws::wraps))]
fn elapsed(earlier: u32, later: u32) -> u32
    ensures { result ≡ elapsedFrom earlier later }
{
    later.wrapping_sub(earlier)
}

// The instant so many ticks after another, or the first that is too late for every run.
fn later(instant: u32, ticks: u32) -> u32
    ensures { result ≡ min (instant + ticks) most_ticks }
{
    instant.saturating_add(ticks).min(Run::TICKS)
}

// Where a reader stands: the offset of the next record, and the instant and the stamp of the last one.
#[derive(Clone, Copy)]
pub(crate) struct Reader {
    pub(crate) at: usize,
    pub(crate) instant: u32,
    pub(crate) stamp: u32,
}

impl Reader {
    // Before the first record. The counter stands where that record finds it, so that its instant is 0. At 0 where it does not read: then no
    // record is passed, and no stamp is looked at (specs/Reading, `first_stamp_of`).
    #[tactic(auto, unfolding(crate::specs::Reading::start_of, crate::specs::Reading::first_stamp_of))]
    pub(crate) fn new(bytes: &[u8]) -> Reader
        ensures { result ≡ start_of bytes.now }
    {
        let stamp = read_record(bytes, 0).map_or(0, |first| first.stamp);
        Reader {
            at: 0,
            instant: 0,
            stamp,
        }
    }

    // The next record, and the reader after it.
    #[tactic(auto, using(crate::proofs::ReadLaws::read_fails, crate::proofs::ReadLaws::read_goes_on), unfolding(crate::specs::Reading::passed))]
    pub(crate) fn next(self, bytes: &[u8]) -> Result<(Record, Reader), Damaged>
        ensures { told_passed result ≡ passed bytes.now self }
    {
        let read = read_record(bytes, self.at)?;
        let instant = later(self.instant, elapsed(self.stamp, read.stamp));
        let record = Record {
            instant,
            event: read.event,
        };
        let reader = Reader {
            at: read.next,
            instant,
            stamp: read.stamp,
        };
        Ok((record, reader))
    }
}
