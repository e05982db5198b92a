// The order of a trace's records, and refusal 11.
ghost use Rattle.std.specs.Prelude.{◌≡◌, length};
ghost use Rattle.scope.specs.Numbers.{first};
ghost use Rattle.scope.specs.Tasks.{tasks_of};
ghost use Rattle.scope.specs.Answers.{Fault.fine, fault_at, group_fault};
ghost use Rattle.scope.specs.Trace.{ticks_of, releases};
ghost use Rattle.scope.specs.Replay.{record_fault};
ghost use Rattle.tables.specs.Told.{fault_of};
ghost use Rattle.replay.specs.Reading.{record_of, record_before};
ghost use Rattle.replay.specs.Rebuilt.{records_of, numbers_of, breaks_by, breaks_at};

use crate::read::Record;
use crate::trace::Trace;
use jobs::check::check_jobs;
use tables::answer::Refusal;

// Whether a record is against the order after the one before it, or is release number `illegal`, where j releases come before it.
fn breaks(previous: Option<Record>, here: Record, j: usize, illegal: Option<usize>) -> bool
    ensures { result ≡ breaks_by (record_before previous) (record_of here) j illegal }
{
    previous.is_some_and(|p| !p.goes_before(here)) || (here.is_release() && illegal == Some(j))
}

// The first record that is against the order, or release number `illegal`, if one of these comes.
fn first_bad(trace: Trace<'_>, illegal: Option<usize>) -> Result<(), Refusal>
    ensures { fault_of result ≡ fault_at 11 (first (breaks_at (records_of trace.entry.bytes.now) illegal) (length (records_of trace.entry.bytes.now))) }
{
    let mut previous = None;
    let mut j = 0;
    for (i, record) in trace.records().enumerate() {
        if breaks(previous, record, j, illegal) {
            return Err(Refusal::Job(i as u64));
        }
        j += usize::from(record.is_release());
        previous = Some(record);
    }
    Ok(())
}

// Refusal 11 at the lowest record: the first that is against the order, or that of the first illegal job.
#[tactic(auto, using(crate::proofs::RecordsLaws::fits_is, crate::proofs::OrderLaws::records_fine, crate::proofs::OrderLaws::records_illegal))]
pub(crate) fn check_records(
    tasks: &[u32],
    n: u32,
    trace: Trace<'_>,
    jobs: &[u32],
) -> Result<(), Refusal>
    requires { (group_fault tasks.now ≡ fine) × (n ≡ ticks_of (records_of trace.bytes.now))
        × (jobs.now ≡ numbers_of (releases (records_of trace.bytes.now))) }
    ensures { fault_of result ≡ record_fault (tasks_of tasks.now) (records_of trace.entry.bytes.now) }
{
    match check_jobs(tasks, n, jobs) {
        Ok(()) => first_bad(trace, None),
        Err(r) => first_bad(trace, Some(r.place() as usize)),
    }
}
