// The releases of a trace, as a job list for the tick machine.
ghost use Rattle.std.specs.Prelude.{◌≡◌, ◌+◌, ◌*◌, ◌<◌, ◌≤◌, length, take, slice_set};
ghost use Rattle.scope.specs.Trace.{releases};
ghost use Rattle.replay.specs.Rebuilt.{records_of, numbers_of};

use crate::read::Event;
use crate::trace::Trace;

// Job j of a list of numbers.
fn put_job(jobs: &mut [u32], j: usize, release: u32, task: u32, work: u32)
    requires { 3 * j + 2 < length jobs.old }
    ensures { jobs.new ≡ slice_set (slice_set (slice_set jobs.old (3 * j) release) (3 * j + 1) task) (3 * j + 2) work }
{
    let at = 3 * j;
    jobs[at] = release;
    jobs[at + 1] = task;
    jobs[at + 2] = work;
}

// The numbers of the job list, at the front of a buffer that has room for them.
pub(crate) fn rebuild(trace: Trace<'_>, jobs: &mut [u32])
    requires { 3 * length (releases (records_of trace.bytes.now)) ≤ length jobs.old }
    ensures { take (3 * length (releases (records_of trace.entry.bytes.now))) jobs.new
        ≡ numbers_of (releases (records_of trace.entry.bytes.now)) }
{
    let mut j = 0;
    for record in trace.records() {
        if let Event::Release { task, work } = record.event {
            put_job(jobs, j, record.instant, task, work);
            j += 1;
        }
    }
}
