// Replays a board's trace: rebuilds its run, feeds the releases to the tick machine, and names the first difference or the machine's miss.
ghost use Rattle.std.specs.Prelude.{◌≡◌, length};
ghost use Rattle.scope.specs.Limits.{teams};
ghost use Rattle.scope.specs.Answers.{Fault.fine, group_fault};
ghost use Rattle.scope.specs.Trace.{ticks_of, releases};
ghost use Rattle.scope.specs.Replay.{named};
ghost use Rattle.scope.specs.Shared.{shared_fault, records_for, replay_for};
ghost use Rattle.tables.specs.Told.{board_of};
ghost use Rattle.machine.specs.Told.{ran_of};
ghost use Rattle.replay.specs.Rebuilt.{records_of};
ghost use Rattle.replay.specs.Compared.{told_compared, up_to};
ghost use Rattle.replay.specs.Told.{replayed_of, told_replayed};

use crate::compare::{Difference, compare};
use crate::counted::Counted;
use crate::ending::Completion;
use crate::order::check_records;
use crate::rebuild::rebuild;
use crate::survey::{Extent, survey};
use crate::trace::Trace;
use jobs::check::Run;
use machine::run::{Ran, run};
use shared::group::check_group;
use tables::answer::Refusal;
use tables::board::Board;

// What a replay answers. In a difference a side that has ended is none. The job of a miss is its index among the trace's releases.
#[derive(Clone, Copy, Debug, PartialEq, Eq)]
pub enum Replayed {
    Same,
    Differs {
        trace: Option<Completion>,
        machine: Option<Completion>,
    },
    Missed {
        instant: u32,
        job: u32,
    },
}

// A miss up to the last instant, and no later than any difference, is named instead of it.
fn named(ran: Ran, last: u32, difference: Option<Difference>) -> Replayed
    ensures { replayed_of result ≡ named (up_to last (ran_of ran).outcome) (told_compared difference) }
{
    if let Ran::Missed { instant, job, .. } = ran {
        let no_later = difference.is_none_or(|d| instant <= d.instant());
        if instant <= last && no_later {
            return Replayed::Missed { instant, job };
        }
    }
    match difference {
        None => Replayed::Same,
        Some(d) => Replayed::Differs {
            trace: d.trace,
            machine: d.machine,
        },
    }
}

// The replay of a trace that reads and is not too long: its jobs stand in numbers, and the machine runs them where they are legal.
fn replay_fitting(
    board: Board,
    windows: &[u32],
    tasks: &[u32],
    trace: Trace<'_>,
    extent: Extent,
) -> Result<Replayed, Refusal>
    requires { (shared_fault teams (board_of board) windows.now ≡ fine) × (group_fault tasks.now ≡ fine)
        × (extent.ticks ≡ ticks_of (records_of trace.bytes.now))
        × (extent.releases ≡ length (releases (records_of trace.bytes.now))) }
    ensures { told_replayed result ≡ records_for (board_of board) windows.now tasks.now (records_of trace.entry.bytes.now) }
{
    let ticks = extent.ticks;
    let mut room = [0; 3 * Run::JOBS];
    rebuild(trace, &mut room);
    let jobs = &room[..3 * extent.releases];
    check_records(tasks, ticks, trace, jobs)?;
    let mut counts = [0; Run::JOBS];
    let ran = run(board, windows, tasks, ticks, jobs, &mut counts)?;
    // the last record's instant; 0 for an empty trace
    let last = ticks.saturating_sub(1);
    let run = Counted {
        jobs,
        counts: &counts,
    };
    Ok(named(ran, last, compare(trace, run, last)))
}

// Replays a trace, any bytes at all, on the asked owner's windows and a group of tasks. Refusals: 9, a table's, then 4 5 10 11; 11 names the
// record.
pub fn replay(
    board: Board,
    windows: &[u32],
    tasks: &[u32],
    trace: &[u8],
) -> Result<Replayed, Refusal>
    ensures { told_replayed result ≡ replay_for (board_of board) windows.now tasks.now trace.now }
{
    let extent = survey(trace)?;
    check_group(board, windows, tasks)?;
    extent.check()?;
    let trace = Trace { bytes: trace };
    replay_fitting(board, windows, tasks, trace, extent)
}
