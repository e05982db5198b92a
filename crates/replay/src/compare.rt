// A trace's completions held against the machine's.
ghost use Rattle.std.specs.Prelude.{◌≡◌};
ghost use Rattle.scope.specs.Jobs.{jobs_of};
ghost use Rattle.scope.specs.Replay.{lesser as lesserOf};
ghost use Rattle.replay.specs.Ending.{told_seen};
ghost use Rattle.replay.specs.Compared.{told_compared, differ_in, compared_from};

use crate::counted::Counted;
use crate::ending::Completion;
use crate::read::Event;
use crate::trace::Trace;

// A pair that differs: a side that has ended is none.
#[derive(Clone, Copy)]
pub(crate) struct Difference {
    pub(crate) trace: Option<Completion>,
    pub(crate) machine: Option<Completion>,
}

impl Difference {
    // A completion of the trace held against the machine's next one.
    #[tactic(auto, using(crate::proofs::CompareLaws::pair_same, crate::proofs::CompareLaws::pair_differs))]
    fn between(trace: Option<Completion>, machine: Option<Completion>) -> Option<Difference>
        ensures { told_compared result ≡ differ_in (told_seen trace) (told_seen machine) }
    {
        if trace == machine {
            return None;
        }
        Some(Difference { trace, machine })
    }

    // The lesser instant, or that of the one there is.
    pub(crate) fn instant(self) -> u32
        ensures { result ≡ lesserOf (told_seen self.trace) (told_seen self.machine) }
    {
        match (self.trace, self.machine) {
            (Some(c), Some(m)) => c.instant.min(m.instant),
            (Some(c), None) | (None, Some(c)) => c.instant,
            (None, None) => 0,
        }
    }
}

// The completions of a trace against the machine's, up to the last instant: the first pair that differs, if one does.
pub(crate) fn compare(trace: Trace<'_>, run: Counted<'_>, last: u32) -> Option<Difference>
    ensures { told_compared result ≡ compared_from trace.entry.bytes.now (jobs_of run.entry.jobs.now) run.entry.counts.now last }
{
    let mut after = 0;
    for record in trace.records() {
        if let Event::Completion { task } = record.event {
            let instant = record.instant;
            let here = Some(Completion { instant, task });
            let machine = run.completion_after(after, last);
            if let Some(difference) = Difference::between(here, machine) {
                return Some(difference);
            }
            after = instant;
        }
    }
    Difference::between(None, run.completion_after(after, last))
}
