ghost use Rattle.std.specs.Prelude.{◌≡◌};
ghost use Rattle.scope.specs.Shared.{replay_for};
ghost use Rattle.tables.specs.Told.{board_of};
ghost use Rattle.replay.specs.Ending.{told_seen};
ghost use Rattle.replay.specs.Told.{replayed_of};
ghost use Rattle.host.specs.Told.{difference, replay as told_replay, c_replay};

use crate::answer::{Answer, one, two};
use replay::ending::Completion;
use replay::replay::{Replayed, replay};
use tables::board::Board;

// A difference, by the sides that have not ended.
fn difference_answer(trace: Option<Completion>, machine: Option<Completion>) -> Answer
    ensures { result ≡ difference (told_seen trace) (told_seen machine) }
{
    match (trace, machine) {
        (Some(trace), Some(machine)) => Answer {
            code: Answer::DIFFERS,
            a: u64::from(trace.instant),
            b: u64::from(trace.task),
            c: u64::from(machine.instant),
            d: u64::from(machine.task),
        },
        (None, Some(machine)) => Answer {
            code: Answer::TRACE_ENDED,
            a: 0,
            b: 0,
            c: u64::from(machine.instant),
            d: u64::from(machine.task),
        },
        (Some(trace), None) => two(
            Answer::MACHINE_ENDED,
            u64::from(trace.instant),
            u64::from(trace.task),
        ),
        (None, None) => one(Answer::BOTH_ENDED, 0),
    }
}

impl From<Replayed> for Answer {
    ghost from_gives = { λ r answer. answer ≡ told_replay (replayed_of r) };

    fn from(replayed: Replayed) -> Answer {
        match replayed {
            Replayed::Same => one(Answer::SAME, 0),
            Replayed::Differs { trace, machine } => difference_answer(trace, machine),
            Replayed::Missed { instant, job } => {
                two(Answer::TRACE_MISSED, u64::from(instant), u64::from(job))
            }
        }
    }
}

// A board's trace against the tick machine. Refusals: 9, a table's, then 4 5 10 11; 9 and 11 are about the trace.
pub fn palikudyom_replay(board: Board, windows: &[u32], tasks: &[u32], trace: &[u8]) -> Answer
    ensures { result ≡ c_replay (replay_for (board_of board) windows.now tasks.now trace.now) }
{
    replay(board, windows, tasks, trace).into()
}
