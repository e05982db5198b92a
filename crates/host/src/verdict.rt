ghost use Rattle.std.specs.Prelude.{◌≡◌};
ghost use Rattle.scope.specs.Shared.{verdict_for};
ghost use Rattle.tables.specs.Told.{board_of, verdict_of};
ghost use Rattle.host.specs.Told.{c_verdict, verdict as told_verdict};

use crate::answer::{Answer, one};
use checker::verdict::verdict;
use tables::answer::Verdict;
use tables::board::Board;

impl From<Verdict> for Answer {
    ghost from_gives = { λ v answer. answer ≡ told_verdict (verdict_of v) };

    fn from(verdict: Verdict) -> Answer {
        match verdict {
            Verdict::Meets { cycle } => one(Answer::MEETS, u64::from(cycle)),
            Verdict::Miss {
                length,
                start,
                demand,
                supply,
            } => Answer {
                code: Answer::MISS,
                a: u64::from(length),
                b: u64::from(start),
                c: demand,
                d: u64::from(supply),
            },
        }
    }
}

// Refusals: a table's, then 4 5 6.
pub fn palikudyom_verdict(board: Board, windows: &[u32], tasks: &[u32]) -> Answer
    ensures { result ≡ c_verdict (verdict_for (board_of board) windows.now tasks.now) }
{
    verdict(board, windows, tasks).into()
}
