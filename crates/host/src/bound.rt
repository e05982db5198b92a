ghost use Rattle.std.specs.Prelude.{◌≡◌};
ghost use Rattle.scope.specs.Shared.{bound_for};
ghost use Rattle.tables.specs.Told.{board_of, bound_of};
ghost use Rattle.host.specs.Told.{c_bound, response};

use crate::answer::{Answer, one};
use checker::bound::bound;
use tables::board::Board;

impl From<Option<u32>> for Answer {
    ghost from_gives = { λ b answer. answer ≡ response (bound_of b) };

    fn from(bound: Option<u32>) -> Answer {
        match bound {
            Some(t) => one(Answer::BOUND, u64::from(t)),
            None => one(Answer::NO_BOUND, 0),
        }
    }
}

// Refusals: a table's, then 4 5 7.
pub fn palikudyom_bound(board: Board, windows: &[u32], tasks: &[u32], index: u32) -> Answer
    ensures { result ≡ c_bound (bound_for (board_of board) windows.now tasks.now index) }
{
    bound(board, windows, tasks, index).into()
}
