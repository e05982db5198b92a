ghost use Rattle.std.specs.Prelude.{◌≡◌};
ghost use Rattle.scope.specs.Answers.{demand_answer};
ghost use Rattle.scope.specs.Shared.{margin_for};
ghost use Rattle.tables.specs.Told.{board_of};
ghost use Rattle.host.specs.Told.{signed, c_amount, c_margin};

use crate::answer::{Answer, one};
use checker::demand::{demand, margin};
use tables::answer::magnitude;
use tables::board::Board;

impl From<i64> for Answer {
    ghost from_gives = { λ m answer. answer ≡ signed m };

    fn from(m: i64) -> Answer {
        if m < 0 {
            one(Answer::BELOW, magnitude(m))
        } else {
            one(Answer::MARGIN, magnitude(m))
        }
    }
}

// Refusals 4 5 7.
pub fn palikudyom_demand(tasks: &[u32], length: u32) -> Answer
    ensures { result ≡ c_amount (demand_answer tasks.now length) }
{
    demand(tasks, length).into()
}

// Refusals: a table's, then 4 5 7.
pub fn palikudyom_margin(board: Board, windows: &[u32], tasks: &[u32], length: u32) -> Answer
    ensures { result ≡ c_margin (margin_for (board_of board) windows.now tasks.now length) }
{
    margin(board, windows, tasks, length).into()
}
