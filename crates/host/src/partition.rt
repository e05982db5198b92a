ghost use Rattle.std.specs.Prelude.{◌≡◌, length};
ghost use Rattle.scope.specs.Shared.{critical_for, critical_out_for, delay_for, outage_for};
ghost use Rattle.tables.specs.Told.{board_of, delay_of};
ghost use Rattle.host.specs.Told.{c_amount, c_delay, delay as told_delay};

use crate::answer::{Answer, two};
use gaps::outage::outage;
use supply::partition::{critical, delay};
use tables::answer::Delay;
use tables::board::Board;

impl From<Delay> for Answer {
    ghost from_gives = { λ d answer. answer ≡ told_delay (delay_of d) };

    fn from(delay: Delay) -> Answer {
        two(Answer::DELAY, delay.delay, u64::from(delay.per_frame))
    }
}

// How many critical windows, two numbers each in `out`. Refusals: a table's, then 8.
pub fn palikudyom_critical(board: Board, windows: &[u32], out: &mut [u32]) -> Answer
    ensures answer { result ≡ c_amount (critical_for (board_of board) windows.now (length out.old)) }
    ensures buffer { out.new ≡ critical_out_for (board_of board) windows.now out.old }
{
    critical(board, windows, out).into()
}

// Refusals: a table's.
pub fn palikudyom_delay(board: Board, windows: &[u32]) -> Answer
    ensures { result ≡ c_delay (delay_for (board_of board) windows.now) }
{
    delay(board, windows).into()
}

// Refusals: a table's.
pub fn palikudyom_outage(board: Board, windows: &[u32]) -> Answer
    ensures { result ≡ c_amount (outage_for (board_of board) windows.now) }
{
    outage(board, windows).into()
}
