ghost use Rattle.std.specs.Prelude.{◌≡◌};
ghost use Rattle.scope.specs.Shared.{least_supply_for};
ghost use Rattle.tables.specs.Told.{board_of};
ghost use Rattle.host.specs.Told.{c_amount};

use crate::answer::Answer;
use supply::supply::least_supply;
use tables::board::Board;

// Refusals: a table's, then 7.
pub fn palikudyom_least_supply(board: Board, windows: &[u32], length: u32) -> Answer
    ensures { result ≡ c_amount (least_supply_for (board_of board) windows.now length) }
{
    least_supply(board, windows, length).into()
}
