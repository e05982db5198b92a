ghost use Rattle.std.specs.Prelude.{◌≡◌};
ghost use Rattle.scope.specs.Shared.{verdict_for};
ghost use Rattle.tables.specs.Told.{board_of, told_verdict};

use crate::gather::Gathered;
use tables::answer::{Refusal, Verdict};
use tables::board::Board;

// Whether the group meets its deadlines under earliest deadline first, or the miss. Refusals: a table's, then 4 5 6.
pub fn verdict(board: Board, windows: &[u32], numbers: &[u32]) -> Result<Verdict, Refusal>
    ensures { told_verdict result ≡ verdict_for (board_of board) windows.now numbers.now }
{
    let gathered = Gathered::new(numbers);
    records::verdict::verdict(board, windows, gathered.tasks())
}
