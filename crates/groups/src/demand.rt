ghost use Rattle.std.specs.Prelude.{◌≡◌};
ghost use Rattle.scope.specs.Answers.{demand_answer};
ghost use Rattle.scope.specs.Shared.{margin_for};
ghost use Rattle.tables.specs.Told.{board_of, told_amount, told_margin};

use crate::gather::Gathered;
use tables::answer::Refusal;
use tables::board::Board;

// The demand of a group at a length. Refusals 4 5 7.
pub fn demand(numbers: &[u32], length: u32) -> Result<u64, Refusal>
    ensures { told_amount result ≡ demand_answer numbers.now length }
{
    let gathered = Gathered::new(numbers);
    records::demand::demand(gathered.tasks(), length)
}

// Least supply minus demand at a length. Refusals: a table's, then 4 5 7.
pub fn margin(board: Board, windows: &[u32], numbers: &[u32], length: u32) -> Result<i64, Refusal>
    ensures { told_margin result ≡ margin_for (board_of board) windows.now numbers.now length }
{
    let gathered = Gathered::new(numbers);
    records::demand::margin(board, windows, gathered.tasks(), length)
}
