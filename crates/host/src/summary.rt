// A summary kept beside a table in lent memory, and what is answered from it. Document 02, request 6.
ghost use Rattle.std.specs.Prelude.{◌≡◌, length};
ghost use Rattle.scope.specs.Summary.{make_for, make_out_for, least_from_for, margins_for, margins_out_for};
ghost use Rattle.tables.specs.Told.{board_of};
ghost use Rattle.host.specs.Told.{c_amount};

use crate::answer::Answer;
use checker::margins::margins;
use summaries::summary::{least_supply, make_summary};
use tables::board::Board;

// How many numbers the summary of the asked owner's windows has; they go into `out`. Refusals: a table's, then 8.
pub fn palikudyom_make_summary(board: Board, windows: &[u32], out: &mut [u32]) -> Answer
    ensures answer { result ≡ c_amount (make_for (board_of board) windows.now (length out.old)) }
    ensures buffer { out.new ≡ make_out_for (board_of board) windows.now out.old }
{
    make_summary(board, windows, out).into()
}

// The least supply of a length, from the summary. Refusals: a table's, then 14 7.
pub fn palikudyom_least_supply_from(
    board: Board,
    windows: &[u32],
    summary: &[u32],
    length: u32,
) -> Answer
    ensures { result ≡ c_amount (least_from_for (board_of board) windows.now summary.now length) }
{
    least_supply(board, windows, summary, length).into()
}

// How many margins, the one of each length in `out`. Refusals: a table's, then 4 5 14 7 8.
pub fn palikudyom_margins(
    board: Board,
    windows: &[u32],
    summary: &[u32],
    tasks: &[u32],
    lengths: &[u32],
    out: &mut [i64],
) -> Answer
    ensures answer { result ≡ c_amount (margins_for (board_of board) windows.now summary.now tasks.now
        lengths.now (length out.old)) }
    ensures buffer { out.new ≡ margins_out_for (board_of board) windows.now summary.now tasks.now
        lengths.now out.old }
{
    margins(board, windows, summary, tasks, lengths, out).into()
}
