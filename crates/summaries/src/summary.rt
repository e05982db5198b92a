// A summary of the asked owner's windows, made and asked for the least supply. Document 02, request 6.
ghost use Rattle.std.specs.Prelude.{◌≡◌, length};
ghost use Rattle.scope.specs.Windows.{framed};
ghost use Rattle.scope.specs.Summary.{least_from_answer, make_for, make_out_for, least_from_for};
ghost use Rattle.tables.specs.Told.{board_of, told_amount};

use crate::least::least_from;
use shared::table::{Room, own_table};
use supply::summary::{check_belongs, make_of};
use tables::answer::Refusal;
use tables::board::Board;
use tables::table::Table;

// The summary of the asked owner's windows. Refusals: a table's, then 8.
pub fn make_summary(board: Board, windows: &[u32], out: &mut [u32]) -> Result<u64, Refusal>
    ensures answer { told_amount result ≡ make_for (board_of board) windows.now (length out.old) }
    ensures buffer { out.new ≡ make_out_for (board_of board) windows.now out.old }
{
    let mut room = Room::new();
    let table = own_table(board, windows, &mut room)?;
    make_of(table, out)
}

// The least supply of a length on a checked table, from its summary. Refusals 14 7.
#[tactic(auto, using(supply::proofs::TableLaws::table_fine, crate::proofs::LeastLaws::not_belonging, crate::proofs::LeastLaws::from_belonging))]
fn least_from_in(table: Table<'_>, summary: &[u32], length: u32) -> Result<u64, Refusal>
    ensures { told_amount result ≡ least_from_answer (framed table.entry.frame) table.entry.windows.now summary.now length }
{
    check_belongs(table, summary)?;
    least_from(table.frame, summary, length)
}

// The least supply of a length from the summary of the asked owner's windows. Refusals: a table's, then 14 7.
pub fn least_supply(
    board: Board,
    windows: &[u32],
    summary: &[u32],
    length: u32,
) -> Result<u64, Refusal>
    ensures { told_amount result ≡ least_from_for (board_of board) windows.now summary.now length }
{
    let mut room = Room::new();
    let table = own_table(board, windows, &mut room)?;
    least_from_in(table, summary, length)
}
