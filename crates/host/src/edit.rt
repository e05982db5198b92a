// Edits of a table in lent memory, with the summary that is kept beside it. Document 02, request 6.
ghost use Rattle.std.specs.Prelude.{◌≡◌};
ghost use Rattle.scope.specs.Limits.{teams};
ghost use Rattle.scope.specs.Summary.{Edit.move, Edit.add, Edit.remove, edit_answer, edit_windows, edit_summary};
ghost use Rattle.tables.specs.Told.{board_of, edited_of};
ghost use Rattle.host.specs.Told.{c_edited, edited};

use crate::answer::{Answer, two};
use edits::edit::{Edit, edit_table};
use tables::answer::Edited;
use tables::board::Board;

impl From<Edited> for Answer {
    ghost from_gives = { λ e answer. answer ≡ edited (edited_of e) };

    fn from(edited: Edited) -> Answer {
        two(Answer::EDITED, edited.windows, edited.numbers)
    }
}

// The window at `index` gets a new start and end, and keeps its owner. Refusals: 1 where `windows` has fewer windows than `count`, a table's, then 14 7, those
// of the new table, 8 for the windows, 8 for the summary. What follows the list and the summary is kept.
pub fn palikudyom_move_window(
    board: Board,
    count: u32,
    windows: &mut [u32],
    summary: &mut [u32],
    index: u32,
    start: u32,
    end: u32,
) -> Answer
    ensures answer { result ≡ c_edited (edit_answer teams (board_of board) count windows.old summary.old (move index start end)) }
    ensures list { windows.new ≡ edit_windows teams (board_of board) count windows.old summary.old (move index start end) }
    ensures held { summary.new ≡ edit_summary teams (board_of board) count windows.old summary.old (move index start end) }
{
    edit_table(
        board,
        count,
        windows,
        summary,
        Edit::Move { index, start, end },
    )
    .into()
}

// A window comes before the one at `index`, or after the last. The same refusals.
pub fn palikudyom_add_window(
    board: Board,
    count: u32,
    windows: &mut [u32],
    summary: &mut [u32],
    index: u32,
    start: u32,
    end: u32,
    owner: u32,
) -> Answer
    ensures answer { result ≡ c_edited (edit_answer teams (board_of board) count windows.old summary.old (add index start end owner)) }
    ensures list { windows.new ≡ edit_windows teams (board_of board) count windows.old summary.old (add index start end owner) }
    ensures held { summary.new ≡ edit_summary teams (board_of board) count windows.old summary.old (add index start end owner) }
{
    let edit = Edit::Add {
        index,
        start,
        end,
        owner,
    };
    edit_table(board, count, windows, summary, edit).into()
}

// The window at `index` goes. The same refusals.
pub fn palikudyom_remove_window(
    board: Board,
    count: u32,
    windows: &mut [u32],
    summary: &mut [u32],
    index: u32,
) -> Answer
    ensures answer { result ≡ c_edited (edit_answer teams (board_of board) count windows.old summary.old (remove index)) }
    ensures list { windows.new ≡ edit_windows teams (board_of board) count windows.old summary.old (remove index) }
    ensures held { summary.new ≡ edit_summary teams (board_of board) count windows.old summary.old (remove index) }
{
    edit_table(board, count, windows, summary, Edit::Remove { index }).into()
}
