// A window moved, added or removed in lent window memory, with the summary in lent memory beside it. Document 02, request 6.
ghost use Rattle.std.specs.Prelude.{◌≡◌, ◌+◌, ◌/◌, ◌%◌, ◌≤◌, length};
ghost use Rattle.scope.specs.Limits.{teams};
ghost use Rattle.scope.specs.Answers.{Fault.fine};
ghost use Rattle.scope.specs.Summary.{edited, index_fault, edit_answer, edit_windows, edit_summary};
ghost use Rattle.tables.specs.Told.{board_of, fault_of, told_edited};
ghost use Rattle.edits.specs.Told.{edit_of};
ghost use Rattle.edits.specs.Stored.{ready_fault, store_answer, store_windows, store_summary};

use crate::splice::splice;
use shared::table::{Room, own_table};
use supply::summary::{check_belongs, make_of};
use tables::answer::{Edited, Refusal};
use tables::board::Board;
use tables::list::check_room;
use tables::window::Window;

// Of the window at an index: a new start and end, where it keeps its owner; a window inserted before it, or after the last; or its removal.
#[derive(Clone, Copy, Debug, PartialEq, Eq)]
pub enum Edit {
    Move {
        index: u32,
        start: u32,
        end: u32,
    },
    Add {
        index: u32,
        start: u32,
        end: u32,
        owner: u32,
    },
    Remove {
        index: u32,
    },
}

// Refusal 7: no window has the index. Adding may be at the number of windows.
fn check_index(edit: Edit, count: usize) -> Result<(), Refusal>
    ensures { fault_of result ≡ index_fault (edit_of edit) count }
{
    let absent = match edit {
        Edit::Move { index, .. } => count <= index as usize,
        Edit::Add { index, .. } => count < index as usize,
        Edit::Remove { index } => count <= index as usize,
    };
    if absent {
        return Err(Refusal::Asked);
    }
    Ok(())
}

// The list that an edit leaves; the room is lent to it.
#[tactic(auto, unfolding(scope::specs::Summary::edited))]
fn edited<'a>(list: &[u32], edit: Edit, room: &'a mut [u32]) -> &'a [u32]
    requires { (index_fault (edit_of edit) (length list.now / 3) ≡ fine) × (length list.now % 3 ≡ 0) × (length list.now + 3 ≤ length room.old) }
    ensures { result.now ≡ edited (edit_of edit) list.now }
{
    match edit {
        Edit::Move { index, start, end } => {
            let i = index as usize;
            let come = [start, end, list[3 * i + 2]];
            splice(list, i, 1, &come, room)
        }
        Edit::Add {
            index,
            start,
            end,
            owner,
        } => {
            let come = [start, end, owner];
            splice(list, index as usize, 0, &come, room)
        }
        Edit::Remove { index } => splice(list, index as usize, 1, &[], room),
    }
}

// What is refused before the new list is looked at: the table as it is, its summary, the index.
#[tactic(auto, using(crate::proofs::EditLaws::ready_refused, crate::proofs::EditLaws::ready_stopped, crate::proofs::EditLaws::ready_passed))]
fn check_ready(board: Board, list: &[u32], summary: &[u32], edit: Edit) -> Result<(), Refusal>
    ensures { fault_of result ≡ ready_fault teams (board_of board) list.now summary.now (edit_of edit) (length list.now / 3) }
{
    let mut room = Room::new();
    let table = own_table(board, list, &mut room)?;
    check_belongs(table, summary)?;
    check_index(edit, list.len() / 3)
}

// Puts a new list and its summary into lent memory, where the list is a table and both have room. The summary is made last of what may be refused and
// before the windows are written, so that a refusal writes nothing.
#[tactic(auto, using(tables::proofs::FaultLaws::answered, crate::proofs::EditLaws::store_refused, crate::proofs::EditLaws::store_short, crate::proofs::EditLaws::store_unmade, crate::proofs::EditLaws::store_made, theory::specs::Answers::room_fine, crate::proofs::EditLaws::room_taken), unfolding(crate::specs::Stored::store_answer, crate::specs::Stored::store_windows, crate::specs::Stored::store_summary, scope::specs::Numbers::written))]
fn store(
    board: Board,
    new: &[u32],
    windows: &mut [u32],
    summary: &mut [u32],
) -> Result<Edited, Refusal>
    ensures answer { told_edited result ≡ store_answer teams (board_of board) new.now (length windows.old) (length summary.old) }
    ensures list { windows.new ≡ store_windows teams (board_of board) new.now windows.old (length summary.old) }
    ensures held { summary.new ≡ store_summary teams (board_of board) new.now (length windows.old) summary.old }
{
    let mut room = Room::new();
    let table = own_table(board, new, &mut room)?;
    let needed = new.len();
    check_room(needed, windows.len())?;
    let numbers = make_of(table, summary)?;
    windows[..needed].copy_from_slice(new);
    Ok(Edited {
        windows: (needed / 3) as u64,
        numbers,
    })
}

// An edit of the list in lent window memory, of which the first `count` windows are the list, and of its summary in lent memory: how many windows there are
// then, and how many numbers the summary has. Refusals: 1 where the memory is shorter than the list, a table's, 14, 7, those of the new table, 8 for the
// windows, 8 for the summary.
#[tactic(auto, using(tables::proofs::FaultLaws::answered, crate::proofs::EditLaws::edit_short, crate::proofs::EditLaws::edit_stopped), unfolding(scope::specs::Summary::edit_answer, scope::specs::Summary::edit_windows, scope::specs::Summary::edit_summary))]
pub fn edit_table(
    board: Board,
    count: u32,
    windows: &mut [u32],
    summary: &mut [u32],
    edit: Edit,
) -> Result<Edited, Refusal>
    ensures answer { told_edited result ≡ edit_answer teams (board_of board) count windows.old summary.old (edit_of edit) }
    ensures list { windows.new ≡ edit_windows teams (board_of board) count windows.old summary.old (edit_of edit) }
    ensures held { summary.new ≡ edit_summary teams (board_of board) count windows.old summary.old (edit_of edit) }
{
    let here = count as usize;
    if windows.len() / 3 < here {
        return Err(Refusal::WindowList);
    }
    let list = &windows[..3 * here];
    check_ready(board, list, summary, edit)?;
    let mut room = [0; 3 * (Window::MOST + 1)];
    let new = edited(list, edit, &mut room);
    store(board, new, windows, summary)
}
