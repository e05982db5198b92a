// The margins of many lengths from the summary that is kept beside a table. Document 02, request 6.
ghost use Rattle.std.specs.Prelude.{◌≡◌, map, ◌≤◌, length};
ghost use Rattle.scope.specs.Windows.{framed};
ghost use Rattle.scope.specs.Limits.{most_length};
ghost use Rattle.scope.specs.Numbers.{written};
ghost use Rattle.scope.specs.Tasks.{tasks_of};
ghost use Rattle.scope.specs.Answers.{Fault.fine};
ghost use Rattle.scope.specs.Summary.{margin_from, lengths_fault, margins_answer, margins_out, margins_for, margins_out_for};
ghost use Rattle.tables.specs.Told.{board_of, fault_of, told_amount};

use crate::demand::{demand_of, difference};
use shared::table::{Room, own_table};
use summaries::least::least_from;
use supply::summary::check_belongs;
use tables::answer::Refusal;
use tables::board::Board;
use tables::group::Group;
use tables::length::check_length;
use tables::list::check_room;
use tables::table::Table;

// Refusal 7 of lengths, one of which is over the longest.
#[tactic(auto, using(crate::proofs::MarginLaws::each_length))]
fn check_lengths(lengths: &[u32]) -> Result<(), Refusal>
    ensures { fault_of result ≡ lengths_fault lengths.now }
{
    for length in lengths {
        check_length(*length)?;
    }
    Ok(())
}

// The margin of a length that is in its range, as a summary's numbers tell it, whatever they are: in a table's frame no such length is refused.
#[tactic(auto, using(std::proofs::lemmas::Int::ints, crate::proofs::MarginLaws::supply_told, crate::proofs::MarginLaws::least_small), unfolding(scope::specs::Summary::margin_from))]
fn margin_from(table: Table<'_>, summary: &[u32], group: Group<'_>, length: u32) -> i64
    requires { length ≤ most_length }
    ensures { result ≡ margin_from table.entry.frame summary.now (tasks_of group.entry.tasks.now) length }
{
    let supply = least_from(table.frame, summary, length).unwrap_or(0);
    difference(supply, demand_of(group, length))
}

// Writes the margins of lengths, each of which is in its range.
#[tactic(auto, using(std::proofs::lemmas::Int::ints, crate::proofs::MarginLaws::front))]
fn write_margins(
    table: Table<'_>,
    summary: &[u32],
    group: Group<'_>,
    lengths: &[u32],
    out: &mut [i64],
)
    requires { (fine ≡ lengths_fault lengths.now) × (length lengths.now ≤ length out.old) }
    ensures { out.new
        ≡ written (map (margin_from table.entry.frame summary.now (tasks_of group.entry.tasks.now)) lengths.now) out.old }
{
    // by index: after an adapter of `iter_mut` nothing is known of the elements (LIBRARY.md)
    for (i, length) in lengths.iter().enumerate() {
        out[i] = margin_from(table, summary, group, *length);
    }
}

// The margins on a table. Refusals 4 5 14 7 8.
#[tactic(auto, using(supply::proofs::TableLaws::answered, crate::proofs::GroupLaws::grouped), unfolding(scope::specs::Summary::margins_answer, scope::specs::Summary::margins_out, scope::specs::Summary::margins_fault))]
fn margins_on(
    table: Table<'_>,
    summary: &[u32],
    tasks: &[u32],
    lengths: &[u32],
    out: &mut [i64],
) -> Result<u64, Refusal>
    ensures answer { told_amount result
        ≡ margins_answer (framed table.entry.frame) table.entry.windows.now summary.now tasks.now lengths.now (length out.old) }
    ensures buffer { out.new
        ≡ margins_out (framed table.entry.frame) table.entry.windows.now summary.now tasks.now lengths.now out.old }
{
    let group = Group::new(tasks)?;
    check_belongs(table, summary)?;
    check_lengths(lengths)?;
    check_room(lengths.len(), out.len())?;
    write_margins(table, summary, group, lengths, out);
    Ok(lengths.len() as u64)
}

// The margins of many lengths from the summary of the asked owner's windows, which is held against the windows once: how many; one number
// each at the front of out, the rest of out kept. Refusals: a table's, then 4 5 14 7 8.
pub fn margins(
    board: Board,
    windows: &[u32],
    summary: &[u32],
    tasks: &[u32],
    lengths: &[u32],
    out: &mut [i64],
) -> Result<u64, Refusal>
    ensures answer { told_amount result
        ≡ margins_for (board_of board) windows.now summary.now tasks.now lengths.now (length out.old) }
    ensures buffer { out.new
        ≡ margins_out_for (board_of board) windows.now summary.now tasks.now lengths.now out.old }
{
    let mut room = Room::new();
    let table = own_table(board, windows, &mut room)?;
    margins_on(table, summary, tasks, lengths, out)
}
