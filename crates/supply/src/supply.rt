ghost use Rattle.std.specs.Prelude.{◌≡◌, ◌+◌, ◌-◌, ◌≤◌};
ghost use Rattle.scope.specs.Limits.{most_frame, most_length};
ghost use Rattle.scope.specs.Ticks.{per_frame, least_supply};
ghost use Rattle.scope.specs.Windows.{framed, supplied_by};
ghost use Rattle.scope.specs.Answers.{least_supply_answer};
ghost use Rattle.scope.specs.Shared.{supplied_for, least_supply_for};
ghost use Rattle.tables.specs.Told.{board_of, told_supplied, told_amount};

use crate::row::{Position, moved, upto, window_of};
use shared::table::{Room, own_table};
use tables::answer::Refusal;
use tables::board::Board;
use tables::length::check_length;
use tables::table::Table;
use tables::window::{Window, is_on};

// The least supply of a length, and A, which is the whole frame's.
#[derive(Clone, Copy)]
pub(crate) struct Least {
    pub supply: u32,
    pub whole: u32,
}

// A start that is tried, and the supplied ticks before it.
#[derive(Clone, Copy)]
pub(crate) struct Start {
    pub tick: u32,
    pub before: u32,
}

// The start that is tried for a window, where `earlier` ticks are supplied before it: the window's end.
pub(crate) fn start_after(window: Window, earlier: u32) -> Start
    requires { (window.start ≤ window.end) × (earlier + (window.end - window.start) ≤ most_frame) }
    ensures { (result.tick ≡ window.end) × (result.before ≡ earlier + (window.end - window.start)) }
{
    let tick = window.end;
    let before = earlier + (window.end - window.start);
    Start { tick, before }
}

// The least supply of a length of at most a frame, over the starts where a window ends. Both ends of the stretch only move forward: what is supplied
// before its start is the sum of the windows so far, what is supplied before its end is told by a position in the row.
pub(crate) fn least_at_ends(table: Table<'_>, length: u32) -> Least
    requires { length ≤ table.frame }
    ensures { (result.supply ≡ least_supply (supplied_by (framed table.entry.frame) table.entry.windows.now) table.entry.frame length)
        × (result.whole ≡ per_frame (supplied_by (framed table.entry.frame) table.entry.windows.now) table.entry.frame) }
{
    let mut least = length;
    let mut earlier = 0;
    let mut position = Position::first();
    for i in 0..table.windows.len() / 2 {
        let window = window_of(table, i);
        let start = start_after(window, earlier);
        let end = start.tick + length;
        position = moved(table, position, end);
        least = least.min(upto(table, position, end) - start.before);
        earlier = start.before;
    }
    Least {
        supply: least,
        whole: earlier,
    }
}

// The least supply of a length on a table that was checked, as what is asked over and over: A for each whole frame, and the least supply of the rest.
pub fn least_of(table: Table<'_>, length: u32) -> u32
    ensures { result ≡ least_supply (supplied_by (framed table.entry.frame) table.entry.windows.now) table.entry.frame length }
{
    let rest = least_at_ends(table, length % table.frame);
    length / table.frame * rest.whole + rest.supply
}

// The least supply of a length on a table that was checked. Refusal 7.
#[tactic(auto, using(crate::proofs::TableLaws::answered), unfolding(scope::specs::Answers::least_supply_answer))]
fn least_on(table: Table<'_>, length: u32) -> Result<u64, Refusal>
    ensures { told_amount result ≡ least_supply_answer (framed table.entry.frame) table.entry.windows.now length }
{
    check_length(length)?;
    Ok(u64::from(least_of(table, length)))
}

// The least supply of a length on a list of windows in pairs, as one owner has it. Refusals 1 2 3 7.
#[tactic(auto, using(crate::proofs::TableLaws::answered), unfolding(scope::specs::Answers::least_supply_answer, tables::specs::Lent::table_answer))]
pub fn least_in(frame: u32, windows: &[u32], length: u32) -> Result<u64, Refusal>
    ensures { told_amount result ≡ least_supply_answer (framed frame) windows.now length }
{
    let table = Table::new(frame, windows)?;
    least_on(table, length)
}

// Whether a tick is supplied to the asked owner. Refusals: a table's.
pub fn supplied(board: Board, windows: &[u32], tick: u32) -> Result<bool, Refusal>
    ensures { told_supplied result ≡ supplied_for (board_of board) windows.now tick }
{
    let mut room = Room::new();
    let table = own_table(board, windows, &mut room)?;
    Ok(is_on(table.frame, table.windows, u64::from(tick)))
}

// The least supply of a length. Refusals: a table's, then 7.
pub fn least_supply(board: Board, windows: &[u32], length: u32) -> Result<u64, Refusal>
    ensures { told_amount result ≡ least_supply_for (board_of board) windows.now length }
{
    let mut room = Room::new();
    let table = own_table(board, windows, &mut room)?;
    least_on(table, length)
}
