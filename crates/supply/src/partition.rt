// The critical partition and the delay, found piece by piece.
ghost use Rattle.std.specs.Prelude.{◌≡◌, ◌+◌, ◌-◌, ◌*◌, ◌≤◌, length};
ghost use Rattle.scope.specs.Numbers.{written};
ghost use Rattle.scope.specs.Limits.{most_frame};
ghost use Rattle.scope.specs.Windows.{framed};
ghost use Rattle.scope.specs.Answers.{Answer.given, critical_of, critical_answer, critical_out, delay_answer};
ghost use Rattle.scope.specs.Shared.{critical_for, critical_out_for, delay_for};
ghost use Rattle.tables.specs.Told.{board_of, delay_of, told_amount, told_delay};
ghost use Rattle.supply.specs.Measures.{has_at, met_of, Measured};

use crate::supply::least_at_ends;
use crate::walk::Pieces;
use shared::table::{Room, own_table};
use tables::answer::{Delay, Refusal};
use tables::board::Board;
use tables::list::check_room;
use tables::table::Table;

// A, how many numbers the critical partition has, the delay, and whether the numbers that are held begin with the partition.
#[derive(Clone, Copy)]
pub(crate) struct Measure {
    pub whole: u32,
    pub numbers: u32,
    pub delay: u32,
    pub same: bool,
}

// The edges of the critical partition that are met so far: how many, and whether the numbers that are held begin with them.
#[derive(Clone, Copy)]
struct Met {
    count: u32,
    same: bool,
}

// Whether a list has x at an index.
#[tactic(auto, using(crate::proofs::PartitionLaws::has_in, crate::proofs::PartitionLaws::has_out))]
fn has_at(list: &[u32], at: usize, x: u32) -> bool
    ensures { result ≡ has_at list.now at x }
{
    at < list.len() && x == list[at]
}

// One edge more, at length t, where there is one.
#[tactic(auto, unfolding(crate::specs::Measures::met_of))]
fn edge_met(met: Met, held: &[u32], here: bool, t: u32) -> Met
    requires { met.count ≤ most_frame }
    ensures { result ≡ met_of met held.now here t }
{
    if here {
        let same = has_at(held, met.count as usize, t);
        return Met {
            count: met.count + 1,
            same: met.same && same,
        };
    }
    met
}

// A·t − P·(least supply of t), where `whole` is A.
fn lag_with(whole: u32, t: u32, frame: u32, least: u32) -> u64
    requires { frame * least ≤ whole * t }
    ensures { result ≡ whole * t - frame * least }
{
    u64::from(whole) * u64::from(t) - u64::from(frame) * u64::from(least)
}

// One pass over the pieces of a frame. The lag is greatest at an end of a piece.
pub(crate) fn measured(table: Table<'_>, held: &[u32]) -> Measure
    ensures { Measured (framed table.entry.frame) table.entry.windows.now held.now result }
{
    let whole = least_at_ends(table, 0).whole;
    let mut met = Met {
        count: 0,
        same: true,
    };
    let mut delay: u64 = 0;
    let mut before = false;
    for (t, piece) in Pieces::new(table) {
        met = edge_met(met, held, piece.rising != before, t);
        before = piece.rising;
        delay = delay.max(lag_with(whole, piece.end, table.frame, piece.least));
    }
    let all = edge_met(met, held, before, table.frame);
    Measure {
        whole,
        numbers: all.count,
        delay: delay as u32,
        same: all.same,
    }
}

// Writes the critical partition at the front of out.
pub(crate) fn write_edges(table: Table<'_>, out: &mut [u32])
    requires { length (critical_of (framed table.frame) table.windows.now) ≤ length out.old }
    ensures { out.new ≡ written (critical_of (framed table.entry.frame) table.entry.windows.now) out.old }
{
    let mut at = 0;
    let mut before = false;
    for (t, piece) in Pieces::new(table) {
        if piece.rising != before {
            out[at] = t;
            at += 1;
        }
        before = piece.rising;
    }
    if before {
        out[at] = table.frame;
    }
}

// The critical partition of a table that was checked: how many windows; two numbers a window at the front of out, the rest of out kept. Refusal 8.
#[tactic(auto, using(crate::proofs::TableLaws::answered), unfolding(scope::specs::Answers::critical_fault, scope::specs::Answers::critical_answer, scope::specs::Answers::critical_out))]
fn critical_on(table: Table<'_>, out: &mut [u32]) -> Result<u64, Refusal>
    ensures answer { told_amount result ≡ critical_answer (framed table.entry.frame) table.entry.windows.now (length out.old) }
    ensures buffer { out.new ≡ critical_out (framed table.entry.frame) table.entry.windows.now out.old }
{
    let numbers = measured(table, &[]).numbers;
    check_room(numbers as usize, out.len())?;
    write_edges(table, out);
    Ok(u64::from(numbers / 2))
}

// The critical partition of the asked owner's windows. Refusals: a table's, then 8.
pub fn critical(board: Board, windows: &[u32], out: &mut [u32]) -> Result<u64, Refusal>
    ensures answer { told_amount result ≡ critical_for (board_of board) windows.now (length out.old) }
    ensures buffer { out.new ≡ critical_out_for (board_of board) windows.now out.old }
{
    let mut room = Room::new();
    let table = own_table(board, windows, &mut room)?;
    critical_on(table, out)
}

// The delay of a table that was checked, with A beside it.
#[tactic(auto, using(crate::proofs::TableLaws::answered), unfolding(scope::specs::Answers::delay_answer))]
fn delay_on(table: Table<'_>) -> Delay
    ensures { given (delay_of result) ≡ delay_answer (framed table.entry.frame) table.entry.windows.now }
{
    let measure = measured(table, &[]);
    Delay {
        delay: u64::from(measure.delay),
        per_frame: measure.whole,
    }
}

// The delay, with A beside it. Refusals: a table's.
pub fn delay(board: Board, windows: &[u32]) -> Result<Delay, Refusal>
    ensures { told_delay result ≡ delay_for (board_of board) windows.now }
{
    let mut room = Room::new();
    let table = own_table(board, windows, &mut room)?;
    Ok(delay_on(table))
}
