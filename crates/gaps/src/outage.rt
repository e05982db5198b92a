// The longest outage: the longest gap between windows, over endless frames.
ghost use Rattle.std.specs.Prelude.{◌≡◌, ◌+◌, ◌-◌, ◌≤◌};
ghost use Rattle.scope.specs.Limits.{most_frame};
ghost use Rattle.scope.specs.Windows.{framed, supplied_by};
ghost use Rattle.scope.specs.Partition.{outage as outageBy};
ghost use Rattle.scope.specs.Shared.{outage_for};
ghost use Rattle.tables.specs.Told.{board_of, told_amount};

use shared::table::{Room, own_table};
use tables::answer::Refusal;
use tables::board::Board;
use tables::table::Table;
use tables::window::window_at;

// The gap from the end of the last window to the first one's start in the next frame.
fn last_gap(frame: u32, end: u32, start: u32) -> u32
    requires { (end ≤ frame) × (start ≤ frame) × (frame ≤ most_frame) }
    ensures { result ≡ frame - end + start }
{
    frame - end + start
}

// The longest run of unsupplied ticks over endless frames: the longest gap between two windows, or between the last one and the next frame's first.
fn outage_of(table: Table<'_>) -> u32
    ensures { result ≡ outageBy (supplied_by (framed table.entry.frame) table.entry.windows.now) table.entry.frame }
{
    let windows = table.windows;
    let first = window_at(windows, 0);
    let mut end = first.end;
    let mut most: u32 = 0;
    for i in 1..windows.len() / 2 {
        let window = window_at(windows, i);
        most = most.max(window.start - end);
        end = window.end;
    }
    most.max(last_gap(table.frame, end, first.start))
}

// The longest outage over endless frames. Refusals: a table's.
pub fn outage(board: Board, windows: &[u32]) -> Result<u64, Refusal>
    ensures { told_amount result ≡ outage_for (board_of board) windows.now }
{
    let mut room = Room::new();
    let table = own_table(board, windows, &mut room)?;
    Ok(u64::from(outage_of(table)))
}
