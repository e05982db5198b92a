// The endless row of windows, frame after frame, and how many ticks are supplied before a tick of it.
ghost use Rattle.std.specs.Prelude.{◌≡◌, ◌+◌, ◌-◌, ◌*◌, ◌/◌, ◌<◌, ◌≤◌, length};
ghost use Rattle.scope.specs.Limits.{most_frame};
ghost use Rattle.scope.specs.Windows.{framed, windows_of, window_at};
ghost use Rattle.tables.specs.Told.{window_of};
ghost use Rattle.supply.specs.Positions.{first, opens, closes, following, ticks_from, Stands, Behind};

use tables::table::Table;
use tables::window::Window;

// Window `index` of the frame that begins at tick `base`, with the supplied ticks before that window. It is one of a table, which goes beside it: with a table
// in it, 24 bytes more would go through each step, and each loop that moves one would have to promise that it stays at the same table.
#[derive(Clone, Copy)]
pub(crate) struct Position {
    pub index: usize,
    pub base: u32,
    pub before: u32,
}

impl Position {
    pub(crate) fn first() -> Position
        ensures { result ≡ first }
    {
        Position {
            index: 0,
            base: 0,
            before: 0,
        }
    }
}

// Window i of a table that has it: a twin of `window_at` that tests nothing, for every step of a position reads one. With the test the least supply misses its
// bar of 1.10 (docs/BENCHMARKS.md).
#[tactic(auto, using(theory::specs::Lists::two_at))]
pub(crate) fn window_of(table: Table<'_>, i: usize) -> Window
    requires { i < length table.windows.now / 2 }
    ensures { window_of result ≡ window_at (windows_of table.entry.windows.now) i }
{
    let start = table.windows[2 * i];
    let end = table.windows[2 * i + 1];
    Window { start, end }
}

// The tick at which the window of a position ends.
#[tactic(auto, using(crate::proofs::PositionLaws::read_at))]
fn end_at(table: Table<'_>, position: Position) -> u32
    requires { Stands (framed table.frame) table.windows.now position }
    ensures { result ≡ closes table.entry.windows.now position }
{
    position.base + window_of(table, position.index).end
}

// The position of the next window: after the last one of a frame comes the first of the next frame.
#[tactic(auto, using(crate::proofs::PositionLaws::read_at))]
fn next(table: Table<'_>, position: Position) -> Position
    requires { Stands (framed table.frame) table.windows.now position }
    ensures { result ≡ following (framed table.entry.frame) table.entry.windows.now position }
{
    let window = window_of(table, position.index);
    let before = position.before + (window.end - window.start);
    if position.index + 1 < table.windows.len() / 2 {
        return Position {
            index: position.index + 1,
            base: position.base,
            before,
        };
    }
    Position {
        index: 0,
        base: position.base + table.frame,
        before,
    }
}

// On to the first window that ends after tick x. The ends rise, whatever a window gives. No index is counted: how far it goes is what it finds.
pub(crate) fn moved(table: Table<'_>, position: Position, x: u32) -> Position
    requires { Behind (framed table.frame) table.windows.now position x × (x ≤ 2 * most_frame) }
    ensures { Behind (framed table.entry.frame) table.entry.windows.now result x × (x < closes table.entry.windows.now result) }
{
    let mut at = position;
    while end_at(table, at) <= x {
        at = next(table, at);
    }
    at
}

// The supplied ticks before tick x, from the position of the first window that ends after it.
#[tactic(auto, using(crate::proofs::PositionLaws::read_at))]
pub(crate) fn upto(table: Table<'_>, position: Position, x: u32) -> u32
    requires { Stands (framed table.frame) table.windows.now position × (x ≤ 2 * most_frame) }
    ensures { result ≡ position.before + (x - opens table.entry.windows.now position) }
{
    let start = position.base + window_of(table, position.index).start;
    if x <= start {
        return position.before;
    }
    position.before + (x - start)
}

// So many ticks that are all supplied, or all unsupplied.
#[derive(Clone, Copy)]
pub(crate) enum Ticks {
    On(u32),
    Off(u32),
}

// The ticks from x on up to the next edge, from the position of the first window that ends after x.
#[tactic(auto, using(crate::proofs::PositionLaws::read_at))]
pub(crate) fn ticks_after(table: Table<'_>, position: Position, x: u32) -> Ticks
    requires { Stands (framed table.frame) table.windows.now position × (x ≤ closes table.windows.now position) }
    ensures { result ≡ ticks_from table.entry.windows.now position x }
{
    let window = window_of(table, position.index);
    let start = position.base + window.start;
    let end = position.base + window.end;
    if x < start {
        return Ticks::Off(start - x);
    }
    Ticks::On(end - x)
}
