// A stretch of ticks whose start moves on tick by tick.
ghost use Rattle.std.specs.Prelude.{◌≡◌, ◌≤◌};
ghost use Rattle.scope.specs.Windows.{framed};
ghost use Rattle.scope.specs.Limits.{most_frame};
ghost use Rattle.checker.specs.Stretches.{on_at, slid_of, Slides, Spans};

use tables::cursor::Cursor;
use tables::table::Table;

// The cursors of the first tick and of the one after the last, and the supplied ticks.
#[derive(Clone, Copy)]
pub(crate) struct Stretch {
    pub from: Cursor,
    pub to: Cursor,
    pub supply: u32,
}

impl Stretch {
    // The first `length` ticks.
    pub(crate) fn new(table: Table<'_>, length: u32) -> Stretch
        requires { length ≤ most_frame }
        ensures { Spans (framed table.entry.frame) table.entry.windows.now 0 length result }
    {
        let mut to = Cursor::new();
        let mut supply = 0;
        for _ in 0..length {
            supply += tick_at(table.windows, to);
            to = to.next(table.frame, table.windows);
        }
        Stretch {
            from: Cursor::new(),
            to,
            supply,
        }
    }

    // One tick comes and one goes.
    #[tactic(auto, using(crate::proofs::StretchLaws::on_le))]
    pub(crate) fn slid(self, table: Table<'_>) -> Stretch
        requires { Slides (framed table.frame) table.windows.now self }
        ensures { result ≡ slid_of (framed table.entry.frame) table.entry.windows.now self }
    {
        let from = self.from;
        let to = self.to;
        let held = self.supply;
        let comes = tick_at(table.windows, to);
        let goes = tick_at(table.windows, from);
        Stretch {
            from: from.next(table.frame, table.windows),
            to: to.next(table.frame, table.windows),
            supply: held + comes - goes,
        }
    }
}

// 1 for a supplied tick, 0 for another.
fn tick_at(windows: &[u32], at: Cursor) -> u32
    ensures { result ≡ on_at windows.now at }
{
    u32::from(at.is_on(windows))
}
