// Pieces of lengths over which the least supply rises at each tick or at none. The critical partition and the delay are found by them, so that not every
// length is asked for.
ghost use Rattle.std.specs.Prelude.{◌≡◌, ◌+◌, ◌<◌, ◌^◌};
ghost use Rattle.scope.specs.Ticks.{least_supply};
ghost use Rattle.scope.specs.Windows.{framed, supplied_by};
ghost use Rattle.supply.specs.Ahead.{joined_of, far_of, Foreseen, Told};

use crate::row::{Position, Ticks, moved, ticks_after, upto, window_of};
use crate::supply::start_after;
use tables::table::Table;

// What lies ahead of a length: the least supply stays for `flat` lengths or, where that is none, rises at each of `rise`.
#[derive(Clone, Copy)]
struct Ahead {
    flat: u32,
    rise: u32,
}

// Lengths up to `end` over which the least supply rises at each tick or at none, and what it is at `end`.
#[derive(Clone, Copy)]
pub(crate) struct Piece {
    pub rising: bool,
    pub end: u32,
    pub least: u32,
}

// One start more, whose stretch has `over` ticks more than the least supply. At the least, it keeps it there up to its next supplied tick; else the least can
// rise until it meets this start.
#[tactic(auto, unfolding(crate::specs::Ahead::joined_of))]
fn joined(ahead: Ahead, ticks: Ticks, over: u32) -> Ahead
    requires { far_of ticks + over < 2 ^ 32 }
    ensures { result ≡ joined_of ahead ticks over }
{
    match ticks {
        Ticks::On(far) => Ahead {
            flat: ahead.flat,
            rise: ahead.rise.min(far + over),
        },
        Ticks::Off(far) => {
            if over == 0 {
                return Ahead {
                    flat: ahead.flat.max(far),
                    rise: ahead.rise,
                };
            }
            Ahead {
                flat: ahead.flat,
                rise: ahead.rise.min(over),
            }
        }
    }
}

// What lies ahead of length t, whose least supply is `least`, over the starts where a window ends. It goes over them as `least_at_ends` does: each step of the
// walk needs the sum and the position of the one before, and what the two gather of a start differs.
fn ahead_of(table: Table<'_>, t: u32, least: u32) -> Ahead
    requires { (t < table.frame) × (least ≡ least_supply (supplied_by (framed table.frame) table.windows.now) table.frame t) }
    ensures { Foreseen (framed table.entry.frame) table.entry.windows.now t result }
{
    let mut ahead = Ahead {
        flat: 0,
        rise: table.frame - t,
    };
    let mut earlier = 0;
    let mut position = Position::first();
    for i in 0..table.windows.len() / 2 {
        let window = window_of(table, i);
        let start = start_after(window, earlier);
        let end = start.tick + t;
        position = moved(table, position, end);
        let ticks = ticks_after(table, position, end);
        let supply = upto(table, position, end) - start.before;
        ahead = joined(ahead, ticks, supply - least);
        earlier = start.before;
    }
    ahead
}

// The piece from length t on, whose least supply is `least`.
pub(crate) fn piece_from(table: Table<'_>, t: u32, least: u32) -> Piece
    requires { (t < table.frame) × (least ≡ least_supply (supplied_by (framed table.frame) table.windows.now) table.frame t) }
    ensures { Told (supplied_by (framed table.entry.frame) table.entry.windows.now) table.entry.frame t result }
{
    let ahead = ahead_of(table, t, least);
    if ahead.flat == 0 {
        let n = ahead.rise;
        return Piece {
            rising: true,
            end: t + n,
            least: least + n,
        };
    }
    let n = ahead.flat.min(table.frame - t);
    Piece {
        rising: false,
        end: t + n,
        least,
    }
}
