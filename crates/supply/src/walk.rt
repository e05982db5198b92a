// The pieces of a frame, one after the other.
ghost use Rattle.std.specs.Prelude.{◌≡◌, ◌≤◌, ◌-◌};
ghost use Rattle.scope.specs.Ticks.{least_supply};
ghost use Rattle.scope.specs.Windows.{framed, supplied_by};

use crate::pieces::{Piece, piece_from};
use tables::table::Table;

// Those from length t on, whose least supply is `least`.
#[derive(Drop)]
pub(crate) struct Pieces<'a> {
    table: Table<'a>,
    t: u32,
    least: u32,
    ghost low: { (t ≤ table.frame) × (least ≡ least_supply (supplied_by (framed table.frame) table.windows.now) table.frame t) },
}

impl<'a> Pieces<'a> {
    ghost use Rattle.supply.specs.Walked.{At};

    pub(crate) fn new(table: Table<'a>) -> Pieces<'a>
        ensures { At table.entry 0 result }
    {
        Pieces {
            table,
            t: 0,
            least: 0,
        }
    }
}

impl<'a> Iterator for Pieces<'a> {
    ghost use Rattle.std.specs.Iterator.{at_most};
    ghost use Rattle.supply.specs.Walked.{Steps};

    type Item = (u32, Piece);

    ghost next_gives = { Steps };

    ghost remaining = { λ s. at_most (s.table.frame - s.t) };

    fn next(&mut self) -> Option<(u32, Piece)> {
        let table = self.table;
        let t = self.t;
        if table.frame <= t {
            return None;
        }
        let piece = piece_from(table, t, self.least);
        *self = Pieces {
            table,
            t: piece.end,
            least: piece.least,
        };
        Some((t, piece))
    }
}
