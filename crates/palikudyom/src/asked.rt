// How a query is asked: by itself, or under code 16.
ghost use Rattle.std.specs.Prelude.{◌≤◌};

use crate::stream::Stream;
use plan::number::Damaged;
use tables::board::Board;

// Windows and tasks of the codes 1 to 15 by themselves have at most so many numbers.
const NUMBERS: usize = 200;

// All others have at most so many.
pub(crate) const LATER_NUMBERS: usize = 400;

#[derive(Clone, Copy)]
pub(crate) struct Asked {
    // the team that is asked for
    pub owner: u32,
    // the shortest allowed window
    pub shortest: u32,
    // the rule by which windows are given, and the ticks that are lost of each
    pub rule: u32,
    pub lost: u32,
    // whether the windows are in threes; else they are pairs, all of that owner
    pub threes: bool,
    // whether the lists may be longer
    pub later: bool,
}

impl Asked {
    // A code by itself has pairs, all read as owner 0's. Every window is allowed, and given whole.
    pub(crate) fn alone(code: u32) -> Asked {
        Asked {
            owner: 0,
            shortest: 1,
            rule: Board::WHOLE,
            lost: 0,
            threes: false,
            later: 15 < code,
        }
    }

    // Under code 16 windows have owners.
    pub(crate) fn shared(owner: u32) -> Asked {
        Asked {
            owner,
            shortest: 1,
            rule: Board::WHOLE,
            lost: 0,
            threes: true,
            later: true,
        }
    }

    // What stands before a query under code 16: how many settings, then the settings, which are the owner, then the shortest allowed window, then the rule
    // and the lost ticks. There are 1, 2 or 4.
    pub(crate) fn settings(stream: &mut Stream<'_>) -> Result<Asked, Damaged> {
        let at = stream.at();
        let count = stream.any()?;
        if !matches!(count, 1 | 2 | 4) {
            return Err(Damaged { at });
        }
        let mut asked = Asked::shared(stream.any()?);
        if count >= 2 {
            asked.shortest = stream.any()?;
        }
        if count == 4 {
            asked.rule = stream.any()?;
            asked.lost = stream.any()?;
        }
        Ok(asked)
    }

    // How many numbers windows and tasks have at most.
    pub(crate) fn most(self) -> usize
        ensures { result ≤ LATER_NUMBERS }
    {
        if self.later { LATER_NUMBERS } else { NUMBERS }
    }

    // The board of a frame.
    pub(crate) fn board(self, frame: u32) -> Board {
        Board {
            frame,
            owner: self.owner,
            shortest: self.shortest,
            rule: self.rule,
            lost: self.lost,
        }
    }
}
