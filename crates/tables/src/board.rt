ghost use Rattle.std.specs.Prelude.{◌≡◌, ◌&&◌, leb};
ghost use Rattle.scope.specs.Windows.{framed};
ghost use Rattle.scope.specs.Answers.{frame_fault, shortest_fault, rule_fault, board_answer};
ghost use Rattle.tables.specs.Told.{board_of, fault_of, told_board};

use crate::answer::Refusal;
use crate::window::Window;

// What a table is judged by beside its windows: the frame, the owner that is asked for, the shortest allowed window, the rule by which windows are given, and
// the ticks that are lost of each. Any value may be lent: the entries check it. C lends it too, as it is.
#[repr(C)]
#[derive(Clone, Copy, Debug, PartialEq, Eq)]
pub struct Board {
    pub frame: u32,
    pub owner: u32,
    pub shortest: u32,
    pub rule: u32,
    pub lost: u32,
}

impl Board {
    // Ticks of a frame: 1 to 65,536.
    pub const LONGEST: u32 = 65536;

    // The shortest allowed window: 1 to 65,536 ticks.
    pub const MOST_SHORTEST: u32 = 65536;

    // Rule 1 gives the whole window, rule 2 loses its first ticks: at most 65,535.
    pub const WHOLE: u32 = 1;

    pub const LOSING: u32 = 2;

    pub const MOST_LOST: u32 = 65535;

    // Which owners there are, and whether a tick is left to the one asked for, is judged with the windows.
    #[tactic(auto, using(crate::proofs::FaultLaws::answered), unfolding(scope::specs::Answers::board_answer, scope::specs::Answers::frame_fault))]
    pub fn new(
        frame: u32,
        owner: u32,
        shortest: u32,
        rule: u32,
        lost: u32,
    ) -> Result<Board, Refusal>
        ensures { told_board result ≡ board_answer (record { frame = frame; owner = owner; shortest = shortest; rule = rule; lost = lost }) }
    {
        let board = Board {
            frame,
            owner,
            shortest,
            rule,
            lost,
        };
        check_frame(frame)?;
        check_shortest(board)?;
        check_rule(board)?;
        Ok(board)
    }
}

// Whether a number is 1 to `most`.
pub(crate) fn in_range(n: u32, most: u32) -> bool
    ensures { result ≡ (leb 1 n && leb n most) }
{
    1 <= n && n <= most
}

// Refusal 2.
pub fn check_frame(frame: u32) -> Result<(), Refusal>
    ensures { fault_of result ≡ frame_fault (framed frame) }
{
    if !in_range(frame, Board::LONGEST) {
        return Err(Refusal::Frame);
    }
    Ok(())
}

// Refusal 13 of a rule or lost ticks that no board has.
pub fn check_rule(board: Board) -> Result<(), Refusal>
    ensures { fault_of result ≡ rule_fault (board_of board) }
{
    let rule = board.rule;
    let lost = board.lost;
    if rule == Board::WHOLE {
        if lost == 0 {
            return Ok(());
        }
        return Err(Refusal::Loss);
    }
    if rule != Board::LOSING {
        return Err(Refusal::Loss);
    }
    if Board::MOST_LOST < lost {
        return Err(Refusal::Loss);
    }
    Ok(())
}

// Refusal 12 of a shortest allowed window that is out of its range, at a place that no window has.
pub fn check_shortest(board: Board) -> Result<(), Refusal>
    ensures { fault_of result ≡ shortest_fault (board_of board) }
{
    let place = Window::MOST as u64;
    if !in_range(board.shortest, Board::MOST_SHORTEST) {
        return Err(Refusal::Sliver(place));
    }
    Ok(())
}
