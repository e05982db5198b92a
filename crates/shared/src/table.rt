// A table that teams share, in threes of start, end and owner: its checks, and what is left of the windows of the owner that is asked for. Document 02,
// requests 4, 5 and 7.
ghost use Rattle.std.specs.Prelude.{◌≡◌, ◌&&◌, ◌*◌, ◌-◌, ◌≤◌, ltb, eqb, length, replicate};
ghost use Rattle.scope.specs.Numbers.{written};
ghost use Rattle.scope.specs.Answers.{Fault.fine, fault_at};
ghost use Rattle.scope.specs.Shared.{owned, owned_of, owned_at, own, own_left, lost_fault, absent_owner_fault, follows, owned_legal, owned_fault, owned_answer, whole_fault};
ghost use Rattle.scope.specs.Shared.{sliver, first_sliver, sliver_fault};
ghost use Rattle.scope.specs.Shared.{shared_fault, own_answer, own_out, as_owned, as_owned_answer, as_owned_out};
ghost use Rattle.scope.specs.Limits.{teams, most_windows};
ghost use Rattle.tables.specs.Told.{board_of, fault_of, told_amount};
ghost use Rattle.tables.specs.Lent.{told_table};
ghost use Rattle.shared.specs.Lent.{own_table_answer};
ghost use Rattle.shared.specs.Told.{owned_by, told_owned};

use tables::answer::Refusal;
use tables::board::{Board, check_frame, check_rule, check_shortest};
use tables::list::check_room;
use tables::table::Table;
use tables::window::{Window, check_list};

// A window and the team that it belongs to.
#[derive(Clone, Copy, Debug, PartialEq, Eq)]
pub struct Owned {
    pub window: Window,
    pub owner: u32,
}

impl Owned {
    // The teams that share a table: its owners are 0 and 1.
    pub const TEAMS: u32 = 2;

    // A window of a table that has `owners` owners.
    pub fn new(
        owners: u32,
        board: Board,
        start: u32,
        end: u32,
        owner: u32,
    ) -> Result<Owned, Refusal>
        ensures { told_owned result ≡ owned_answer owners (board_of board) (owned start end owner) }
    {
        let window = Window::new(board.frame, start, end)?;
        if owners <= owner {
            return Err(Refusal::Window(0));
        }
        Ok(Owned { window, owner })
    }

    // Whether the window may come after another: it starts after the other's end, or there, and is another owner's.
    #[tactic(auto, unfolding(scope::specs::Shared::follows))]
    fn follows(self, previous: Owned) -> bool
        ensures { result ≡ follows (owned_by previous) (owned_by self) }
    {
        let end = previous.window.end;
        let start = self.window.start;
        end < start || (end == start && previous.owner != self.owner)
    }

    // The ticks of the window: none where it ends no later than it starts.
    fn ticks(self) -> u32
        ensures { result ≡ self.window.end - self.window.start }
    {
        self.window.end.saturating_sub(self.window.start)
    }

    // Whether the window is shorter than the board allows.
    #[tactic(auto, unfolding(scope::specs::Shared::sliver))]
    fn is_sliver(self, board: Board) -> bool
        ensures { result ≡ sliver (board_of board) (owned_by self) }
    {
        self.ticks() < board.shortest
    }

    // Whether the window is the asked owner's and has a tick left.
    fn is_left(self, board: Board) -> bool
        ensures { result ≡ (eqb self.owner board.owner && ltb board.lost (self.window.end - self.window.start)) }
    {
        self.owner == board.owner && board.lost < self.ticks()
    }
}

// Window i of a list of threes; past the last one the window 0 0 of owner 0.
pub(crate) fn owned_at(windows: &[u32], i: usize) -> Owned
    ensures { owned_by result ≡ owned_at (owned_of windows.now) i }
{
    if i < windows.len() / 3 {
        let start = windows[3 * i];
        let end = windows[3 * i + 1];
        let owner = windows[3 * i + 2];
        return Owned {
            window: Window { start, end },
            owner,
        };
    }
    Owned {
        window: Window { start: 0, end: 0 },
        owner: 0,
    }
}

// Whether window i keeps its rule.
fn owned_legal(owners: u32, board: Board, windows: &[u32], i: usize) -> bool
    ensures { result ≡ owned_legal owners (board_of board) (owned_of windows.now) i }
{
    let here = owned_at(windows, i);
    let Window { start, end } = here.window;
    Owned::new(owners, board, start, end, here.owner).is_ok()
        && (i == 0 || here.follows(owned_at(windows, i - 1)))
}

// Refusal 3, at the lowest index of the whole list.
fn check_owned(owners: u32, board: Board, windows: &[u32]) -> Result<(), Refusal>
    ensures { fault_of result ≡ owned_fault owners (board_of board) (owned_of windows.now) }
{
    match (0..windows.len() / 3).find(|&i| !owned_legal(owners, board, windows, i)) {
        Some(i) => Err(Refusal::Window(i as u64)),
        None => Ok(()),
    }
}

// Refusals 1, 2 and 3 of the whole list.
#[tactic(auto, using(tables::proofs::FaultLaws::answered), unfolding(scope::specs::Shared::whole_fault, scope::specs::Shared::owned_list_fault, scope::specs::Answers::frame_fault))]
fn check_whole(owners: u32, board: Board, windows: &[u32]) -> Result<(), Refusal>
    ensures { fault_of result ≡ whole_fault owners (board_of board) windows.now }
{
    check_list(windows, 3)?;
    check_frame(board.frame)?;
    check_owned(owners, board, windows)
}

// How many numbers what is left of the asked owner's windows has, in pairs.
fn count_left(board: Board, windows: &[u32]) -> usize
    ensures { result ≡ length (own_left (board_of board) windows.now) }
{
    let left = (0..windows.len() / 3).filter(|&i| owned_at(windows, i).is_left(board));
    2 * left.count()
}

// Whether something is left of the asked owner's windows.
fn any_left(board: Board, windows: &[u32]) -> bool
    ensures { result ≡ ltb 0 (length (own_left (board_of board) windows.now)) }
{
    (0..windows.len() / 3).any(|i| owned_at(windows, i).is_left(board))
}

// Whether the asked owner has a window.
fn any_own(board: Board, windows: &[u32]) -> bool
    ensures { result ≡ ltb 0 (length (own (board_of board) windows.now)) }
{
    (0..windows.len() / 3).any(|i| owned_at(windows, i).owner == board.owner)
}

// Refusal 1 of an owner without a window. One that does not exist has none in a list that keeps rule 3.
fn check_present(board: Board, windows: &[u32]) -> Result<(), Refusal>
    ensures { fault_of result ≡ absent_owner_fault (board_of board) windows.now }
{
    if any_own(board, windows) {
        return Ok(());
    }
    Err(Refusal::WindowList)
}

// Refusal 13.
fn check_left(board: Board, windows: &[u32]) -> Result<(), Refusal>
    ensures { fault_of result ≡ lost_fault (board_of board) (own (board_of board) windows.now) }
{
    if any_left(board, windows) {
        return check_rule(board);
    }
    Err(Refusal::Loss)
}

// Refusal 12 of a window that is shorter than the board allows, at the lowest index of the whole list.
fn first_sliver(board: Board, windows: &[u32]) -> Result<(), Refusal>
    ensures { fault_of result ≡ fault_at 12 (first_sliver (board_of board) (owned_of windows.now)) }
{
    match (0..windows.len() / 3).find(|&i| owned_at(windows, i).is_sliver(board)) {
        Some(i) => Err(Refusal::Sliver(i as u64)),
        None => Ok(()),
    }
}

// Refusal 12 of a list without 1 2 3: the range of the shortest allowed window before any window. Where that is 1, no window is looked at: each has a tick.
#[tactic(auto, using(tables::proofs::FaultLaws::answered), unfolding(scope::specs::Shared::sliver_fault))]
fn check_slivers(owners: u32, board: Board, windows: &[u32]) -> Result<(), Refusal>
    requires { whole_fault owners (board_of board) windows.now ≡ fine }
    ensures { fault_of result ≡ sliver_fault (board_of board) windows.now }
{
    if board.shortest == 1 {
        return Ok(());
    }
    check_shortest(board)?;
    first_sliver(board, windows)
}

// The refusals of a table, in this order: 1, 2 and 3 of the whole list, 1 of an absent owner, 12, 13.
#[tactic(auto, using(tables::proofs::FaultLaws::answered), unfolding(scope::specs::Shared::shared_fault))]
pub(crate) fn check_shared(owners: u32, board: Board, windows: &[u32]) -> Result<(), Refusal>
    ensures { fault_of result ≡ shared_fault owners (board_of board) windows.now }
{
    check_whole(owners, board, windows)?;
    check_present(board, windows)?;
    check_slivers(owners, board, windows)?;
    check_left(board, windows)
}

// Writes what is left of the asked owner's windows at the front of out, in pairs: how many numbers it has. It writes where it counted: no adapter says what
// of the lent memory is left over.
fn gather(board: Board, windows: &[u32], out: &mut [u32]) -> usize
    requires { length (own_left (board_of board) windows.now) ≤ length out.old }
    ensures answer { result ≡ length (own_left (board_of board) windows.now) }
    ensures buffer { out.new ≡ written (own_left (board_of board) windows.now) out.old }
{
    let mut at = 0;
    for i in 0..windows.len() / 3 {
        let here = owned_at(windows, i);
        if here.is_left(board) {
            out[at] = board.lost + here.window.start;
            out[at + 1] = here.window.end;
            at += 2;
        }
    }
    at
}

// What is left of the asked owner's windows, in pairs, at the front of out: how many numbers it has. Whoever goes on with these pairs in the board's frame
// need not know of owner or loss (theory/Lent, `asked_taken`). Refusals: a table's, then 8.
#[tactic(auto, using(tables::proofs::FaultLaws::answered), unfolding(scope::specs::Shared::own_answer, scope::specs::Shared::own_out, scope::specs::Shared::own_fault))]
pub fn own_windows(
    owners: u32,
    board: Board,
    windows: &[u32],
    out: &mut [u32],
) -> Result<u64, Refusal>
    ensures answer { told_amount result ≡ own_answer owners (board_of board) windows.now (length out.old) }
    ensures buffer { out.new ≡ own_out owners (board_of board) windows.now out.old }
{
    check_shared(owners, board, windows)?;
    // no more is left than a pair of each window
    if out.len() < windows.len() / 3 * 2 {
        check_room(count_left(board, windows), out.len())?;
    }
    Ok(gather(board, windows, out) as u64)
}

// Where a table's windows stand as long as it is asked. Nobody but the table shows what is in it, so nothing is left to say of it afterwards.
#[derive(Drop)]
pub struct Room {
    numbers: [u32; 2 * Window::MOST],
}

impl Room {
    pub fn new() -> Room
        ensures { result.numbers ≡ replicate (2 * most_windows) 0 }
    {
        Room {
            numbers: [0; 2 * Window::MOST],
        }
    }
}

// What is left of the asked owner's windows, as a table that was checked; the room is lent to it. Refusals: a table's.
// Each entry makes the room and asks for the table itself: one function over what is asked of the table would need each entry's contract as its own.
#[tactic(auto, using(crate::proofs::SharedLaws::none_lent))]
pub fn own_table<'a>(
    board: Board,
    windows: &[u32],
    room: &'a mut Room,
) -> Result<Table<'a>, Refusal>
    ensures { told_table result ≡ own_table_answer teams (board_of board) windows.now }
{
    let left = own_windows(Owned::TEAMS, board, windows, &mut room.numbers)?;
    Ok(Table {
        frame: board.frame,
        windows: &room.numbers[..left as usize],
    })
}

// Writes the pairs as threes of one owner at the front of out. It writes where it counted, as `gather` does.
fn write_owned(owner: u32, windows: &[u32], out: &mut [u32])
    requires { length (as_owned owner windows.now) ≤ length out.old }
    ensures { out.new ≡ written (as_owned owner windows.now) out.old }
{
    let count = windows.len() / 2;
    for i in 0..count {
        out[3 * i] = windows[2 * i];
        out[3 * i + 1] = windows[2 * i + 1];
        out[3 * i + 2] = owner;
    }
    if windows.len() % 2 == 1 {
        out[3 * count] = windows[2 * count];
    }
}

// A list of pairs, all read as one owner's, at the front of out: how many numbers the threes have, where a number that is left over stays one. Refusal 8.
#[tactic(auto, using(tables::proofs::FaultLaws::answered), unfolding(scope::specs::Shared::as_owned_answer, scope::specs::Shared::as_owned_out))]
pub fn as_owned(owner: u32, windows: &[u32], out: &mut [u32]) -> Result<u64, Refusal>
    ensures answer { told_amount result ≡ as_owned_answer owner windows.now (length out.old) }
    ensures buffer { out.new ≡ as_owned_out owner windows.now out.old }
{
    let count = windows.len();
    let numbers = count / 2 * 3 + count % 2;
    check_room(numbers, out.len())?;
    write_owned(owner, windows, out);
    Ok(numbers as u64)
}
