ghost use Rattle.std.specs.Prelude.{◌≡◌, [], ◌+◌, ◌*◌, ◌≤◌, length, get_or, replicate};
ghost use Rattle.scope.specs.Limits.{most_settings, most_windows};
ghost use Rattle.scope.specs.Shared.{as_owned, verdict_for, plan_board, plan_answer};
ghost use Rattle.theory.specs.Plan.{most_plan_bytes};
ghost use Rattle.tables.specs.Told.{board_of, told_verdict};
ghost use Rattle.plan.specs.Told.{settings_of};

use crate::number::Number;
use crate::read::read_plan;
use checker::verdict::verdict;
use shared::table::as_owned;
use tables::answer::{Refusal, Verdict};
use tables::board::Board;
use tables::task::Task;
use tables::window::Window;

// What stands before P: nothing; the shortest allowed window; or that, the rule and the lost ticks. Without them every window is allowed, and given whole.
#[derive(Clone, Copy, Debug, PartialEq, Eq)]
pub enum Form {
    Plain,
    WithShortest,
    WithRule,
}

impl Form {
    // How many settings these are.
    fn settings(self) -> usize
        ensures { result ≡ settings_of self }
    {
        match self {
            Form::Plain => 0,
            Form::WithShortest => 1,
            Form::WithRule => 3,
        }
    }
}

// The most settings that a form of the file has before P.
pub const SETTINGS: usize = 3;

// The bytes of the longest plan of any form: each setting and P have at most five, the two counts have one each, and each number of a window or a task has
// at most five.
pub const LONGEST: usize = Number::MOST_GROUPS * (SETTINGS + 1 + 2 * Window::MOST + 3 * Task::MOST)
    + 2;

// What a plan file is read to. It has one byte more than the longest plan, so that a longer file answers as what is read of it (theory/Plan,
// `first_answer`).
pub fn buffer() -> [u8; LONGEST + 1]
    ensures { result ≡ replicate (most_plan_bytes most_settings + 1) 0 }
{
    [0; LONGEST + 1]
}

// Setting i, where a plan has it; else what a form without it stands for.
fn setting(settings: &[u32], i: usize, meant: u32) -> u32
    ensures { result ≡ get_or settings.now i meant }
{
    settings.get(i).copied().unwrap_or(meant)
}

// The board of a plan: its settings, where it has them, and owner 0.
fn board_of(frame: u32, settings: &[u32]) -> Board
    ensures { board_of result ≡ plan_board (record { settings = settings.entry.now; frame = frame; windows = []; tasks = [] }) }
{
    let shortest = setting(settings, 0, 1);
    let rule = setting(settings, 1, Board::WHOLE);
    let lost = setting(settings, 2, 0);
    Board {
        frame,
        owner: 0,
        shortest,
        rule,
        lost,
    }
}

// The verdict on a plan's windows, which are pairs and owner 0's. Refusals: a table's, then 4 5 6.
#[tactic(auto, using(crate::proofs::OwnedLaws::as_threes))]
fn verdict_of(board: Board, windows: &[u32], tasks: &[u32]) -> Result<Verdict, Refusal>
    requires { length windows.now ≤ 2 * most_windows }
    ensures { told_verdict result ≡ verdict_for (board_of board) (as_owned 0 windows.now) tasks.now }
{
    let mut owned = [0; 3 * Window::MOST];
    let n = as_owned(0, windows, &mut owned)?;
    verdict(board, &owned[..n as usize], tasks)
}

// The verdict of a plan file of a form. Refusal 9 and the two early answers as the file is read, then 2 3 12 13 5 6.
#[tactic(auto, using(crate::proofs::ReadLaws::plan_refused))]
pub fn check_plan(bytes: &[u8], form: Form) -> Result<Verdict, Refusal>
    ensures { told_verdict result ≡ plan_answer (settings_of form) bytes.now }
{
    let mut settings = [0; SETTINGS];
    let mut windows = [0; 2 * Window::MOST];
    let mut tasks = [0; 3 * Task::MOST];
    let plan = read_plan(
        bytes,
        &mut settings[..form.settings()],
        &mut windows,
        &mut tasks,
    )?;
    let board = board_of(plan.frame, plan.settings);
    verdict_of(board, plan.windows, plan.tasks)
}
