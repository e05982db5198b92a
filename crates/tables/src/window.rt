ghost use Rattle.std.specs.Prelude.{◌≡◌, ◌%◌};
ghost use Rattle.scope.specs.Windows.{framed, windows_of, window_at, window_fits, gives, covers, supplied_by, window_legal};
ghost use Rattle.scope.specs.Answers.{list_fault, window_list_fault, window_fault, table_fault, window_answer};
ghost use Rattle.tables.specs.Told.{window_of, fault_of, told_window};

use crate::answer::Refusal;
use crate::board::check_frame;
use crate::list::bad_count;

// The ticks `start` up to but not including `end`.
#[derive(Clone, Copy, Debug, PartialEq, Eq)]
pub struct Window {
    pub start: u32,
    pub end: u32,
}

impl Window {
    // Windows of a table: 1 to 64.
    pub const MOST: usize = 64;

    pub fn new(frame: u32, start: u32, end: u32) -> Result<Window, Refusal>
        ensures { told_window result ≡ window_answer (framed frame) (record { start = start; end = end }) }
    {
        let window = Window { start, end };
        if window.fits(frame) {
            return Ok(window);
        }
        Err(Refusal::Window(0))
    }

    // Start before end, and end within the frame.
    fn fits(self, frame: u32) -> bool
        ensures { result ≡ window_fits (framed frame) (window_of self) }
    {
        let start = self.start;
        let end = self.end;
        start < end && end <= frame
    }

    // Whether the window gives tick k of a frame, where no tick is lost.
    pub(crate) fn holds(self, k: u64) -> bool
        ensures { result ≡ gives 0 (window_of self) k }
    {
        let start = u64::from(self.start);
        let end = u64::from(self.end);
        start <= k && k < end
    }
}

// Window i of a list of pairs; past the last one the window 0 0.
pub fn window_at(windows: &[u32], i: usize) -> Window
    ensures { window_of result ≡ window_at (windows_of windows.now) i }
{
    if i < windows.len() / 2 {
        let start = windows[2 * i];
        let end = windows[2 * i + 1];
        return Window { start, end };
    }
    Window { start: 0, end: 0 }
}

// Whether one of the windows gives tick k of a frame.
fn covered(windows: &[u32], k: u64) -> bool
    ensures { result ≡ covers 0 (windows_of windows.now) k }
{
    (0..windows.len() / 2).any(|i| window_at(windows, i).holds(k))
}

// A tick's place in its frame. A frame of no ticks leaves the tick as it is.
fn place_of(frame: u32, tick: u64) -> u64
    ensures { result ≡ tick % frame }
{
    tick.checked_rem(u64::from(frame)).unwrap_or(tick)
}

// Whether a tick is supplied by windows of which nothing is lost. Nothing is checked: a table that is not legal supplies ticks by the same definition.
pub fn is_on(frame: u32, windows: &[u32], tick: u64) -> bool
    ensures { result ≡ supplied_by (framed frame) windows.now tick }
{
    let place = place_of(frame, tick);
    covered(windows, place)
}

// Whether window i keeps its rule.
fn window_legal(frame: u32, windows: &[u32], i: usize) -> bool
    ensures { result ≡ window_legal (framed frame) (windows_of windows.now) i }
{
    let window = window_at(windows, i);
    Window::new(frame, window.start, window.end).is_ok()
        && (i == 0 || window_at(windows, i - 1).end < window.start)
}

// Refusal 1, of windows with `each` numbers.
pub fn check_list(windows: &[u32], each: usize) -> Result<(), Refusal>
    ensures { fault_of result ≡ list_fault each windows.now }
{
    if bad_count(windows, each, Window::MOST) {
        return Err(Refusal::WindowList);
    }
    if windows.is_empty() {
        return Err(Refusal::WindowList);
    }
    Ok(())
}

// Refusal 1, of pairs.
#[tactic(auto, unfolding(scope::specs::Answers::window_list_fault))]
pub fn check_window_list(windows: &[u32]) -> Result<(), Refusal>
    ensures { fault_of result ≡ window_list_fault windows.now }
{
    check_list(windows, 2)
}

// Refusal 3, at the lowest index.
fn check_windows(frame: u32, windows: &[u32]) -> Result<(), Refusal>
    ensures { fault_of result ≡ window_fault (framed frame) (windows_of windows.now) }
{
    match (0..windows.len() / 2).find(|&i| !window_legal(frame, windows, i)) {
        Some(i) => Err(Refusal::Window(i as u64)),
        None => Ok(()),
    }
}

// Refusals 1, 2 and 3.
#[tactic(auto, using(crate::proofs::FaultLaws::answered), unfolding(scope::specs::Answers::table_fault))]
pub fn check_table(frame: u32, windows: &[u32]) -> Result<(), Refusal>
    ensures { fault_of result ≡ table_fault (framed frame) windows.now }
{
    check_window_list(windows)?;
    check_frame(frame)?;
    check_windows(frame, windows)
}
