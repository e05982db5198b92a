// The least supply as the numbers of a summary tell it: A for each whole frame, and of the rest what the critical windows have of it.
ghost use Rattle.std.specs.Prelude.{◌≡◌, ◌^◌, ◌<◌, ◌≤◌, length, get_or};
ghost use Rattle.scope.specs.Limits.{most_frame, most_length};
ghost use Rattle.scope.specs.Windows.{framed, windows_of};
ghost use Rattle.scope.specs.Summary.{windows_in, ticks_before, least_from};
ghost use Rattle.tables.specs.Told.{told_amount};
ghost use Rattle.summaries.specs.Least.{most_ticks, from_answer};

use tables::answer::Refusal;
use tables::board::check_frame;
use tables::length::check_length;

// The ticks of windows before tick r. No window is looked at from the first one on that starts there or later.
#[tactic(auto, using(crate::proofs::LeastLaws::left_none, crate::proofs::LeastLaws::left_more, crate::proofs::LeastLaws::left_end))]
fn ticks_before(windows: &[u32], r: u32) -> u64
    requires { (length windows.now < 2 ^ 33) × (r ≤ most_frame) }
    ensures { result ≡ ticks_before (windows_of windows.now) r }
{
    let (pairs, _) = windows.as_chunks::<2>();
    let mut ticks = 0;
    for &[start, end] in pairs {
        if r <= start {
            return ticks;
        }
        // none where it ends no later than it starts
        ticks += u64::from(r.min(end).saturating_sub(start));
    }
    ticks
}

// The ticks of the critical windows that stand in a summary before tick r: as many windows as its third number tells, or as the memory holds.
#[tactic(auto, using(crate::proofs::LeastLaws::none_in))]
fn ticks_in(summary: &[u32], r: u32) -> u64
    requires { r ≤ most_frame }
    ensures { (result ≡ ticks_before (windows_in summary.now) r) × (result ≤ most_ticks) }
{
    let [_, _, count, windows @ ..] = summary else {
        return 0;
    };
    let numbers = 2 * *count as usize;
    ticks_before(&windows[..numbers.min(windows.len())], r)
}

// A as a summary tells it.
fn whole_in(summary: &[u32]) -> u32
    ensures { result ≡ get_or summary.now 0 0 }
{
    summary.first().copied().unwrap_or(0)
}

// The least supply of a length that is in its range.
#[tactic(auto, unfolding(scope::specs::Summary::least_from))]
fn sum_from(frame: u32, summary: &[u32], length: u32) -> u64
    requires { (0 < frame) × (frame ≤ most_frame) × (length ≤ most_length) }
    ensures { result ≡ least_from frame summary.now length }
{
    let frames = length / frame;
    let ticks = ticks_in(summary, length % frame);
    u64::from(frames) * u64::from(whole_in(summary)) + ticks
}

// The least supply of a length as a summary's numbers tell it, whatever they are. Refusals 2 7.
#[tactic(auto, using(tables::proofs::FaultLaws::answered, theory::specs::Answers::frame_legal, theory::specs::Answers::length_legal), unfolding(crate::specs::Least::from_answer))]
pub fn least_from(frame: u32, summary: &[u32], length: u32) -> Result<u64, Refusal>
    ensures { told_amount result ≡ from_answer (framed frame) summary.now length }
{
    check_frame(frame)?;
    check_length(length)?;
    Ok(sum_from(frame, summary, length))
}
