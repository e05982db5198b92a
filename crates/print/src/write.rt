// The bytes of a plan. Document 01, "The plan file and its line".
ghost use Rattle.std.specs.Prelude.{◌≡◌, [], ◌++◌, ◌+◌, ◌*◌, ◌/◌, ◌≤◌, ◌<◌, length, take};
ghost use Rattle.scope.specs.Limits.{most_settings};
ghost use Rattle.scope.specs.Plan.{number_bytes, numbers_bytes, plan_bytes, write_answer, write_out};
ghost use Rattle.tables.specs.Told.{told_amount};
ghost use Rattle.print.specs.Text.{Short, shown};
ghost use Rattle.print.specs.Told.{listed};

use crate::text::Text;
use plan::check::LONGEST;
use tables::answer::Refusal;
use tables::task::check_task_list;
use tables::window::check_window_list;

// What stands before P: nothing; the shortest allowed window; or that, the rule and the lost ticks.
#[derive(Clone, Copy, Debug, PartialEq, Eq)]
pub enum Settings {
    Plain,
    WithShortest { shortest: u32 },
    WithRule { shortest: u32, rule: u32, lost: u32 },
}

// A number from an offset on, and the offset after it. Seven bits a byte, the low ones first, the top bit set on every byte but the last.
#[tactic(auto, using(crate::proofs::TextLaws::by_groups))]
fn number_at(bytes: &mut [u8; LONGEST], at: usize, n: u32) -> usize
    requires { at + length (number_bytes n) ≤ LONGEST }
    ensures text { take result bytes.new ≡ take at bytes.old ++ number_bytes n }
    ensures end { result ≡ at + length (number_bytes n) }
{
    if n < 128 {
        bytes[at] = n as u8;
        return at + 1;
    }
    bytes[at] = (128 + n % 128) as u8;
    number_at(bytes, at + 1, n / 128)
}

fn put_number(text: &mut Text<LONGEST>, n: u32)
    requires { length (shown text.old) + length (number_bytes n) ≤ LONGEST }
    ensures { shown text.new ≡ shown text.old ++ number_bytes n }
{
    text.end = number_at(&mut text.bytes, text.end, n);
}

// The offset is stored once, at the end: stored with each number it would be read back from memory for the next.
#[tactic(auto, using(crate::proofs::TextLaws::part_by_part), unfolding(scope::specs::Plan::numbers_bytes))]
fn put_numbers(text: &mut Text<LONGEST>, list: &[u32])
    requires { length (shown text.old) + 5 * length list.now ≤ LONGEST }
    ensures list { shown text.new ≡ shown text.old ++ numbers_bytes list.now }
    ensures most { length (shown text.new) ≤ length (shown text.old) + 5 * length list.now }
{
    let mut at = text.end;
    for n in list {
        at = number_at(&mut text.bytes, at, *n);
    }
    text.end = at;
}

// How many windows or tasks, in one byte, then their numbers.
#[tactic(auto, using(crate::proofs::TextLaws::part_by_part))]
fn put_counted(text: &mut Text<LONGEST>, count: u32, list: &[u32])
    requires { (count < 128) × (length (shown text.old) + 1 + 5 * length list.now ≤ LONGEST) }
    ensures list { shown text.new ≡ shown text.old ++ (number_bytes count ++ numbers_bytes list.now) }
    ensures most { length (shown text.new) ≤ length (shown text.old) + 1 + 5 * length list.now }
{
    put_number(text, count);
    put_numbers(text, list);
}

#[tactic(auto, using(crate::proofs::TextLaws::part_by_part), unfolding(scope::specs::Plan::plan_bytes))]
fn put_plan(text: &mut Text<LONGEST>, settings: &[u32], frame: u32, windows: &[u32], tasks: &[u32])
    requires { Short settings.now windows.now tasks.now × (shown text.old ≡ []) }
    ensures { shown text.new ≡ plan_bytes (record { settings = settings.entry.now; frame = frame; windows = windows.now; tasks = tasks.now }) }
{
    put_numbers(text, settings);
    put_number(text, frame);
    put_counted(text, (windows.len() / 2) as u32, windows);
    put_counted(text, (tasks.len() / 3) as u32, tasks);
}

// The bytes of a plan with these settings at the front of out, the rest of out kept: how many. Refusals 1 4 8.
#[tactic(auto, using(tables::proofs::FaultLaws::answered, crate::proofs::TextLaws::delivered), unfolding(scope::specs::Plan::write_answer, scope::specs::Plan::write_out, scope::specs::Plan::write_fault))]
fn write_with(
    settings: &[u32],
    frame: u32,
    windows: &[u32],
    tasks: &[u32],
    out: &mut [u8],
) -> Result<u64, Refusal>
    requires { length settings.now ≤ most_settings }
    ensures answer { told_amount result ≡ write_answer (record { settings = settings.entry.now; frame = frame; windows = windows.now; tasks = tasks.now })
        (length out.old) }
    ensures buffer { out.new ≡ write_out (record { settings = settings.entry.now; frame = frame; windows = windows.now; tasks = tasks.now })
        out.old }
{
    check_window_list(windows)?;
    check_task_list(tasks)?;
    let mut text = Text::new();
    put_plan(&mut text, settings, frame, windows, tasks);
    text.deliver(out)
}

// A plan that has these settings first.
pub fn write_plan(
    settings: Settings,
    frame: u32,
    windows: &[u32],
    tasks: &[u32],
    out: &mut [u8],
) -> Result<u64, Refusal>
    ensures answer { told_amount result ≡ write_answer (record { settings = listed settings; frame = frame; windows = windows.now; tasks = tasks.now })
        (length out.old) }
    ensures buffer { out.new ≡ write_out (record { settings = listed settings; frame = frame; windows = windows.now; tasks = tasks.now })
        out.old }
{
    match settings {
        Settings::Plain => write_with(&[], frame, windows, tasks, out),
        Settings::WithShortest { shortest } => write_with(&[shortest], frame, windows, tasks, out),
        Settings::WithRule {
            shortest,
            rule,
            lost,
        } => write_with(&[shortest, rule, lost], frame, windows, tasks, out),
    }
}
