ghost use Rattle.std.specs.Prelude.{◌≡◌, [], ◌∷◌, length};
ghost use Rattle.scope.specs.Plan.{write_answer, write_out};
ghost use Rattle.scope.specs.Shared.{plan_answer};
ghost use Rattle.scope.specs.Line.{line_answer, line_out};
ghost use Rattle.tables.specs.Told.{told_verdict};
ghost use Rattle.host.specs.Told.{c_amount, c_verdict};

use crate::answer::Answer;
use plan::check::{Form, check_plan};
use print::line::line;
use print::write::{Settings, write_plan};
use tables::answer::{Refusal, Verdict};

// The verdict of a plan file. Refusal 9, and 1 and 4 as soon as a count is read; then 2 3 5 6.
pub fn palikudyom_plan(bytes: &[u8]) -> Answer
    ensures { result ≡ c_verdict (plan_answer 0 bytes.now) }
{
    check_plan(bytes, Form::Plain).into()
}

// Of a plan file with the shortest allowed window first; 12 comes after 3.
pub fn palikudyom_plan_with_shortest(bytes: &[u8]) -> Answer
    ensures { result ≡ c_verdict (plan_answer 1 bytes.now) }
{
    check_plan(bytes, Form::WithShortest).into()
}

// Of a plan file with the shortest allowed window, the rule and the lost ticks first; 13 comes after 12.
pub fn palikudyom_plan_with_rule(bytes: &[u8]) -> Answer
    ensures { result ≡ c_verdict (plan_answer 3 bytes.now) }
{
    check_plan(bytes, Form::WithRule).into()
}

// How many bytes the line of a verdict has; the line goes into `out`. Refusal 8.
fn line_of(verdict: Result<Verdict, Refusal>, out: &mut [u8]) -> Answer
    ensures answer { result ≡ c_amount (line_answer (told_verdict verdict) (length out.old)) }
    ensures buffer { out.new ≡ line_out (told_verdict verdict) out.old }
{
    line(verdict, out).into()
}

// The line of a plan file: a refused plan has one too.
pub fn palikudyom_line(bytes: &[u8], out: &mut [u8]) -> Answer
    ensures answer { result ≡ c_amount (line_answer (plan_answer 0 bytes.now) (length out.old)) }
    ensures buffer { out.new ≡ line_out (plan_answer 0 bytes.now) out.old }
{
    line_of(check_plan(bytes, Form::Plain), out)
}

// Of a plan file with the shortest allowed window first.
pub fn palikudyom_line_with_shortest(bytes: &[u8], out: &mut [u8]) -> Answer
    ensures answer { result ≡ c_amount (line_answer (plan_answer 1 bytes.now) (length out.old)) }
    ensures buffer { out.new ≡ line_out (plan_answer 1 bytes.now) out.old }
{
    line_of(check_plan(bytes, Form::WithShortest), out)
}

// Of a plan file with the shortest allowed window, the rule and the lost ticks first.
pub fn palikudyom_line_with_rule(bytes: &[u8], out: &mut [u8]) -> Answer
    ensures answer { result ≡ c_amount (line_answer (plan_answer 3 bytes.now) (length out.old)) }
    ensures buffer { out.new ≡ line_out (plan_answer 3 bytes.now) out.old }
{
    line_of(check_plan(bytes, Form::WithRule), out)
}

// How many bytes the plan file has; they go into `out`. Refusals 1 4 8.
pub fn palikudyom_write_plan(frame: u32, windows: &[u32], tasks: &[u32], out: &mut [u8]) -> Answer
    ensures answer { result ≡ c_amount (write_answer (record { settings = []; frame = frame; windows = windows.now; tasks = tasks.now })
        (length out.old)) }
    ensures buffer { out.new ≡ write_out (record { settings = []; frame = frame; windows = windows.now; tasks = tasks.now })
        out.old }
{
    write_plan(Settings::Plain, frame, windows, tasks, out).into()
}

// With the shortest allowed window first.
pub fn palikudyom_write_plan_with_shortest(
    shortest: u32,
    frame: u32,
    windows: &[u32],
    tasks: &[u32],
    out: &mut [u8],
) -> Answer
    ensures answer { result ≡ c_amount (write_answer (record { settings = shortest ∷ []; frame = frame; windows = windows.now; tasks = tasks.now })
        (length out.old)) }
    ensures buffer { out.new ≡ write_out (record { settings = shortest ∷ []; frame = frame; windows = windows.now; tasks = tasks.now })
        out.old }
{
    write_plan(
        Settings::WithShortest { shortest },
        frame,
        windows,
        tasks,
        out,
    )
    .into()
}

// With the shortest allowed window, the rule and the lost ticks first.
pub fn palikudyom_write_plan_with_rule(
    shortest: u32,
    rule: u32,
    lost: u32,
    frame: u32,
    windows: &[u32],
    tasks: &[u32],
    out: &mut [u8],
) -> Answer
    ensures answer { result ≡ c_amount (write_answer (record { settings = shortest ∷ rule ∷ lost ∷ []; frame = frame; windows = windows.now; tasks = tasks.now })
        (length out.old)) }
    ensures buffer { out.new ≡ write_out (record { settings = shortest ∷ rule ∷ lost ∷ []; frame = frame; windows = windows.now; tasks = tasks.now })
        out.old }
{
    let settings = Settings::WithRule {
        shortest,
        rule,
        lost,
    };
    write_plan(settings, frame, windows, tasks, out).into()
}
