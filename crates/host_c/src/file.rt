ghost use Rattle.std.specs.Prelude.{◌≡◌, [], ◌∷◌, length};
ghost use Rattle.scope.specs.Plan.{write_answer, write_out};
ghost use Rattle.scope.specs.Shared.{plan_answer};
ghost use Rattle.scope.specs.Line.{line_answer, line_out};
ghost use Rattle.host.specs.Told.{c_amount, c_verdict};

use host::answer::Answer;

// The verdict of a plan file. Refusal 9, and 1 and 4 as soon as a count is read; then 2 3 5 6.
#[unsafe(no_mangle)]
pub extern "C" fn palikudyom_plan(bytes: &[u8]) -> Answer
    ensures { result ≡ c_verdict (plan_answer 0 bytes.now) }
{
    host::file::palikudyom_plan(bytes)
}

// Of a plan file with the shortest allowed window first; 12 comes after 3.
#[unsafe(no_mangle)]
pub extern "C" fn palikudyom_plan_with_shortest(bytes: &[u8]) -> Answer
    ensures { result ≡ c_verdict (plan_answer 1 bytes.now) }
{
    host::file::palikudyom_plan_with_shortest(bytes)
}

// Of a plan file with the shortest allowed window, the rule and the lost ticks first; 13 comes after 12.
#[unsafe(no_mangle)]
pub extern "C" fn palikudyom_plan_with_rule(bytes: &[u8]) -> Answer
    ensures { result ≡ c_verdict (plan_answer 3 bytes.now) }
{
    host::file::palikudyom_plan_with_rule(bytes)
}

// The line of a plan file: a refused plan has one too.
#[unsafe(no_mangle)]
pub extern "C" fn palikudyom_line(bytes: &[u8], out: &mut [u8]) -> Answer
    ensures answer { result ≡ c_amount (line_answer (plan_answer 0 bytes.now) (length out.old)) }
    ensures buffer { out.new ≡ line_out (plan_answer 0 bytes.now) out.old }
{
    host::file::palikudyom_line(bytes, out)
}

// Of a plan file with the shortest allowed window first.
#[unsafe(no_mangle)]
pub extern "C" fn palikudyom_line_with_shortest(bytes: &[u8], out: &mut [u8]) -> Answer
    ensures answer { result ≡ c_amount (line_answer (plan_answer 1 bytes.now) (length out.old)) }
    ensures buffer { out.new ≡ line_out (plan_answer 1 bytes.now) out.old }
{
    host::file::palikudyom_line_with_shortest(bytes, out)
}

// Of a plan file with the shortest allowed window, the rule and the lost ticks first.
#[unsafe(no_mangle)]
pub extern "C" fn palikudyom_line_with_rule(bytes: &[u8], out: &mut [u8]) -> Answer
    ensures answer { result ≡ c_amount (line_answer (plan_answer 3 bytes.now) (length out.old)) }
    ensures buffer { out.new ≡ line_out (plan_answer 3 bytes.now) out.old }
{
    host::file::palikudyom_line_with_rule(bytes, out)
}

// How many bytes the plan file has; they go into `out`. Refusals 1 4 8.
#[unsafe(no_mangle)]
pub extern "C" fn palikudyom_write_plan(
    frame: u32,
    windows: &[u32],
    tasks: &[u32],
    out: &mut [u8],
) -> Answer
    ensures answer { result ≡ c_amount (write_answer (record { settings = []; frame = frame; windows = windows.now; tasks = tasks.now })
        (length out.old)) }
    ensures buffer { out.new ≡ write_out (record { settings = []; frame = frame; windows = windows.now; tasks = tasks.now })
        out.old }
{
    host::file::palikudyom_write_plan(frame, windows, tasks, out)
}

// With the shortest allowed window first.
#[unsafe(no_mangle)]
pub extern "C" fn palikudyom_write_plan_with_shortest(
    shortest: u32,
    frame: u32,
    windows: &[u32],
    tasks: &[u32],
    out: &mut [u8],
) -> Answer
    ensures answer { result ≡ c_amount (write_answer (record { settings = shortest ∷ []; frame = frame; windows = windows.now; tasks = tasks.now })
        (length out.old)) }
    ensures buffer { out.new ≡ write_out (record { settings = shortest ∷ []; frame = frame; windows = windows.now; tasks = tasks.now })
        out.old }
{
    host::file::palikudyom_write_plan_with_shortest(shortest, frame, windows, tasks, out)
}

// With the shortest allowed window, the rule and the lost ticks first.
#[unsafe(no_mangle)]
pub extern "C" fn palikudyom_write_plan_with_rule(
    shortest: u32,
    rule: u32,
    lost: u32,
    frame: u32,
    windows: &[u32],
    tasks: &[u32],
    out: &mut [u8],
) -> Answer
    ensures answer { result ≡ c_amount (write_answer (record { settings = shortest ∷ rule ∷ lost ∷ []; frame = frame; windows = windows.now; tasks = tasks.now })
        (length out.old)) }
    ensures buffer { out.new ≡ write_out (record { settings = shortest ∷ rule ∷ lost ∷ []; frame = frame; windows = windows.now; tasks = tasks.now })
        out.old }
{
    host::file::palikudyom_write_plan_with_rule(shortest, rule, lost, frame, windows, tasks, out)
}
