// A plan file's numbers, or where they are bad. Nothing is judged here but the two counts. Document 01, "The plan file and its line"; how many settings stand
// before P is the length of their buffer.
ghost use Rattle.std.specs.Prelude.{◌≡◌, ◌*◌, ◌≤◌, length};
ghost use Rattle.scope.specs.Plan.{read_numbers, count_fault, counted_from, plan_of};
ghost use Rattle.tables.specs.Told.{number, place};
ghost use Rattle.plan.specs.Told.{told_filled, told_listed, told_plan};

use crate::number::{Damaged, read_number};
use tables::answer::Refusal;
use tables::task::Task;
use tables::window::Window;

// A list that has its count first: `each` numbers for each of `least` to `most`, and what refuses any other count.
#[derive(Clone, Copy)]
struct Counted {
    each: usize,
    least: usize,
    most: usize,
    refusal: Refusal,
}

const WINDOWS: Counted = Counted {
    each: 2,
    least: 1,
    most: Window::MOST,
    refusal: Refusal::WindowList,
};

const TASKS: Counted = Counted {
    each: 3,
    least: 0,
    most: Task::MOST,
    refusal: Refusal::TaskList,
};

// Numbers that were read, with the offset after them.
#[derive(Clone, Copy)]
pub(crate) struct Listed<'a> {
    pub numbers: &'a [u32],
    pub next: usize,
}

// A plan that was read.
#[derive(Clone, Copy)]
pub(crate) struct ReadPlan<'a> {
    pub settings: &'a [u32],
    pub frame: u32,
    pub windows: &'a [u32],
    pub tasks: &'a [u32],
}

// As many numbers as the buffer has, from an offset on: the offset after them.
#[tactic(auto, using(crate::proofs::ReadLaws::in_a_row), unfolding(scope::specs::Plan::read_numbers))]
fn read_numbers(bytes: &[u8], at: usize, out: &mut [u32]) -> Result<usize, Damaged>
    ensures { told_filled result out.new ≡ read_numbers bytes.now (length out.old) at }
{
    let mut next = at;
    for place in out.iter_mut() {
        let number = read_number(bytes, next)?;
        *place = number.value;
        next = number.next;
    }
    Ok(next)
}

// A list with its count. A count that is refused is answered as soon as it is read.
#[tactic(auto, using(crate::proofs::ReadLaws::part_by_part), unfolding(scope::specs::Plan::counted_from))]
fn read_counted<'a>(
    bytes: &[u8],
    at: usize,
    list: Counted,
    out: &'a mut [u32],
) -> Result<Listed<'a>, Refusal>
    requires { (place list.refusal ≡ 0) × (list.each * list.most ≤ length out.old) }
    ensures { told_listed result ≡ counted_from list.each (count_fault list.least list.most (number list.refusal)) bytes.now at }
{
    let count = read_number(bytes, at)?;
    let n = count.value as usize;
    if n < list.least || list.most < n {
        return Err(list.refusal);
    }
    let numbers = &mut out[..list.each * n];
    let next = read_numbers(bytes, count.next, numbers)?;
    Ok(Listed { numbers, next })
}

// A plan file with as many settings as their buffer has.
#[tactic(auto, using(crate::proofs::ReadLaws::part_by_part), unfolding(scope::specs::Plan::plan_of, scope::specs::Plan::plan_from, scope::specs::Plan::lists_from))]
pub(crate) fn read_plan<'a>(
    bytes: &[u8],
    settings: &'a mut [u32],
    windows: &'a mut [u32; 2 * Window::MOST],
    tasks: &'a mut [u32; 3 * Task::MOST],
) -> Result<ReadPlan<'a>, Refusal>
    ensures { told_plan result ≡ plan_of (length settings.old) bytes.now }
{
    let next = read_numbers(bytes, 0, settings)?;
    let frame = read_number(bytes, next)?;
    let windows = read_counted(bytes, frame.next, WINDOWS, windows)?;
    let tasks = read_counted(bytes, windows.next, TASKS, tasks)?;
    if tasks.next < bytes.len() {
        return Err(Refusal::from(Damaged { at: tasks.next }));
    }
    Ok(ReadPlan {
        settings,
        frame: frame.value,
        windows: windows.numbers,
        tasks: tasks.numbers,
    })
}
