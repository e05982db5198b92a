ghost use Rattle.std.specs.Prelude.{◌≡◌, ◌≤◌, ◌<◌, length as length_of};
ghost use Rattle.scope.specs.Limits.{most_length};
ghost use Rattle.scope.specs.Windows.{framed, supplied_by};
ghost use Rattle.scope.specs.Tasks.{tasks_of};
ghost use Rattle.scope.specs.Bound.{asked, response};
ghost use Rattle.scope.specs.Answers.{bound_answer};
ghost use Rattle.scope.specs.Shared.{bound_for};
ghost use Rattle.tables.specs.Told.{board_of, bound_of, told_bound};

use shared::table::{Room, own_table};
use supply::supply::least_of;
use tables::answer::Refusal;
use tables::board::Board;
use tables::group::Group;
use tables::table::Table;
use tables::task::task_at;

// What task `index` and those above it ask for in `length` ticks.
#[tactic(auto, using(crate::proofs::BoundLaws::asking))]
fn asked_of(group: Group<'_>, index: usize, length: u32) -> u64
    requires { (index < length_of (tasks_of group.tasks.now)) × (length ≤ most_length) }
    ensures { result ≡ asked (tasks_of group.entry.tasks.now) index length }
{
    let mut sum = u64::from(task_at(group.tasks, index).work);
    for j in 0..index {
        let above = task_at(group.tasks, j);
        sum += u64::from(length.div_ceil(above.period)) * u64::from(above.work);
    }
    sum
}

// The least length up to the deadline whose least supply is at least what is asked. What is asked never falls, and a tick more supplies at most one
// more: as many ticks as are missing are needed at least, and the lengths between are passed over.
#[tactic(auto, using(crate::proofs::BoundLaws::responding))]
fn response_of(table: Table<'_>, group: Group<'_>, index: usize) -> Option<u32>
    requires { index < length_of (tasks_of group.tasks.now) }
    ensures { bound_of result ≡ response (supplied_by (framed table.entry.frame) table.entry.windows.now) table.entry.frame
        (tasks_of group.entry.tasks.now) index }
{
    let deadline = u64::from(task_at(group.tasks, index).deadline);
    let mut length: u64 = 1;
    while length <= deadline {
        let ticks = length as u32;
        let least = u64::from(least_of(table, ticks));
        let asked = asked_of(group, index, ticks);
        if asked <= least {
            return Some(ticks);
        }
        length += asked - least;
    }
    None
}

// The bound on a table. Refusals 4 5 7.
#[tactic(auto, using(supply::proofs::TableLaws::answered, crate::proofs::GroupLaws::grouped, crate::proofs::BoundLaws::absent, crate::proofs::BoundLaws::present, crate::proofs::BoundLaws::tasks_count), unfolding(scope::specs::Answers::bound_answer))]
fn bound_on(table: Table<'_>, tasks: &[u32], index: u32) -> Result<Option<u32>, Refusal>
    ensures { told_bound result ≡ bound_answer (framed table.entry.frame) table.entry.windows.now tasks.now index }
{
    let group = Group::new(tasks)?;
    let i = index as usize;
    if group.tasks.len() / 3 <= i {
        return Err(Refusal::Asked);
    }
    Ok(response_of(table, group, i))
}

// The response bound of task `index` under fixed priority, lower index first, on the asked owner's windows. Refusals: a table's, then 4 5 7.
pub fn bound(
    board: Board,
    windows: &[u32],
    tasks: &[u32],
    index: u32,
) -> Result<Option<u32>, Refusal>
    ensures { told_bound result ≡ bound_for (board_of board) windows.now tasks.now index }
{
    let mut room = Room::new();
    let table = own_table(board, windows, &mut room)?;
    bound_on(table, tasks, index)
}
