ghost use Rattle.std.specs.Prelude.{◌≡◌, ◌*◌, ◌^◌, ◌<◌, ◌≤◌, pos, ◌-ℤ◌};
ghost use Rattle.scope.specs.Windows.{framed};
ghost use Rattle.scope.specs.Limits.{most_tasks, most_of_task, most_length};
ghost use Rattle.scope.specs.Tasks.{tasks_of, demand as demandBy};
ghost use Rattle.scope.specs.Answers.{demand_answer, margin_answer};
ghost use Rattle.scope.specs.Shared.{margin_for};
ghost use Rattle.tables.specs.Told.{board_of, told_amount, told_margin};

use shared::table::{Room, own_table};
use supply::supply::least_of;
use tables::answer::Refusal;
use tables::board::Board;
use tables::group::Group;
use tables::length::check_length;
use tables::table::Table;
use tables::task::task_at;

// The demand of a group.
#[tactic(auto, using(crate::proofs::DemandLaws::demanded))]
pub(crate) fn demand_of(group: Group<'_>, length: u32) -> u64
    requires { length ≤ most_length }
    ensures { (result ≡ demandBy (tasks_of group.entry.tasks.now) length) × (result ≤ most_tasks * (most_length * most_of_task)) }
{
    let mut sum = 0;
    for i in 0..group.tasks.len() / 3 {
        sum += task_at(group.tasks, i).demand(length);
    }
    sum
}

// Supply minus demand, a signed number.
#[tactic(auto, using(std::proofs::lemmas::Int::ints))]
pub(crate) fn difference(supply: u64, demand: u64) -> i64
    requires { (supply < 2 ^ 63) × (demand < 2 ^ 63) }
    ensures { result ≡ pos supply -ℤ pos demand }
{
    (supply as i64) - (demand as i64)
}

// The demand of a group at a length. Refusals 4 5 7.
#[tactic(auto, using(supply::proofs::TableLaws::answered, crate::proofs::GroupLaws::grouped), unfolding(scope::specs::Answers::demand_answer))]
pub fn demand(tasks: &[u32], length: u32) -> Result<u64, Refusal>
    ensures { told_amount result ≡ demand_answer tasks.now length }
{
    let group = Group::new(tasks)?;
    check_length(length)?;
    Ok(demand_of(group, length))
}

// The margin on a table. Refusals 4 5 7.
#[tactic(auto, using(supply::proofs::TableLaws::answered, crate::proofs::GroupLaws::grouped, std::proofs::lemmas::Int::ints, crate::proofs::DemandLaws::margin_found), unfolding(scope::specs::Answers::margin_answer))]
fn margin_on(table: Table<'_>, tasks: &[u32], length: u32) -> Result<i64, Refusal>
    ensures { told_margin result ≡ margin_answer (framed table.entry.frame) table.entry.windows.now tasks.now length }
{
    let group = Group::new(tasks)?;
    check_length(length)?;
    let supply = least_of(table, length);
    let demand = demand_of(group, length);
    Ok(difference(u64::from(supply), demand))
}

// Least supply of the asked owner's windows minus demand, at a length. Refusals: a table's, then 4 5 7.
pub fn margin(board: Board, windows: &[u32], tasks: &[u32], length: u32) -> Result<i64, Refusal>
    ensures { told_margin result ≡ margin_for (board_of board) windows.now tasks.now length }
{
    let mut room = Room::new();
    let table = own_table(board, windows, &mut room)?;
    margin_on(table, tasks, length)
}
