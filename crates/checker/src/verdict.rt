ghost use Rattle.std.specs.Prelude.{◌≡◌, cond, ◌≤◌, leb};
ghost use Rattle.scope.specs.Limits.{most_cycle};
ghost use Rattle.scope.specs.Ticks.{least_supply};
ghost use Rattle.scope.specs.Windows.{framed, supplied_by};
ghost use Rattle.scope.specs.Tasks.{tasks_of};
ghost use Rattle.scope.specs.Verdict.{verdict as verdictBy};
ghost use Rattle.scope.specs.Answers.{verdict_answer};
ghost use Rattle.scope.specs.Shared.{verdict_for};
ghost use Rattle.tables.specs.Told.{board_of, verdict_of, told_verdict};

use crate::cycle::Cycle;
use crate::rise::Dues;
use crate::stretch::Stretch;
use shared::table::{Room, own_table};
use supply::supply::least_of;
use tables::answer::{Refusal, Verdict};
use tables::board::Board;
use tables::group::Group;
use tables::table::Table;

// `known` where it is enough for the demand, else the least supply of the length.
#[tactic(auto, using(std::proofs::lemmas::Bool::Decides::nat_tests))]
fn known_or_least(table: Table<'_>, length: u32, known: u32, demand: u64) -> u32
    ensures { result ≡ cond (leb demand known) known
        (least_supply (supplied_by (framed table.entry.frame) table.entry.windows.now) table.entry.frame length) }
{
    if demand <= u64::from(known) {
        return known;
    }
    least_of(table, length)
}

// The first length whose demand exceeds the least supply, and its first start that holds the least supply. Lengths at which the demand does not rise
// are passed over. Whole frames give every start as much, so the starts are compared on the rest of the length. The named form: lengths outside, starts
// inside, left by the label (docs/DECISIONS.md, "The search").
fn search(table: Table<'_>, group: Group<'_>, cycle: u32) -> Verdict
    requires { cycle ≤ most_cycle }
    ensures { verdict_of result ≡ verdictBy (supplied_by (framed table.entry.frame) table.entry.windows.now)
        table.entry.frame (tasks_of group.entry.tasks.now) cycle }
{
    let mut found = Verdict::Meets { cycle };
    let mut dues = Dues::new(group);
    let mut demand = 0;
    let mut supply = 0;
    let mut length = dues.rise_at(group, 0).next;
    'search: while length <= cycle {
        let risen = dues.rise_at(group, length);
        demand += risen.by;
        supply = known_or_least(table, length, supply, demand);
        if u64::from(supply) < demand {
            let rest = length % table.frame;
            let least = least_of(table, rest);
            let mut stretch = Stretch::new(table, rest);
            for start in 0..table.frame {
                if stretch.supply == least {
                    found = Verdict::Miss {
                        length,
                        start,
                        demand,
                        supply,
                    };
                    break 'search;
                }
                stretch = stretch.slid(table);
            }
        }
        length = risen.next;
    }
    found
}

// The verdict on a table. Refusals 4 5 6.
#[tactic(auto, using(supply::proofs::TableLaws::answered, crate::proofs::GroupLaws::grouped, crate::proofs::CycleLaws::cycled), unfolding(scope::specs::Answers::verdict_answer))]
fn verdict_on(table: Table<'_>, tasks: &[u32]) -> Result<Verdict, Refusal>
    ensures { told_verdict result ≡ verdict_answer (framed table.entry.frame) table.entry.windows.now tasks.now }
{
    let group = Group::new(tasks)?;
    let cycle = Cycle::new(table, group)?;
    Ok(search(table, group, cycle.ticks))
}

// Whether the group meets its deadlines under earliest deadline first on the asked owner's windows, or the miss. Refusals: a table's,
// then 4 5 6.
pub fn verdict(board: Board, windows: &[u32], tasks: &[u32]) -> Result<Verdict, Refusal>
    ensures { told_verdict result ≡ verdict_for (board_of board) windows.now tasks.now }
{
    let mut room = Room::new();
    let table = own_table(board, windows, &mut room)?;
    verdict_on(table, tasks)
}
