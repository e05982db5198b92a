ghost use Rattle.std.specs.Prelude.{◌≡◌};
ghost use Rattle.scope.specs.Windows.{framed};
ghost use Rattle.scope.specs.Tasks.{tasks_of};
ghost use Rattle.scope.specs.Cycle.{gcd as gcdBy, cycle};
ghost use Rattle.scope.specs.Answers.{unless, cycle_fault};
ghost use Rattle.checker.specs.Told.{told_cycle};

use tables::answer::Refusal;
use tables::group::Group;
use tables::table::Table;
use tables::task::task_at;

// The greatest common divisor: the remainder falls.
#[tactic(auto, using(theory::specs::Cycle::gcd_zero, theory::specs::Cycle::gcd_step))]
pub fn gcd(a: u64, b: u64) -> u64
    ensures { result ≡ gcdBy a b }
{
    if b == 0 { a } else { gcd(b, a % b) }
}

// The cycle of a table's frame and a group.
#[derive(Clone, Copy, Debug, PartialEq, Eq)]
pub(crate) struct Cycle {
    pub ticks: u32,
}

impl Cycle {
    // At most 1,000,000.
    pub const LONGEST: u64 = 1000000;

    // Refusal 6, as soon as the least common multiple passes the limit.
    #[tactic(auto, using(crate::proofs::CycleLaws::growing))]
    pub(crate) fn new(table: Table<'_>, group: Group<'_>) -> Result<Cycle, Refusal>
        ensures { told_cycle result ≡ unless (cycle_fault (framed table.entry.frame) (tasks_of group.entry.tasks.now))
            (cycle table.entry.frame (tasks_of group.entry.tasks.now)) }
    {
        let mut h = u64::from(table.frame);
        for i in 0..group.tasks.len() / 3 {
            let period = u64::from(task_at(group.tasks, i).period);
            h = h / gcd(h, period) * period;
            if Cycle::LONGEST < h {
                return Err(Refusal::Cycle);
            }
        }
        Ok(Cycle { ticks: h as u32 })
    }
}
