// The lengths at which the demand of a group rises, one after the other: no length between them is looked at, and nothing is divided.
ghost use Rattle.std.specs.Prelude.{◌≡◌, ◌-◌, ◌/◌, ◌<◌, ◌≤◌, length as length_of, get_or, set};
ghost use Rattle.scope.specs.Limits.{most_length};
ghost use Rattle.scope.specs.Tasks.{tasks_of, task_at};
ghost use Rattle.checker.specs.Rises.{Due, work_at, later_due, Risen};

use tables::group::Group;
use tables::task::{Task, task_at};

// What the demand rises by at a length, and the next length at which it rises.
#[derive(Clone, Copy)]
pub(crate) struct Rise {
    pub by: u64,
    pub next: u32,
}

impl Rise {
    // Longer than every length that is searched: with no tasks the demand never rises. It is no Option, for the search ends there by its own test, and
    // the least of the deadlines is found without a test for each task.
    const NEVER: u32 = u32::MAX;
}

// The next deadline of each task of a group. The group is not in it: what is written at an index keeps all that stands beside it in memory, and the search asks
// at every rise.
#[derive(Drop)]
pub(crate) struct Dues {
    due: [u32; Task::MOST],
}

impl Dues {
    // The first deadlines.
    pub(crate) fn new(group: Group<'_>) -> Dues
        ensures { Due (tasks_of group.entry.tasks.now) 0 result.due }
    {
        let mut due = [0; Task::MOST];
        for i in 0..group.tasks.len() / 3 {
            due[i] = task_at(group.tasks, i).deadline;
        }
        Dues { due }
    }

    // Task i reaches a length: if its job is due there, its deadline moves on by a period. Answers the work that is due. Most deadlines are later, and
    // of their tasks nothing is read.
    #[tactic(auto, using(crate::proofs::RiseLaws::reaching))]
    fn reach(&mut self, group: Group<'_>, i: usize, length: u32) -> u64
        requires { (i < length_of group.tasks.now / 3) × (length ≤ most_length) }
        ensures answer { result ≡ work_at (task_at (tasks_of group.entry.tasks.now) i) length (get_or self.old.due i 0) }
        ensures deadline { self.new ≡ record { due = set self.old.due i (later_due (task_at (tasks_of group.entry.tasks.now) i) length (get_or self.old.due i 0)) } }
    {
        if self.due[i] != length {
            return 0;
        }
        let task = task_at(group.tasks, i);
        self.due[i] = length + task.period;
        u64::from(task.work)
    }

    // On to a length, after the deadlines of the length before it: those that are reached move on by a period.
    pub(crate) fn rise_at(&mut self, group: Group<'_>, length: u32) -> Rise
        requires { (length ≤ most_length) × Due (tasks_of group.tasks.now) (length - 1) self.now.due }
        ensures { Risen (tasks_of group.entry.tasks.now) length self.new.due result }
    {
        let mut by = 0;
        let mut next = Rise::NEVER;
        for i in 0..group.tasks.len() / 3 {
            by += self.reach(group, i, length);
            next = next.min(self.due[i]);
        }
        Rise { by, next }
    }
}
