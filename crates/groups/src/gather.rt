ghost use Rattle.std.specs.Prelude.{◌≡◌, ◌≤◌, take};
ghost use Rattle.records.specs.Numbers.{numbers_of, enough_records};
ghost use Rattle.records.specs.Alike.{Alike};
ghost use Rattle.groups.specs.Records.{records_of, made_records, lent_records};

use tables::task::{Task, check_task_list, task_at};

// The records of a list of numbers, as they are lent to `records`. There is room for one more than a group may have.
#[derive(Drop)]
pub(crate) struct Gathered {
    tasks: [Task; Gathered::MOST],
    count: usize,
    ghost within: { count ≤ enough_records },
}

impl Gathered {
    // How many records there is room for: one more than a group may have, which `records` refuses.
    const MOST: usize = Task::MOST + 1;

    // How many records are lent: all that the numbers are, or of a list that is refused one more than a group may have.
    fn lent(numbers: &[u32]) -> usize
        ensures { result ≡ lent_records numbers.now }
    {
        if check_task_list(numbers).is_err() {
            return Gathered::MOST;
        }
        numbers.len() / 3
    }

    // The records that the numbers are, no more of them than a group may have, of which so many are lent: `records` refuses those of a list that is refused with 4
    // too, whatever they hold.
    pub(crate) fn new(numbers: &[u32]) -> Gathered
        ensures count { result.count ≡ lent_records numbers.now }
        ensures made { take (made_records numbers.now) result.tasks ≡ take (made_records numbers.now) (records_of numbers.now) }
        ensures alike { Alike (numbers_of (take result.count result.tasks)) numbers.now }
    {
        let mut tasks = [Task {
            work: 0,
            period: 0,
            deadline: 0,
        }; Gathered::MOST];
        let made = (numbers.len() / 3).min(Task::MOST);
        // the index is the task's among the numbers and the record's: `iter_mut().enumerate()` says the same with a reference more
        for i in 0..made {
            tasks[i] = task_at(numbers, i);
        }
        Gathered {
            tasks,
            count: Gathered::lent(numbers),
        }
    }

    pub(crate) fn tasks(&self) -> &[Task]
        ensures { result.now ≡ take self.now.count self.now.tasks }
    {
        &self.tasks[..self.count]
    }
}
