ghost use Rattle.std.specs.Prelude.{◌≡◌, ◌*◌, ◌≤◌, take};
ghost use Rattle.records.specs.Numbers.{numbers_of, enough_records, enough_numbers};
ghost use Rattle.records.specs.Alike.{Alike};

use tables::task::Task;

// The numbers of a group's first records, as the entries of `checker` take them: C, T, D, C, T, D, ..
#[derive(Drop)]
pub(crate) struct Flat {
    numbers: [u32; 3 * Flat::MOST],
    records: usize,
    ghost within: { records ≤ enough_records },
}

impl Flat {
    // How many records are read: more than a group may have are refused, whatever they hold, and one more is enough to see that.
    const MOST: usize = Task::MOST + 1;

    // The numbers of as many records as are enough.
    pub(crate) fn new(tasks: &[Task]) -> Flat
        ensures first { take (3 * result.records) result.numbers ≡ take enough_numbers (numbers_of tasks.now) }
        ensures alike { Alike (take (3 * result.records) result.numbers) (numbers_of tasks.now) }
    {
        let mut numbers = [0; 3 * Flat::MOST];
        let records = tasks.len().min(Flat::MOST);
        for (i, x) in tasks[..records].iter().enumerate() {
            numbers[3 * i] = x.work;
            numbers[3 * i + 1] = x.period;
            numbers[3 * i + 2] = x.deadline;
        }
        Flat { numbers, records }
    }

    pub(crate) fn numbers(&self) -> &[u32]
        ensures { result.now ≡ take (3 * self.now.records) self.now.numbers }
    {
        &self.numbers[..3 * self.records]
    }
}
