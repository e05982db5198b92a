// What a run goes by: a table, a group's tasks and its jobs, all checked, and how many ticks.
ghost use Rattle.std.specs.Prelude.{◌≤◌};
ghost use Rattle.scope.specs.Limits.{most_ticks};
ghost use Rattle.scope.specs.Tasks.{tasks_of};
ghost use Rattle.scope.specs.Jobs.{jobs_of};
ghost use Rattle.jobs.specs.Legal.{Tasks, Jobs};

use tables::table::Table;

#[derive(Clone, Copy)]
pub(crate) struct Course<'w, 't, 'j> {
    pub table: Table<'w>,
    pub tasks: &'t [u32],
    pub jobs: &'j [u32],
    pub ticks: u32,
    pub ghost group: { Tasks (tasks_of tasks.now) },
    pub ghost list: { Jobs (tasks_of tasks.now) (jobs_of jobs.now) },
    pub ghost few: { ticks ≤ most_ticks },
}
