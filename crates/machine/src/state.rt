ghost use Rattle.std.specs.Prelude.{◌≡◌, ◌+◌, ◌<◌, ◌^◌};
ghost use Rattle.scope.specs.Limits.{most_tasks, most_jobs};
ghost use Rattle.machine.specs.Bits.{IsTask};
ghost use Rattle.machine.specs.State.{begun, admitted_of, counted_of, worked_of, tested_of};

use crate::late::late;
use crate::pending::Pending;
use crate::places::Place;
use tables::cursor::Cursor;
use tables::task::Task;

// A run at an instant: the ticks before it are done, and `cursor` is at the tick that begins there. The jobs before `next` are released.
// The tasks that have a job with work left are pending, and have that job in their places; none of these is due before `soon`.
// `done` is the job that ended in the last tick, if one did. The run ends at the instant `end`.
#[derive(Clone, Copy)]
pub(crate) struct RunState {
    pub instant: u32,
    pub end: u32,
    pub cursor: Cursor,
    pub next: usize,
    pub pending: Pending,
    pub backlog: u32,
    pub soon: u32,
    pub done: Option<u32>,
}

impl RunState {
    // Before the first of n ticks.
    pub(crate) fn new(n: u32) -> RunState
        ensures { result ≡ begun n }
    {
        RunState {
            instant: 0,
            end: n,
            cursor: Cursor::new(),
            next: 0,
            pending: Pending { bits: 0 },
            backlog: 0,
            soon: u32::MAX,
            done: None,
        }
    }

    // The next job, of task i and with its deadline, is released.
    pub(crate) fn admitted(self, i: u32, due: u32) -> RunState
        requires { (i < most_tasks) × (self.next < most_jobs) }
        ensures { result ≡ admitted_of i due self }
    {
        RunState {
            next: self.next + 1,
            pending: self.pending.with(i),
            soon: self.soon.min(due),
            ..self
        }
    }

    // The backlog is counted: how many tasks are pending.
    pub(crate) fn counted(self) -> RunState
        ensures { result ≡ counted_of self }
    {
        RunState {
            backlog: self.backlog.max(self.pending.count()),
            ..self
        }
    }

    // The tick is done; it went to task i, if to one, whose job `done` ended, if one did. The cursor is at the next tick.
    pub(crate) fn worked(self, i: Option<u32>, done: Option<u32>, cursor: Cursor) -> RunState
        requires { (self.instant + 1 < 2 ^ 32) × IsTask i }
        ensures { result ≡ worked_of i done cursor self }
    {
        let mut s = RunState {
            instant: self.instant + 1,
            cursor,
            done,
            ..self
        };
        if let (Some(i), Some(_)) = (i, done) {
            s.pending = self.pending.without(i);
        }
        s
    }

    // A late job ends the run. Before `soon` none can be late.
    #[tactic(auto, unfolding(crate::specs::State::tested_of))]
    pub(crate) fn tested(self, places: &[Place; Task::MOST]) -> RunState
        ensures { result ≡ tested_of places.now self }
    {
        let mut s = self;
        if self.instant < self.soon {
            return s;
        }
        s.soon = self.pending.soonest(places);
        if late(self.pending, places, self.instant).is_some() {
            s.end = self.instant;
        }
        s
    }
}
