ghost use Rattle.std.specs.Prelude.{◌≡◌, ◌<◌};
ghost use Rattle.scope.specs.Limits.{most_tasks};
ghost use Rattle.machine.specs.Places.{lower_in, late_to};

use crate::pending::Pending;
use crate::places::Place;
use tables::task::Task;

// The lower of the lowest late job so far and task i's job j, where the task is pending and due at instant t or before.
#[tactic(auto, unfolding(crate::specs::Places::lower_in))]
fn lower(pending: Pending, due: u32, j: u32, t: u32, i: u32, best: Option<u32>) -> Option<u32>
    requires { i < most_tasks }
    ensures { result ≡ lower_in pending.bits due j t i best }
{
    if !pending.has(i) || t < due {
        return best;
    }
    match best {
        Some(b) if b <= j => best,
        _ => Some(j),
    }
}

// The lowest job among the late ones at instant t, if one is late. A place's numbers are read one by one: a run with a whole place in a variable
// took 1.3 times as long.
#[tactic(auto, using(crate::proofs::Lowest::late_next), unfolding(crate::specs::Places::late_to))]
pub(crate) fn late(pending: Pending, places: &[Place; Task::MOST], t: u32) -> Option<u32>
    ensures { result ≡ late_to pending.bits places.now t most_tasks }
{
    let mut best = None;
    for i in 0..Task::MOST as u32 {
        let x = i as usize;
        best = lower(pending, places[x].due, places[x].job, t, i, best);
    }
    best
}
