// The places of the tasks: for each the work left of its pending job, that job's deadline and its index. They are lent, and change in place, by
// functions over the array: a type around it would do no more than lend it on.
ghost use Rattle.std.specs.Prelude.{◌≡◌, ◌<◌};
ghost use Rattle.scope.specs.Limits.{most_tasks};
ghost use Rattle.machine.specs.Bits.{IsTask};
ghost use Rattle.machine.specs.Places.{put_at, served_at, ended_at};

use tables::task::Task;

#[derive(Clone, Copy)]
pub(crate) struct Place {
    pub left: u32,
    pub due: u32,
    pub job: u32,
}

impl Place {
    // One that no job has taken.
    pub(crate) const NOWHERE: Place = Place {
        left: 0,
        due: 0,
        job: 0,
    };
}

// A job of task i takes the task's place.
#[tactic(auto, unfolding(crate::specs::Places::put_at))]
pub(crate) fn put(places: &mut [Place; Task::MOST], i: u32, work: u32, due: u32, job: u32)
    requires { i < most_tasks }
    ensures { places.new ≡ put_at places.old i work due job }
{
    places[i as usize] = Place {
        left: work,
        due,
        job,
    };
}

// The job of task i, if there is one, gets one tick of work. Answers the job, if that was its last.
#[tactic(auto, unfolding(crate::specs::Places::served_at, crate::specs::Places::ended_at))]
pub(crate) fn serve(places: &mut [Place; Task::MOST], i: Option<u32>) -> Option<u32>
    requires { IsTask i }
    ensures answer { result ≡ ended_at i places.old }
    ensures places { places.new ≡ served_at i places.old }
{
    let x = i? as usize;
    let had = places[x].left;
    if had == 0 {
        return None;
    }
    places[x].left = had - 1;
    if had == 1 {
        return Some(places[x].job);
    }
    None
}
