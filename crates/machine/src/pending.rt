// The pending tasks, as a set of the numbers below the most tasks, one bit each.
ghost use Rattle.std.specs.Prelude.{◌≡◌, ◌<◌};
ghost use Rattle.scope.specs.Limits.{most_tasks};
ghost use Rattle.machine.specs.Bits.{added, removed, members, IsTask, better_of, pick_to, mem};
ghost use Rattle.machine.specs.Places.{due_at, soonest_of};

use crate::places::Place;
use tables::task::Task;

#[derive(Clone, Copy)]
pub(crate) struct Pending {
    pub bits: u32,
}

impl Pending {
    #[tactic(auto, using(crate::proofs::Digits::one_shl), unfolding(crate::specs::Bits::added))]
    pub(crate) fn with(self, i: u32) -> Pending
        requires { i < most_tasks }
        ensures { result.bits ≡ added self.bits i }
    {
        Pending {
            bits: self.bits | (1 << i),
        }
    }

    #[tactic(auto, using(crate::proofs::Digits::clear_shl), unfolding(crate::specs::Bits::removed))]
    pub(crate) fn without(self, i: u32) -> Pending
        requires { i < most_tasks }
        ensures { result.bits ≡ removed self.bits i }
    {
        Pending {
            bits: self.bits & !(1 << i),
        }
    }

    #[tactic(auto, unfolding(crate::specs::Bits::mem, crate::specs::Bits::digit))]
    pub(crate) fn has(self, i: u32) -> bool
        requires { i < most_tasks }
        ensures { result ≡ mem self.bits i }
    {
        (self.bits >> i) % 2 == 1
    }

    // The count of ones.
    #[tactic(auto, using(crate::proofs::Sets::ones_members))]
    pub(crate) fn count(self) -> u32
        ensures { result ≡ members self.bits }
    {
        self.bits.count_ones()
    }

    // The member with the least deadline, ties to the lower, if there is one. The trailing zeros are the first index of what is left: the loop goes
    // from bit to bit, and counts no index.
    #[tactic(auto, using(crate::proofs::Walk::seen_none, crate::proofs::Walk::seen_task, crate::proofs::Walk::seen_all, crate::proofs::Walk::seen_more, crate::proofs::Walk::seen_fewer, crate::proofs::Sets::trailing_lowest))]
    pub(crate) fn earliest(self, places: &[Place; Task::MOST]) -> Option<u32>
        ensures { result ≡ pick_to (mem self.bits) (due_at places.now) most_tasks }
    {
        let mut rest = self;
        let mut best = None;
        while rest.bits != 0 {
            let i = rest.bits.trailing_zeros();
            best = Some(better(places, best, i));
            rest = rest.without(i);
        }
        best
    }

    // The least deadline; the greatest number if there is no member.
    #[tactic(auto, using(crate::proofs::Walk::pick_task), unfolding(crate::specs::Places::soonest_of))]
    pub(crate) fn soonest(self, places: &[Place; Task::MOST]) -> u32
        ensures { result ≡ soonest_of self.bits places.now }
    {
        match self.earliest(places) {
            None => u32::MAX,
            Some(i) => places[i as usize].due,
        }
    }
}

// The better of the best so far, if there is one, and the candidate n.
#[tactic(auto, unfolding(crate::specs::Bits::better_of))]
fn better(places: &[Place; Task::MOST], best: Option<u32>, n: u32) -> u32
    requires { IsTask best × (n < most_tasks) }
    ensures { result ≡ better_of (due_at places.now) best n }
{
    match best {
        None => n,
        Some(b) => {
            if places[n as usize].due < places[b as usize].due {
                n
            } else {
                b
            }
        }
    }
}
