// The group of tasks as a lent list of task records. Each entry's answer equals that of `checker` on the same numbers.
#![tactic(auto)]

pub mod bound;
pub mod demand;
mod flat;
pub mod run;
pub mod verdict;
