// The group of tasks as numbers, C, T, D of each task, asked as task records: whoever has numbers asks `records` through these entries.
// Each entry's answer is the definition's on the numbers: `records` is lent the records that they are or, where the
// list is refused, records that it refuses with 4 too.
#![tactic(auto)]

pub mod bound;
pub mod demand;
mod gather;
pub mod run;
pub mod verdict;
