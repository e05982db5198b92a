// What a job list is, and its checks.
#![tactic(auto)]

pub mod check;
pub mod job;
