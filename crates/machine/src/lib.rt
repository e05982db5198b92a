// The tick machine: runs a job list tick by tick, earliest deadline first. The answer and the lent buffer equal their definitions in `scope`.
#![tactic(auto)]

mod course;
mod late;
mod pending;
mod places;
pub mod run;
mod state;
mod tick;
