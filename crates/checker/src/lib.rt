// The checker: demand, margin, verdict and bound of document 01, on any numbers at all. Each entry's answer equals its definition in `scope`.
#![tactic(auto)]

pub mod bound;
pub mod cycle;
pub mod demand;
pub mod margins;
mod rise;
mod stretch;
pub mod verdict;
