// Every entry for a host that has only numbers, such as a C program: palikudyom.h declares these functions, and `host_c` exports them.
// specs/Told.antt gives each answer's code and numbers.
#![tactic(auto)]

pub mod answer;
pub mod bound;
pub mod demand;
pub mod edit;
pub mod file;
pub mod least_supply;
pub mod partition;
pub mod run;
pub mod summary;
pub mod trace;
pub mod verdict;
