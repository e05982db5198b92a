// What a table supplies: a tick, the least supply of a length, the critical partition and the delay; and a summary of it, over one owner's windows.
#![tactic(auto)]

pub mod partition;
mod pieces;
mod row;
pub mod summary;
pub mod supply;
mod walk;
