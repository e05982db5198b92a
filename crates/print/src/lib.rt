// What is written: the line of a verdict, and the bytes of a plan. Each equals its definition in `scope`.
#![tactic(auto)]

pub mod line;
mod put;
mod text;
pub mod write;
