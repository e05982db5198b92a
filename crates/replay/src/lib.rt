// Replays a board's trace against the tick machine. Document 02, request 2. The answer equals its definition in `scope`.
#![tactic(auto)]

mod compare;
mod counted;
pub mod ending;
mod order;
mod read;
mod rebuild;
mod records;
pub mod replay;
mod survey;
mod trace;
