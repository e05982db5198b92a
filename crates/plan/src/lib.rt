// Plan files: bytes to a verdict. Each answer equals its definition in `scope`.
#![tactic(auto)]

pub mod check;
pub mod number;
mod read;
