// The entries over the summary that is kept beside a table that teams share: it is made, and asked for a length. Document 02, request 6.
#![tactic(auto)]

pub mod least;
pub mod summary;
