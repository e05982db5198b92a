// Where a table supplies nothing: the longest outage. Document 02, request 1.
#![tactic(auto)]

pub mod outage;
