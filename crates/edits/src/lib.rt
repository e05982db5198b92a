// Edits of a table that teams share, together with the summary that is kept beside it. Each public function is total: any numbers at all may be lent.
#![tactic(auto)]

pub mod edit;
mod splice;
