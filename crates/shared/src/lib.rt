// A table that teams share: its checks, and what is left of the windows of the owner that is asked for. Each public function is total: any numbers at all may be lent.
#![tactic(auto)]

pub mod group;
pub mod table;
