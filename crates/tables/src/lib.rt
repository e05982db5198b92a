// What a table and a group are, their checks, a cursor that goes through a table tick by tick, and what every entry answers. Each public function is
// total: any numbers at all may be lent.
#![tactic(auto)]

pub mod answer;
pub mod board;
pub mod cursor;
pub mod group;
pub mod length;
pub mod list;
pub mod table;
pub mod task;
pub mod window;
