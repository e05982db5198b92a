ghost use Rattle.std.specs.Prelude.{◌≡◌};
ghost use Rattle.scope.specs.Answers.{demand_answer};
ghost use Rattle.scope.specs.Shared.{margin_for};
ghost use Rattle.tables.specs.Told.{board_of, told_amount, told_margin};
ghost use Rattle.records.specs.Numbers.{numbers_of};

use crate::flat::Flat;
use tables::answer::Refusal;
use tables::board::Board;
use tables::length::check_length;
use tables::task::{Task, is_task};

// The demand of a group at a length. Refusals 4 (only of too many records) 5 7.
pub fn demand(tasks: &[Task], length: u32) -> Result<u64, Refusal>
    ensures { told_amount result ≡ demand_answer (numbers_of tasks.now) length }
{
    if Task::MOST < tasks.len() {
        return Err(Refusal::TaskList);
    }
    let mut sum = 0;
    for (i, x) in tasks.iter().enumerate() {
        if !is_task(x.work, x.period, x.deadline) {
            return Err(Refusal::Task(i as u64));
        }
        sum += x.demand(length);
    }
    check_length(length)?;
    Ok(sum)
}

// Least supply minus demand at a length. Refusals: a table's, then 4 (only of too many records) 5 7.
pub fn margin(board: Board, windows: &[u32], tasks: &[Task], length: u32) -> Result<i64, Refusal>
    ensures { told_margin result ≡ margin_for (board_of board) windows.now (numbers_of tasks.now) length }
{
    let flat = Flat::new(tasks);
    checker::demand::margin(board, windows, flat.numbers(), length)
}
