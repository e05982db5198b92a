// The summary that is kept beside a table, of one owner's windows in pairs: A, the delay, the number of critical windows and these, in lent memory.
// Document 02, request 6.
ghost use Rattle.std.specs.Prelude.{◌≡◌, ◌∷◌, ◌≤◌, length, drop};
ghost use Rattle.scope.specs.Windows.{framed};
ghost use Rattle.scope.specs.Answers.{table_fault, ◌or_else◌};
ghost use Rattle.scope.specs.Summary.{summary_of, make_answer, make_out, begins, summary_fault};
ghost use Rattle.tables.specs.Told.{fault_of, told_amount};

use crate::partition::{measured, write_edges};
use tables::answer::Refusal;
use tables::list::check_room;
use tables::table::Table;

// The summary of a table that was checked: how many numbers; these at the front of out, the rest of out kept. Refusal 8.
#[tactic(auto, using(crate::proofs::TableLaws::answered, crate::proofs::SummaryLaws::summary_numbers), unfolding(scope::specs::Summary::make_fault, scope::specs::Summary::make_answer, scope::specs::Summary::make_out))]
pub fn make_of(table: Table<'_>, out: &mut [u32]) -> Result<u64, Refusal>
    ensures answer { told_amount result ≡ make_answer (framed table.entry.frame) table.entry.windows.now (length out.old) }
    ensures buffer { out.new ≡ make_out (framed table.entry.frame) table.entry.windows.now out.old }
{
    let measure = measured(table, &[]);
    let needed = measure.numbers as usize + 3;
    check_room(needed, out.len())?;
    let (head, windows) = out.split_at_mut(3);
    head.copy_from_slice(&[measure.whole, measure.delay, measure.numbers / 2]);
    write_edges(table, windows);
    Ok(needed as u64)
}

// The summary of a list of windows in pairs, as one owner has it. Refusals 1 2 3 8.
#[tactic(auto, using(crate::proofs::TableLaws::answered), unfolding(scope::specs::Summary::make_fault, scope::specs::Summary::make_answer, scope::specs::Summary::make_out, tables::specs::Lent::table_answer))]
pub fn make_in(frame: u32, windows: &[u32], out: &mut [u32]) -> Result<u64, Refusal>
    ensures answer { told_amount result ≡ make_answer (framed frame) windows.now (length out.old) }
    ensures buffer { out.new ≡ make_out (framed frame) windows.now out.old }
{
    let table = Table::new(frame, windows)?;
    make_of(table, out)
}

// Whether memory begins with the summary of a table that was checked: what a fresh making would write is held against it number by number.
#[tactic(auto, using(crate::proofs::SummaryLaws::begun))]
fn belongs(table: Table<'_>, summary: &[u32]) -> bool
    ensures { result ≡ begins (summary_of (framed table.entry.frame) table.entry.windows.now) summary.now }
{
    let [whole, delay, count, windows @ ..] = summary else {
        return false;
    };
    let measure = measured(table, windows);
    [measure.whole, measure.delay, measure.numbers / 2] == [*whole, *delay, *count] && measure.same
}

// Refusal 14 of a summary that does not belong to a table that was checked.
#[tactic(auto, unfolding(scope::specs::Summary::summary_fault))]
pub fn check_belongs(table: Table<'_>, summary: &[u32]) -> Result<(), Refusal>
    ensures { fault_of result ≡ summary_fault (framed table.entry.frame) table.entry.windows.now summary.now }
{
    if belongs(table, summary) {
        return Ok(());
    }
    Err(Refusal::Summary)
}

// The same of a list of windows in pairs, as one owner has it. Refusals 1 2 3 14.
#[tactic(auto, using(crate::proofs::TableLaws::answered), unfolding(tables::specs::Lent::table_answer))]
pub fn check_summary(frame: u32, windows: &[u32], summary: &[u32]) -> Result<(), Refusal>
    ensures { fault_of result ≡ (table_fault (framed frame) windows.now or_else summary_fault (framed frame) windows.now summary.now) }
{
    let table = Table::new(frame, windows)?;
    check_belongs(table, summary)
}
