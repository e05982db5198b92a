// The entries over a summary that is kept beside a table, as `entries` has the others.
use crate::asked::{Asked, LATER_NUMBERS};
use crate::entries::{THREES, Table, UNWRITTEN};
use crate::lines;
use crate::stream::{JOBS, LENGTHS, SUMMARY, Stream};
use checker::margins;
use edits::edit::{Edit, edit_table};
use plan::number::Damaged;
use summaries::summary;

pub(crate) fn make(rt: &impl Print, stream: &mut Stream<'_>, asked: Asked) -> Result<(), Damaged> {
    let mut threes = [0; THREES];
    let table = Table::read(stream, asked, &mut threes)?;
    let mut memory = [UNWRITTEN; JOBS];
    let out = stream.room(&mut memory)?;
    let made = summary::make_summary(table.board, table.windows, out);
    lines::filled(rt, "SUMMARY ", made, out);
    Ok(())
}

pub(crate) fn least_supply(
    rt: &impl Print,
    stream: &mut Stream<'_>,
    asked: Asked,
) -> Result<(), Damaged> {
    let mut threes = [0; THREES];
    let table = Table::read(stream, asked, &mut threes)?;
    let mut held = [0; SUMMARY];
    let kept = stream.list(SUMMARY, &mut held)?;
    let length = stream.any()?;
    let supply = summary::least_supply(table.board, table.windows, kept, length);
    lines::amount(rt, "AMOUNT ", supply);
    Ok(())
}

pub(crate) fn margins(
    rt: &impl Print,
    stream: &mut Stream<'_>,
    asked: Asked,
) -> Result<(), Damaged> {
    let mut threes = [0; THREES];
    let table = Table::read(stream, asked, &mut threes)?;
    let mut held = [0; SUMMARY];
    let kept = stream.list(SUMMARY, &mut held)?;
    let mut numbers = [0; LATER_NUMBERS];
    let tasks = stream.list(LATER_NUMBERS, &mut numbers)?;
    let mut asked_lengths = [0; LENGTHS];
    let lengths = stream.list(LENGTHS, &mut asked_lengths)?;
    let mut memory = [i64::from(UNWRITTEN); JOBS];
    let out = stream.room(&mut memory)?;
    let found = margins::margins(table.board, table.windows, kept, tasks, lengths, out);
    lines::filled(rt, "MARGINS ", found, out);
    Ok(())
}

// ---- an edit

// The kind, index, start, end and owner. Numbers that a kind does not use are read too. The kinds are the stream's, as the codes are (ask.rt).
fn read_edit(stream: &mut Stream<'_>) -> Result<Edit, Damaged> {
    let kind = stream.at_most(2)?;
    let index = stream.any()?;
    let start = stream.any()?;
    let end = stream.any()?;
    let owner = stream.any()?;
    Ok(match kind {
        0 => Edit::Move { index, start, end },
        1 => Edit::Add {
            index,
            start,
            end,
            owner,
        },
        _ => Edit::Remove { index },
    })
}

// The windows memory is in threes as it is read, and may have more than the list.
pub(crate) fn edit(rt: &impl Print, stream: &mut Stream<'_>, asked: Asked) -> Result<(), Damaged> {
    let board = asked.board(stream.any()?);
    let count = stream.any()?;
    let mut threes = [0; LATER_NUMBERS];
    let windows = stream.list(LATER_NUMBERS, &mut threes)?;
    let mut held = [0; SUMMARY];
    let kept = stream.list(SUMMARY, &mut held)?;
    let edit = read_edit(stream)?;
    let edited = edit_table(board, count, windows, kept, edit);
    lines::edited(rt, edited, windows, kept);
    Ok(())
}
