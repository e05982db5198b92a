// One function for each entry: it reads the entry's arguments, calls it and prints its line; where an argument is bad, it prints nothing. The
// stream stands after the query then, or the error names the bad number.
use crate::asked::{Asked, LATER_NUMBERS};
use crate::lines;
use crate::stream::{BYTES, JOBS, Stream, TRACE};
use gaps::outage;
use machine::run::Ran;
use plan::check::{Form, check_plan};
use plan::number::Damaged;
use shared::table::as_owned;
use supply::partition;
use tables::answer::{Refusal, Verdict};
use tables::board::Board;

// The longest list of pairs has so many numbers in threes.
pub(crate) const THREES: usize = LATER_NUMBERS / 2 * 3;

// What the memory holds that is lent for an entry to write to, so that what is written shows.
pub(crate) const UNWRITTEN: u32 = 7;

// ---- entries over a table

#[derive(Clone, Copy)]
pub(crate) struct Table<'m> {
    pub board: Board,
    pub windows: &'m [u32],
}

// Pairs as threes of one owner. There is room for the longest list, so that none is refused.
#[tactic(auto, using(crate::proofs::Room::owned_fits))]
fn owned<'m>(owner: u32, pairs: &[u32], room: &'m mut [u32; THREES]) -> &'m [u32] {
    let count = as_owned(owner, pairs, room).unwrap_or(0);
    &room[..count as usize]
}

// The windows, in threes however they are asked.
fn windows<'m>(
    stream: &mut Stream<'_>,
    asked: Asked,
    room: &'m mut [u32; THREES],
) -> Result<&'m [u32], Damaged> {
    if asked.threes {
        return Ok(stream.list(asked.most(), room)?);
    }
    let mut memory = [0; LATER_NUMBERS];
    let pairs = stream.list(asked.most(), &mut memory)?;
    Ok(owned(asked.owner, pairs, room))
}

impl<'m> Table<'m> {
    // P and the windows.
    pub(crate) fn read(
        stream: &mut Stream<'_>,
        asked: Asked,
        room: &'m mut [u32; THREES],
    ) -> Result<Table<'m>, Damaged> {
        let board = asked.board(stream.any()?);
        let windows = windows(stream, asked, room)?;
        Ok(Table { board, windows })
    }
}

pub(crate) fn least_supply(
    rt: &impl Print,
    stream: &mut Stream<'_>,
    asked: Asked,
) -> Result<(), Damaged> {
    let mut threes = [0; THREES];
    let table = Table::read(stream, asked, &mut threes)?;
    let length = stream.any()?;
    let supply = supply::supply::least_supply(table.board, table.windows, length);
    lines::amount(rt, "AMOUNT ", supply);
    Ok(())
}

pub(crate) fn critical(
    rt: &impl Print,
    stream: &mut Stream<'_>,
    asked: Asked,
) -> Result<(), Damaged> {
    let mut threes = [0; THREES];
    let table = Table::read(stream, asked, &mut threes)?;
    let mut memory = [UNWRITTEN; JOBS];
    let out = stream.room(&mut memory)?;
    let found = partition::critical(table.board, table.windows, out);
    lines::filled(rt, "WINDOWS ", found, out);
    Ok(())
}

pub(crate) fn delay(rt: &impl Print, stream: &mut Stream<'_>, asked: Asked) -> Result<(), Damaged> {
    let mut threes = [0; THREES];
    let table = Table::read(stream, asked, &mut threes)?;
    lines::delay(rt, partition::delay(table.board, table.windows));
    Ok(())
}

pub(crate) fn outage(
    rt: &impl Print,
    stream: &mut Stream<'_>,
    asked: Asked,
) -> Result<(), Damaged> {
    let mut threes = [0; THREES];
    let table = Table::read(stream, asked, &mut threes)?;
    lines::amount(rt, "OUTAGE ", outage::outage(table.board, table.windows));
    Ok(())
}

// ---- entries over a group

// How a group is lent, and the entries that take it so.
pub(crate) trait Lent {
    fn read<'m>(
        stream: &mut Stream<'_>,
        asked: Asked,
        memory: &'m mut [u32; LATER_NUMBERS],
    ) -> Result<&'m [u32], Damaged>;

    fn demand(tasks: &[u32], length: u32) -> Result<u64, Refusal>;

    fn margin(board: Board, windows: &[u32], tasks: &[u32], length: u32) -> Result<i64, Refusal>;

    fn verdict(board: Board, windows: &[u32], tasks: &[u32]) -> Result<Verdict, Refusal>;

    fn bound(
        board: Board,
        windows: &[u32],
        tasks: &[u32],
        index: u32,
    ) -> Result<Option<u32>, Refusal>;

    fn run(
        board: Board,
        windows: &[u32],
        tasks: &[u32],
        ticks: u32,
        jobs: &[u32],
        counts: &mut [u32],
    ) -> Result<Ran, Refusal>;
}

// As a list of numbers.
pub(crate) struct Numbers;

impl Lent for Numbers {
    fn read<'m>(
        stream: &mut Stream<'_>,
        asked: Asked,
        memory: &'m mut [u32; LATER_NUMBERS],
    ) -> Result<&'m [u32], Damaged> {
        Ok(stream.list(asked.most(), memory)?)
    }

    fn demand(tasks: &[u32], length: u32) -> Result<u64, Refusal> {
        checker::demand::demand(tasks, length)
    }

    fn margin(board: Board, windows: &[u32], tasks: &[u32], length: u32) -> Result<i64, Refusal> {
        checker::demand::margin(board, windows, tasks, length)
    }

    fn verdict(board: Board, windows: &[u32], tasks: &[u32]) -> Result<Verdict, Refusal> {
        checker::verdict::verdict(board, windows, tasks)
    }

    fn bound(
        board: Board,
        windows: &[u32],
        tasks: &[u32],
        index: u32,
    ) -> Result<Option<u32>, Refusal> {
        checker::bound::bound(board, windows, tasks, index)
    }

    fn run(
        board: Board,
        windows: &[u32],
        tasks: &[u32],
        ticks: u32,
        jobs: &[u32],
        counts: &mut [u32],
    ) -> Result<Ran, Refusal> {
        machine::run::run(board, windows, tasks, ticks, jobs, counts)
    }
}

// As task records.
pub(crate) struct Records;

impl Lent for Records {
    fn read<'m>(
        stream: &mut Stream<'_>,
        _asked: Asked,
        memory: &'m mut [u32; LATER_NUMBERS],
    ) -> Result<&'m [u32], Damaged> {
        Ok(stream.records(memory)?)
    }

    fn demand(tasks: &[u32], length: u32) -> Result<u64, Refusal> {
        groups::demand::demand(tasks, length)
    }

    fn margin(board: Board, windows: &[u32], tasks: &[u32], length: u32) -> Result<i64, Refusal> {
        groups::demand::margin(board, windows, tasks, length)
    }

    fn verdict(board: Board, windows: &[u32], tasks: &[u32]) -> Result<Verdict, Refusal> {
        groups::verdict::verdict(board, windows, tasks)
    }

    fn bound(
        board: Board,
        windows: &[u32],
        tasks: &[u32],
        index: u32,
    ) -> Result<Option<u32>, Refusal> {
        groups::bound::bound(board, windows, tasks, index)
    }

    fn run(
        board: Board,
        windows: &[u32],
        tasks: &[u32],
        ticks: u32,
        jobs: &[u32],
        counts: &mut [u32],
    ) -> Result<Ran, Refusal> {
        groups::run::run(board, windows, tasks, ticks, jobs, counts)
    }
}

pub(crate) fn demand<L: Lent>(
    rt: &impl Print,
    stream: &mut Stream<'_>,
    asked: Asked,
) -> Result<(), Damaged> {
    let mut numbers = [0; LATER_NUMBERS];
    let tasks = L::read(stream, asked, &mut numbers)?;
    let length = stream.any()?;
    lines::amount(rt, "DEMAND ", L::demand(tasks, length));
    Ok(())
}

pub(crate) fn margin<L: Lent>(
    rt: &impl Print,
    stream: &mut Stream<'_>,
    asked: Asked,
) -> Result<(), Damaged> {
    let mut threes = [0; THREES];
    let table = Table::read(stream, asked, &mut threes)?;
    let mut numbers = [0; LATER_NUMBERS];
    let tasks = L::read(stream, asked, &mut numbers)?;
    let length = stream.any()?;
    lines::margin(rt, L::margin(table.board, table.windows, tasks, length));
    Ok(())
}

pub(crate) fn verdict<L: Lent>(
    rt: &impl Print,
    stream: &mut Stream<'_>,
    asked: Asked,
) -> Result<(), Damaged> {
    let mut threes = [0; THREES];
    let table = Table::read(stream, asked, &mut threes)?;
    let mut numbers = [0; LATER_NUMBERS];
    let tasks = L::read(stream, asked, &mut numbers)?;
    let _ = lines::verdict(rt, L::verdict(table.board, table.windows, tasks));
    Ok(())
}

pub(crate) fn bound<L: Lent>(
    rt: &impl Print,
    stream: &mut Stream<'_>,
    asked: Asked,
) -> Result<(), Damaged> {
    let mut threes = [0; THREES];
    let table = Table::read(stream, asked, &mut threes)?;
    let mut numbers = [0; LATER_NUMBERS];
    let tasks = L::read(stream, asked, &mut numbers)?;
    let index = stream.any()?;
    lines::bound(rt, L::bound(table.board, table.windows, tasks, index));
    Ok(())
}

pub(crate) fn run<L: Lent>(
    rt: &impl Print,
    stream: &mut Stream<'_>,
    asked: Asked,
) -> Result<(), Damaged> {
    let mut threes = [0; THREES];
    let table = Table::read(stream, asked, &mut threes)?;
    let mut numbers = [0; LATER_NUMBERS];
    let tasks = L::read(stream, asked, &mut numbers)?;
    let ticks = stream.any()?;
    let mut listed = [0; JOBS];
    let jobs = stream.list(JOBS, &mut listed)?;
    let mut memory = [UNWRITTEN; JOBS];
    let counts = stream.room(&mut memory)?;
    let ran = L::run(table.board, table.windows, tasks, ticks, jobs, counts);
    lines::ran(rt, ran, counts);
    Ok(())
}

// ---- a plan

pub(crate) fn plan(rt: &impl Print, stream: &mut Stream<'_>, form: Form) -> Result<(), Damaged> {
    let mut bytes = [0; BYTES];
    let plan = stream.list(BYTES, &mut bytes)?;
    let _ = lines::verdict(rt, check_plan(plan, form));
    Ok(())
}

// ---- a trace

// A replay of a trace's bytes, wherever they come from.
fn replay_trace(rt: &impl Print, table: Table<'_>, tasks: &[u32], trace: &[u8]) {
    let replayed = replay::replay::replay(table.board, table.windows, tasks, trace);
    lines::replayed(rt, replayed);
}

// Its bytes are numbers of the stream.
pub(crate) fn replay(
    rt: &impl Print,
    stream: &mut Stream<'_>,
    asked: Asked,
) -> Result<(), Damaged> {
    let mut threes = [0; THREES];
    let table = Table::read(stream, asked, &mut threes)?;
    let mut numbers = [0; LATER_NUMBERS];
    let tasks = Numbers::read(stream, asked, &mut numbers)?;
    let mut bytes = [0; TRACE];
    let trace = stream.list(TRACE, &mut bytes)?;
    replay_trace(rt, table, tasks, trace);
    Ok(())
}

// Its bytes are those of the stream after the other numbers, to the end.
pub(crate) fn replay_rest(
    rt: &impl Print,
    stream: &mut Stream<'_>,
    asked: Asked,
) -> Result<(), Damaged> {
    let mut threes = [0; THREES];
    let table = Table::read(stream, asked, &mut threes)?;
    let mut numbers = [0; LATER_NUMBERS];
    let tasks = Numbers::read(stream, asked, &mut numbers)?;
    replay_trace(rt, table, tasks, stream.rest());
    Ok(())
}
