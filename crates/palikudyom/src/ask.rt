// Answers a stream of queries on standard input, a line each: docs/ASK.md.
use crate::asked::Asked;
use crate::entries::{Numbers, Records};
use crate::stream::Stream;
use crate::{entries, failure, input, lines, summary_entries};
use plan::check::Form;
use plan::number::Damaged;

// Only so many bytes of a stream are used.
const MOST: usize = 65536;

// A query's code, and where it begins: an unknown one is bad there. The codes are the stream's (docs/ASK.md): an enum between would be a second match.
#[derive(Clone, Copy)]
struct Code {
    value: u32,
    at: usize,
}

impl Code {
    fn read(stream: &mut Stream<'_>) -> Result<Code, Damaged> {
        let at = stream.at();
        let value = stream.any()?;
        Ok(Code { value, at })
    }
}

// A query over a table, after its code.
fn over_table(
    rt: &impl Print,
    stream: &mut Stream<'_>,
    code: Code,
    asked: Asked,
) -> Result<(), Damaged> {
    match code.value {
        1 => entries::least_supply(rt, stream, asked),
        2 => entries::critical(rt, stream, asked),
        3 => entries::delay(rt, stream, asked),
        4 => entries::outage(rt, stream, asked),
        6 => entries::margin::<Numbers>(rt, stream, asked),
        7 => entries::verdict::<Numbers>(rt, stream, asked),
        8 => entries::bound::<Numbers>(rt, stream, asked),
        9 => entries::run::<Numbers>(rt, stream, asked),
        12 => entries::margin::<Records>(rt, stream, asked),
        13 => entries::verdict::<Records>(rt, stream, asked),
        14 => entries::bound::<Records>(rt, stream, asked),
        15 => entries::run::<Records>(rt, stream, asked),
        17 => entries::replay(rt, stream, asked),
        _ => Err(Damaged { at: code.at }),
    }
}

// After code 16: the settings, then a query over a table, or over a table with its summary, which stands here only.
fn on_board(rt: &impl Print, stream: &mut Stream<'_>) -> Result<(), Damaged> {
    let asked = Asked::settings(stream)?;
    let code = Code::read(stream)?;
    match code.value {
        20 => summary_entries::make(rt, stream, asked),
        21 => summary_entries::least_supply(rt, stream, asked),
        22 => summary_entries::margins(rt, stream, asked),
        23 => summary_entries::edit(rt, stream, asked),
        _ => over_table(rt, stream, code, asked),
    }
}

// One query: without a table, under code 16, or over a table by itself, where an unknown code ends too.
fn query(rt: &impl Print, stream: &mut Stream<'_>) -> Result<(), Damaged> {
    let code = Code::read(stream)?;
    let asked = Asked::alone(code.value);
    match code.value {
        5 => entries::demand::<Numbers>(rt, stream, asked),
        10 => entries::plan(rt, stream, Form::Plain),
        11 => entries::demand::<Records>(rt, stream, asked),
        16 => on_board(rt, stream),
        18 => entries::plan(rt, stream, Form::WithShortest),
        19 => entries::plan(rt, stream, Form::WithRule),
        _ => over_table(rt, stream, code, asked),
    }
}

// Queries up to the stream's end, or to the first bad number. A query takes a byte at least, so there are no more of them than bytes.
fn queries(rt: &impl Print, bytes: &[u8]) -> Result<(), Damaged> {
    let mut stream = Stream::new(bytes);
    for _ in bytes {
        if stream.is_at_end() {
            break;
        }
        query(rt, &mut stream)?;
    }
    Ok(())
}

pub(crate) fn answer_stream(rt: &HostRuntime) {
    let mut space = [0u8; MOST];
    let mut stdin = rt.stdin();
    match input::read_on(&mut stdin, &mut space) {
        Ok(length) => match queries(rt, &space[..length]) {
            Ok(()) => {
                if input::more(&mut stdin) {
                    lines::bad_query(rt, length);
                }
            }
            Err(bad) => lines::bad_query(rt, bad.at),
        },
        Err(error) => failure::tell(rt, b"standard input", error),
    }
}
