// Replays a trace from standard input: P, windows and tasks as a query has them, and then the trace's bytes to the end.
use crate::asked::Asked;
use crate::stream::Stream;
use crate::{entries, failure, input};
use plan::number::Damaged;

// There is room for so many bytes. A longer input gets no answer: what is left out could change it.
const MOST: usize = 131072;

// What stands before P: nothing, where the windows are pairs; else they are in threes, after the owner, or after the settings as code 16 has them.
#[derive(Clone, Copy)]
pub(crate) enum Before {
    Nothing,
    Owner,
    Settings,
}

impl Before {
    fn read(self, stream: &mut Stream<'_>) -> Result<Asked, Damaged> {
        match self {
            Before::Nothing => Ok(Asked::alone(17)),
            Before::Owner => Ok(Asked::shared(stream.any()?)),
            Before::Settings => Asked::settings(stream),
        }
    }
}

// An error where a number before the trace is bad.
fn answer(rt: &impl Print, bytes: &[u8], before: Before) -> Result<(), Damaged> {
    let mut stream = Stream::new(bytes);
    let asked = before.read(&mut stream)?;
    entries::replay_rest(rt, &mut stream, asked)
}

pub(crate) fn replay(rt: &HostRuntime, before: Before) {
    let mut space = [0u8; MOST];
    let mut stdin = rt.stdin();
    match input::read_on(&mut stdin, &mut space) {
        Ok(length) => {
            if input::more(&mut stdin) {
                let _ = eprintln!(rt;
                    "palikudyom: a trace with its plan's numbers is over 131,072 bytes"
                );
            } else if answer(rt, &space[..length], before).is_err() {
                let _ = eprintln!(rt; "palikudyom: the numbers before the trace are damaged");
            }
        }
        Err(error) => failure::tell(rt, b"standard input", error),
    }
}
