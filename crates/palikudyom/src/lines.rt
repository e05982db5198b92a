// The printed lines, one for each answer: its value, or its refusal. What can't be written is left out, and what follows it is still tried.
use machine::run::Ran;
use print::line::{MOST, line as line_of};
use replay::ending::Completion;
use replay::replay::Replayed;
use std::fmt::Write;
use std::{fmt, io};
use tables::answer::{Delay, Edited, Refusal, Verdict};

// Standard output, piece by piece: of a line that can't be written whole the pieces that can be are.
#[derive(Drop)]
struct Pieces<'a, P>(&'a P);

impl<P: Print> fmt::Write for Pieces<'_, P> {
    fn write_str(&mut self, piece: &str) -> fmt::Result {
        let _ = self.0.write_all(piece.as_bytes());
        Ok(())
    }
}

// A text, and the end of the line.
fn line(rt: &impl Print, text: impl fmt::Display + Drop) {
    let mut out = Pieces(rt);
    let _ = write!(out, "{text}");
    let _ = out.write_str("\n");
}

// A number as a line has it: a minus sign is a piece of its own.
pub(crate) trait Number: Copy {
    fn sign(self) -> &'static str;

    fn size(self) -> u64;
}

impl Number for u32 {
    fn sign(self) -> &'static str {
        ""
    }

    fn size(self) -> u64 {
        u64::from(self)
    }
}

impl Number for i64 {
    fn sign(self) -> &'static str {
        if self < 0 { "-" } else { "" }
    }

    fn size(self) -> u64 {
        self.unsigned_abs()
    }
}

// Lent memory after a call: each number after a space.
#[derive(Drop)]
struct Buffer<'a, T>(&'a [T]);

impl<T: Number> fmt::Display for Buffer<'_, T> {
    fn fmt<W: fmt::Write>(&self, f: &mut fmt::Formatter<W>) -> fmt::Result {
        write!(f, " BUFFER")?;
        for n in self.0 {
            write!(f, " {}{}", n.sign(), n.size())?;
        }
        Ok(())
    }
}

// One side of a difference: its completion, or none where it has ended.
#[derive(Drop)]
struct Side(Option<Completion>);

impl fmt::Display for Side {
    fn fmt<W: fmt::Write>(&self, f: &mut fmt::Formatter<W>) -> fmt::Result {
        match self.0 {
            Some(Completion { instant, task }) => write!(f, " instant {instant} task {task}"),
            None => write!(f, " none"),
        }
    }
}

// An amount after its word.
pub(crate) fn amount(rt: &impl Print, word: &str, amount: Result<u64, Refusal>) {
    match amount {
        Ok(n) => line(rt, format_args!("{word}{n}")),
        Err(refusal) => line(rt, refusal),
    }
}

// An amount after its word, and the buffer that it was filled to.
pub(crate) fn filled<T: Number>(
    rt: &impl Print,
    word: &str,
    amount: Result<u64, Refusal>,
    out: &[T],
) {
    let out = Buffer(out);
    match amount {
        Ok(n) => line(rt, format_args!("{word}{n}{out}")),
        Err(refusal) => line(rt, format_args!("{refusal}{out}")),
    }
}

pub(crate) fn delay(rt: &impl Print, delay: Result<Delay, Refusal>) {
    match delay {
        Ok(Delay { delay, per_frame }) => line(rt, format_args!("DELAY {delay} of {per_frame}")),
        Err(refusal) => line(rt, refusal),
    }
}

pub(crate) fn margin(rt: &impl Print, margin: Result<i64, Refusal>) {
    match margin {
        Ok(m) => line(rt, format_args!("MARGIN {}{}", m.sign(), m.size())),
        Err(refusal) => line(rt, refusal),
    }
}

// An edit's line has the windows memory and the summary memory.
pub(crate) fn edited(
    rt: &impl Print,
    edited: Result<Edited, Refusal>,
    windows: &[u32],
    summary: &[u32],
) {
    let list = Buffer(windows);
    let kept = Buffer(summary);
    match edited {
        Ok(Edited { windows, numbers }) => {
            line(
                rt,
                format_args!("EDITED count {windows} summary {numbers}{list}{kept}"),
            )
        }
        Err(refusal) => line(rt, format_args!("{refusal}{list}{kept}")),
    }
}

// The line of a verdict, as `print` makes it; it is never longer than `MOST`. An error where not all of it was written.
#[tactic(auto, using(crate::proofs::Room::line_written))]
pub(crate) fn verdict(rt: &impl Print, verdict: Result<Verdict, Refusal>) -> io::Result<()> {
    let mut text = [0u8; MOST];
    match line_of(verdict, &mut text) {
        Ok(n) => rt.write_all(&text[..n as usize]),
        Err(_) => Err(io::Error::from(io::ErrorKind::WriteZero)),
    }
}

pub(crate) fn bound(rt: &impl Print, bound: Result<Option<u32>, Refusal>) {
    match bound {
        Ok(Some(t)) => line(rt, format_args!("BOUND {t}")),
        Ok(None) => line(rt, "NO BOUND"),
        Err(refusal) => line(rt, refusal),
    }
}

pub(crate) fn ran(rt: &impl Print, ran: Result<Ran, Refusal>, counts: &[u32]) {
    let counts = Buffer(counts);
    match ran {
        Ok(Ran::Met { backlog }) => line(rt, format_args!("MET backlog {backlog}{counts}")),
        Ok(
            Ran::Missed {
                instant,
                job,
                backlog,
            },
        ) => line(
            rt,
            format_args!("MISSED instant {instant} job {job} backlog {backlog}{counts}"),
        ),
        Err(refusal) => line(rt, format_args!("{refusal}{counts}")),
    }
}

pub(crate) fn replayed(rt: &impl Print, replayed: Result<Replayed, Refusal>) {
    match replayed {
        Ok(Replayed::Same) => line(rt, "SAME"),
        Ok(Replayed::Differs { trace, machine }) => {
            line(
                rt,
                format_args!("DIFFERS trace{} machine{}", Side(trace), Side(machine)),
            )
        }
        Ok(Replayed::Missed { instant, job }) => line(
            rt,
            format_args!("MISSED instant {instant} job {job}"),
        ),
        Err(refusal) => line(rt, refusal),
    }
}

pub(crate) fn bad_query(rt: &impl Print, at: usize) {
    line(rt, format_args!("BAD QUERY at {at}"));
}
