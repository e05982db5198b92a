ghost use Rattle.std.specs.Prelude.{◌≡◌, MatchResult};
ghost use Rattle.tables.specs.Told.{number, place};
ghost use Rattle.host.specs.Told.{amount, refusal};

use tables::answer::Refusal;

// An answer as a code and numbers, for an enum can't cross to C. Numbers that a code has no use for are 0.
#[repr(C)]
#[derive(Clone, Copy, Debug, PartialEq, Eq)]
pub struct Answer {
    pub code: u32,
    pub a: u64,
    pub b: u64,
    pub c: u64,
    pub d: u64,
}

impl Answer {
    // a: the documents' number, b: place
    pub const REFUSED: u32 = 0;
    // a: amount
    pub const AMOUNT: u32 = 1;
    // a: delay times A, b: A
    pub const DELAY: u32 = 2;
    // a: margin
    pub const MARGIN: u32 = 3;
    // a: how far below 0
    pub const BELOW: u32 = 4;
    // a: cycle
    pub const MEETS: u32 = 5;
    // a: length, b: start, c: demand, d: supply
    pub const MISS: u32 = 6;
    // a: bound
    pub const BOUND: u32 = 7;

    pub const NO_BOUND: u32 = 8;
    // a: backlog
    pub const MET: u32 = 9;
    // a: instant, b: job, c: backlog
    pub const MISSED: u32 = 10;

    pub const SAME: u32 = 11;
    // a: the trace's instant, b: its task, c: the machine's instant, d: its task
    pub const DIFFERS: u32 = 12;
    // c: the machine's instant, d: its task
    pub const TRACE_ENDED: u32 = 13;
    // a: the trace's instant, b: its task
    pub const MACHINE_ENDED: u32 = 14;
    // a: instant, b: job, its index among the releases
    pub const TRACE_MISSED: u32 = 15;
    // Never given: a difference has a side.
    pub const BOTH_ENDED: u32 = 16;
    // a: how many windows there are now, b: how many numbers their summary has
    pub const EDITED: u32 = 17;
}

// Two numbers after a code.
pub(crate) fn two(code: u32, a: u64, b: u64) -> Answer
    ensures { result ≡ record { code = code; a = a; b = b; c = 0; d = 0 } }
{
    Answer {
        code,
        a,
        b,
        c: 0,
        d: 0,
    }
}

// One number after a code.
pub(crate) fn one(code: u32, a: u64) -> Answer
    ensures { result ≡ record { code = code; a = a; b = 0; c = 0; d = 0 } }
{
    two(code, a, 0)
}

impl From<Refusal> for Answer {
    ghost from_gives = { λ r answer. answer ≡ refusal (number r) (place r) };

    fn from(refusal: Refusal) -> Answer {
        two(Answer::REFUSED, refusal.number(), refusal.place())
    }
}

impl From<u64> for Answer {
    ghost from_gives = { λ n answer. answer ≡ amount n };

    fn from(amount: u64) -> Answer {
        one(Answer::AMOUNT, amount)
    }
}

// An entry's answer: its value as that is told, or the refusal.
impl<T: Into<Answer>> From<Result<T, Refusal>> for Answer {
    ghost from_gives = { λ r answer. MatchResult r (λ value. T.converts value answer)
        (λ e. answer ≡ refusal (number e) (place e)) };

    fn from(answer: Result<T, Refusal>) -> Answer {
        match answer {
            Ok(value) => value.into(),
            Err(refusal) => refusal.into(),
        }
    }
}
