// What the entries answer. specs/Told.antt gives the documents' number, place and values for every case, and the promises go through it.
ghost use Rattle.std.specs.Prelude.{◌≡◌, nat_abs, Some};
ghost use Rattle.tables.specs.Told.{number as number_of, place as place_of, refusal_text};

use std::error::Error;
use std::fmt;

// Why an input is refused.
#[derive(Clone, Copy, Debug, PartialEq, Eq)]
pub enum Refusal {
    WindowList,
    Frame,
    Window(u64),
    TaskList,
    Task(u64),
    Cycle,
    Asked,
    Room(u64),
    Bytes(u64),
    JobList,
    Job(u64),
    Sliver(u64),
    Loss,
    Summary,
}

impl Refusal {
    // The documents' number of a refusal.
    pub fn number(self) -> u64
        ensures { result ≡ number_of self }
    {
        match self {
            Refusal::WindowList => 1,
            Refusal::Frame => 2,
            Refusal::Window(_) => 3,
            Refusal::TaskList => 4,
            Refusal::Task(_) => 5,
            Refusal::Cycle => 6,
            Refusal::Asked => 7,
            Refusal::Room(_) => 8,
            Refusal::Bytes(_) => 9,
            Refusal::JobList => 10,
            Refusal::Job(_) => 11,
            Refusal::Sliver(_) => 12,
            Refusal::Loss => 13,
            Refusal::Summary => 14,
        }
    }

    // The documents' place of a refusal.
    pub fn place(self) -> u64
        ensures { result ≡ place_of self }
    {
        match self {
            Refusal::Window(at)
            | Refusal::Task(at)
            | Refusal::Room(at)
            | Refusal::Bytes(at)
            | Refusal::Job(at)
            | Refusal::Sliver(at) => at,
            _ => 0,
        }
    }
}

// As every printed line has it.
impl fmt::Display for Refusal {
    ghost output = { λ r. Some (refusal_text r) };

    fn fmt<W: fmt::Write>(&self, f: &mut fmt::Formatter<W>) -> fmt::Result {
        write!(f, "REFUSED {} at {}", self.number(), self.place())
    }
}

impl Error for Refusal {}

// The delay times A, with A beside it.
#[derive(Clone, Copy, Debug, PartialEq, Eq)]
pub struct Delay {
    pub delay: u64,
    pub per_frame: u32,
}

#[derive(Clone, Copy, Debug, PartialEq, Eq)]
pub enum Verdict {
    Meets {
        cycle: u32,
    },
    Miss {
        length: u32,
        start: u32,
        demand: u64,
        supply: u32,
    },
}

// What an edit leaves: how many windows, and how many numbers their summary has.
#[derive(Clone, Copy, Debug, PartialEq, Eq)]
pub struct Edited {
    pub windows: u64,
    pub numbers: u64,
}

// A signed number without its sign.
pub fn magnitude(m: i64) -> u64
    ensures { result ≡ nat_abs m }
{
    m.unsigned_abs()
}
