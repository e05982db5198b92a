// The records of a trace, at their instants.
ghost use Rattle.std.specs.Prelude.{◌≡◌};
ghost use Rattle.replay.specs.Reading.{record_of};
ghost use Rattle.replay.specs.Rebuilt.{records_of};
ghost use Rattle.replay.specs.Records.{records_left};

use crate::read::{Reader, Record};
use crate::trace::Trace;

// Those that are left.
#[derive(Drop)]
pub(crate) struct Records<'a> {
    bytes: &'a [u8],
    reader: Reader,
}

impl<'a> Iterator for Records<'a> {
    ghost use Rattle.std.specs.Iterator.{YieldsFirstBy, item_count};

    type Item = Record;

    ghost next_gives = { YieldsFirstBy record_of records_left };

    ghost remaining = { item_count records_left };

    #[tactic(auto, using(crate::proofs::RecordsLaws::none_left, crate::proofs::RecordsLaws::damaged_left, crate::proofs::RecordsLaws::one_left, crate::proofs::RecordsLaws::goes_on))]
    fn next(&mut self) -> Option<Record> {
        if self.bytes.len() <= self.reader.at {
            return None;
        }
        let Ok((record, reader)) = self.reader.next(self.bytes) else {
            return None;
        };
        self.reader = reader;
        Some(record)
    }
}

impl<'a> Trace<'a> {
    #[tactic(auto, using(crate::proofs::RecordsLaws::left_first), unfolding(crate::specs::Records::records_left))]
    pub(crate) fn records(self) -> Records<'a>
        ensures { records_left result ≡ records_of self.entry.bytes.now }
    {
        Records {
            bytes: self.bytes,
            reader: Reader::new(self.bytes),
        }
    }
}
