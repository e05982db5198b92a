// The numbers of a query stream, one after the other. A bad one ends the reading, and is the error: its offset is what a bad query names.
ghost use Rattle.std.specs.Prelude.{◌*◌, ◌≤◌, length, IfOk};

use plan::number::{Damaged, read_number};

// A group has at most so many task records.
const RECORDS: usize = 40;

// Jobs, and what is lent for an entry to write to, have at most so many numbers.
pub(crate) const JOBS: usize = 12400;

// A plan has at most so many bytes.
pub(crate) const BYTES: usize = 4096;

// A trace has at most so many bytes.
pub(crate) const TRACE: usize = 20000;

// A summary has at most so many numbers.
pub(crate) const SUMMARY: usize = 9000;

// Lengths are at most so many.
pub(crate) const LENGTHS: usize = 1000;

// What a list of the stream has.
pub(crate) trait Item: Copy {
    fn read(stream: &mut Stream<'_>) -> Result<Self, Damaged>;
}

impl Item for u32 {
    fn read(stream: &mut Stream<'_>) -> Result<u32, Damaged> {
        stream.any()
    }
}

// A byte is a number of at most 255.
impl Item for u8 {
    fn read(stream: &mut Stream<'_>) -> Result<u8, Damaged> {
        let byte = stream.at_most(255)?;
        Ok(byte as u8)
    }
}

// The bytes of a stream, and where the next number begins. Lists are read to memory that the caller lends: what is long is not moved.
#[derive(Drop)]
pub(crate) struct Stream<'a> {
    bytes: &'a [u8],
    at: usize,
}

impl<'a> Stream<'a> {
    pub(crate) fn new(bytes: &'a [u8]) -> Stream<'a> {
        Stream { bytes, at: 0 }
    }

    pub(crate) fn at(&self) -> usize {
        self.at
    }

    pub(crate) fn is_at_end(&self) -> bool {
        self.bytes.len() <= self.at
    }

    // The bytes that are left.
    pub(crate) fn rest(&self) -> &'a [u8] {
        self.bytes.get(self.at..).unwrap_or(&[])
    }

    // Any number.
    pub(crate) fn any(&mut self) -> Result<u32, Damaged> {
        let number = read_number(self.bytes, self.at)?;
        self.at = number.next;
        Ok(number.value)
    }

    // A number of at most `most`.
    pub(crate) fn at_most(&mut self, most: usize) -> Result<usize, Damaged>
        ensures { IfOk result (λ n. n ≤ most) }
    {
        let at = self.at;
        let number = self.any()? as usize;
        if most < number {
            return Err(Damaged { at });
        }
        Ok(number)
    }

    // So many items, read to the front of lent memory.
    fn items<'m, T: Item>(
        &mut self,
        count: usize,
        memory: &'m mut [T],
    ) -> Result<&'m mut [T], Damaged>
        requires { count ≤ length memory.old }
    {
        let list = &mut memory[..count];
        for item in list.iter_mut() {
            *item = T::read(self)?;
        }
        Ok(list)
    }

    // A list: first how many items, at most `most`.
    pub(crate) fn list<'m, T: Item>(
        &mut self,
        most: usize,
        memory: &'m mut [T],
    ) -> Result<&'m mut [T], Damaged>
        requires { most ≤ length memory.old }
    {
        let count = self.at_most(most)?;
        self.items(count, memory)
    }

    // Task records: first how many, then three numbers each.
    pub(crate) fn records<'m>(&mut self, memory: &'m mut [u32]) -> Result<&'m mut [u32], Damaged>
        requires { 3 * RECORDS ≤ length memory.old }
    {
        let count = self.at_most(RECORDS)?;
        self.items(3 * count, memory)
    }

    // How much of the memory an entry is lent to write to: first how many numbers.
    pub(crate) fn room<'m, T>(&mut self, memory: &'m mut [T]) -> Result<&'m mut [T], Damaged>
        requires { JOBS ≤ length memory.old }
    {
        let count = self.at_most(JOBS)?;
        Ok(&mut memory[..count])
    }
}
