// Reading a file or a pipe.
ghost use Rattle.std.specs.Prelude.{◌≡◌, IfOk, length};
ghost use Rattle.palikudyom.specs.Prefix.{IsPrefixLen};

use std::io;
use std::io::Read;

// As `read`, but reads on until the buffer is full or the input ends: how many bytes stand at the buffer's front, or why a read failed.
// An error leaves in the buffer what was read before it. A byte at a time: the inputs are short, and a pipe that delivers in pieces is no
// case of its own.
pub(crate) fn read_on(input: &mut impl Read, buffer: &mut [u8]) -> io::Result<usize>
    ensures read { IfOk result (λ n. IsPrefixLen n buffer.new) }
    ensures size { length buffer.new ≡ length buffer.old }
{
    for filled in 0..buffer.len() {
        let mut byte = [0u8; 1];
        let got = input.read(&mut byte)?;
        if got == 0 {
            return Ok(filled);
        }
        buffer[filled] = byte[0];
    }
    Ok(buffer.len())
}

// Whether there is one byte more.
pub(crate) fn more(input: &mut impl Read) -> bool {
    let mut byte = [0u8; 1];
    matches!(input.read(&mut byte), Ok(got) if got > 0)
}
