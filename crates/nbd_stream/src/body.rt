//! The bytes that follow a header: taken into a buffer where they fit, and else read past.
ghost use Rattle.request_stream.specs.Streams.{EndsBy};
ghost use Rattle.std.specs.Prelude.{OnErr, ◌≡◌, ◌≤◌, ◌<◌, ℕ, List, length, true, false, Ok, Err};
ghost use Rattle.nbd_stream.specs.Frames.{ReadsBody};

use request_stream::{Incoming, ServeFault};

// How many bytes are read past at a time.
const PIECE: usize = 512;

// Reads past so many bytes, and tells whether all of them came.
fn skip<R: Incoming>(reader: &mut R, count: u32) -> Result<bool, ServeFault>
    ensures reads { (buffer : List ℕ) → length buffer < count → ReadsBody count (R.remaining reader.old) (R.remaining reader.new) buffer result }
    ensures fails { OnErr result (EndsBy R.fails reader.new) }
{
    let mut piece = [0; PIECE];
    let mut left = count as usize;
    while left > 0 {
        let size = left.min(PIECE);
        let filled = reader.receive(&mut piece[..size]);
        if filled.failed {
            return Err(ServeFault::Read);
        }
        if filled.count < size {
            return Ok(false);
        }
        left -= size;
    }
    Ok(true)
}

// Reads so many bytes into the front of the buffer, and tells whether all of them came.
fn take_in<R: Incoming>(reader: &mut R, count: usize, buffer: &mut [u8]) -> Result<bool, ServeFault>
    requires { count ≤ length buffer.old }
    ensures reads { ReadsBody count (R.remaining reader.old) (R.remaining reader.new) buffer.new result }
    ensures fails { OnErr result (EndsBy R.fails reader.new) }
{
    let filled = reader.receive(&mut buffer[..count]);
    if filled.failed {
        Err(ServeFault::Read)
    } else {
        Ok(filled.count == count)
    }
}

/// Reads the bytes that follow a header, and tells whether all of them came: into the front of the buffer where it has room for
/// them. Else they are read past in pieces, so that no length that was asked for takes memory.
///
/// # Errors
///
/// `Read` where a read failed: fewer bytes were read.
pub(crate) fn read_body<R: Incoming>(
    reader: &mut R,
    count: u32,
    buffer: &mut [u8],
) -> Result<bool, ServeFault>
    ensures reads { ReadsBody count (R.remaining reader.old) (R.remaining reader.new) buffer.new result }
    ensures fails { OnErr result (EndsBy R.fails reader.new) }
{
    if count as usize <= buffer.len() {
        take_in(reader, count as usize, buffer)
    } else {
        skip(reader, count)
    }
}
