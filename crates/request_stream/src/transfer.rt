//! Reads that fill a buffer and writes that send one. Std's own retry what was interrupted, and do not say how far they came.
ghost use Rattle.std.specs.Prelude.{◌≡◌, ◌≤◌, ◌<◌, true, false, length, take};
ghost use Rattle.std.specs.Io.KnownBytes.{Appends, Consumes, IsAtEnd};
ghost use Rattle.request_stream.specs.Frames.{SendsLine};

use crate::reply::ServeFault;
use std::io::{Read, Write};

/// How far a reader filled a buffer, and whether a read failed. (This project's.)
#[derive(Clone, Copy, Debug, PartialEq, Eq)]
pub struct Filled {
    /// The bytes that were read.
    pub count: usize,
    /// A read failed, and so no more was read.
    pub failed: bool,
}

/// Fills the buffer from the reader, and reads no further. Fewer bytes come where the reader ends or a
/// read fails; an interrupted read is a failed one. (This project's.)
pub fn fill<R: Read>(reader: &mut R, buffer: &mut [u8]) -> Filled
    ensures within { result.count ≤ length buffer.new }
    ensures read { Consumes (R.remaining reader.old) (R.remaining reader.new) (take result.count buffer.new) }
    ensures end { result.count < length buffer.new → result.failed ≡ false → IsAtEnd (R.remaining reader.new) }
    ensures failed { result.failed ≡ true → result.count < length buffer.new }
{
    let mut count = 0;
    while count < buffer.len() {
        match reader.read(&mut buffer[count..]) {
            Ok(0) => {
                return Filled {
                    count,
                    failed: false,
                };
            }
            Ok(n) => count += n,
            Err(_) => {
                return Filled {
                    count,
                    failed: true,
                };
            }
        }
    }
    Filled {
        count,
        failed: false,
    }
}

// How far a writer took some bytes, and whether it stopped short of all.
#[derive(Clone, Copy)]
struct Sent {
    count: usize,
    failed: bool,
}

// Writes the bytes until a write fails, is interrupted or takes nothing.
fn send_until<W: Write>(writer: &mut W, bytes: &[u8]) -> Sent
    ensures within { result.count ≤ length bytes.now }
    ensures written { Appends (W.contents writer.old) (W.contents writer.new) (take result.count bytes.now) }
    ensures whole { result.failed ≡ false → result.count ≡ length bytes.now }
    ensures short { result.failed ≡ true → result.count < length bytes.now }
{
    let mut count = 0;
    while count < bytes.len() {
        match writer.write(&bytes[count..]) {
            Ok(n) if n > 0 => count += n,
            _ => {
                return Sent {
                    count,
                    failed: true,
                };
            }
        }
    }
    Sent {
        count,
        failed: false,
    }
}

/// Writes the bytes, all of them. They are not handed on: the writer may hold them back until it is flushed.
///
/// # Errors
///
/// `Write` where a write failed, was interrupted or took nothing: a beginning of the bytes is out, or nothing, and never all
/// of them. (This project's.)
pub fn send<W: Write>(writer: &mut W, bytes: &[u8]) -> Result<(), ServeFault>
    ensures { SendsLine (W.contents writer.old) (W.contents writer.new) bytes.now result }
{
    let sent = send_until(writer, bytes);
    if sent.failed {
        Err(ServeFault::Write)
    } else {
        Ok(())
    }
}
