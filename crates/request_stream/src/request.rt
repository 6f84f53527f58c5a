//! The next request of a stream.
ghost use Rattle.std.specs.Prelude.{length, OnErr};
ghost use Rattle.request_stream.specs.Frames.{ReadsAfterHeader, ReadsRequest};
ghost use Rattle.request_stream.specs.Streams.{EndsBy};

use crate::header::Header;
use crate::reply::ServeFault;
use crate::streams::Incoming;
use promises::stream::{End, Op};

/// What stands next in a stream of requests. (This project's.)
#[derive(Clone, Copy, Debug, PartialEq, Eq)]
pub enum Next {
    /// A request: its header, with the bytes that follow a write's in the buffer.
    Whole(Header),
    /// No request, and why.
    Ended(End),
}

// Reads what follows a header that was read.
fn read_body<R: Incoming>(
    reader: &mut R,
    header: Header,
    body: &mut [u8],
) -> Result<Next, ServeFault>
    ensures reads { ReadsAfterHeader (length body.new) header (R.remaining reader.old) (R.remaining reader.new) body.new result }
    ensures fails { OnErr result (EndsBy R.fails reader.new) }
{
    if header.op != Op::Write {
        return Ok(Next::Whole(header));
    }
    let filled = reader.receive(body);
    if filled.failed {
        Err(ServeFault::Read)
    } else if filled.count < body.len() {
        Ok(Next::Ended(End::Unfinished))
    } else {
        Ok(Next::Whole(header))
    }
}

/// Reads the next request, and no byte after it: its header, and into `body` the sector that follows
/// the header of a write. It ends where the reader does, or with a bad header.
///
/// # Errors
///
/// `Read` where a read failed or was interrupted: what was read of a request is lost. (This project's.)
pub fn read_request<R: Incoming>(reader: &mut R, body: &mut [u8]) -> Result<Next, ServeFault>
    ensures reads { ReadsRequest (length body.new) (R.remaining reader.old) (R.remaining reader.new) body.new result }
    ensures fails { OnErr result (EndsBy R.fails reader.new) }
{
    let mut bytes = [0; 12];
    let filled = reader.receive(&mut bytes);
    if filled.failed {
        return Err(ServeFault::Read);
    }
    if filled.count == 0 {
        return Ok(Next::Ended(End::Boundary));
    }
    if filled.count < 12 {
        return Ok(Next::Ended(End::Unfinished));
    }
    match Header::parse(&bytes) {
        None => Ok(Next::Ended(End::BadFrame)),
        Some(header) => read_body(reader, header, body),
    }
}
