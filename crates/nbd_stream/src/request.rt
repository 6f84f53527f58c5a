//! The next request of a transmission.
ghost use Rattle.request_stream.specs.Streams.{EndsBy};
ghost use Rattle.std.specs.Prelude.{◌≡◌, OnErr, length};
ghost use Rattle.nbd_stream.specs.Frames.{ReadsNbdRequest, ReadsRest};

use crate::body::read_body;
use byteorder::{BigEndian, ByteOrder};
use request_stream::{Incoming, ServeFault};

/// The header of a request: its flags and the number of its command, the cookie that its reply carries, and the range of bytes
/// that it speaks of. (The NBD protocol, "Request message".)
#[derive(Clone, Copy, Debug, PartialEq, Eq)]
pub struct NbdHeader {
    pub flags: u16,
    pub code: u16,
    pub cookie: u64,
    pub offset: u64,
    pub count: u32,
}

impl NbdHeader {
    ghost use Rattle.std.specs.Prelude.{◌≡◌, false, IfSome, IsNone};
    ghost use Rattle.nbd_stream.specs.Frames.{SpellsHeader, begins_with_magic, counted_body_length};

    /// The header that 28 bytes spell: the magic 25609513h, and the five numbers in their order, each most significant byte first.
    /// Else `None`. (The NBD protocol, "Request message".)
    pub fn parse(bytes: &[u8; 28]) -> Option<NbdHeader>
        ensures spelled { IfSome result (λ header. SpellsHeader bytes.now header) }
        ensures bad { IsNone result → begins_with_magic bytes.now ≡ false }
    {
        let [0x25, 0x60, 0x95, 0x13, ..] = *bytes else {
            return None;
        };
        Some(NbdHeader {
            flags: BigEndian::read_u16(&bytes[4..6]),
            code: BigEndian::read_u16(&bytes[6..8]),
            cookie: BigEndian::read_u64(&bytes[8..16]),
            offset: BigEndian::read_u64(&bytes[16..24]),
            count: BigEndian::read_u32(&bytes[24..28]),
        })
    }

    // How many bytes follow the header.
    fn body_count(&self) -> u32
        ensures { result ≡ counted_body_length self.now.code self.now.count }
    {
        if self.code == WRITE { self.count } else { 0 }
    }
}

// The commands that decide how a header is read on.
const WRITE: u16 = 1;

const DISCONNECT: u16 = 2;

/// Why there is no next request, or no next option. (This project's.)
#[derive(Clone, Copy, Debug, PartialEq, Eq)]
pub enum StreamEnd {
    /// The stream ended after a whole one, or before the first.
    Boundary,
    /// The stream ended in the middle of one.
    Unfinished,
    /// A header with another magic.
    BadFrame,
    /// The client said that it goes.
    Disconnected,
}

/// What stands next in a transmission. (This project's.)
#[derive(Clone, Copy, Debug, PartialEq, Eq)]
pub enum NextRequest {
    /// A request. The bytes that follow a write's header stand at the front of the buffer, where they have room there.
    Whole(NbdHeader),
    /// No request, and why.
    Ended(StreamEnd),
}

// Reads what follows a header that was read.
fn read_rest<R: Incoming>(
    reader: &mut R,
    header: NbdHeader,
    body: &mut [u8],
) -> Result<NextRequest, ServeFault>
    ensures reads { ReadsRest header (R.remaining reader.old) (R.remaining reader.new) body.new result }
    ensures fails { OnErr result (EndsBy R.fails reader.new) }
{
    if header.code == DISCONNECT {
        return Ok(NextRequest::Ended(StreamEnd::Disconnected));
    }
    match read_body(reader, header.body_count(), body) {
        Ok(true) => Ok(NextRequest::Whole(header)),
        Ok(false) => Ok(NextRequest::Ended(StreamEnd::Unfinished)),
        Err(fault) => Err(fault),
    }
}

/// Reads the next request, and no byte after it. It ends where the reader does, with a header of another magic, and with a client
/// that goes.
///
/// # Errors
///
/// `Read` where a read failed or was interrupted: what was read of a request is lost. (This project's.)
pub fn read_request<R: Incoming>(reader: &mut R, body: &mut [u8]) -> Result<NextRequest, ServeFault>
    ensures reads { ReadsNbdRequest (R.remaining reader.old) (R.remaining reader.new) body.new result }
    ensures fails { OnErr result (EndsBy R.fails reader.new) }
{
    let mut bytes = [0; 28];
    let filled = reader.receive(&mut bytes);
    if filled.failed {
        return Err(ServeFault::Read);
    }
    if filled.count == 0 {
        return Ok(NextRequest::Ended(StreamEnd::Boundary));
    }
    if filled.count < 28 {
        return Ok(NextRequest::Ended(StreamEnd::Unfinished));
    }
    match NbdHeader::parse(&bytes) {
        None => Ok(NextRequest::Ended(StreamEnd::BadFrame)),
        Some(header) => read_rest(reader, header, body),
    }
}
