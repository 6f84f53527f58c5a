//! The next option of a negotiation.
ghost use Rattle.request_stream.specs.Streams.{EndsBy};
ghost use Rattle.std.specs.Prelude.{◌≡◌, OnErr, length};
ghost use Rattle.nbd_stream.specs.Options.{ReadsOption, ReadsOptionRest};

use crate::body::read_body;
use crate::request::StreamEnd;
use byteorder::{BigEndian, ByteOrder};
use request_stream::{Incoming, ServeFault};

/// The header of an option: its number, and how many bytes of data follow. (The NBD protocol, "Option haggling".)
#[derive(Clone, Copy, Debug, PartialEq, Eq)]
pub struct OptionHeader {
    pub code: u32,
    pub count: u32,
}

impl OptionHeader {
    ghost use Rattle.std.specs.Prelude.{◌≡◌, false, IfSome, IsNone};
    ghost use Rattle.nbd_stream.specs.Options.{SpellsOption, is_option_header};

    /// The header that sixteen bytes spell: `IHAVEOPT`, and the two numbers, each most significant byte first. Else `None`. (The NBD
    /// protocol, "Option haggling".)
    pub fn parse(bytes: &[u8; 16]) -> Option<OptionHeader>
        ensures spelled { IfSome result (λ header. SpellsOption bytes.now header) }
        ensures bad { IsNone result → is_option_header bytes.now ≡ false }
    {
        let [b'I', b'H', b'A', b'V', b'E', b'O', b'P', b'T', ..] = *bytes else {
            return None;
        };
        Some(OptionHeader {
            code: BigEndian::read_u32(&bytes[8..12]),
            count: BigEndian::read_u32(&bytes[12..16]),
        })
    }
}

/// What stands next in a negotiation. (This project's.)
#[derive(Clone, Copy, Debug, PartialEq, Eq)]
pub enum NextOption {
    /// An option. Its data stands at the front of the buffer, where it has room there.
    Whole(OptionHeader),
    /// No option, and why.
    Ended(StreamEnd),
}

// Reads what follows a header that was read.
fn read_rest<R: Incoming>(
    reader: &mut R,
    header: OptionHeader,
    body: &mut [u8],
) -> Result<NextOption, ServeFault>
    ensures reads { ReadsOptionRest header (R.remaining reader.old) (R.remaining reader.new) body.new result }
    ensures fails { OnErr result (EndsBy R.fails reader.new) }
{
    match read_body(reader, header.count, body) {
        Ok(true) => Ok(NextOption::Whole(header)),
        Ok(false) => Ok(NextOption::Ended(StreamEnd::Unfinished)),
        Err(fault) => Err(fault),
    }
}

/// Reads the next option, and no byte after it. It ends where the reader does, and with a header of another magic.
///
/// # Errors
///
/// `Read` where a read failed or was interrupted: what was read of an option is lost. (This project's.)
pub fn read_option<R: Incoming>(reader: &mut R, body: &mut [u8]) -> Result<NextOption, ServeFault>
    ensures reads { ReadsOption (R.remaining reader.old) (R.remaining reader.new) body.new result }
    ensures fails { OnErr result (EndsBy R.fails reader.new) }
{
    let mut bytes = [0; 16];
    let filled = reader.receive(&mut bytes);
    if filled.failed {
        return Err(ServeFault::Read);
    }
    if filled.count == 0 {
        return Ok(NextOption::Ended(StreamEnd::Boundary));
    }
    if filled.count < 16 {
        return Ok(NextOption::Ended(StreamEnd::Unfinished));
    }
    match OptionHeader::parse(&bytes) {
        None => Ok(NextOption::Ended(StreamEnd::BadFrame)),
        Some(header) => read_rest(reader, header, body),
    }
}
