//! Replies to requests.
ghost use Rattle.request_stream.specs.Streams.{EndsBy};
ghost use Rattle.std.specs.Prelude.{◌≡◌, OnErr, OnOk};
ghost use Rattle.std.specs.List.{flat_map};
ghost use Rattle.request_stream.specs.Frames.{SendsBytes};
ghost use Rattle.nbd_stream.specs.Frames.{simple_reply_bytes, reply_header_bytes, error_number_of};

use request_stream::{Outgoing, ServeFault};
use thiserror::Error;

/// Why a request was not done, under the protocol's numbers. (The NBD protocol, "Error values".)
#[derive(Clone, Copy, Debug, PartialEq, Eq, Error)]
pub enum RequestError {
    /// The export cannot be written.
    #[error("EPERM")]
    NotPermitted = 1,
    /// The disk failed.
    #[error("EIO")]
    InputOutput = 5,
    /// A request that has no answer: an unknown command or flag, a length of none or of more than the export takes, or a read or a
    /// trim past the export's end.
    #[error("EINVAL")]
    Invalid = 22,
    /// Bytes past the export's end were to be written.
    #[error("ENOSPC")]
    NoSpace = 28,
}

// The number of how a request went.
fn error_number(done: Result<(), RequestError>) -> u32
    ensures { result ≡ error_number_of done }
{
    match done {
        Ok(()) => 0,
        Err(RequestError::NotPermitted) => 1,
        Err(RequestError::InputOutput) => 5,
        Err(RequestError::Invalid) => 22,
        Err(RequestError::NoSpace) => 28,
    }
}

// The sixteen bytes that a reply begins with: the magic 67446698h, the error's number, the cookie.
fn reply_header(error: u32, cookie: u64) -> [u8; 16]
    ensures { result ≡ reply_header_bytes error cookie }
{
    let [e0, e1, e2, e3] = error.to_be_bytes();
    let [c0, c1, c2, c3, c4, c5, c6, c7] = cookie.to_be_bytes();
    [
        0x67, 0x44, 0x66, 0x98, e0, e1, e2, e3, c0, c1, c2, c3, c4, c5, c6, c7,
    ]
}

/// Writes these parts one after another, and has the writer hand them on, so that no reply waits in a buffer.
///
/// # Errors
///
/// `Write` where a write or the handing on failed, was interrupted or took nothing: a beginning is out.
pub(crate) fn send_parts<W: Outgoing>(writer: &mut W, parts: &[&[u8]]) -> Result<(), ServeFault>
    ensures sends { SendsBytes (W.contents writer.old) (W.contents writer.new) (flat_map (λ part. part.now) parts.now) result }
    ensures fails { OnErr result (EndsBy W.fails writer.new) }
    ensures hands { OnOk result (EndsBy W.hands writer.new) }
{
    for part in parts {
        writer.put(part)?;
    }
    writer.hand_on()
}

/// Writes the simple reply to the request of this cookie, with the bytes that a read gave, or none, and has the writer hand it on.
/// After an error no bytes follow.
///
/// # Errors
///
/// `Write` where a write or the handing on failed, was interrupted or took nothing: a beginning of the reply is out. (The NBD
/// protocol, "Simple reply message".)
pub fn send_reply<W: Outgoing>(
    writer: &mut W,
    cookie: u64,
    done: Result<(), RequestError>,
    bytes: &[u8],
) -> Result<(), ServeFault>
    ensures sends { SendsBytes (W.contents writer.old) (W.contents writer.new) (simple_reply_bytes cookie done bytes.now) result }
    ensures fails { OnErr result (EndsBy W.fails writer.new) }
    ensures hands { OnOk result (EndsBy W.hands writer.new) }
{
    let header = reply_header(error_number(done), cookie);
    match done {
        Ok(()) => send_parts(writer, &[&header, bytes]),
        Err(_) => send_parts(writer, &[&header]),
    }
}
