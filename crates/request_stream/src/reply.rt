//! Replies.
ghost use Rattle.std.specs.Prelude.{◌≡◌, [], IfOk, IsErr, OnErr, OnOk};
ghost use Rattle.promises.specs.Stream.{op_code, last_bytes};
ghost use Rattle.request_stream.specs.Frames.{answer_bytes, last_count, SendsBytes};
ghost use Rattle.request_stream.specs.Streams.{EndsBy};

use crate::header::Header;
use crate::streams::Outgoing;
use promises::stream::End;
use thiserror::Error;

/// Why requests are answered no more before their stream has ended. (This project's.)
#[derive(Clone, Copy, Debug, PartialEq, Eq, Error)]
pub enum ServeFault {
    /// A read failed or was interrupted; or as many requests were answered as can be counted.
    #[error("Read")]
    Read = 1,
    /// A write failed, was interrupted or took nothing.
    #[error("Write")]
    Write = 2,
    /// A growth was refused, before anything was read.
    #[error("OutOfMemory")]
    OutOfMemory = 3,
}

/// The status of the answer to a bad header.
const BAD_FRAME: u8 = 7;

// The eight bytes that a reply begins with: `df`, the operation's code, the status, the tag, least significant byte first.
fn reply_header(code: u8, status: u8, tag: u32) -> [u8; 8]
    ensures { result ≡ answer_bytes code status tag [] }
{
    let [t0, t1, t2, t3] = tag.to_le_bytes();
    [b'd', b'f', code, status, t0, t1, t2, t3]
}

// Writes a frame and its sector, and has the writer hand them on, so that no reply waits in a buffer.
fn send_frame<W: Outgoing>(
    writer: &mut W,
    code: u8,
    status: u8,
    tag: u32,
    sector: &[u8],
) -> Result<(), ServeFault>
    ensures sends { SendsBytes (W.contents writer.old) (W.contents writer.new) (answer_bytes code status tag sector.now) result }
    ensures fails { OnErr result (EndsBy W.fails writer.new) }
    ensures hands { OnOk result (EndsBy W.hands writer.new) }
{
    writer.put(&reply_header(code, status, tag))?;
    writer.put(sector)?;
    writer.hand_on()
}

/// Writes the reply to a request, with the sector that a read gave, or no bytes, and has the writer
/// hand it on.
///
/// # Errors
///
/// `Write` where a write or the handing on failed, was interrupted or took nothing: a beginning of the
/// reply is out. (This project's layout.)
pub fn send_reply<W: Outgoing>(
    writer: &mut W,
    header: Header,
    status: u8,
    sector: &[u8],
) -> Result<(), ServeFault>
    ensures sends { SendsBytes (W.contents writer.old) (W.contents writer.new) (answer_bytes (op_code header.op) status header.tag sector.now) result }
    ensures fails { OnErr result (EndsBy W.fails writer.new) }
    ensures hands { OnOk result (EndsBy W.hands writer.new) }
{
    send_frame(writer, header.op.code(), status, header.tag, sector)
}

/// Writes the answer to a bad header; no other end of a stream has one. It answers how many frames it
/// wrote.
///
/// # Errors
///
/// `Write` as of `send_reply`, only after a bad header. (This project's layout.)
pub fn send_last<W: Outgoing>(writer: &mut W, end: End) -> Result<u64, ServeFault>
    ensures sends { SendsBytes (W.contents writer.old) (W.contents writer.new) (last_bytes end) result }
    ensures count { IfOk result (λ count. count ≡ last_count end) }
    ensures bad { IsErr result → end ≡ End.BadFrame }
    ensures fails { OnErr result (EndsBy W.fails writer.new) }
    ensures hands { end ≡ End.BadFrame → OnOk result (EndsBy W.hands writer.new) }
{
    match end {
        End::Boundary | End::Unfinished => Ok(0),
        End::BadFrame => {
            send_frame(writer, 0, BAD_FRAME, 0, &[])?;
            Ok(1)
        }
    }
}
