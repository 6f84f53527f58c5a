//! Requests are answered until the reader ends.
ghost use Rattle.std.specs.Prelude.{◌≡◌, ◌≢◌, length, Err, IfErr};
ghost use Rattle.ftl_device.specs.Device.{IsDevice};
ghost use Rattle.request_stream.specs.Streams.{HasStopped};
ghost use Rattle.block_server.specs.Session.{Session};

use crate::answer::serve_next;
use ftl_device::Device;
use onfi_cycles::Nand;
use promises::stream::End;
use request_stream::{Incoming, Outgoing, ServeFault, send_last};
use std::alloc::Global;

/// How many frames a server wrote, and what ended the stream of requests. (This project's.)
#[derive(Clone, Copy, Debug, PartialEq, Eq)]
pub struct Served {
    /// The replies, and the answer to a bad header.
    pub replies: u64,
    /// What stood where the next request would have begun.
    pub end: End,
}

// Serves requests with room for a sector that is written and for one that is read.
fn serve_with<N: Nand, R: Incoming, W: Outgoing>(
    reader: &mut R,
    writer: &mut W,
    device: &mut Device<N>,
    body: &mut [u8],
    bytes: &mut [u8],
) -> Result<Served, ServeFault>
    requires device { IsDevice N.view.flash device.old }
    requires body { length body.old ≡ device.old.engine.geometry.data_bytes }
    requires bytes { length bytes.old ≡ device.old.engine.geometry.data_bytes }
    ensures calm { N.view.calm device.new.engine.nand ≡ N.view.calm device.old.engine.nand }
    ensures session { Session N.view device.old device.new (R.remaining reader.old) (R.remaining reader.new)
        (W.contents writer.old) (W.contents writer.new) result }
    ensures never { result ≢ Err ServeFault.OutOfMemory }
    ensures stops { IfErr result (HasStopped 12 R.fails W.fails (R.remaining reader.old) (R.remaining reader.new) reader.new writer.new) }
{
    for replies in 0..u64::MAX {
        match serve_next(reader, writer, device, body, bytes)? {
            None => {}
            Some(end) => {
                let last = send_last(writer, end)?;
                return Ok(Served {
                    replies: replies + last,
                    end,
                });
            }
        }
    }
    Err(ServeFault::Read)
}

/// Serves requests one after another until the reader ends, a header is bad, or something fails. It
/// reads no further than the request at hand, and has the writer hand on each reply before it reads
/// the next request. All its memory is taken before the first read.
///
/// For a reader and a writer that tell their bytes, in whatever pieces these come: what was read is the
/// requests one after another and what stands after the last of them, and what was written is the
/// device's replies in order, with one frame of status 7 where a header was bad. The device was told
/// just these requests, one call a request, and each did what `tell` says of it, from a device to the
/// next. Before the first fault of the bus they are a run, as `run` says, whose events are those calls,
/// and from it on each reply is `BusFault`. No clause of this call says that a reply is handed on before the
/// next request is read: that of each reply does (`send_reply`: `hands`).
///
/// # Errors
///
/// - `Read` where a read failed or was interrupted, or 2^64 - 1 requests were answered, and else never: what
///   was written answers the requests that were read whole.
/// - `Write` where a write failed, was interrupted or took nothing, and else never: what was written is a
///   beginning of the replies.
/// - `OutOfMemory` where a growth was refused: nothing was read, and the device is as it was.
///
/// (This project's.)
pub fn serve<N: Nand, R: Incoming, W: Outgoing>(
    alloc: Global,
    reader: &mut R,
    writer: &mut W,
    device: &mut Device<N>,
) -> Result<Served, ServeFault>
    requires device { IsDevice N.view.flash device.old }
    ensures calm { N.view.calm device.new.engine.nand ≡ N.view.calm device.old.engine.nand }
    ensures session { Session N.view device.old device.new (R.remaining reader.old) (R.remaining reader.new)
        (W.contents writer.old) (W.contents writer.new) result }
    ensures stops { IfErr result (λ e. e ≢ ServeFault.OutOfMemory →
        HasStopped 12 R.fails W.fails (R.remaining reader.old) (R.remaining reader.new) reader.new writer.new e) }
    ensures unread { result ≡ Err ServeFault.OutOfMemory → reader.new ≡ reader.old }
    ensures unwritten { result ≡ Err ServeFault.OutOfMemory → writer.new ≡ writer.old }
    ensures untold { result ≡ Err ServeFault.OutOfMemory → device.new ≡ device.old }
{
    let size = device.engine.geometry.data_bytes();
    let Ok(mut body) = vec![in alloc; 0u8; size] else {
        return Err(ServeFault::OutOfMemory);
    };
    let Ok(mut bytes) = vec![in alloc; 0u8; size] else {
        return Err(ServeFault::OutOfMemory);
    };
    serve_with(reader, writer, device, &mut body, &mut bytes)
}
