//! A die is checked, a device is started over it, and requests are served.
ghost use Rattle.std.specs.Prelude.{◌≡◌, Ok, IfOk, IfErr};
ghost use Rattle.page_layout.specs.Geometry.{IsShare};
ghost use Rattle.request_stream.specs.Streams.{HasStopped};
ghost use Rattle.block_server.specs.Checked.{IsServed, FailsToServe, StopsServer};

use crate::server::{Served, serve};
use certificate::Certificate;
use ftl_device::{Device, StartFault};
use image_check::{Refusal, check};
use onfi_cycles::Nand;
use page_layout::geometry::Geometry;
use request_stream::{Incoming, Outgoing, ServeFault};
use std::alloc::Global;
use thiserror::Error;

/// Why requests were not served to the end of their stream. The die comes back. (This project's.)
#[derive(Drop, Error)]
pub enum RunFault<N> {
    /// The checker refused the certificate. Nothing was read.
    #[error("Refused {refusal}")]
    Refused { refusal: Refusal, nand: N },
    /// A growth was refused while the device was started. Nothing was read.
    #[error("Start")]
    Start { nand: N },
    /// The server stopped.
    #[error("Serve {fault}")]
    Serve { fault: ServeFault, nand: N },
}

/// Checks that the certificate agrees with what the die holds, starts a device from it, and serves
/// requests until their stream ends; then the die comes back.
///
/// **If the checker accepts an image and its certificate, the image holds exactly one array of sectors;
/// over every later list of commands, turns and chip failures each answer is that array's, the die holds
/// that array after each, no page is programmed twice between erases, no bad block is programmed or
/// erased, and writes are refused only by a named shortage while reads stay right.**
///
/// The shortage: after the call fewer than `Geometry::need` blocks are good, or more than two failed in
/// it, or the device was read-only before it, by the image and the log; fewer than five blocks are free
/// then. The other refusals of a write are `SequenceSpent`, with the last sequence given out, and
/// `OutOfMemory`. Bad are the blocks that the certificate gives as bad, and those that have failed since.
///
/// The device was told one request after another, and each call did what `tell` says of it, from a device
/// to the next, whatever the die does. Of a reader and a writer that tell their bytes, what was read is those
/// requests and what was written their replies, as `serve` says.
///
/// The bold words are said where the die is honest, of the calls before the first fault of the bus: of all
/// of them where no reply is `BusFault`. That reply comes only where the die's count of faults rose in the
/// call or stands at 2^64 - 1, and every reply after it is the same.
///
/// # Errors
///
/// - `Refused` with the checker's refusal: nothing was read or written, and the die's pages are as they
///   were, but after `Source` nothing is known of them.
/// - `Start` where a growth was refused: nothing was read or written, and the die's pages are as they were.
/// - `Serve` with the server's fault. What was served until then is as said above.
///
/// The die comes back in each case, as honest and as calm as it was, of its geometry, and with no fewer
/// faults counted.
///
/// (This project's.)
pub fn serve_checked<N: Nand, R: Incoming, W: Outgoing>(
    alloc: Global,
    nand: N,
    geometry: &Geometry,
    capacity: u32,
    certificate: &Certificate,
    reader: &mut R,
    writer: &mut W,
) -> Result<(Served, N), RunFault<N>>
    requires same_geometry { (N.view.flash nand).geometry ≡ geometry.now }
    ensures served { IfOk result (λ done. IsServed N.view nand geometry.now 0 capacity certificate.now
        (R.remaining reader.old) (R.remaining reader.new) (W.contents writer.old) (W.contents writer.new) (Ok done.0) done.1) }
    ensures fault { IfErr result (FailsToServe N.view nand geometry.now 0 capacity certificate.now
        (R.remaining reader.old) (R.remaining reader.new) (W.contents writer.old) (W.contents writer.new)) }
    ensures stops { IfErr result (StopsServer (HasStopped 12 R.fails W.fails
        (R.remaining reader.old) (R.remaining reader.new) reader.new writer.new)) }
{
    serve_checked_at(
        alloc,
        nand,
        geometry,
        0,
        capacity,
        certificate,
        reader,
        writer,
    )
}

/// As `serve_checked`, with a device as `Device::start_at` begins it: up to `share` moved sectors, in the mean,
/// wait for each translation page, and the shortage asks for `Geometry::need_at` good blocks. `share` is one of
/// the geometry: `Geometry::is_share`. The bold words hold at every share.
///
/// # Errors
///
/// As there. (This project's.)
pub fn serve_checked_at<N: Nand, R: Incoming, W: Outgoing>(
    alloc: Global,
    mut nand: N,
    geometry: &Geometry,
    share: u32,
    capacity: u32,
    certificate: &Certificate,
    reader: &mut R,
    writer: &mut W,
) -> Result<(Served, N), RunFault<N>>
    requires share { IsShare geometry.now share }
    requires same_geometry { (N.view.flash nand).geometry ≡ geometry.now }
    ensures served { IfOk result (λ done. IsServed N.view nand geometry.now share capacity certificate.now
        (R.remaining reader.old) (R.remaining reader.new) (W.contents writer.old) (W.contents writer.new) (Ok done.0) done.1) }
    ensures fault { IfErr result (FailsToServe N.view nand geometry.now share capacity certificate.now
        (R.remaining reader.old) (R.remaining reader.new) (W.contents writer.old) (W.contents writer.new)) }
    ensures stops { IfErr result (StopsServer (HasStopped 12 R.fails W.fails
        (R.remaining reader.old) (R.remaining reader.new) reader.new writer.new)) }
{
    let accepted = match check(alloc, &mut nand, geometry, capacity, certificate) {
        Ok(accepted) => accepted,
        Err(refusal) => return Err(RunFault::Refused { refusal, nand }),
    };
    let mut device = match Device::start_at(alloc, nand, share, accepted) {
        Ok(device) => device,
        Err(StartFault::OutOfMemory { nand, .. }) => return Err(RunFault::Start { nand }),
    };
    let served = serve(alloc, reader, writer, &mut device);
    let nand = device.into_nand();
    match served {
        Ok(served) => Ok((served, nand)),
        Err(fault) => Err(RunFault::Serve { fault, nand }),
    }
}
