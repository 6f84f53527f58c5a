//! A disk is served to one client.
ghost use Rattle.std.specs.Prelude.{◌≡◌, ◌≤◌, IfErr, false, length, true};
ghost use Rattle.nbd_stream.specs.Transmission.{Serves};
ghost use Rattle.disk_server.specs.Asked.{AsksSectors};
ghost use Rattle.disk_server.specs.Synced.{RestsSynced, SyncsTask, export_of};
ghost use Rattle.disk_server.specs.Reading.{OnlyAsksReads, RestsNever};
ghost use Rattle.request_stream.specs.Streams.{HasStopped};
ghost use Rattle.nbd_stream.specs.Through.{Through};

use crate::reading::ReadOnlyDisk;
use crate::sector_disk::SectorDisk;
use crate::sectors::{Lasting, Sectors};
use crate::synced::{SyncedDisk, Syncs};
use nbd_stream::{Export, StreamEnd, serve};
use request_stream::{Incoming, Outgoing, ServeFault};

/// What a client is told of a disk, beside its bytes. (This project's.)
#[derive(Clone, Copy)]
pub struct Offer {
    /// Nothing is written.
    pub read_only: bool,
    /// Bytes of the requests that cost the least.
    pub preferred: u32,
    /// The most bytes that one request reads or writes.
    pub maximum: u32,
}

// The export of so many bytes, on these terms.
fn export_of(offer: Offer, size: u64) -> Export
    ensures { result ≡ export_of offer size }
{
    Export {
        size,
        read_only: offer.read_only,
        preferred: offer.preferred,
        maximum: offer.maximum,
    }
}

/// Serves all bytes of a disk to one client, until it goes: each request is answered by one reply, in order, and of a disk that is honest the answers are those of the array of its
/// bytes. After each change the disk rests. Each flush and each durable change ends with a sync, and so does each change once too much was changed since the last one (`SyncsTask`): a flush asks nothing else.
///
/// # Errors
///
/// As `nbd_stream::serve`. (The NBD protocol.)
pub fn serve_synced<S: Lasting, Y: Syncs, R: Incoming, W: Outgoing>(
    disk: &mut SyncedDisk<SectorDisk<S>, Y>,
    offer: Offer,
    buffer: &mut [u8],
    reader: &mut R,
    writer: &mut W,
) -> Result<StreamEnd, ServeFault>
    requires room { offer.maximum ≤ length buffer.old }
    ensures serves { Serves (λ s. S.contents s.disk) (λ s. S.honest s.disk) (λ _. false)
        (SyncsTask (AsksSectors S.contents S.honest S.reads S.changes S.flushes) Y.synced Y.failed Y.marked S.next) (RestsSynced S.rests)
        (export_of offer (length (S.contents disk.old.disk).bytes)) (length buffer.new) disk.old disk.new (R.remaining reader.old) (R.remaining reader.new)
        (W.contents writer.old) (W.contents writer.new) result }
    ensures stops { IfErr result (HasStopped 16 R.fails W.fails (R.remaining reader.old) (R.remaining reader.new) reader.new writer.new) }
{
    let export = export_of(offer, disk.disk().bytes());
    serve(reader, writer, disk, &export, buffer)
}

/// Serves all bytes of a disk that is only read to one client, until it goes, as `serve_synced` does. **What stands under the disk is asked for reads of its sectors, and for
/// nothing else** (`reads`): a change is refused, and a flush is done.
///
/// # Errors
///
/// As `nbd_stream::serve`. (The NBD protocol.)
pub fn serve_reading<S: Sectors, R: Incoming, W: Outgoing>(
    disk: &mut ReadOnlyDisk<S>,
    offer: Offer,
    buffer: &mut [u8],
    reader: &mut R,
    writer: &mut W,
) -> Result<StreamEnd, ServeFault>
    requires read_only { offer.read_only ≡ true }
    requires room { offer.maximum ≤ length buffer.old }
    ensures serves { Serves S.contents S.honest (λ _. false) (OnlyAsksReads S.reads) RestsNever
        (export_of offer (length (S.contents disk.old).bytes)) (length buffer.new) disk.old disk.new (R.remaining reader.old) (R.remaining reader.new)
        (W.contents writer.old) (W.contents writer.new) result }
    ensures reads { Through S.reads disk.old disk.new }
    ensures stops { IfErr result (HasStopped 16 R.fails W.fails (R.remaining reader.old) (R.remaining reader.new) reader.new writer.new) }
{
    let export = export_of(offer, disk.bytes());
    serve(reader, writer, disk, &export, buffer)
}
