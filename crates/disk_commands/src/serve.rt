//! The command `serve`: a disk is served to one client.
ghost use Rattle.std.specs.Prelude.{◌≡◌, ◌⊎◌, OnOk, IfOk, IfErr, Err, length, not, true, false};
ghost use Rattle.std.specs.Io.KnownBytes.{Keeps};
ghost use Rattle.disk_commands.specs.declared.text.DiskCommandFault.TheVariants as fault;
ghost use Rattle.disk_commands.specs.Opening.{OpensMarked};
ghost use Rattle.disk_commands.specs.Ready.{access_of};
ghost use Rattle.disk_commands.specs.Serve.{HasNotServed, HasReadDisk, HasServedAt, HasServedDisk, HasServedOn, IsDiskClosed, StreamStops, end_of, offer_of, pace_of, terms_told};
ghost use Rattle.disk_server.specs.Asked.{AsksSectors};
ghost use Rattle.disk_server.specs.Reading.{AllLasts};

use crate::files::DiskFiles;
use crate::ready::ready;
use crate::shape_text::DiskText;
use crate::shapes::{DiskShape, MOST_ENTRIES, waiting};
use crate::text::DiskCommandFault;
use crate::words::DiskServeWords;
use disk_server::{
    Lasting, Offer, ReadOnlyDisk, SectorDisk, Sectors, SyncPace, SyncedDisk, Syncs, serve_reading,
    serve_synced,
};
use nbd_stream::StreamEnd;
use page_layout::geometry::Geometry;
use request_stream::{Incoming, Outgoing, ServeFault};
use std::alloc::Global;

// The most bytes that one request reads or writes.
const MOST: u32 = 1_048_576;

// The fewest bytes of a request that a client is told to prefer, and those where a sector has fewer.
const LEAST_PREFERRED: u32 = 512;

const PREFERRED: u32 = 4096;

// What a client is told of a disk, beside its bytes.
fn offer_of(geometry: &Geometry, read_only: bool) -> Offer
    ensures { result ≡ offer_of geometry.now read_only }
{
    let data = geometry.data_bytes() as u32;
    Offer {
        read_only,
        preferred: if data >= LEAST_PREFERRED {
            data
        } else {
            PREFERRED
        },
        maximum: MOST,
    }
}

// How much of a disk may be changed between two syncs of its file. At a sync at most the entries of its cache, the sectors that wait and the pages of two blocks are stale, whether its device was
// flushed before or not, and those of two more where it was opened anew with a larger one: so no sync needs that flush for what is stale to have room at the next mount. Of a disk of fewer
// sectors all of them have.
fn pace_of(shape: &DiskShape) -> SyncPace
    ensures { result ≡ pace_of shape.now }
{
    let geometry = shape.geometry;
    let beside = u64::from(shape.cache)
        + waiting(&geometry, shape.share)
        + u64::from(geometry.pages()) * 4
        + u64::from(MOST) / geometry.data_bytes() as u64
        + 1;
    SyncPace {
        piece: geometry.data_bytes() as u32,
        most: if geometry.sectors() <= MOST_ENTRIES {
            u64::MAX
        } else {
            u64::from(MOST_ENTRIES).saturating_sub(beside)
        },
    }
}

// What a disk is served on, and whether a mark of it counts.
#[derive(Clone, Copy)]
struct Terms {
    offer: Offer,
    pace: SyncPace,
    marked: bool,
}

// What the disk is served on beside which this is told.
fn terms_of(told: &DiskText, read_only: bool) -> Terms
    ensures { result ≡ terms_told told.now read_only }
{
    Terms {
        offer: offer_of(&told.shape.geometry, read_only),
        pace: pace_of(&told.shape),
        marked: told.marked,
    }
}

// What a session that has ended comes to.
fn end_of<'a>(served: Result<StreamEnd, ServeFault>) -> Result<(), DiskCommandFault<'a>>
    ensures { result ≡ end_of served }
{
    match served {
        Ok(StreamEnd::Boundary | StreamEnd::Disconnected | StreamEnd::Unfinished) => Ok(()),
        Ok(StreamEnd::BadFrame) => Err(DiskCommandFault::BadFrame),
        Err(_) => Err(DiskCommandFault::Stream),
    }
}

// Ends a session on a disk, which is closed. A mark of it counts or not.
fn end_session<'a, S: Lasting, Y: Syncs>(
    disk: &mut SyncedDisk<SectorDisk<S>, Y>,
    marked: bool,
    path: &'a str,
    served: Result<StreamEnd, ServeFault>,
) -> Result<(), DiskCommandFault<'a>>
    ensures { IsDiskClosed S.contents S.honest (AsksSectors S.contents S.honest S.reads S.changes S.flushes) S.next S.takes Y.synced Y.failed Y.marked marked path.entry disk.old served result }
{
    match disk.close(marked) {
        Ok(()) => end_of(served),
        Err(_) => Err(DiskCommandFault::Device(path)),
    }
}

// Serves a disk to one client, and closes it when the client has gone.
fn serve_writing<'a, S: Lasting + Drop, Y: Syncs + Drop, I: Incoming, O: Outgoing>(
    opened: (SectorDisk<S>, Y),
    terms: Terms,
    path: &'a str,
    buffer: &mut [u8],
    input: &mut I,
    out: &mut O,
) -> Result<(), DiskCommandFault<'a>>
    requires { length buffer.old ≡ terms.offer.maximum }
    ensures served { HasServedDisk S.contents S.honest (AsksSectors S.contents S.honest S.reads S.changes S.flushes) S.rests S.next S.takes Y.synced Y.failed Y.marked terms path.entry opened.0 opened.1 (I.remaining input.old) (I.remaining input.new) (O.contents out.old) (O.contents out.new) result }
    ensures stops { StreamStops I.fails O.fails (I.remaining input.old) (I.remaining input.new) input.new out.new result }
{
    let (disk, syncs) = opened;
    let mut disk = SyncedDisk::new(disk, syncs, terms.pace);
    let served = serve_synced(&mut disk, terms.offer, buffer, input, out);
    end_session(&mut disk, terms.marked, path, served)
}

// Serves a disk that is only read to one client.
fn serve_only_reading<'a, S: Sectors + Drop, I: Incoming, O: Outgoing>(
    disk: SectorDisk<S>,
    terms: Terms,
    buffer: &mut [u8],
    input: &mut I,
    out: &mut O,
) -> Result<(), DiskCommandFault<'a>>
    requires lasts { S.honest disk ≡ true → AllLasts (S.contents disk) }
    requires read_only { terms.offer.read_only ≡ true }
    requires room { length buffer.old ≡ terms.offer.maximum }
    ensures served { HasReadDisk S.contents S.honest S.reads terms disk (I.remaining input.old) (I.remaining input.new) (O.contents out.old) (O.contents out.new) result }
    ensures stops { StreamStops I.fails O.fails (I.remaining input.old) (I.remaining input.new) input.new out.new result }
{
    let mut disk = ReadOnlyDisk::new(disk);
    end_of(serve_reading(&mut disk, terms.offer, buffer, input, out))
}

// Serves a disk to one client, on these terms.
fn serve_client<'a, S: Lasting + Drop, Y: Syncs + Drop, I: Incoming, O: Outgoing>(
    alloc: Global,
    opened: (SectorDisk<S>, Y),
    terms: Terms,
    path: &'a str,
    input: &mut I,
    out: &mut O,
) -> Result<(), DiskCommandFault<'a>>
    requires { S.honest opened.0 ≡ true → AllLasts (S.contents opened.0) }
    ensures served { HasServedOn S.contents S.honest (AsksSectors S.contents S.honest S.reads S.changes S.flushes) S.rests S.reads S.next S.takes Y.synced Y.failed Y.marked terms path.entry opened.0 opened.1 (I.remaining input.old) (I.remaining input.new) (O.contents out.old) (O.contents out.new) result
        ⊎ ((result ≡ Err fault.OutOfMemory) × Keeps (O.contents out.old) (O.contents out.new)) }
    ensures stops { StreamStops I.fails O.fails (I.remaining input.old) (I.remaining input.new) input.new out.new result }
{
    let Ok(mut buffer) = vec![in alloc; 0u8; terms.offer.maximum as usize] else {
        return Err(DiskCommandFault::OutOfMemory);
    };
    if terms.offer.read_only {
        serve_only_reading(opened.0, terms, &mut buffer, input, out)
    } else {
        serve_writing(opened, terms, path, &mut buffer, input, out)
    }
}

/// The command `serve`: serves the disk DISK to the client at `input` and `out` until it goes, and then flushes it, unless its mark says that it is flushed and nothing was programmed since. A
/// flush that a client asks for syncs the file, and no more. With `--read-only` its file is opened for reading alone, nothing is
/// asked of its die but reads, and a flush is answered as done. Else what a crash left torn is taken away first, by the mark beside DISK; a disk whose file says that one counts has its mark kept
/// from then on. **Of files whose stores are honest the client's answers are those of the array of bytes that the die at DISK holds, once that is taken away.**
///
/// Lost sectors, those on the list beside DISK and those that its pages show, are named on standard error, and none is read until it is written or trimmed. Where any is lost and DISK is to be
/// written, their list is kept before anything is programmed. Of a disk with a code it is told there how many wrong bits were turned back and how many pages are lost, where any are.
///
/// # Errors
///
/// The first of this order: as `info` where the disk was not opened or its store not mounted; `Read` or `OutOfMemory` where there is no place for the list of its lost sectors; `WriteList` where that
/// list was not kept; `Open` or `OutOfMemory` where the disk was not opened; any fault of a file where its mark cannot be kept, `Device` where the first sync failed; `Write` of `-` or `OutOfMemory`
/// where lost sectors, or what was wrong with pages, were not told; `OutOfMemory` for the device and for the memory of a request. After each of these nothing was sent. Then `Device` where the flush at the end failed, or a sync;
/// `BadFrame` where the client sent what is no request, `Stream` where `input` or `out` failed. (This project's.)
pub(crate) fn serve_command<'a, F: DiskFiles, I: Incoming, O: Outgoing, E: Outgoing>(
    alloc: Global,
    words: DiskServeWords<'a>,
    files: &mut F,
    input: &mut I,
    out: &mut O,
    err: &mut E,
) -> Result<(), DiskCommandFault<'a>>
    ensures served { HasServedAt F.Store.held F.Store.honest F.Store.full F.Store.mended F.Store.failed F.Syncs.synced F.Syncs.failed F.Syncs.marked F.Lists.kept F.Lists.says (F.answers files.old) words.entry (I.remaining input.old) (I.remaining input.new) (O.contents out.old) (O.contents out.new)
        (E.contents err.old) (E.contents err.new) result
        ⊎ HasNotServed F.Store.held F.Store.honest F.Store.failed F.Syncs.failed F.Lists.kept F.Lists.says F.Lists.failed (F.answers files.old) words.entry (O.contents out.old) (O.contents out.new) (E.contents err.old) (E.contents err.new) result }
    ensures stops { StreamStops I.fails O.fails (I.remaining input.old) (I.remaining input.new) input.new out.new result }
    ensures opened { OpensMarked (F.answers files.old) words.entry.disk.now (access_of words.entry) (F.opened files.old) (F.opened files.new) }
    ensures kept { F.kept files.new ≡ F.kept files.old }
{
    let (disk, syncs, told, _) = ready(alloc, files, &words, err)?;
    let terms = terms_of(&told, words.read_only);
    serve_client(alloc, (disk, syncs), terms, words.disk, input, out)
}
