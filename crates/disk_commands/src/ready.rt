//! The disk at a path is made ready to be served: it is looked at, the list of its lost sectors is kept, and it is opened.
ghost use Rattle.std.specs.Prelude.{◌≡◌, ◌⊎◌, false, true, IfErr, IfOk, OnOk};
ghost use Rattle.image_check.specs.Agrees.{Agrees};
ghost use Rattle.disk_server.specs.Disk.{contents_of, holds};
ghost use Rattle.disk_server.specs.Opened.{SyncsWhen, is_honest_in, view_in};
ghost use Rattle.disk_server.specs.Synced.{after_sync};
ghost use Rattle.disk_commands.specs.Damage.{NamesAll};
ghost use Rattle.disk_commands.specs.Files.{with_mark_opened};
ghost use Rattle.disk_commands.specs.Opening.{IsUnkeptAt, OpensMarked};
ghost use Rattle.disk_commands.specs.Ready.{HasCacheBy, HoldsPages, IsNoneOf, IsReadyAt, KeepsBy, KeepsPages, IsUnkeptBy, IsUnreadyAt, MarksBy, access_of, keeps_mark, sync_when};
ghost use Rattle.disk_commands.specs.ShapeText.{IsCacheSize};
ghost use Rattle.disk_commands.specs.Told.{HasPrintingFailed, StopsCommand, StopsTelling};

use crate::anew::reopening;
use crate::damage::{Looked, look_at, name_lost, name_mended, no_disk};
use crate::files::{Access, DiskFiles};
use crate::guard::{guarded, keeper_at};
use crate::mark::FoundMark;
use crate::opening::told_at;
use crate::shape_text::DiskText;
use crate::shapes::Code;
use crate::text::DiskCommandFault;
use crate::words::DiskServeWords;
use certificate::Certificate;
use coded_store::{Mended, TellsMended};
use disk_recovery::{list_first, recover_listed};
use disk_server::{
    GuardedSectors, KeepsLost, ReopenedDevice, SectorDisk, Sequenced, StoreDisk, Syncs,
    open_stopped,
};
use file_die::{Store, SyncWhen};
use request_stream::Outgoing;
use std::alloc::Global;

/// The disk of a store, of which some sectors are lost, and which is opened anew where the store was full.
pub(crate) type GuardedDisk<S, K> = SectorDisk<GuardedSectors<ReopenedDevice<S>, K>>;

/// Such a disk, ready to be served: with a second handle of its file, what is told beside it, and what was wrong with its pages.
pub(crate) type ReadyDisk<S, K, Y> = (GuardedDisk<S, K>, Y, DiskText, Mended);

// How a disk is opened to be served.
fn access_of(words: &DiskServeWords<'_>) -> Access
    ensures { result ≡ access_of words.now }
{
    Access {
        writes: !words.read_only,
        wait: words.wait,
    }
}

// When the die syncs its file.
fn sync_when(always: bool) -> SyncWhen
    ensures { result ≡ sync_when always }
{
    if always {
        SyncWhen::Always
    } else {
        SyncWhen::Erases
    }
}

// The disk of a store that was looked at. Where it is to be written, the list of its lost sectors is kept first, and then what a crash left torn is taken away.
fn disk_of<'a, S: Store + Drop, K: KeepsLost>(
    alloc: Global,
    words: &DiskServeWords<'a>,
    store: S,
    certificate: &Certificate,
    told: &DiskText,
    found: FoundMark,
    keeper: &mut K,
    lost: &[bool],
) -> Result<StoreDisk<S>, DiskCommandFault<'a>>
    requires within { IsCacheSize told.now.shape.cache }
    requires mounted { S.honest store ≡ true → Agrees (S.held store).geometry 65536 (S.held store).pages certificate.now }
    ensures syncs { IfOk result (λ d. SyncsWhen (sync_when words.now.sync_always) d.engine.nand) }
    ensures share { IfOk result (λ d. d.engine.mapping.share ≡ told.now.shape.share) }
    ensures honest { IfOk result (λ d. S.honest store ≡ true → holds (is_honest_in S.honest) d ≡ true) }
    ensures bytes { IfOk result (λ d. HoldsPages words.now.read_only found.mark.synced (S.honest store ≡ true) (S.held store) (contents_of (view_in S.held S.honest S.failed) d).bytes) }
    ensures pages { IfOk result (λ d. KeepsPages words.now.read_only S.held S.honest store d.engine.nand) }
    ensures cache { IfOk result (λ d. HasCacheBy words.now.read_only S.held S.honest S.failed told.now found.mark.synced store d.engine.mapping.capacity) }
    ensures listed { OnOk result (KeepsBy words.now.read_only K.kept lost.now keeper.old keeper.new) }
    ensures fault { IfErr result (IsNoneOf S.held S.honest S.failed K.kept K.failed words.now.disk.now words.now.read_only told.now found store lost.now keeper.old keeper.new) }
{
    let when = sync_when(words.sync_always);
    if words.read_only {
        let (cache, share) = (told.shape.cache, told.shape.share);
        return match open_stopped(alloc, store, cache, share, when, false) {
            Ok(disk) => Ok(disk),
            Err((given, why)) => {
                drop(given);
                Err(no_disk(words.disk, why))
            }
        };
    }
    let listed = match list_first(store, keeper, lost) {
        Ok(listed) => listed,
        Err(_unasked) => return Err(DiskCommandFault::WriteList(words.disk)),
    };
    match recover_listed(
        alloc,
        listed,
        certificate,
        told.shape.cache,
        told.shape.share,
        found.mark.synced,
        when,
    ) {
        Ok(disk) => Ok(disk),
        Err((given, why)) => {
            drop(given);
            Err(no_disk(words.disk, why))
        }
    }
}

// Keeps the mark of a disk from now on, of which this was found, and whose next page has this sequence. All that was programmed is synced, and the mark of that is made to last.
fn keep_mark<'a, F: DiskFiles>(
    alloc: Global,
    files: &mut F,
    path: &'a str,
    syncs: F::Syncs,
    found: FoundMark,
    next: u64,
) -> Result<F::Syncs, DiskCommandFault<'a>>
    ensures marked { IfOk result (λ keeps. F.Syncs.marked keeps ≡ after_sync next false found.mark) }
    ensures fault { IfErr result (IsUnkeptAt F.Syncs.failed (F.answers files.old) path.now) }
    ensures opened { F.opened files.new ≡ with_mark_opened (F.opened files.old) path.now found }
    ensures kept { F.kept files.new ≡ F.kept files.old }
{
    let mut syncs = match files.keep_mark(alloc, path, syncs, found) {
        Ok(syncs) => syncs,
        Err(fault) => return Err(told_at(fault, path, 0)),
    };
    match syncs.sync(next, false) {
        Ok(()) => Ok(syncs),
        Err(_) => Err(DiskCommandFault::Device(path)),
    }
}

// Whether the mark of a disk is kept: it is to be written, and a mark of it counts.
fn keeps_mark(words: &DiskServeWords<'_>, told: &DiskText) -> bool
    ensures { result ≡ keeps_mark words.now.read_only told.now.marked }
{
    !words.read_only && told.marked
}

// The same where that mark is kept.
fn keep_mark_of<'a, F: DiskFiles>(
    alloc: Global,
    files: &mut F,
    words: &DiskServeWords<'a>,
    syncs: F::Syncs,
    told: &DiskText,
    found: FoundMark,
    next: u64,
) -> Result<F::Syncs, DiskCommandFault<'a>>
    ensures marked { IfOk result (λ keeps. keeps_mark words.now.read_only told.now.marked ≡ true → F.Syncs.marked keeps ≡ after_sync next false found.mark) }
    ensures fault { IfErr result (IsUnkeptBy (keeps_mark words.now.read_only told.now.marked) F.Syncs.failed (F.answers files.old) words.now.disk.now) }
    ensures opened { MarksBy (keeps_mark words.now.read_only told.now.marked) words.now.disk.now found (F.opened files.old) (F.opened files.new) }
    ensures kept { F.kept files.new ≡ F.kept files.old }
{
    if keeps_mark(words, told) {
        keep_mark(alloc, files, words.disk, syncs, found, next)
    } else {
        Ok(syncs)
    }
}

// Names lost sectors, and tells what was wrong with the pages.
fn name_all<'a, E: Outgoing>(
    alloc: Global,
    lost: &[bool],
    code: Code,
    mended: Mended,
    err: &mut E,
) -> Result<(), DiskCommandFault<'a>>
    ensures named { OnOk result (NamesAll lost.now code mended (E.contents err.old) (E.contents err.new)) }
    ensures fault { IfErr result HasPrintingFailed }
    ensures stops { IfErr result (StopsTelling E.fails err.new) }
{
    match name_lost(alloc, lost, err) {
        Ok(()) => name_mended(alloc, code, mended, err),
        Err(fault) => Err(fault),
    }
}

/// The disk at a path, whose lost sectors are named on standard error and guarded, with a second handle of its file, and what is told beside it. So is told there what was wrong with its pages. Where it is to be written, the list of its lost sectors is
/// kept before anything is programmed.
pub(crate) fn ready<'a, F: DiskFiles, E: Outgoing>(
    alloc: Global,
    files: &mut F,
    words: &DiskServeWords<'a>,
    err: &mut E,
) -> Result<ReadyDisk<F::Store, F::Lists, F::Syncs>, DiskCommandFault<'a>>
    ensures ok { IfOk result (λ r. IsReadyAt F.Store.held F.Store.honest F.Store.failed F.Store.mended F.Syncs.marked F.Lists.kept F.Lists.says (F.answers files.old) words.now.disk.now words.now.read_only words.now.sync_always r.2 r.3 r.0 r.1) }
    ensures named { IfOk result (λ r. NamesAll r.0.lost.items r.2.shape.code r.3 (E.contents err.old) (E.contents err.new)) }
    ensures fault { IfErr result (IsUnreadyAt F.Store.held F.Store.honest F.Store.failed F.Syncs.failed F.Lists.kept F.Lists.says F.Lists.failed (F.answers files.old) words.now.disk.now words.now.read_only) }
    ensures stops { IfErr result (StopsCommand E.fails err.new (F.answers files.old) words.now.disk.now) }
    ensures unnamed { IfErr result (λ fault. (E.contents err.new ≡ E.contents err.old) ⊎ HasPrintingFailed fault) }
    ensures opened { OpensMarked (F.answers files.old) words.now.disk.now (access_of words.now) (F.opened files.old) (F.opened files.new) }
    ensures kept { F.kept files.new ≡ F.kept files.old }
{
    let looked = look_at(alloc, files, words.disk, access_of(words))?;
    let mended = looked.store.mended();
    let mut keeper = keeper_at(alloc, files, words.disk, &looked)?;
    let Looked {
        told,
        found,
        store,
        syncs,
        certificate,
        lost,
    } = looked;
    let disk = disk_of(
        alloc,
        words,
        store,
        &certificate,
        &told,
        found,
        &mut keeper,
        &lost,
    )?;
    let next = disk.next_sequence();
    let syncs = keep_mark_of(alloc, files, words, syncs, &told, found, next)?;
    name_all(alloc, &lost, told.shape.code, mended, err)?;
    let device = reopening(alloc, disk, &told.shape, sync_when(words.sync_always));
    match guarded(alloc, device, keeper, lost) {
        Ok(disk) => Ok((disk, syncs, told, mended)),
        Err(fault) => Err(fault),
    }
}
