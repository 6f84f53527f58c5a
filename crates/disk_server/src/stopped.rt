//! The disk of a die that may have been stopped.
ghost use Rattle.std.specs.Prelude.{◌≡◌, ◌≤◌, [], false, true, IfOk, IfErr, OnOk};
ghost use Rattle.nbd_stream.specs.declared.task.Task.TheVariants as task;
ghost use Rattle.disk_server.specs.Disk.{contents_of, holds};
ghost use Rattle.disk_server.specs.Opened.{SyncsWhen, bytes_of, flash_in, flash_as_opened, is_honest_in, view_in};
ghost use Rattle.disk_server.specs.Stopped.{IsLastFault, IsOpenedEither, IsOpenedFlushed, IsOpenedNeither, IsOpenedWith, IsRoomIn, IsUnopenedLater, IsUnopenedStale};

use crate::opened::{OpenStoreFault, StoreDisk, close_store, open_store};
use file_die::{Store, SyncWhen};
use image_check::Refusal;
use nbd_stream::{Disk, DiskFault};
use std::alloc::Global;

// The most entries of a cache.
const MOST_ENTRIES: u32 = 65_536;

// The entries that a cache would have to have for a store that was refused for its stale sectors, where some cache has as many.
fn stale_in(fault: &OpenStoreFault) -> Option<u32>
    ensures { IsRoomIn fault.now result }
{
    match fault {
        OpenStoreFault::Mount(Refusal::TooStale { stale, .. })
            if *stale >= 1 && *stale <= MOST_ENTRIES => { Some(*stale) }
        _ => None,
    }
}

// Flushes a disk, and answers what it answered. The bytes of one that is honest after it stay.
fn flush<D: Disk>(disk: &mut D) -> Result<(), DiskFault>
    ensures does { D.does disk.old task.Flush result disk.new }
    ensures back { D.honest disk.new ≡ true → D.honest disk.old ≡ true }
    ensures kept { OnOk result (D.honest disk.new ≡ D.honest disk.old) }
    ensures bytes { D.honest disk.new ≡ true → (D.contents disk.new).bytes ≡ (D.contents disk.old).bytes }
{
    disk.flush()
}

// The disk of a store with a cache of so many entries, at one attempt.
fn open_once<S: Store + Drop>(
    alloc: Global,
    store: S,
    capacity: u32,
    share: u32,
    sync_when: SyncWhen,
) -> Result<StoreDisk<S>, (S, OpenStoreFault)>
    requires least { 1 ≤ capacity }
    requires most { capacity ≤ 65536 }
    ensures syncs { IfOk result (λ d. SyncsWhen sync_when d.engine.nand) }
    ensures share { IfOk result (λ d. d.engine.mapping.share ≡ share) }
    ensures honest { IfOk result (λ d. holds (is_honest_in S.honest) d ≡ S.honest store) }
    ensures bytes { IfOk result (λ d. S.honest store ≡ true → (contents_of (view_in S.held S.honest S.failed) d).bytes ≡ bytes_of (S.held store)) }
    ensures pages { IfOk result (λ d. S.honest store ≡ true → flash_in S.held d.engine.nand ≡ flash_as_opened (S.held store)) }
    ensures clear { IfOk result (λ d. S.honest store ≡ true → d.engine.nand.told.at_hand ≡ []) }
    ensures entries { IfOk result (λ d. d.engine.mapping.capacity ≡ capacity) }
    ensures fault { IfErr result (λ e. IsLastFault S.held S.honest S.failed store capacity share e.0 e.1) }
{
    match open_store(alloc, store, capacity, share, sync_when) {
        Ok(disk) => Ok(disk),
        Err(back) => Err(back),
    }
}

// The disk of a store that was flushed, with a cache of so many entries, or of so many as were stale before.
fn open_either<S: Store + Drop>(
    alloc: Global,
    store: S,
    capacity: u32,
    stale: u32,
    share: u32,
    sync_when: SyncWhen,
) -> Result<StoreDisk<S>, (S, OpenStoreFault)>
    requires least { (1 ≤ capacity) × (1 ≤ stale) }
    requires most { (capacity ≤ 65536) × (stale ≤ 65536) }
    ensures syncs { IfOk result (λ d. SyncsWhen sync_when d.engine.nand) }
    ensures share { IfOk result (λ d. d.engine.mapping.share ≡ share) }
    ensures honest { IfOk result (λ d. holds (is_honest_in S.honest) d ≡ S.honest store) }
    ensures bytes { IfOk result (λ d. S.honest store ≡ true → (contents_of (view_in S.held S.honest S.failed) d).bytes ≡ bytes_of (S.held store)) }
    ensures clear { IfOk result (λ d. S.honest store ≡ true → d.engine.nand.told.at_hand ≡ []) }
    ensures entries { IfOk result (λ d. IsOpenedEither S.held S.honest store capacity stale d.engine.mapping.capacity) }
    ensures fault { IfErr result (λ e. IsOpenedNeither S.held S.honest S.failed store capacity stale share e.0 e.1) }
{
    let (store, fault) = match open_store(alloc, store, capacity, share, sync_when) {
        Ok(disk) => return Ok(disk),
        Err(back) => back,
    };
    match stale_in(&fault) {
        None => Err((store, fault)),
        Some(_) => open_once(alloc, store, stale, share, sync_when),
    }
}

// The disk of a store that was refused for so many stale sectors: it is flushed first.
fn open_stale<S: Store + Drop>(
    alloc: Global,
    store: S,
    capacity: u32,
    stale: u32,
    share: u32,
    sync_when: SyncWhen,
) -> Result<StoreDisk<S>, (S, OpenStoreFault)>
    requires least { (1 ≤ capacity) × (1 ≤ stale) }
    requires most { (capacity ≤ 65536) × (stale ≤ 65536) }
    ensures syncs { IfOk result (λ d. SyncsWhen sync_when d.engine.nand) }
    ensures share { IfOk result (λ d. d.engine.mapping.share ≡ share) }
    ensures honest { IfOk result (λ d. S.honest store ≡ true → holds (is_honest_in S.honest) d ≡ true) }
    ensures bytes { IfOk result (λ d. S.honest store ≡ true → (contents_of (view_in S.held S.honest S.failed) d).bytes ≡ bytes_of (S.held store)) }
    ensures clear { IfOk result (λ d. S.honest store ≡ true → d.engine.nand.told.at_hand ≡ []) }
    ensures entries { IfOk result (λ d. IsOpenedFlushed S.held S.honest S.failed capacity stale share d.engine.mapping.capacity) }
    ensures fault { IfErr result (λ e. IsUnopenedStale S.held S.honest S.failed store capacity stale share e.0 e.1) }
{
    let mut disk = match open_store(alloc, store, stale, share, sync_when) {
        Ok(disk) => disk,
        Err(back) => return Err(back),
    };
    match flush(&mut disk) {
        Ok(()) => open_either(alloc, close_store(disk), capacity, stale, share, sync_when),
        Err(_) => Err((close_store(disk), OpenStoreFault::Flush)),
    }
}

/// Opens the disk of a die that may have been stopped, as `open_store` does. One that was may have more stale sectors than a cache of `capacity` entries has room for:
/// then it is opened with as many entries as it wants, flushed, and opened again. One that takes no change any more keeps that larger cache. **Of a store that is
/// honest the disk holds its array, and its bytes are those of the array that its pages held.**
///
/// With `writes` false nothing is flushed, the pages stay, and so does the larger cache. The share stays in each case.
///
/// # Errors
///
/// As `open_store`, of the last time that the store was opened: not `Mount` of stale sectors at the first time, where some cache has room for them. `Flush` where the device failed its flush. The store comes back, as
/// that last time or that flush left it. (This project's.)
pub fn open_stopped<S: Store + Drop>(
    alloc: Global,
    store: S,
    capacity: u32,
    share: u32,
    sync_when: SyncWhen,
    writes: bool,
) -> Result<StoreDisk<S>, (S, OpenStoreFault)>
    requires least { 1 ≤ capacity }
    requires most { capacity ≤ 65536 }
    ensures syncs { IfOk result (λ d. SyncsWhen sync_when d.engine.nand) }
    ensures share { IfOk result (λ d. d.engine.mapping.share ≡ share) }
    ensures honest { IfOk result (λ d. S.honest store ≡ true → holds (is_honest_in S.honest) d ≡ true) }
    ensures bytes { IfOk result (λ d. S.honest store ≡ true → (contents_of (view_in S.held S.honest S.failed) d).bytes ≡ bytes_of (S.held store)) }
    ensures pages { IfOk result (λ d. writes ≡ false → S.honest store ≡ true → flash_in S.held d.engine.nand ≡ flash_as_opened (S.held store)) }
    ensures clear { IfOk result (λ d. S.honest store ≡ true → d.engine.nand.told.at_hand ≡ []) }
    ensures entries { IfOk result (λ d. IsOpenedWith S.held S.honest S.failed writes store capacity share d.engine.mapping.capacity) }
    ensures fault { IfErr result (λ e. IsUnopenedLater S.held S.honest S.failed store capacity share e.0 e.1) }
{
    let (store, fault) = match open_store(alloc, store, capacity, share, sync_when) {
        Ok(disk) => return Ok(disk),
        Err(back) => back,
    };
    match stale_in(&fault) {
        None => Err((store, fault)),
        Some(stale) => {
            if writes {
                open_stale(alloc, store, capacity, stale, share, sync_when)
            } else {
                open_once(alloc, store, stale, share, sync_when)
            }
        }
    }
}
