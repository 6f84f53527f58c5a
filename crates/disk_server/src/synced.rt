//! A disk whose flushes reach what it is kept in.
ghost use Rattle.std.specs.Prelude.{◌≡◌, ◌<◌, ◌^◌};
ghost use Rattle.disk_server.specs.Synced.{touched};

use crate::mark::SyncMark;
use nbd_stream::{Disk, DiskFault, Task};

/// A way to make last what was written, beside the disk that writes it, as a second handle of one file; and to keep a mark of what was. (This project's.)
pub trait Syncs {
    ghost use Rattle.std.specs.Prelude.{◌≡◌, ℕ, IfErr, OnOk, OnErr};
    ghost use Rattle.page_layout.specs.Counter.{HasRisen, counted};
    ghost use Rattle.disk_server.specs.declared.mark.SyncMark.{SyncMark};
    ghost use Rattle.disk_server.specs.Synced.{after_sync};

    /// How many syncs were done.
    ghost synced: { Self → ℕ };

    /// How many failed. The count stays at 2^64 - 1 once there.
    ghost failed: { Self → ℕ };

    /// The mark as of the last sync that was done. It is kept where it may be, and that it is lasts no longer than the next sync: the mark that is found later is this one or an earlier one.
    ghost marked: { Self → SyncMark };

    /// Makes last what was written, and then keeps the mark of it: this sequence is the one of the next page, and the disk was flushed before or not.
    ///
    /// # Errors
    ///
    /// `Failed` where that failed: not all of it may last. The mark is the one before.
    fn sync(&mut self, next: u64, flushed: bool) -> Result<(), DiskFault>
        ensures done { OnOk result (synced self.new ≡ counted (synced self.old)) }
        ensures not_done { OnErr result (synced self.new ≡ synced self.old) }
        ensures marked { OnOk result (marked self.new ≡ after_sync next flushed (marked self.old)) }
        ensures not_marked { OnErr result (marked self.new ≡ marked self.old) }
        ensures settled { OnOk result (failed self.new ≡ failed self.old) }
        ensures rose { OnErr result (HasRisen (failed self.old) (failed self.new)) }
        ensures fault { IfErr result (λ e. e ≡ DiskFault.Failed) };

    /// The mark.
    fn mark(&self) -> SyncMark
        ensures { result ≡ marked self.now };
}

/// A disk that keeps nothing back: what is there if the power goes now is what is there. (This project's.)
pub trait LastingDisk: Disk {
    ghost use Rattle.std.specs.Prelude.{◌≡◌};

    ghost lasts: { (d : Self) → (Self.contents d).durable ≡ (Self.contents d).bytes };
}

/// A disk over pages that have sequences. (This project's.)
pub trait Sequenced {
    ghost use Rattle.std.specs.Prelude.{◌≡◌, ℕ, Bool};

    /// The sequence of the page that is programmed next: each page that was programmed has a lower one.
    ghost next: { Self → ℕ };

    /// Whether it still takes changes. Where it takes none a flush may be answered as done, and what is known in memory alone is not written.
    ghost takes: { Self → Bool };

    /// The sequence of the page that is programmed next.
    fn next_sequence(&self) -> u64
        ensures { result ≡ next self.now };

    /// Whether it still takes changes.
    fn takes_changes(&self) -> bool
        ensures { result ≡ takes self.now };
}

// The most bytes that are cleared before it is looked whether a sync is due: `part_most`.
const PART: u32 = 1_048_576;

/// How much may be changed between two syncs: so many pieces of so many bytes. A change counts each piece that it touches. With 0 bytes a piece is a byte. (This project's.)
#[derive(Clone, Copy)]
pub struct SyncPace {
    /// Bytes of a piece.
    pub piece: u32,
    /// The most pieces.
    pub most: u64,
}

// The pieces that a range touches.
fn pieces_of(piece: u32, offset: u64, count: u64) -> u64
    requires { count < 2 ^ 63 }
    ensures { result ≡ touched piece offset count }
{
    let piece = u64::from(piece.max(1));
    (offset % piece + count).div_ceil(piece)
}

/// A disk that keeps nothing back, and a way to make last what it writes. Each flush and each durable change that is answered without an error ends with a sync, and so does each change that is
/// answered without an error once too much was changed since the last one. **A flush asks nothing of the disk**: what it answered lasts in what it is kept in, once that is synced. So the disk
/// itself is flushed as it is closed, and not before. With each sync goes the sequence of the disk's next page, as its mark. A range is cleared a megabyte at a time, and it is looked after each
/// whether a sync is due. A call that fails has the disk's own error, or `Failed` where a sync failed. What a sync makes last no contract of the disk can say: that it is of what the disk is kept in, is for whoever joins the two.
///
/// **After a sync that failed nothing is asked of the disk or of its syncs any more, and each call answers `Failed`**: what was written before it may be lost, and the next
/// sync may be answered without an error all the same, as by Linux. (This project's.)
#[derive(Drop)]
pub struct SyncedDisk<D: Disk, Y: Syncs> {
    disk: D,
    syncs: Y,
    pace: SyncPace,
    unsynced: u64,
    failed: bool,
}

impl<D: LastingDisk + Sequenced, Y: Syncs> SyncedDisk<D, Y> {
    ghost use Rattle.std.specs.Prelude.{◌≡◌, ◌≤◌, ◌<◌, ◌+◌, true, false, [], length, Ok, OnOk, OnErr, IfErr};
    ghost use Rattle.nbd_stream.specs.Disk.{PerformsTask, answer_from};
    ghost use Rattle.disk_server.specs.Synced.{ChangesDisk, ClearsParts, Closes, CountsRangeChanged, HasSynced, IsKnownFlushed, IsToldOf, IsUnsynced, KeepsCount, Marks, NotesFailedSync, SyncsOnceMore, after_change, after_sync};

    /// Joins a disk and its syncs. Nothing is asked of either, and nothing counts as changed.
    pub fn new(disk: D, syncs: Y, pace: SyncPace) -> SyncedDisk<D, Y>
        ensures disk { result.disk ≡ disk }
        ensures syncs { result.syncs ≡ syncs }
        ensures pace { result.pace ≡ pace }
        ensures unsynced { result.unsynced ≡ 0 }
        ensures failed { result.failed ≡ false }
    {
        SyncedDisk {
            disk,
            syncs,
            pace,
            unsynced: 0,
            failed: false,
        }
    }

    /// The disk.
    pub fn disk(&self) -> &D
        ensures { result.now ≡ self.now.disk }
    {
        &self.disk
    }

    // Counts what a change of a range touches.
    fn count(&mut self, offset: u64, count: u64)
        requires { count < 2 ^ 63 }
        ensures { self.new ≡ after_change offset count self.old }
    {
        let pieces = pieces_of(self.pace.piece, offset, count);
        self.unsynced = self.unsynced.saturating_add(pieces);
    }

    // Syncs, and marks whether the disk was flushed before.
    fn sync(&mut self, flushed: bool) -> Result<(), DiskFault>
        ensures disk { self.new.disk ≡ self.old.disk }
        ensures synced { OnOk result (SyncsOnceMore Y.synced self.old self.new) }
        ensures unsynced { OnErr result (IsUnsynced Y.synced self.old self.new) }
        ensures told { IsToldOf Y.failed (Ok tt) self.old result self.new }
        ensures marked { OnOk result (Y.marked self.new.syncs ≡ after_sync (D.next self.new.disk) flushed (Y.marked self.old.syncs)) }
        ensures unmarked { OnErr result (Y.marked self.new.syncs ≡ Y.marked self.old.syncs) }
        ensures fault { IfErr result (λ e. e ≡ DiskFault.Failed) }
    {
        let next = self.disk.next_sequence();
        match self.syncs.sync(next, flushed) {
            Ok(()) => {
                self.unsynced = 0;
                Ok(())
            }
            Err(fault) => {
                self.failed = true;
                Err(fault)
            }
        }
    }

    // Syncs, where what was done is to last or too much was changed.
    fn settle(&mut self, durable: bool) -> Result<(), DiskFault>
        ensures disk { self.new.disk ≡ self.old.disk }
        ensures synced { OnOk result (HasSynced Y.synced durable self.old self.new) }
        ensures unsynced { OnErr result (IsUnsynced Y.synced self.old self.new) }
        ensures told { IsToldOf Y.failed (Ok tt) self.old result self.new }
        ensures marks { Marks Y.marked D.next durable self.old result self.new }
        ensures fault { IfErr result (λ e. e ≡ DiskFault.Failed) }
    {
        if !durable && self.unsynced <= self.pace.most {
            return Ok(());
        }
        self.sync(false)
    }

    // Clears a part of a range, and syncs where that is due.
    fn clear_part(&mut self, offset: u64, count: u32) -> Result<(), DiskFault>
        requires { offset + count ≤ length (D.contents self.old.disk).bytes }
        ensures performs { PerformsTask (λ s. D.contents s.disk) (λ s. D.honest s.disk) (λ _. false) (Task.Trim offset count false) [] self.old (answer_from result []) self.new }
        ensures changes { ChangesDisk D.does Y.synced Y.failed Y.marked D.next false (Task.Trim offset count false) (after_change offset count self.old) result self.new }
    {
        self.count(offset, u64::from(count));
        match self.disk.clear(offset, count, false) {
            Ok(()) => self.settle(false),
            Err(fault) => Err(fault),
        }
    }

    // Clears a range part by part; as one part where it would end past the last u64, as on no disk.
    fn clear_parts(&mut self, offset: u64, count: u32) -> Result<(), DiskFault>
        requires { offset + count ≤ length (D.contents self.old.disk).bytes }
        ensures performs { PerformsTask (λ s. D.contents s.disk) (λ s. D.honest s.disk) (λ _. false) (Task.Trim offset count false) [] self.old (answer_from result []) self.new }
        ensures syncs { KeepsCount Y.synced self.old self.new }
        ensures counts { OnOk result (0 < count → CountsRangeChanged Y.synced offset count self.old self.new) }
        ensures notes { NotesFailedSync Y.failed self.old result self.new }
        ensures parts { ClearsParts D.does Y.synced Y.failed Y.marked D.next offset count self.old result self.new }
        ensures unflushed { (Y.marked self.new.syncs).flushed ≡ (Y.marked self.old.syncs).flushed }
    {
        if offset.checked_add(u64::from(count)).is_none() {
            return self.clear_part(offset, count);
        }
        let mut done = 0;
        while done < count {
            let taken = PART.min(count - done);
            self.clear_part(offset + u64::from(done), taken)?;
            done += taken;
        }
        Ok(())
    }

    // Whether the disk is known to be flushed and synced, and nothing was programmed since.
    fn is_known_flushed(&self, counts: bool) -> bool
        ensures known { result ≡ true → IsKnownFlushed Y.marked D.next counts self.now }
        ensures unknown { result ≡ false → ¬ IsKnownFlushed Y.marked D.next counts self.now }
    {
        counts && self.syncs.mark().flushed == self.disk.next_sequence()
    }

    /// Closes the disk: it is flushed, so that it may be mounted with any cache and what is damaged later is told, and that is synced. Where its mark `counts`, and says that all was
    /// flushed and synced up to the very page that is next, nothing was programmed since, and nothing is asked.
    ///
    /// # Errors
    ///
    /// `Failed` where the flush or the sync failed, or a sync before.
    pub fn close(&mut self, counts: bool) -> Result<(), DiskFault>
        ensures performs { PerformsTask (λ s. D.contents s.disk) (λ s. D.honest s.disk) (λ _. false) Task.Flush [] self.old (answer_from result []) self.new }
        ensures closes { Closes D.does Y.synced Y.failed Y.marked D.next D.takes counts self.old result self.new }
    {
        if self.failed {
            return Err(DiskFault::Failed);
        }
        if self.is_known_flushed(counts) {
            return Ok(());
        }
        match self.disk.flush() {
            Ok(()) => {
                let flushed = self.disk.takes_changes();
                self.sync(flushed)
            }
            Err(fault) => Err(fault),
        }
    }
}

impl<D: LastingDisk + Sequenced, Y: Syncs> Disk for SyncedDisk<D, Y> {
    ghost use Rattle.std.specs.Prelude.{◌≡◌, ◌≤◌, ◌+◌, true, false, [], length, Err, OnErr, OnOk};
    ghost use Rattle.nbd_stream.specs.Disk.{PerformsTask, answer_from};
    ghost use Rattle.disk_server.specs.Synced.{RestsSynced, SyncsTask};

    ghost contents = { λ s. D.contents s.disk };

    ghost honest = { λ s. D.honest s.disk };

    ghost calm = { λ _. false };

    /// The syncs of each task, and what it asks of the disk.
    ghost does = { SyncsTask D.does Y.synced Y.failed Y.marked D.next };

    /// A rest of the disk, and nothing else; after a sync that failed, nothing.
    ghost rests = { RestsSynced D.rests };

    ghost leaves = { λ old new. Unit {0} };

    fn read(&mut self, offset: u64, buffer: &mut [u8]) -> Result<(), DiskFault> {
        if self.failed {
            return Err(DiskFault::Failed);
        }
        self.disk.read(offset, buffer)
    }

    fn write(&mut self, offset: u64, bytes: &[u8], durable: bool) -> Result<(), DiskFault> {
        if self.failed {
            return Err(DiskFault::Failed);
        }
        self.count(offset, bytes.len() as u64);
        match self.disk.write(offset, bytes, false) {
            Ok(()) => self.settle(durable),
            Err(fault) => Err(fault),
        }
    }

    fn clear(&mut self, offset: u64, count: u32, durable: bool) -> Result<(), DiskFault> {
        if self.failed {
            return Err(DiskFault::Failed);
        }
        match self.clear_parts(offset, count) {
            Ok(()) => self.settle(durable),
            Err(fault) => Err(fault),
        }
    }

    fn flush(&mut self) -> Result<(), DiskFault> {
        if self.failed {
            return Err(DiskFault::Failed);
        }
        self.settle(true)
    }

    fn rest(&mut self) -> Result<(), DiskFault> {
        if self.failed {
            return Err(DiskFault::Failed);
        }
        self.disk.rest()
    }
}
