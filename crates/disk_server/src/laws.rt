//! What a device of sectors is as bytes, the block device as one, and a disk in a store after a loss of power. Each function does nothing: its contract is
//! the law.
ghost use Rattle.disk_server.specs.Synced.{CloseLaw, FaultLaw, FlushLaw, AfterFailedSyncLaw, SyncedLastLaw, UnflushedLaw, WriteLaw};
ghost use Rattle.disk_server.specs.Laws.{BelowLaw, ClosedLaw, HoldsLaw, DurableLaw, DiskLengthLaw, NoSpaceLaw, ReadOnlyFlushLaw, SectorRangeLaw, NoneStaleAfterFlushLaw};
ghost use Rattle.disk_server.specs.Flat.{FlatLaw};
ghost use Rattle.disk_server.specs.Guarded.{GuardedByteLaw, GuardedReadLaw, HealedLaw, UnkeptLaw};
ghost use Rattle.disk_server.specs.Power.{FoundLaw, LeavesLaw};
ghost use Rattle.disk_server.specs.Reading.{OnlyReadsLaw};
ghost use Rattle.disk_server.specs.Reopened.{AnewLaw, GoneLaw, TermsLaw};
ghost use Rattle.disk_server.specs.Stopped.{OwnCacheLaw, UnwrittenCacheLaw};

use crate::guarded::KeepsLost;
use crate::sectors::Sectors;
use crate::synced::{LastingDisk, Sequenced, Syncs};
use file_die::{Store, TellsFull};
use onfi_cycles::Nand;

/// A sector of a list of sectors is a range of their bytes: to give it is to give that range, and to replace it is to set that range.
/// (This project's.)
pub fn flat_laws()
    ensures { FlatLaw }
{}

/// A sector of the array that the image on the die holds is a range of the disk's bytes, which are as many as all sectors have. That is said of a
/// device that was not stopped over a die that is honest, and of no other. (This project's.)
pub fn array_laws<N: Nand>()
    ensures length { DiskLengthLaw N.view }
    ensures sector { SectorRangeLaw N.view }
    ensures lasts { DurableLaw N.view }
    ensures holds { HoldsLaw N.view.honest }
{}

/// What a mark says of a device's pages, where it is written after a sync: all sound pages lie below the sequence that was next, and where the device was flushed before and takes changes, no sector is stale.
/// (This project's.)
pub fn sequence_laws<N: Nand>()
    ensures below { BelowLaw N.view }
    ensures written { NoneStaleAfterFlushLaw N.view }
{}

/// What a disk joined with its syncs is marked with: no task marks it as flushed; a flush and a durable change that is done are synced last; and one that was closed, and takes changes, is marked as flushed up to
/// the page that is next. And what is asked: a flush is one sync; a write is one of the disk, and a sync where one is due; once a sync failed nothing is. An error before that is the disk's. (This project's.)
pub fn sync_laws<D: LastingDisk + Sequenced, Y: Syncs>()
    ensures unflushed { UnflushedLaw D.does Y.synced Y.failed Y.marked D.next }
    ensures synced { SyncedLastLaw D.does Y.synced Y.failed Y.marked D.next }
    ensures closed { CloseLaw D.does Y.synced Y.failed Y.marked D.next D.takes }
    ensures over { AfterFailedSyncLaw D.does Y.synced Y.failed Y.marked D.next }
    ensures flush { FlushLaw D.does Y.synced Y.failed Y.marked D.next }
    ensures write { WriteLaw D.does Y.synced Y.failed Y.marked D.next }
    ensures fault { FaultLaw D.does Y.synced Y.failed Y.marked D.next }
{}

/// What a device shows of which some sectors are lost: each byte is the device's, and of a lost sector none is a byte. So a read is answered without an error only where no sector of its range is lost. (This
/// project's.)
pub fn guard_laws()
    ensures byte { GuardedByteLaw }
    ensures read { GuardedReadLaw }
{}

/// What becomes of the list of lost sectors: a sector that was written leaves it, and no other; and once a list was not kept nothing is asked of the device. (This project's.)
pub fn healed_laws<S: Sectors, K: KeepsLost>()
    ensures healed { HealedLaw S K.kept }
    ensures unkept { UnkeptLaw K.failed S.flushes }
{}

/// A disk that is only read asks nothing but reads of what stands under it. (This project's.)
pub fn reading_laws<S: Sectors>()
    ensures { OnlyReadsLaw S.reads }
{}

/// With which cache a store is opened that may have been stopped: with its own where its stale sectors have room; and where nothing is written, with that one or with just as many entries as it was refused for. (This
/// project's.)
pub fn cache_laws<S: Store>()
    ensures own { OwnCacheLaw S.held S.honest S.failed }
    ensures unwritten { UnwrittenCacheLaw S.held S.honest S.failed }
{}

/// What becomes of a device that is opened anew where its store was full: only there, and it is told; it holds then what the pages left in the store say, nothing is at hand in its record, and whether that is what it was given is claimed no more. One that
/// is gone answers `Failed` for good. (This project's.)
pub fn reopened_laws<S: Store + TellsFull>()
    ensures gone { GoneLaw S.held S.honest S.full S.failed }
    ensures terms { TermsLaw S.held S.honest S.full S.failed }
    ensures anew { AnewLaw S.held S.honest S.full S.failed }
{}

/// Which refusals of the device are `NoSpace` and `ReadOnly`: `OutOfMemory` alone is the one; those after which no change is taken any more are the
/// other, and a flush that has such a one is done. (This project's.)
pub fn fault_laws()
    ensures no_space { NoSpaceLaw }
    ensures read_only { ReadOnlyFlushLaw }
    ensures closed { ClosedLaw }
{}

/// What a loss of power leaves of a disk in a store whose pages all lasted, as after a sync, where the die's cycles since then, done or failed,
/// erased nothing and programmed no page where one had a record: the store's pages are those that `image_laws::power_laws` speaks of, and each
/// sector of the disk that is found has its bytes from then, or those of a page of it that was programmed since. (This project's.)
pub fn power_laws()
    ensures leaves { LeavesLaw }
    ensures found { FoundLaw }
{}
