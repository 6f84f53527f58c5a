//! The list of a store's lost sectors is kept before anything is asked of the store, which then is recovered and opened.
ghost use Rattle.std.specs.Prelude.{◌≡◌, ◌≤◌, [], true, IfErr, IfOk, MatchResult, OnErr, OnOk};
ghost use Rattle.std.specs.List.{list_any};
ghost use Rattle.image_check.specs.Agrees.{Agrees};
ghost use Rattle.disk_server.specs.Disk.{contents_of, holds};
ghost use Rattle.disk_server.specs.Opened.{SyncsWhen, is_honest_in, view_in};
ghost use Rattle.disk_recovery.specs.Listed.{IsUnkept, KeepsIfAny};
ghost use Rattle.disk_recovery.specs.Recovered.{HoldsRecovered, IsOpenedLeft, IsUnrecovered};

use crate::recovered::recover_mounted;
use certificate::Certificate;
use disk_server::{KeepsLost, OpenStoreFault, StoreDisk};
use file_die::{Store, SyncWhen};
use nbd_stream::DiskFault;
use std::alloc::Global;

/// A store of which the list of lost sectors lasts, where any is lost. `list_first` alone makes one, and only such a store is recovered (`recover_listed`). (This project's.)
#[derive(Drop)]
pub struct ListedStore<S: Store + Drop> {
    store: S,
}

// Whether any sector is on a list.
fn any_lost(lost: &[bool]) -> bool
    ensures { result ≡ list_any (λ is_lost. is_lost) lost.now }
{
    lost.iter().any(|is_lost| *is_lost)
}

// Keeps a list where any sector is on it.
fn keep_any<K: KeepsLost>(keeper: &mut K, lost: &[bool]) -> Result<(), DiskFault>
    ensures done { OnOk result (KeepsIfAny K.kept lost.now keeper.old keeper.new) }
    ensures settled { OnOk result (K.failed keeper.new ≡ K.failed keeper.old) }
    ensures fault { OnErr result (IsUnkept K.kept K.failed lost.now keeper.old keeper.new) }
{
    if any_lost(lost) {
        return keeper.keep(lost);
    }
    Ok(())
}

/// Keeps the list of the lost sectors of a store, where any is lost; where none is, nothing is asked of its place. **Nothing is asked of the store, which is as it was: and as only a
/// `ListedStore` is recovered, none of its pages is programmed or erased before the list lasts.**
///
/// # Errors
///
/// The store, as it was, where the list was not kept: the one that lasts is this, or the one before. (This project's.)
pub fn list_first<S: Store + Drop, K: KeepsLost>(
    store: S,
    keeper: &mut K,
    lost: &[bool],
) -> Result<ListedStore<S>, S>
    ensures same { MatchResult result (λ listed. listed.store ≡ store) (λ back. back ≡ store) }
    ensures listed { OnOk result (KeepsIfAny K.kept lost.now keeper.old keeper.new) }
    ensures settled { OnOk result (K.failed keeper.new ≡ K.failed keeper.old) }
    ensures fault { OnErr result (IsUnkept K.kept K.failed lost.now keeper.old keeper.new) }
{
    match keep_any(keeper, lost) {
        Ok(()) => Ok(ListedStore { store }),
        Err(_) => Err(store),
    }
}

/// Opens the disk of a die that a crash may have left torn, to write to it. The list of its lost sectors lasts. The store was mounted with this certificate for the largest cache, of 65,536
/// entries. What is torn is taken away as `crash_recovery::recover` does; where anything was, the store is mounted and recovered once more; and the disk is opened as `open_stopped` does. All pages
/// of a lower sequence than `mark` were synced. **Of a store that is honest the disk holds its array, and its bytes are those of the array of the pages that are left.**
///
/// # Errors
///
/// `OutOfMemory` where a growth was refused while the store was recovered, and `Device` where the store failed then; as `mount_store` for the largest cache where it was to be mounted once more; else as
/// `open_stopped` over what was left. The store comes back, as the last of these left it. (This project's.)
pub fn recover_listed<S: Store + Drop>(
    alloc: Global,
    listed: ListedStore<S>,
    certificate: &Certificate,
    capacity: u32,
    share: u32,
    mark: u64,
    sync_when: SyncWhen,
) -> Result<StoreDisk<S>, (S, OpenStoreFault)>
    requires mounted { S.honest listed.store ≡ true → Agrees (S.held listed.store).geometry 65536 (S.held listed.store).pages certificate.now }
    requires least { 1 ≤ capacity }
    requires most { capacity ≤ 65536 }
    ensures syncs { IfOk result (λ d. SyncsWhen sync_when d.engine.nand) }
    ensures share { IfOk result (λ d. d.engine.mapping.share ≡ share) }
    ensures honest { IfOk result (λ d. S.honest listed.store ≡ true → holds (is_honest_in S.honest) d ≡ true) }
    ensures clear { IfOk result (λ d. S.honest listed.store ≡ true → d.engine.nand.told.at_hand ≡ []) }
    ensures bytes { IfOk result (λ d. S.honest listed.store ≡ true → HoldsRecovered mark (S.held listed.store) (contents_of (view_in S.held S.honest S.failed) d).bytes) }
    ensures entries { IfOk result (λ d. IsOpenedLeft S.held S.honest S.failed mark listed.store capacity share d.engine.mapping.capacity) }
    ensures fault { IfErr result (λ e. IsUnrecovered S.held S.honest S.failed listed.store capacity share mark e.0 e.1) }
{
    let ListedStore { store } = listed;
    recover_mounted(alloc, store, certificate, capacity, share, mark, sync_when)
}
