//! A store is mounted, and its lost sectors are found.
ghost use Rattle.std.specs.Prelude.{◌≡◌, ◌≢◌, true, length, IfErr, IfOk};
ghost use Rattle.mount.specs.Mounted.{IsMounted};
ghost use Rattle.disk_server.specs.Opened.{HasCome};
ghost use Rattle.lost_sectors.specs.Lost.{Adds, DropsNone, is_lost};
ghost use Rattle.disk_damage.specs.Found.{IsUnfound};

use certificate::Certificate;
use disk_server::{OpenStoreFault, mount_store};
use file_die::Store;
use lost_sectors::{LostFault, find_lost};
use std::alloc::Global;

// The most entries of a cache: a store is mounted for so many, so that its stale sectors don't keep its lost ones from being found.
const MOST_ENTRIES: u32 = 65_536;

// How it is told that lost sectors were not found.
fn unfound(fault: LostFault) -> OpenStoreFault
    ensures { result ≡ Rattle.disk_damage.specs.Found.unfound fault }
{
    match fault {
        LostFault::OutOfMemory => OpenStoreFault::OutOfMemory,
        LostFault::Store => OpenStoreFault::Device,
    }
}

/// Mounts a store for the largest cache, and adds its lost sectors to a list that says of each sector whether it is lost: those of translation pages of a sequence below `mark`. The
/// store comes back with its certificate, its pages as they were.
///
/// # Errors
///
/// As `mount_store` for the largest cache; then `OutOfMemory` where a growth was refused, and `Device` where a load failed. None is taken off the list, which is as it was but after `Device`. The store comes back, as
/// the mount or those loads left it. (This project's.)
pub fn mount_and_find<S: Store + Drop>(
    alloc: Global,
    store: S,
    mark: u64,
    lost: &mut [bool],
) -> Result<(S, Certificate), (S, OpenStoreFault)>
    ensures mounted { IfOk result (λ made. S.honest store ≡ true → IsMounted (S.held store).geometry 65536 (S.held store).pages made.1) }
    ensures back { IfOk result (λ made. HasCome S.held S.honest store made.0) }
    ensures adds { IfOk result (λ made. S.honest store ≡ true → length lost.old ≡ (S.held store).geometry.sectors →
        Adds (is_lost (S.held store).geometry (S.held store).pages mark) 0 (S.held store).geometry.sectors lost.old lost.new) }
    ensures kept { DropsNone lost.old lost.new }
    ensures fault { IfErr result (λ e. IsUnfound S.held S.honest S.failed store e.0 e.1) }
    ensures untouched { IfErr result (λ e. e.1 ≢ OpenStoreFault.Device → lost.new ≡ lost.old) }
{
    let (mut store, certificate) = match mount_store(alloc, store, MOST_ENTRIES) {
        Ok(mounted) => mounted,
        Err(back) => return Err(back),
    };
    match find_lost(alloc, &mut store, &certificate, mark, lost) {
        Ok(()) => Ok((store, certificate)),
        Err(fault) => Err((store, unfound(fault))),
    }
}
