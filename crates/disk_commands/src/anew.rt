//! How the device of a disk is opened anew, where its file was full.
ghost use Rattle.std.specs.Prelude.{◌≡◌, ◌≤◌, false, Some};
ghost use Rattle.disk_commands.specs.Anew.{most_stale};
ghost use Rattle.disk_commands.specs.ShapeText.{IsCacheSize};

use crate::shapes::{DiskShape, MOST_ENTRIES, waiting};
use disk_server::{ReopenedDevice, StoreDisk};
use file_die::{Store, SyncWhen, TellsFull};
use std::alloc::Global;

// As many sectors as may be stale at a moment. A cache of as many entries has room for them.
fn most_stale(shape: &DiskShape) -> u32
    requires { IsCacheSize shape.now.cache }
    ensures is { result ≡ most_stale shape.now }
    ensures least { 1 ≤ result }
    ensures most { result ≤ 65536 }
{
    let geometry = shape.geometry;
    if geometry.sectors() <= MOST_ENTRIES {
        return geometry.sectors();
    }
    let stale = u64::from(shape.cache)
        + waiting(&geometry, shape.share)
        + u64::from(geometry.pages()) * 2;
    stale.min(u64::from(MOST_ENTRIES)) as u32
}

/// The device of a disk, which is opened anew where its store was full, with a cache that has room for all that may be stale, and with the share that it has.
pub(crate) fn reopening<S: Store + TellsFull + Drop>(
    alloc: Global,
    disk: StoreDisk<S>,
    shape: &DiskShape,
    sync_when: SyncWhen,
) -> ReopenedDevice<S>
    requires { IsCacheSize shape.now.cache }
    ensures device { result.device ≡ Some disk }
    ensures reopened { result.reopened ≡ false }
    ensures capacity { result.capacity ≡ most_stale shape.now }
    ensures share { result.share ≡ disk.engine.mapping.share }
    ensures sync_when { result.sync_when ≡ sync_when }
{
    ReopenedDevice::new(alloc, disk.into_sectors(), most_stale(shape), sync_when)
}
