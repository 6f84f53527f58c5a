//! A disk of a store, as it is opened.
ghost use Rattle.std.specs.Prelude.{◌≡◌, ◌≤◌, true, IfOk};
ghost use Rattle.file_die.specs.Store.{AreImages};
ghost use Rattle.disk_server.specs.Disk.{IsDisk, contents_of};
ghost use Rattle.disk_server.specs.Opened.{bytes_of, view_in};
ghost use Rattle.disk_laws.specs.Driven.{StandsReady, store_behind};
ghost use Rattle.disk_laws.specs.StoreRuns.{StandsClear};

use disk_server::{DeviceDisk, OpenStoreFault, open_store};
use file_die::{FileDie, Store, SyncWhen};
use ftl_device::Device;
use onfi_cycles::{Driver, Nand};
use std::alloc::Global;

// The device of a disk.
fn device_in<N: Nand>(disk: DeviceDisk<N>) -> Device<N>
    ensures same { result ≡ disk }
    ensures disk { IsDisk N.view result }
{
    disk.into_device()
}

// The device of a die over a store: its driver stands ready.
fn device_stands<S: Store>(device: Device<Driver<FileDie<S>>>) -> Device<Driver<FileDie<S>>>
    ensures same { result ≡ device }
    ensures ready { S.honest device.engine.nand.bus.store ≡ true → StandsReady S.held device.engine.nand }
    ensures images { S.honest device.engine.nand.bus.store ≡ true → AreImages (store_behind S.held device.engine.nand) }
{
    device
}

/// Opens the disk of a store, as `open_store`, and gives its device. Of an honest store that is one of which `store_cut_laws` speaks, and it holds the array of the store's pages.
///
/// # Errors
///
/// As `open_store`. (This project's.)
pub fn open_clear<S: Store + Drop>(
    alloc: Global,
    store: S,
    capacity: u32,
    share: u32,
    sync_when: SyncWhen,
) -> Result<Device<Driver<FileDie<S>>>, (S, OpenStoreFault)>
    requires least { 1 ≤ capacity }
    requires most { capacity ≤ 65536 }
    ensures stands { IfOk result (λ d. S.honest store ≡ true → StandsClear S.held S.honest S.failed d) }
    ensures bytes { IfOk result (λ d. S.honest store ≡ true → (contents_of (view_in S.held S.honest S.failed) d).bytes ≡ bytes_of (S.held store)) }
{
    match open_store(alloc, store, capacity, share, sync_when) {
        Ok(disk) => Ok(device_stands(device_in(disk.into_sectors()))),
        Err(refused) => Err(refused),
    }
}
