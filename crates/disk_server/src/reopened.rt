//! The device of a store, which is opened anew where the store was full.
ghost use Rattle.std.specs.Prelude.{◌≡◌};

use crate::device_disk::DeviceDisk;
use crate::opened::open_store;
use crate::sectors::{Lasting, Sectors};
use file_die::{FileDie, Store, SyncWhen, TellsFull};
use nbd_stream::{DiskFault, Task};
use onfi_cycles::Driver;
use std::alloc::Global;
use std::marker::Model;

// The device over the die that a store holds.
type StoreDevice<S> = DeviceDisk<Driver<FileDie<S>>>;

/// The device of the die that a store holds, which goes on where the store had no room for a page. (This project's.)
///
/// A page that was not programmed stops the device. Where the store tells that it was full, it is opened anew then, from the pages that the device has left, with a cache of
/// `capacity` entries and the share that it had, and nothing is programmed for that: the change is answered `NoSpace`, and the next one is asked of the device that is there. Where it was not full, or was not
/// opened, the device is gone, and each call answers `Failed`. A torn page costs its block until the disk is recovered, as after a kill.
///
/// Its contents are those of the device that is there. They are known to be what it was given until it is opened anew: from then on it is honest no more, and what the device
/// holds is said beside that (`IsReopened`): of an honest store the array of the pages that were left.
#[derive(Drop)]
pub struct ReopenedDevice<S: Store> {
    device: Option<StoreDevice<S>>,
    size: usize,
    count: u64,
    next: u64,
    reopened: bool,
    alloc: Global,
    capacity: u32,
    share: u32,
    sync_when: SyncWhen,
}

impl<S: Store> Model for ReopenedDevice<S> {
    ghost use Rattle.disk_server.specs.Reopened.{Reopened, AreReopenedParts};

    ghost Value = { Reopened S };

    ghost view = { λ d. record {
      device = d.device;
      size = d.size;
      count = d.count;
      next = d.next;
      reopened = d.reopened;
      capacity = d.capacity;
      share = d.share;
      sync_when = d.sync_when;
    } };

    ghost invariant = { λ d. AreReopenedParts d.size d.count d.capacity d.device };
}

// The store under a device.
fn store_under<S: Store + Drop>(device: StoreDevice<S>) -> S
    ensures { result ≡ device.engine.nand.bus.store }
{
    device.into_device().into_nand().into_bus().into_store()
}

impl<S: Store + TellsFull + Drop> ReopenedDevice<S> {
    ghost use Rattle.std.specs.Prelude.{◌≡◌, ◌≢◌, ◌⊎◌, ◌≤◌, ◌*◌, false, true, length, None, Some};
    ghost use Rattle.disk_server.specs.Disk.{contents_of};
    ghost use Rattle.disk_server.specs.Opened.{view_in};
    ghost use Rattle.onfi_cycles.specs.Driver.{DriverState};
    ghost use Rattle.file_die.specs.Die.{FileState};
    ghost use Rattle.ftl_device.specs.declared.device.Device.{Device};
    ghost use Rattle.disk_server.specs.Reopened.{HasDevice, IsGone, IsNotReopened, IsOpenedFrom, Reopens, SettlesCall, terms_of};

    /// Joins a device to the way in which its store is opened anew. Nothing is asked of it.
    pub fn new(
        alloc: Global,
        device: StoreDevice<S>,
        capacity: u32,
        sync_when: SyncWhen,
    ) -> ReopenedDevice<S>
        requires least { 1 ≤ capacity }
        requires most { capacity ≤ 65536 }
        ensures device { result.device ≡ Some device }
        ensures reopened { result.reopened ≡ false }
        ensures capacity { result.capacity ≡ capacity }
        ensures share { result.share ≡ device.engine.mapping.share }
        ensures sync_when { result.sync_when ≡ sync_when }
    {
        let size = device.sector_bytes();
        let count = device.sector_count();
        let share = device.share();
        ReopenedDevice {
            device: Some(device),
            size,
            count,
            next: 0,
            reopened: false,
            alloc,
            capacity,
            share,
            sync_when,
        }
    }

    // Takes in a device that a store was opened with, where it has the sectors that were there before.
    fn take_in(&mut self, device: StoreDevice<S>) -> bool
        requires { self.old.device ≡ None }
        ensures taken { result ≡ true → HasDevice (terms_of self.old) true self.old.next (Some device) self.new }
        ensures long { result ≡ true → length (contents_of (view_in S.held S.honest S.failed) device).bytes ≡ self.old.count * self.old.size }
        ensures left { result ≡ false → (device.engine.geometry.data_bytes ≢ self.old.size) ⊎ (device.engine.geometry.sectors ≢ self.old.count) }
        ensures same { result ≡ false → self.new ≡ self.old }
    {
        if device.sector_bytes() != self.size || device.sector_count() != self.count {
            drop(device);
            return false;
        }
        drop(self.device.replace(device));
        self.reopened = true;
        true
    }

    // Opens a store anew.
    fn open(&mut self, store: S) -> bool
        requires { self.old.device ≡ None }
        ensures opened { result ≡ true → (d : Device (DriverState (FileState S))) × IsOpenedFrom S.held S.honest S.failed (terms_of self.old) store d × HasDevice (terms_of self.old) true self.old.next (Some d) self.new
            × (length (contents_of (view_in S.held S.honest S.failed) d).bytes ≡ self.old.count * self.old.size) }
        ensures unopened { result ≡ false → IsNotReopened S.held S.honest S.failed (terms_of self.old) store }
        ensures same { result ≡ false → self.new ≡ self.old }
    {
        match open_store(self.alloc, store, self.capacity, self.share, self.sync_when) {
            Ok(disk) => self.take_in(disk.into_sectors()),
            Err(_) => false,
        }
    }

    // Opens the store of a device that has stopped anew, where it was full.
    fn reopen(&mut self, device: StoreDevice<S>) -> bool
        requires { self.old.device ≡ None }
        ensures opened { result ≡ true → Reopens S.held S.honest S.full S.failed (terms_of self.old) device self.new }
        ensures gone { result ≡ false → IsGone S.held S.honest S.full S.failed (terms_of self.old) self.old.reopened device self.new }
    {
        self.next = device.next_sequence();
        let store = store_under(device);
        store.is_full() && self.open(store)
    }

    // Goes on after a call of the device that had this answer. One that failed is told as this, where the store was full and is open anew.
    fn settle(
        &mut self,
        device: StoreDevice<S>,
        answer: Result<(), DiskFault>,
        told: DiskFault,
    ) -> Result<(), DiskFault>
        requires none { self.old.device ≡ None }
        requires sized { device.engine.geometry.data_bytes ≡ self.old.size }
        requires counted { device.engine.geometry.sectors ≡ self.old.count }
        ensures long { length (contents_of (view_in S.held S.honest S.failed) device).bytes ≡ self.old.count * self.old.size }
        ensures settles { SettlesCall S.held S.honest S.full S.failed told (terms_of self.old) self.old.reopened self.old.next device answer result self.new }
    {
        // (asked for the clause `long` alone)
        let _count = device.sector_count();
        match answer {
            Err(DiskFault::Failed) => {
                if self.reopen(device) {
                    Err(told)
                } else {
                    Err(DiskFault::Failed)
                }
            }
            Ok(()) | Err(DiskFault::ReadOnly | DiskFault::NoSpace) => {
                drop(self.device.replace(device));
                answer
            }
        }
    }
}

impl<S: Store + TellsFull + Drop> Sectors for ReopenedDevice<S> {
    ghost use Rattle.std.specs.Prelude.{◌≡◌, ◌<◌, ◌*◌, false, [], length, true};
    ghost use Rattle.promises.specs.Step.{Write, Trim};
    ghost use Rattle.nbd_stream.specs.declared.fault.DiskFault.TheVariants as fault;
    ghost use Rattle.nbd_stream.specs.Disk.{PerformsTask, answer_from};
    ghost use Rattle.disk_server.specs.Asked.{SparesZeros};
    ghost use Rattle.disk_server.specs.Reopened.{AsksDevice, ReadsDevice, ReopenedGivesSector, SetsInDevice, changes_in, changes_of, clears_of, contents_in, flushes_of, holds_in, next_to_program, reads_of, rests_of, takes_in};

    ghost contents = { contents_in S.held S.honest S.failed };

    ghost honest = { holds_in S.honest };

    ghost calm = { λ _. false };

    /// A rest of the device that is there, and what it comes to.
    ghost rests = { AsksDevice S.held S.honest S.full S.failed (rests_of S.held S.honest S.failed) fault.Failed };

    /// A read of the device that is there.
    ghost reads = { ReadsDevice (reads_of S.held S.honest S.failed) };

    /// A change of the device that is there, and what it comes to.
    ghost changes = { changes_in S.held S.honest S.full S.failed };

    /// A write or a trim of this sector, of the device that is there, and what it comes to.
    ghost sets = { SetsInDevice S.held S.honest S.full S.failed };

    /// A flush of the device that is there, and what it comes to.
    ghost flushes = { AsksDevice S.held S.honest S.full S.failed (flushes_of S.held S.honest S.failed) fault.Failed };

    ghost size = { λ d. d.size };

    ghost count = { λ d. d.count };

    ghost next = { next_to_program };

    ghost takes = { takes_in };

    /// Gives the bytes of a sector, as the device that is there does.
    ///
    /// # Errors
    ///
    /// `Failed` where the device failed, or is gone.
    fn read_sector(&mut self, sector: u64, buffer: &mut [u8]) -> Result<(), DiskFault>
        requires within { sector < self.old.count }
        requires whole { length buffer.old ≡ self.old.size }
        ensures size { self.new.size ≡ self.old.size }
        ensures count { self.new.count ≡ self.old.count }
        ensures performs { PerformsTask (contents_in S.held S.honest S.failed) (holds_in S.honest) (λ _. false) (Task.Read (sector * self.old.size) self.old.size) [] self.old (answer_from result buffer.new) self.new }
        ensures reads { ReadsDevice (reads_of S.held S.honest S.failed) self.old self.new }
        ensures given { ReopenedGivesSector S.held S.honest S.failed sector self.old result buffer.new self.new }
    {
        let Some(mut device) = self.device.take() else {
            return Err(DiskFault::Failed);
        };
        let answer = device.read_sector(sector, buffer);
        drop(self.device.replace(device));
        answer
    }

    /// Sets the bytes of a sector, as the device that is there does.
    ///
    /// # Errors
    ///
    /// As the device. **`NoSpace` also where the device failed, its store told that it was full, and it is open anew**: the next change may be taken. `Failed` where it is gone.
    fn write_sector(&mut self, sector: u64, bytes: &[u8]) -> Result<(), DiskFault>
        requires within { sector < self.old.count }
        requires whole { length bytes.now ≡ self.old.size }
        ensures size { self.new.size ≡ self.old.size }
        ensures count { self.new.count ≡ self.old.count }
        ensures performs { PerformsTask (contents_in S.held S.honest S.failed) (holds_in S.honest) (λ _. false) (Task.Write (sector * self.old.size) self.old.size false) bytes.now self.old (answer_from result []) self.new }
        ensures asked { AsksDevice S.held S.honest S.full S.failed (changes_of S.held S.honest S.failed sector (Write sector bytes.now)) fault.NoSpace self.old result self.new }
        ensures changes { changes_in S.held S.honest S.full S.failed self.old result self.new }
        ensures sets { SetsInDevice S.held S.honest S.full S.failed sector self.old result self.new }
    {
        let Some(mut device) = self.device.take() else {
            return Err(DiskFault::Failed);
        };
        let answer = device.write_sector(sector, bytes);
        self.settle(device, answer, DiskFault::NoSpace)
    }

    /// Sets the bytes of a sector to zeros, as the device that is there does.
    ///
    /// # Errors
    ///
    /// As `write_sector`.
    fn trim_sector(&mut self, sector: u64) -> Result<(), DiskFault>
        requires within { sector < self.old.count }
        ensures size { self.new.size ≡ self.old.size }
        ensures count { self.new.count ≡ self.old.count }
        ensures performs { PerformsTask (contents_in S.held S.honest S.failed) (holds_in S.honest) (λ _. false) (Task.Trim (sector * self.old.size) self.old.size false) [] self.old (answer_from result []) self.new }
        ensures asked { AsksDevice S.held S.honest S.full S.failed (changes_of S.held S.honest S.failed sector (Trim sector)) fault.NoSpace self.old result self.new }
        ensures changes { changes_in S.held S.honest S.full S.failed self.old result self.new }
        ensures sets { SetsInDevice S.held S.honest S.full S.failed sector self.old result self.new }
    {
        let Some(mut device) = self.device.take() else {
            return Err(DiskFault::Failed);
        };
        let answer = device.trim_sector(sector);
        self.settle(device, answer, DiskFault::NoSpace)
    }

    /// Sets the bytes of a sector to zeros, as the device that is there does.
    ///
    /// # Errors
    ///
    /// As `write_sector`.
    fn clear_sector(&mut self, sector: u64, buffer: &mut [u8]) -> Result<(), DiskFault>
        requires within { sector < self.old.count }
        requires whole { length buffer.old ≡ self.old.size }
        ensures size { self.new.size ≡ self.old.size }
        ensures count { self.new.count ≡ self.old.count }
        ensures performs { PerformsTask (contents_in S.held S.honest S.failed) (holds_in S.honest) (λ _. false) (Task.Trim (sector * self.old.size) self.old.size false) [] self.old (answer_from result []) self.new }
        ensures spares { SparesZeros (contents_in S.held S.honest S.failed) (holds_in S.honest) (ReadsDevice (reads_of S.held S.honest S.failed)) (sector * self.old.size) self.old.size self.old self.new }
        ensures asked { AsksDevice S.held S.honest S.full S.failed (clears_of S.held S.honest S.failed sector) fault.NoSpace self.old result self.new }
        ensures changes { changes_in S.held S.honest S.full S.failed self.old result self.new }
    {
        let Some(mut device) = self.device.take() else {
            return Err(DiskFault::Failed);
        };
        let answer = device.clear_sector(sector, buffer);
        self.settle(device, answer, DiskFault::NoSpace)
    }

    /// Flushes the device that is there.
    ///
    /// # Errors
    ///
    /// `Failed` where the device failed, or is gone. Where its store told that it was full, it is open anew.
    fn flush(&mut self) -> Result<(), DiskFault> {
        let Some(mut device) = self.device.take() else {
            return Err(DiskFault::Failed);
        };
        let answer = device.flush();
        self.settle(device, answer, DiskFault::Failed)
    }

    /// Lets the device that is there rest.
    ///
    /// # Errors
    ///
    /// As `flush`.
    fn rest(&mut self) -> Result<(), DiskFault> {
        let Some(mut device) = self.device.take() else {
            return Err(DiskFault::Failed);
        };
        let answer = device.rest();
        self.settle(device, answer, DiskFault::Failed)
    }

    fn sector_bytes(&self) -> usize {
        self.size
    }

    fn sector_count(&self) -> u64 {
        match &self.device {
            Some(device) => device.sector_count(),
            None => self.count,
        }
    }

    fn next_sequence(&self) -> u64 {
        match &self.device {
            Some(device) => device.next_sequence(),
            None => self.next,
        }
    }

    fn takes_changes(&self) -> bool {
        match &self.device {
            Some(device) => device.takes_changes(),
            None => false,
        }
    }
}

impl<S: Store + TellsFull + Drop> Lasting for ReopenedDevice<S> {
    ghost use Rattle.std.specs.Prelude.{refl};

    ghost lasts = { λ d. refl };
}
