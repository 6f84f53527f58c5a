//! The device, by its sectors.
ghost use Rattle.std.specs.Prelude.{◌≡◌, true, IfOk, IfErr};
ghost use Rattle.page_layout.specs.Geometry.{IsShare};
ghost use Rattle.certificate.specs.Claim.{sizes_of};
ghost use Rattle.collection.specs.Safe.{ram};
ghost use Rattle.ftl_device.specs.Begin.{begun_ram};
ghost use Rattle.ftl_device.specs.Device.{IsAcceptedFor};
ghost use Rattle.disk_server.specs.Disk.{IsDisk};

use crate::answer::{change_answer, flush_answer, read_answer, rest_answer};
use crate::pieces::are_zeros;
use crate::sectors::{Lasting, Sectors};
use ftl_device::{Device, StartFault};
use image_check::Accepted;
use nbd_stream::{DiskFault, Task};
use onfi_cycles::Nand;
use std::alloc::Global;
use std::marker::Model;

/// The block device as a device of whole sectors. To contracts it is the device. (This project's.)
///
/// Its contents are the array that the image on the die holds, one sector behind another, and what a stop of the die between two calls leaves is that
/// array too: so a change that is answered lasts, and a flush makes no more last. What a host's loss of power leaves of a die that is kept elsewhere is
/// not said here. It is honest as long as its die is and it was not stopped; it is never calm, since a device becomes read-only as its
/// blocks fail. A call that fails and leaves it honest leaves all sectors as they were.
#[derive(Drop)]
pub struct DeviceDisk<N: Nand> {
    device: Device<N>,
}

impl<N: Nand> Model for DeviceDisk<N> {
    ghost use Rattle.ftl_device.specs.declared.device.Device.{Device};
    ghost use Rattle.disk_server.specs.Disk.{IsDisk};

    ghost Value = { Device N };

    ghost view = { λ d. d.device };

    ghost invariant = { λ d. IsDisk N.view d.device };
}

impl<N: Nand> DeviceDisk<N> {
    /// The disk of a device. Where its die is honest and it was not stopped, what it knows of its image is true, as of each device that was started
    /// from an accepted certificate and called since.
    pub fn new(device: Device<N>) -> DeviceDisk<N>
        requires disk { IsDisk N.view device }
        ensures { result ≡ device }
    {
        DeviceDisk { device }
    }

    /// The disk of a device of this share that is started over a die whose image a checker accepted. Nothing is asked of the die.
    ///
    /// # Errors
    ///
    /// `OutOfMemory` alone, where a growth was refused: the die and the certificate come back.
    pub fn start<'a>(
        alloc: Global,
        nand: N,
        share: u32,
        accepted: Accepted<'a>,
    ) -> Result<DeviceDisk<N>, StartFault<'a, N>>
        requires share { IsShare (N.view.flash nand).geometry share }
        requires same_geometry { sizes_of (N.view.flash nand).geometry ≡ accepted.claim.sizes }
        requires accepted { N.view.honest nand ≡ true → IsAcceptedFor (N.view.flash nand) accepted }
        ensures nand { IfOk result (λ d. d.engine.nand ≡ nand) }
        ensures begun { IfOk result (λ d. ram d.engine ≡ begun_ram (N.view.flash nand).geometry share accepted.entry.claim accepted.entry.stale) }
        ensures fault { IfErr result (λ fault. fault ≡ StartFault.OutOfMemory nand accepted.entry) }
    {
        let device = Device::start_at(alloc, nand, share, accepted)?;
        Ok(DeviceDisk { device })
    }

    /// How many moved sectors may wait for each translation page in the mean.
    pub fn share(&self) -> u32
        ensures { result ≡ self.now.engine.mapping.share }
    {
        self.device.engine.mapping.share()
    }

    /// Gives the device back.
    pub fn into_device(self) -> Device<N>
        ensures { result ≡ self }
    {
        self.device
    }
}

impl<N: Nand> Sectors for DeviceDisk<N> {
    ghost use Rattle.std.specs.Prelude.{◌≡◌, ◌<◌, ◌*◌, ◌↔◌, false, [], length, true, Err, IsOk, IsSome, OnErr};
    ghost use Rattle.promises.specs.Step.{Write, Trim};
    ghost use Rattle.ftl_device.specs.Calls.{stop_of};
    ghost use Rattle.nbd_stream.specs.Disk.{Idles, PerformsTask, answer_from};
    ghost use Rattle.disk_server.specs.Asked.{SparesZeros};
    ghost use Rattle.disk_server.specs.Disk.{contents_of, holds, takes_changes, ReadsAsDevice, AsksChange, AsksClear, AsksFlush, AsksRead, AsksTurn, ChangesOne, KeepsOnError, SetsSector};

    ghost contents = { contents_of N.view };

    ghost honest = { holds N.view.honest };

    ghost calm = { λ d. false };

    // A rest is one turn.
    ghost rests = { AsksTurn N.view };

    // A read programs and erases nothing.
    ghost reads = { AsksRead N.view };

    ghost size = { λ d. d.engine.geometry.data_bytes };

    ghost count = { λ d. d.engine.geometry.sectors };

    ghost next = { λ d. d.engine.next };

    // A change is one of the device, or a read and then one.
    ghost changes = { ChangesOne N.view };

    // A sector is set by one change of the device, of that sector.
    ghost sets = { SetsSector N.view };

    // A flush is one of the device.
    ghost flushes = { AsksFlush N.view };

    // It is not read-only, and its last sequence is not given out.
    ghost takes = { takes_changes };

    /// Gives the bytes of a sector. Nothing is programmed or erased.
    ///
    /// # Errors
    ///
    /// `Failed` where the device was stopped before, whose die is not asked then; where a page was damaged, which never is of an honest die; and
    /// where the die gave no page, which stops the device.
    fn read_sector(&mut self, sector: u64, buffer: &mut [u8]) -> Result<(), DiskFault>
        requires within { sector < self.old.engine.geometry.sectors }
        requires whole { length buffer.old ≡ self.old.engine.geometry.data_bytes }
        ensures size { self.new.engine.geometry.data_bytes ≡ self.old.engine.geometry.data_bytes }
        ensures count { self.new.engine.geometry.sectors ≡ self.old.engine.geometry.sectors }
        ensures performs { PerformsTask (contents_of N.view) (holds N.view.honest) (λ d. false)
            (Task.Read (sector * self.old.engine.geometry.data_bytes) self.old.engine.geometry.data_bytes) [] self.old (answer_from result buffer.new) self.new }
        ensures given { holds N.view.honest self.new ≡ true → IsOk result }

        // Whatever the die does.
        ensures stopped { IsSome (stop_of self.old.engine.fault) → (result ≡ Err DiskFault.Failed) × (self.new ≡ self.old) }
        ensures refused { OnErr result (buffer.new ≡ buffer.old) }
        ensures reads { AsksRead N.view self.old self.new }
        ensures answers { ReadsAsDevice sector self.old result buffer.new self.new }
    {
        read_answer(self.device.read(sector as u32, buffer))
    }

    /// Sets the bytes of a sector: all of them, or none where that failed and the device holds its array. It is one `Device::write`.
    ///
    /// # Errors
    ///
    /// - `ReadOnly` where the device is read-only, or has given out its last sequence: no change is taken any more, and reads go on.
    /// - `NoSpace` where a growth was refused. The next change may be taken.
    /// - `Failed` where the device was stopped before, or is now.
    fn write_sector(&mut self, sector: u64, bytes: &[u8]) -> Result<(), DiskFault>
        requires within { sector < self.old.engine.geometry.sectors }
        requires whole { length bytes.now ≡ self.old.engine.geometry.data_bytes }
        ensures size { self.new.engine.geometry.data_bytes ≡ self.old.engine.geometry.data_bytes }
        ensures count { self.new.engine.geometry.sectors ≡ self.old.engine.geometry.sectors }
        ensures performs { PerformsTask (contents_of N.view) (holds N.view.honest) (λ d. false)
            (Task.Write (sector * self.old.engine.geometry.data_bytes) self.old.engine.geometry.data_bytes false) bytes.now self.old (answer_from result []) self.new }
        ensures whole { KeepsOnError N.view self.old result self.new }

        // Whatever the die does.
        ensures asked { AsksChange N.view sector (Write sector bytes.now) self.old result self.new }
        ensures changes { ChangesOne N.view self.old result self.new }
        ensures sets { SetsSector N.view sector self.old result self.new }
    {
        change_answer(self.device.write(sector as u32, bytes))
    }

    /// Sets the bytes of a sector to zeros. It is one `Device::trim`.
    ///
    /// # Errors
    ///
    /// As `write_sector`.
    fn trim_sector(&mut self, sector: u64) -> Result<(), DiskFault>
        requires within { sector < self.old.engine.geometry.sectors }
        ensures size { self.new.engine.geometry.data_bytes ≡ self.old.engine.geometry.data_bytes }
        ensures count { self.new.engine.geometry.sectors ≡ self.old.engine.geometry.sectors }
        ensures performs { PerformsTask (contents_of N.view) (holds N.view.honest) (λ d. false)
            (Task.Trim (sector * self.old.engine.geometry.data_bytes) self.old.engine.geometry.data_bytes false) [] self.old (answer_from result []) self.new }
        ensures whole { KeepsOnError N.view self.old result self.new }

        // Whatever the die does.
        ensures asked { AsksChange N.view sector (Trim sector) self.old result self.new }
        ensures changes { ChangesOne N.view self.old result self.new }
        ensures sets { SetsSector N.view sector self.old result self.new }
    {
        change_answer(self.device.trim(sector as u32))
    }

    /// Sets the bytes of a sector to zeros. It is one `Device::read`, and where that gave no zeros, one `Device::trim`.
    ///
    /// # Errors
    ///
    /// As `write_sector`. A sector that could not be read is trimmed all the same.
    fn clear_sector(&mut self, sector: u64, buffer: &mut [u8]) -> Result<(), DiskFault>
        requires within { sector < self.old.engine.geometry.sectors }
        requires whole { length buffer.old ≡ self.old.engine.geometry.data_bytes }
        ensures size { self.new.engine.geometry.data_bytes ≡ self.old.engine.geometry.data_bytes }
        ensures count { self.new.engine.geometry.sectors ≡ self.old.engine.geometry.sectors }
        ensures performs { PerformsTask (contents_of N.view) (holds N.view.honest) (λ d. false)
            (Task.Trim (sector * self.old.engine.geometry.data_bytes) self.old.engine.geometry.data_bytes false) [] self.old (answer_from result []) self.new }
        ensures spares { SparesZeros (contents_of N.view) (holds N.view.honest) (AsksRead N.view)
            (sector * self.old.engine.geometry.data_bytes) self.old.engine.geometry.data_bytes self.old self.new }

        // Whatever the die does.
        ensures asked { AsksClear N.view sector self.old result self.new }
        ensures changes { ChangesOne N.view self.old result self.new }
    {
        // (asked for a clause of `sector_count` alone, `whole`: its bytes are those of its sectors)
        let _count = self.sector_count();
        match self.read_sector(sector, buffer) {
            Ok(()) => {
                if are_zeros(buffer) {
                    return Ok(());
                }
                self.trim_sector(sector)
            }
            Err(_) => self.trim_sector(sector),
        }
    }

    /// Writes to the die what is known in memory alone, so that it may be mounted with any cache. No sector needs it to last. It is one
    /// `Device::flush`; a device that takes no change any more has nothing to write, and is answered as one that was flushed.
    ///
    /// # Errors
    ///
    /// `Failed` where the device was stopped before, or is now.
    fn flush(&mut self) -> Result<(), DiskFault>
        ensures size { self.new.engine.geometry.data_bytes ≡ self.old.engine.geometry.data_bytes }
        ensures count { self.new.engine.geometry.sectors ≡ self.old.engine.geometry.sectors }
        ensures performs { PerformsTask (contents_of N.view) (holds N.view.honest) (λ d. false) Task.Flush [] self.old (answer_from result []) self.new }

        // Whatever the die does.
        ensures flushes { AsksFlush N.view self.old result self.new }
    {
        flush_answer(self.device.flush())
    }

    /// Gives the device one turn: it moves pages out of bad blocks, or goes on with a collection, or asks the die for nothing, with all that
    /// `Device::turn` says. The bytes stay. A device that takes no change any more has no turn, holds its array, and is answered as one that has rested.
    ///
    /// # Errors
    ///
    /// `Failed` where the device was stopped before, or is now.
    fn rest(&mut self) -> Result<(), DiskFault>
        ensures size { self.new.engine.geometry.data_bytes ≡ self.old.engine.geometry.data_bytes }
        ensures count { self.new.engine.geometry.sectors ≡ self.old.engine.geometry.sectors }
        ensures idles { Idles (contents_of N.view) (holds N.view.honest) (λ d. false) self.old result self.new }

        // Whatever the die does.
        ensures rests { AsksTurn N.view self.old result self.new }
        ensures stopped { (result ≡ Err DiskFault.Failed) ↔ IsSome (stop_of self.new.engine.fault) }
    {
        rest_answer(self.device.turn())
    }

    fn sector_bytes(&self) -> usize {
        self.device.engine.geometry.data_bytes()
    }

    fn sector_count(&self) -> u64 {
        u64::from(self.device.engine.geometry.sectors())
    }

    fn next_sequence(&self) -> u64 {
        self.device.engine.next
    }

    fn takes_changes(&self) -> bool {
        !self.device.read_only() && self.device.engine.next != u64::MAX
    }
}

impl<N: Nand> Lasting for DeviceDisk<N> {
    ghost use Rattle.std.specs.Prelude.{refl};

    ghost lasts = { λ d. refl };
}
