//! A device of sectors of which some are lost.
ghost use Rattle.std.specs.Prelude.{◌≡◌, List, Bool, true};

use crate::sectors::{Lasting, Sectors};
use nbd_stream::{DiskFault, Task};

/// A place beside a device where its lost sectors are listed. (This project's.)
pub trait KeepsLost {
    ghost use Rattle.std.specs.Prelude.{◌≡◌, ◌⊎◌, ℕ, List, Bool, IfErr, OnOk, OnErr};
    ghost use Rattle.page_layout.specs.Counter.{HasRisen};

    /// The list that lasts: of each sector whether it is lost.
    ghost kept: { Self → List Bool };

    /// How many lists were not kept. The count stays at 2^64 - 1 once there.
    ghost failed: { Self → ℕ };

    /// Makes last what was written to the device, and then this list in place of the one before.
    ///
    /// # Errors
    ///
    /// `Failed` where one of these failed: the list that lasts is this one, or the one before.
    fn keep(&mut self, lost: &[bool]) -> Result<(), DiskFault>
        ensures done { OnOk result (kept self.new ≡ lost.now) }
        ensures not_done { OnErr result ((kept self.new ≡ kept self.old) ⊎ (kept self.new ≡ lost.now)) }
        ensures settled { OnOk result (failed self.new ≡ failed self.old) }
        ensures rose { OnErr result (HasRisen (failed self.old) (failed self.new)) }
        ensures fault { IfErr result (λ e. e ≡ DiskFault.Failed) };
}

/// A device of whole sectors of which some are lost, and a list of them beside it. (This project's.)
///
/// A lost sector has older bytes than it was left with, or zeros. So a read of it answers `Failed`, and nothing is asked of the device, until it is written or trimmed: then
/// what was written lasts, and the list without it, before the change is answered. Its contents are the device's, but that no byte of a lost sector is given (`guarded_contents`): so of all
/// that is built on it no read of a lost sector is answered without an error. It is as honest as the device.
///
/// **After a list that was not kept nothing is asked of the device any more, and each call answers `Failed`.**
#[derive(Drop)]
pub struct GuardedSectors<S: Sectors, K: KeepsLost> {
    sectors: S,
    keeper: K,
    lost: Vec<bool>,
    failed: bool,
}

impl<S: Sectors, K: KeepsLost> GuardedSectors<S, K> {
    ghost use Rattle.std.specs.Prelude.{◌≡◌, ◌<◌, ◌*◌, ◌↔◌, false, true, length, slice_set, Ok, OnOk, OnErr, IfErr, IsTrue};
    ghost use Rattle.page_layout.specs.Counter.{HasRisen};
    ghost use Rattle.disk_server.specs.Guarded.{HealsIfListed, is_listed};

    /// Joins a device and the list of its lost sectors, of each whether it is lost. Nothing is asked of either.
    pub fn new(sectors: S, keeper: K, lost: Vec<bool>) -> GuardedSectors<S, K>
        ensures sectors { result.sectors ≡ sectors }
        ensures keeper { result.keeper ≡ keeper }
        ensures lost { result.lost ≡ lost }
        ensures failed { result.failed ≡ false }
    {
        GuardedSectors {
            sectors,
            keeper,
            lost,
            failed: false,
        }
    }

    /// Whether a sector is on the list.
    pub fn is_listed(&self, sector: u64) -> bool
        ensures { result ≡ is_listed self.now sector }
    {
        match self.lost.get(sector as usize) {
            Some(lost) => *lost,
            None => false,
        }
    }

    /// Gives the device back, and the keeper of its list.
    pub fn into_parts(self) -> (S, K)
        ensures sectors { result.0 ≡ self.sectors }
        ensures keeper { result.1 ≡ self.keeper }
    {
        let GuardedSectors {
            sectors,
            keeper,
            lost: _,
            failed: _,
        } = self;
        (sectors, keeper)
    }

    // What is known of the device's bytes: they are those of its sectors, of which each has some.
    fn know(&self)
        ensures some { 0 < S.size self.now.sectors }
        ensures whole { length (S.contents self.now.sectors).bytes ≡ S.count self.now.sectors * S.size self.now.sectors }
    {
        let _some = self.sectors.sector_bytes();
        let _whole = self.sectors.sector_count();
    }

    // Takes a sector off the list, once it was written.
    fn heal(&mut self, sector: u64) -> Result<(), DiskFault>
        ensures sectors { self.new.sectors ≡ self.old.sectors }
        ensures heals { OnOk result (HealsIfListed K.kept sector self.old self.new) }
        ensures unlisted { is_listed self.old sector ≡ false → (result ≡ Ok tt) × (self.new ≡ self.old) }
        ensures taken { is_listed self.old sector ≡ true → self.new.lost.items ≡ slice_set self.old.lost.items sector false }
        ensures failed { OnErr result ((self.new.failed ≡ true) × HasRisen (K.failed self.old.keeper) (K.failed self.new.keeper)) }
        ensures fault { IfErr result (λ e. e ≡ DiskFault.Failed) }
    {
        if !self.is_listed(sector) {
            return Ok(());
        }
        self.lost[sector as usize] = false;
        match self.keeper.keep(&self.lost) {
            Ok(()) => Ok(()),
            Err(fault) => {
                self.failed = true;
                Err(fault)
            }
        }
    }
}

impl<S: Lasting, K: KeepsLost> Sectors for GuardedSectors<S, K> {
    ghost use Rattle.std.specs.Prelude.{◌≡◌, ◌⊎◌, ◌<◌, ◌*◌, false, [], length, true, OnErr, OnOk};
    ghost use Rattle.page_layout.specs.Counter.{HasRisen};
    ghost use Rattle.nbd_stream.specs.Disk.{Idles, PerformsTask, answer_from};
    ghost use Rattle.disk_server.specs.Asked.{SparesZeros};
    ghost use Rattle.disk_server.specs.Guarded.{ChangesGuarded, HealsIfListed, IsRefusedUnasked, KeepsList, KeepsOrFails, PassesOn, ReadsGuarded, is_listed, guarded_contents};

    ghost contents = { guarded_contents S.contents S.size };

    ghost honest = { λ d. S.honest d.sectors };

    ghost calm = { λ _. false };

    /// A rest of the device, and nothing else.
    ghost rests = { PassesOn S.rests };

    /// A read of the device, or nothing.
    ghost reads = { ReadsGuarded S.reads };

    /// A change of the device, whose fault is told, or nothing.
    ghost changes = { ChangesGuarded S.changes };

    /// A write or a trim of this sector of the device, whose fault is told, or nothing.
    ghost sets = { λ n. ChangesGuarded (S.sets n) };

    /// A flush of the device, and nothing else.
    ghost flushes = { PassesOn S.flushes };

    ghost size = { λ d. S.size d.sectors };

    ghost count = { λ d. S.count d.sectors };

    ghost next = { λ d. S.next d.sectors };

    ghost takes = { λ d. S.takes d.sectors };

    /// Gives the bytes of a sector, as the device does. **Of one that is on the list nothing is asked of the device.**
    ///
    /// # Errors
    ///
    /// `Failed` where the sector is on the list, or the device failed, or a list was not kept.
    fn read_sector(&mut self, sector: u64, buffer: &mut [u8]) -> Result<(), DiskFault>
        requires within { sector < S.count self.old.sectors }
        requires whole { length buffer.old ≡ S.size self.old.sectors }
        ensures size { S.size self.new.sectors ≡ S.size self.old.sectors }
        ensures count { S.count self.new.sectors ≡ S.count self.old.sectors }
        ensures performs { PerformsTask (guarded_contents S.contents S.size) (λ d. S.honest d.sectors) (λ _. false)
            (Task.Read (sector * S.size self.old.sectors) (S.size self.old.sectors)) [] self.old (answer_from result buffer.new) self.new }
        ensures reads { ReadsGuarded S.reads self.old self.new }
        ensures refused { is_listed self.old sector ≡ true → IsRefusedUnasked self.old result self.new }
        ensures over { self.old.failed ≡ true → IsRefusedUnasked self.old result self.new }
        ensures asked { self.old.failed ≡ false → is_listed self.old sector ≡ false →
            PerformsTask S.contents S.honest S.calm (Task.Read (sector * S.size self.old.sectors) (S.size self.old.sectors)) [] self.old.sectors (answer_from result buffer.new) self.new.sectors }
    {
        if self.failed || self.is_listed(sector) {
            return Err(DiskFault::Failed);
        }
        self.know();
        self.sectors.read_sector(sector, buffer)
    }

    /// Sets the bytes of a sector, as the device does. **Once that is done it is not on the list, and where it was, what was written lasts, and the list without it.**
    ///
    /// # Errors
    ///
    /// As the device, and `Failed` where a list was not kept, now or before.
    fn write_sector(&mut self, sector: u64, bytes: &[u8]) -> Result<(), DiskFault>
        requires within { sector < S.count self.old.sectors }
        requires whole { length bytes.now ≡ S.size self.old.sectors }
        ensures size { S.size self.new.sectors ≡ S.size self.old.sectors }
        ensures count { S.count self.new.sectors ≡ S.count self.old.sectors }
        ensures performs { PerformsTask (guarded_contents S.contents S.size) (λ d. S.honest d.sectors) (λ _. false)
            (Task.Write (sector * S.size self.old.sectors) (S.size self.old.sectors) false) bytes.now self.old (answer_from result []) self.new }
        ensures changes { ChangesGuarded S.changes self.old result self.new }
        ensures sets { ChangesGuarded (S.sets sector) self.old result self.new }
        ensures heals { OnOk result (HealsIfListed K.kept sector self.old self.new) }
        ensures kept { OnErr result (KeepsOrFails K.failed self.old self.new) }
        ensures over { self.old.failed ≡ true → IsRefusedUnasked self.old result self.new }
        ensures asked { self.old.failed ≡ false → is_listed self.old sector ≡ false →
            PerformsTask S.contents S.honest S.calm (Task.Write (sector * S.size self.old.sectors) (S.size self.old.sectors) false) bytes.now self.old.sectors (answer_from result []) self.new.sectors }
        ensures listed { self.old.failed ≡ false →
            PerformsTask S.contents S.honest S.calm (Task.Write (sector * S.size self.old.sectors) (S.size self.old.sectors) false) bytes.now self.old.sectors (answer_from result []) self.new.sectors
            ⊎ HasRisen (K.failed self.old.keeper) (K.failed self.new.keeper) }
    {
        if self.failed {
            return Err(DiskFault::Failed);
        }
        self.know();
        match self.sectors.write_sector(sector, bytes) {
            Ok(()) => self.heal(sector),
            Err(fault) => Err(fault),
        }
    }

    /// Sets the bytes of a sector to zeros, as the device does, with all that `write_sector` says.
    ///
    /// # Errors
    ///
    /// As `write_sector`.
    fn trim_sector(&mut self, sector: u64) -> Result<(), DiskFault>
        requires within { sector < S.count self.old.sectors }
        ensures size { S.size self.new.sectors ≡ S.size self.old.sectors }
        ensures count { S.count self.new.sectors ≡ S.count self.old.sectors }
        ensures performs { PerformsTask (guarded_contents S.contents S.size) (λ d. S.honest d.sectors) (λ _. false)
            (Task.Trim (sector * S.size self.old.sectors) (S.size self.old.sectors) false) [] self.old (answer_from result []) self.new }
        ensures changes { ChangesGuarded S.changes self.old result self.new }
        ensures sets { ChangesGuarded (S.sets sector) self.old result self.new }
        ensures heals { OnOk result (HealsIfListed K.kept sector self.old self.new) }
        ensures kept { OnErr result (KeepsOrFails K.failed self.old self.new) }
        ensures over { self.old.failed ≡ true → IsRefusedUnasked self.old result self.new }
        ensures asked { self.old.failed ≡ false → is_listed self.old sector ≡ false →
            PerformsTask S.contents S.honest S.calm (Task.Trim (sector * S.size self.old.sectors) (S.size self.old.sectors) false) [] self.old.sectors (answer_from result []) self.new.sectors }
        ensures listed { self.old.failed ≡ false →
            PerformsTask S.contents S.honest S.calm (Task.Trim (sector * S.size self.old.sectors) (S.size self.old.sectors) false) [] self.old.sectors (answer_from result []) self.new.sectors
            ⊎ HasRisen (K.failed self.old.keeper) (K.failed self.new.keeper) }
    {
        if self.failed {
            return Err(DiskFault::Failed);
        }
        self.know();
        match self.sectors.trim_sector(sector) {
            Ok(()) => self.heal(sector),
            Err(fault) => Err(fault),
        }
    }

    /// Sets the bytes of a sector to zeros, as the device does. **One that is on the list is set, by a trim or a write of the device, whatever it reads as**: with no newer page it would be lost again as the disk is next opened.
    ///
    /// # Errors
    ///
    /// As `write_sector`.
    fn clear_sector(&mut self, sector: u64, buffer: &mut [u8]) -> Result<(), DiskFault>
        requires within { sector < S.count self.old.sectors }
        requires whole { length buffer.old ≡ S.size self.old.sectors }
        ensures size { S.size self.new.sectors ≡ S.size self.old.sectors }
        ensures count { S.count self.new.sectors ≡ S.count self.old.sectors }
        ensures performs { PerformsTask (guarded_contents S.contents S.size) (λ d. S.honest d.sectors) (λ _. false)
            (Task.Trim (sector * S.size self.old.sectors) (S.size self.old.sectors) false) [] self.old (answer_from result []) self.new }
        ensures spares { SparesZeros (guarded_contents S.contents S.size) (λ d. S.honest d.sectors) (ReadsGuarded S.reads) (sector * S.size self.old.sectors) (S.size self.old.sectors) self.old self.new }
        ensures changes { ChangesGuarded S.changes self.old result self.new }
        ensures trimmed { is_listed self.old sector ≡ true → ChangesGuarded (S.sets sector) self.old result self.new }
        ensures heals { OnOk result (HealsIfListed K.kept sector self.old self.new) }
        ensures kept { OnErr result (KeepsOrFails K.failed self.old self.new) }
        ensures over { self.old.failed ≡ true → IsRefusedUnasked self.old result self.new }
        ensures asked { self.old.failed ≡ false → is_listed self.old sector ≡ false →
            PerformsTask S.contents S.honest S.calm (Task.Trim (sector * S.size self.old.sectors) (S.size self.old.sectors) false) [] self.old.sectors (answer_from result []) self.new.sectors }
        ensures listed { self.old.failed ≡ false →
            PerformsTask S.contents S.honest S.calm (Task.Trim (sector * S.size self.old.sectors) (S.size self.old.sectors) false) [] self.old.sectors (answer_from result []) self.new.sectors
            ⊎ HasRisen (K.failed self.old.keeper) (K.failed self.new.keeper) }
    {
        if self.failed {
            return Err(DiskFault::Failed);
        }
        self.know();
        if self.is_listed(sector) {
            return self.trim_sector(sector);
        }
        match self.sectors.clear_sector(sector, buffer) {
            Ok(()) => self.heal(sector),
            Err(fault) => Err(fault),
        }
    }

    /// Flushes the device. The list stays.
    ///
    /// # Errors
    ///
    /// As the device, and `Failed` where a list was not kept.
    fn flush(&mut self) -> Result<(), DiskFault>
        ensures size { S.size self.new.sectors ≡ S.size self.old.sectors }
        ensures count { S.count self.new.sectors ≡ S.count self.old.sectors }
        ensures performs { PerformsTask (guarded_contents S.contents S.size) (λ d. S.honest d.sectors) (λ _. false) Task.Flush [] self.old (answer_from result []) self.new }
        ensures flushes { PassesOn S.flushes self.old result self.new }
        ensures asked { self.old.failed ≡ false → PerformsTask S.contents S.honest S.calm Task.Flush [] self.old.sectors (answer_from result []) self.new.sectors }
    {
        if self.failed {
            return Err(DiskFault::Failed);
        }
        self.sectors.flush()
    }

    /// Lets the device rest.
    ///
    /// # Errors
    ///
    /// As the device, and `Failed` where a list was not kept.
    fn rest(&mut self) -> Result<(), DiskFault> {
        if self.failed {
            return Err(DiskFault::Failed);
        }
        self.sectors.rest()
    }

    fn sector_bytes(&self) -> usize {
        self.sectors.sector_bytes()
    }

    fn sector_count(&self) -> u64 {
        self.sectors.sector_count()
    }

    fn next_sequence(&self) -> u64 {
        self.sectors.next_sequence()
    }

    fn takes_changes(&self) -> bool {
        self.sectors.takes_changes()
    }
}

impl<S: Lasting, K: KeepsLost> Lasting for GuardedSectors<S, K> {
    ghost use Rattle.std.specs.Prelude.{refl};

    ghost lasts = { λ d. refl };
}
