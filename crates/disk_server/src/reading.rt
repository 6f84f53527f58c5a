//! A disk that is only read.
ghost use Rattle.std.specs.Prelude.{◌≡◌, length, true};
ghost use Rattle.disk_server.specs.Reading.{AllLasts};

use crate::sector_disk::SectorDisk;
use crate::sectors::Sectors;
use nbd_stream::{Disk, DiskFault, Task};
use std::marker::Model;

/// A disk that is only read: what stands under it is asked for reads of its sectors, and for nothing else. A change answers `ReadOnly`; a flush is done, since all that is there
/// lasts, and so is a rest. To contracts it is the device. (This project's.)
#[derive(Drop)]
pub struct ReadOnlyDisk<S: Sectors> {
    disk: SectorDisk<S>,
}

impl<S: Sectors> Model for ReadOnlyDisk<S> {
    ghost use Rattle.std.specs.Prelude.{◌≡◌, true};
    ghost use Rattle.disk_server.specs.Reading.{AllLasts};

    ghost Value = { S };

    ghost view = { λ d. d.disk };

    ghost invariant = { λ d. S.honest d.disk ≡ true → AllLasts (S.contents d.disk) };
}

impl<S: Sectors> ReadOnlyDisk<S> {
    /// This disk, of which all bytes last, where it is honest. Nothing is asked of it.
    pub fn new(disk: SectorDisk<S>) -> ReadOnlyDisk<S>
        requires { S.honest disk ≡ true → AllLasts (S.contents disk) }
        ensures { result ≡ disk }
    {
        ReadOnlyDisk { disk }
    }

    /// Bytes of the disk.
    pub fn bytes(&self) -> u64
        ensures { result ≡ length (S.contents self.now).bytes }
    {
        self.disk.bytes()
    }
}

impl<S: Sectors> Disk for ReadOnlyDisk<S> {
    ghost use Rattle.std.specs.Prelude.{◌≡◌, ◌≤◌, ◌+◌, false, [], length, Ok, Err};
    ghost use Rattle.nbd_stream.specs.Disk.{PerformsTask, answer_from};
    ghost use Rattle.nbd_stream.specs.Through.{Through};
    ghost use Rattle.disk_server.specs.Reading.{OnlyAsksReads, RestsNever};

    ghost contents = { S.contents };

    ghost honest = { S.honest };

    ghost calm = { λ _. false };

    // A read asks reads of sectors, and nothing else asks anything.
    ghost does = { OnlyAsksReads S.reads };

    ghost rests = { RestsNever };

    // Reads of sectors, and nothing else.
    ghost leaves = { Through S.reads };

    fn read(&mut self, offset: u64, buffer: &mut [u8]) -> Result<(), DiskFault>
        requires { offset + length buffer.old ≤ length (S.contents self.old).bytes }
        ensures performs { PerformsTask S.contents S.honest (λ _. false) (Task.Read offset (length buffer.old)) [] self.old (answer_from result buffer.new) self.new }
        ensures asked { PerformsTask S.contents S.honest S.calm (Task.Read offset (length buffer.old)) [] self.old (answer_from result buffer.new) self.new }
        ensures leaves { Through S.reads self.old self.new }
        ensures does { Through S.reads self.old self.new }
    {
        self.disk.read(offset, buffer)
    }

    fn write(&mut self, offset: u64, bytes: &[u8], _durable: bool) -> Result<(), DiskFault>
        requires { offset + length bytes.now ≤ length (S.contents self.old).bytes }
        ensures performs { PerformsTask S.contents S.honest (λ _. false) (Task.Write offset (length bytes.now) _durable) bytes.now self.old (answer_from result []) self.new }
        ensures does { (result ≡ Err DiskFault.ReadOnly) × (self.new ≡ self.old) }
    {
        Err(DiskFault::ReadOnly)
    }

    fn clear(&mut self, offset: u64, count: u32, _durable: bool) -> Result<(), DiskFault>
        requires { offset + count ≤ length (S.contents self.old).bytes }
        ensures performs { PerformsTask S.contents S.honest (λ _. false) (Task.Trim offset count _durable) [] self.old (answer_from result []) self.new }
        ensures does { (result ≡ Err DiskFault.ReadOnly) × (self.new ≡ self.old) }
    {
        Err(DiskFault::ReadOnly)
    }

    fn flush(&mut self) -> Result<(), DiskFault>
        ensures performs { PerformsTask S.contents S.honest (λ _. false) Task.Flush [] self.old (answer_from result []) self.new }
        ensures leaves { Through S.reads self.old self.new }
        ensures does { (result ≡ Ok tt) × (self.new ≡ self.old) }
    {
        // (looked at for the proof alone, which opens the disk by it)
        let _disk = &self.disk;
        Ok(())
    }

    fn rest(&mut self) -> Result<(), DiskFault> {
        Ok(())
    }
}
