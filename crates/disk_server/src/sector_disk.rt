//! The disk.
ghost use Rattle.std.specs.Prelude.{◌≡◌, length, MatchResult};

use crate::ranges::{clear_range, read_range, write_range};
use crate::sectors::{Lasting, Sectors};
use crate::synced::{LastingDisk, Sequenced};
use nbd_stream::{Disk, DiskFault, Task};
use std::alloc::Global;
use std::marker::Model;

/// A disk of bytes over whole sectors: the device's contents, byte by byte. It holds one sector beside the device. To contracts it is the
/// device. (This project's.)
///
/// A request is done sector by sector, in rising order, up to the first that fails: each byte of the range then is as it was or as it was to be. A
/// part of a sector is read, changed and written, and a whole one that is to be zeros is trimmed; where it reads as zeros already nothing is asked but that read. What is to last is flushed after the last sector, and nothing else is. The first fault of a sector is told as it is.
#[derive(Drop)]
pub struct SectorDisk<S: Sectors> {
    sectors: S,
    buffer: Vec<u8>,
}

impl<S: Sectors> Model for SectorDisk<S> {
    ghost use Rattle.std.specs.Prelude.{◌≡◌, vec_len};

    ghost Value = { S };

    ghost view = { λ d. d.sectors };

    ghost invariant = { λ d. vec_len d.buffer ≡ S.size d.sectors };
}

impl<S: Sectors> SectorDisk<S> {
    /// A disk over a device. Nothing is asked of the device.
    ///
    /// # Errors
    ///
    /// The device comes back where there is no memory for a sector.
    pub fn new(alloc: Global, sectors: S) -> Result<SectorDisk<S>, S>
        ensures { MatchResult result (λ disk. disk ≡ sectors) (λ back. back ≡ sectors) }
    {
        match vec![in alloc; 0u8; sectors.sector_bytes()] {
            Ok(buffer) => Ok(SectorDisk { sectors, buffer }),
            Err(_) => Err(sectors),
        }
    }

    /// Bytes of the disk.
    pub fn bytes(&self) -> u64
        ensures { result ≡ length (S.contents self.now).bytes }
    {
        self.sectors.sector_count() * self.sectors.sector_bytes() as u64
    }

    /// Gives the device back.
    pub fn into_sectors(self) -> S
        ensures { result ≡ self }
    {
        let SectorDisk { sectors, buffer: _ } = self;
        sectors
    }
}

impl<S: Sectors> Disk for SectorDisk<S> {
    ghost use Rattle.std.specs.Prelude.{◌≤◌, ◌+◌, [], length};
    ghost use Rattle.nbd_stream.specs.Disk.{PerformsTask, answer_from};
    ghost use Rattle.nbd_stream.specs.Through.{Through};
    ghost use Rattle.disk_server.specs.Asked.{AsksSectors};

    ghost contents = { S.contents };

    ghost honest = { S.honest };

    ghost calm = { S.calm };

    // A task asks calls of sectors: a read reads of them, a flush one flush; and no change is asked of a sector that is to be cleared and reads as zeros.
    ghost does = { AsksSectors S.contents S.honest S.reads S.changes S.flushes };

    ghost rests = { S.rests };

    ghost leaves = { λ old new. Unit {0} };

    // Nothing is asked of the device but reads.
    fn read(&mut self, offset: u64, buffer: &mut [u8]) -> Result<(), DiskFault>
        requires { offset + length buffer.old ≤ length (S.contents self.old).bytes }
        ensures performs { PerformsTask S.contents S.honest S.calm (Task.Read offset (length buffer.old)) [] self.old (answer_from result buffer.new) self.new }
        ensures does { Through S.reads self.old self.new }
    {
        read_range(&mut self.sectors, &mut self.buffer, offset, buffer)
    }

    fn write(&mut self, offset: u64, bytes: &[u8], durable: bool) -> Result<(), DiskFault> {
        write_range(&mut self.sectors, &mut self.buffer, offset, bytes, durable)
    }

    fn clear(&mut self, offset: u64, count: u32, durable: bool) -> Result<(), DiskFault> {
        clear_range(
            &mut self.sectors,
            &mut self.buffer,
            offset,
            count as usize,
            durable,
        )
    }

    fn flush(&mut self) -> Result<(), DiskFault> {
        self.sectors.flush()
    }

    fn rest(&mut self) -> Result<(), DiskFault> {
        self.sectors.rest()
    }
}

impl<S: Sectors> Sequenced for SectorDisk<S> {
    ghost next = { S.next };

    ghost takes = { S.takes };

    fn next_sequence(&self) -> u64 {
        self.sectors.next_sequence()
    }

    fn takes_changes(&self) -> bool {
        self.sectors.takes_changes()
    }
}

impl<S: Lasting> LastingDisk for SectorDisk<S> {
    ghost lasts = { S.lasts };
}
