//! Disks over four sectors of four bytes, which are kept back until a flush.
ghost use Rattle.std.specs.Prelude.{◌≡◌, length};
ghost use Rattle.disk_server.specs.Reading.{AllLasts};

use crate::tests::steps::{Step, does_all, does_each};
use crate::tests::{hold_at, hold_true};
use disk_server::{ReadOnlyDisk, SectorDisk, Sectors};
use nbd_stream::{Disk, DiskFault};
use std::alloc::Global;
use std::process::Abort;

const SIZE: usize = 16;

const SECTOR: usize = 4;

// A device that holds what it is given, and fails its call of this number, from 1; 0 for none. A sector that is to be written then is as it was.
#[derive(Drop)]
struct CachedSectors {
    bytes: [u8; SIZE],
    kept: [u8; SIZE],
    failing: usize,
    fault: DiskFault,
    asked: usize,
}

impl CachedSectors {
    // Counts a call, and tells whether it fails.
    fn fails(&mut self) -> bool
        ensures bytes { self.new.bytes ≡ self.old.bytes }
        ensures kept { self.new.kept ≡ self.old.kept }
    {
        self.asked = self.asked.saturating_add(1);
        self.failing == self.asked
    }
}

impl Sectors for CachedSectors {
    ghost use Rattle.std.specs.Prelude.{◌≡◌, true, false};

    ghost contents = { λ device. record { bytes = device.bytes; durable = device.kept } };

    ghost honest = { λ device. true };

    ghost calm = { λ device. false };

    ghost rests = { λ old result new. new.bytes ≡ old.bytes };

    ghost reads = { λ old new. Unit {0} };

    ghost changes = { λ old result new. Unit {0} };

    ghost sets = { λ sector old result new. Unit {0} };

    ghost flushes = { λ old result new. new.bytes ≡ old.bytes };

    ghost size = { λ device. 4 };

    ghost count = { λ device. 4 };

    // How often it was asked stands for a sequence.
    ghost next = { λ device. device.asked };

    ghost takes = { λ device. true };

    fn read_sector(&mut self, sector: u64, buffer: &mut [u8]) -> Result<(), DiskFault> {
        if self.fails() {
            return Err(DiskFault::Failed);
        }
        let start = sector as usize * SECTOR;
        buffer.copy_from_slice(&self.bytes[start..start + SECTOR]);
        Ok(())
    }

    fn write_sector(&mut self, sector: u64, bytes: &[u8]) -> Result<(), DiskFault> {
        if self.fails() {
            return Err(self.fault);
        }
        let start = sector as usize * SECTOR;
        self.bytes[start..start + SECTOR].copy_from_slice(bytes);
        Ok(())
    }

    fn trim_sector(&mut self, sector: u64) -> Result<(), DiskFault> {
        if self.fails() {
            return Err(self.fault);
        }
        let start = sector as usize * SECTOR;
        self.bytes[start..start + SECTOR].fill(0);
        Ok(())
    }

    // Zeros are set to zeros too.
    fn clear_sector(&mut self, sector: u64, _buffer: &mut [u8]) -> Result<(), DiskFault> {
        self.trim_sector(sector)
    }

    fn flush(&mut self) -> Result<(), DiskFault> {
        if self.fails() {
            return Err(DiskFault::Failed);
        }
        self.kept = self.bytes;
        Ok(())
    }

    // What was kept back is written out.
    fn rest(&mut self) -> Result<(), DiskFault> {
        if self.fails() {
            return Err(DiskFault::Failed);
        }
        self.kept = self.bytes;
        Ok(())
    }

    fn sector_bytes(&self) -> usize {
        SECTOR
    }

    fn sector_count(&self) -> u64 {
        4
    }

    fn next_sequence(&self) -> u64 {
        self.asked as u64
    }

    fn takes_changes(&self) -> bool {
        true
    }
}

// The steps, and what is left: what stands, and what lasts.
struct Row {
    name: &'static str,
    // The call of the device that fails, from 1; 0 for none.
    failing: usize,
    fault: DiskFault,
    steps: &'static [Step],
    bytes: &'static [u8; SIZE],
    kept: &'static [u8; SIZE],
}

const FIRST: &[u8; SIZE] = b"abcdefghijklmnop";

static OTHERS: &[u8; SIZE] = b"ABCDEFGHIJKLMNOP";

const QUIET: Row = Row {
    name: "",
    failing: 0,
    fault: DiskFault::Failed,
    steps: &[],
    bytes: FIRST,
    kept: FIRST,
};

static ROWS: &[Row] = &[
    Row {
        name: "a part of one sector",
        steps: &[
            Step::Write(5, b"XY", false, Ok(())),
            Step::Read(4, b"eXYh", Ok(())),
            Step::Read(3, b"deXYhi", Ok(())),
        ],
        bytes: b"abcdeXYhijklmnop",
        ..QUIET
    },
    Row {
        name: "two parts and a whole sector, and a flush",
        steps: &[
            Step::Write(2, b"ABCDEFGH", false, Ok(())),
            Step::Read(0, b"abABCDEFGHklmnop", Ok(())),
            Step::Flush(Ok(())),
            Step::Write(15, b"Z", false, Ok(())),
        ],
        bytes: b"abABCDEFGHklmnoZ",
        kept: b"abABCDEFGHklmnop",
        ..QUIET
    },
    Row {
        name: "changes that are to last",
        steps: &[
            Step::Write(3, b"XYZ", true, Ok(())),
            Step::Clear(7, 6, true, Ok(())),
        ],
        bytes: b"abcXYZg\0\0\0\0\0\0nop",
        kept: b"abcXYZg\0\0\0\0\0\0nop",
        ..QUIET
    },
    Row {
        name: "a rest, and one that fails",
        failing: 4,
        steps: &[
            Step::Write(4, b"WXYZ", false, Ok(())),
            Step::Rest(Ok(())),
            Step::Write(8, b"wxyz", false, Ok(())),
            Step::Rest(Err(DiskFault::Failed)),
            Step::Read(0, b"abcdWXYZwxyzmnop", Ok(())),
        ],
        bytes: b"abcdWXYZwxyzmnop",
        kept: b"abcdWXYZijklmnop",
        ..QUIET
    },
    Row {
        name: "no byte",
        steps: &[
            Step::Write(16, b"", false, Ok(())),
            Step::Read(7, b"", Ok(())),
            Step::Clear(3, 0, false, Ok(())),
        ],
        ..QUIET
    },
    Row {
        name: "no room for the second sector of a write",
        failing: 3,
        fault: DiskFault::NoSpace,
        steps: &[
            Step::Write(2, b"ABCDEFGH", false, Err(DiskFault::NoSpace)),
            Step::Read(0, b"abABefghijkl", Ok(())),
        ],
        bytes: b"abABefghijklmnop",
        ..QUIET
    },
    Row {
        name: "the last sector of a write is not read",
        failing: 4,
        fault: DiskFault::ReadOnly,
        steps: &[
            Step::Write(2, b"ABCDEFGH", true, Err(DiskFault::Failed)),
            Step::Flush(Ok(())),
        ],
        bytes: b"abABCDEFijklmnop",
        kept: b"abABCDEFijklmnop",
        ..QUIET
    },
    Row {
        name: "a whole sector is not trimmed",
        failing: 3,
        fault: DiskFault::ReadOnly,
        steps: &[Step::Clear(3, 13, false, Err(DiskFault::ReadOnly))],
        bytes: b"abc\0efghijklmnop",
        ..QUIET
    },
    Row {
        name: "a change that does not last",
        failing: 3,
        steps: &[Step::Write(0, b"Z", true, Err(DiskFault::Failed))],
        bytes: b"Zbcdefghijklmnop",
        ..QUIET
    },
    Row {
        name: "a read that fails in the middle",
        failing: 2,
        steps: &[
            Step::Read(2, b"cdefgh", Err(DiskFault::Failed)),
            Step::Read(2, b"cdefgh", Ok(())),
        ],
        ..QUIET
    },
];

// A disk of the first bytes, which all last, over a device that fails so.
fn disk_of(
    rt: &impl Abort,
    alloc: Global,
    failing: usize,
    fault: DiskFault,
) -> SectorDisk<CachedSectors>
    ensures { AllLasts (record { bytes = result.bytes; durable = result.kept }) }
{
    let device = CachedSectors {
        bytes: *FIRST,
        kept: *FIRST,
        failing,
        fault,
        asked: 0,
    };
    match SectorDisk::new(alloc, device) {
        Ok(disk) => disk,
        Err(_) => panic!(rt; "no memory"),
    }
}

fn is_left(device: &CachedSectors, row: &Row) -> bool {
    device.bytes == *row.bytes && device.kept == *row.kept
}

// Whether a disk does all of a row, and has left its device so.
fn holds(rt: &impl Abort, alloc: Global, row: &Row) -> bool {
    let mut disk = disk_of(rt, alloc, row.failing, row.fault);
    let all = does_each(&mut disk, SIZE as u64, row.steps);
    is_left(&disk.into_sectors(), row) && all
}

#[test]
fn sectors_by_hand(rt: HostRuntime) {
    for row in ROWS {
        let holds = holds(&rt, rt.alloc(), row);
        hold_true(&rt, holds, row.name);
    }
}

// What a disk that is only read is asked, over a device that fails its second call: the first one is a read, and a flush, a rest and a change are none.
static READING: &[Step] = &[
    Step::Flush(Ok(())),
    Step::Read(4, b"efgh", Ok(())),
    Step::Write(0, b"Z", true, Err(DiskFault::ReadOnly)),
    Step::Clear(0, 4, false, Err(DiskFault::ReadOnly)),
    Step::Flush(Ok(())),
    Step::Rest(Ok(())),
    Step::Read(0, b"abcd", Err(DiskFault::Failed)),
    Step::Flush(Ok(())),
    Step::Read(0, b"abcd", Ok(())),
];

// Whether a disk that is only read does all of that.
fn only_reads<S: Sectors>(disk: &mut ReadOnlyDisk<S>) -> bool {
    let size = SIZE as u64;
    disk.bytes() == size && does_all(disk, size, READING)
}

#[test]
fn disks_that_are_only_read(rt: HostRuntime) {
    let mut disk = ReadOnlyDisk::new(disk_of(&rt, rt.alloc(), 2, DiskFault::NoSpace));
    hold_true(&rt, only_reads(&mut disk), "only read");
}

// Sets a range of the disk and of a list of bytes, clears the first half of it in both, and tells whether they are the same then.
fn set_both<D: Disk>(disk: &mut D, plain: &mut [u8; SIZE], start: usize, bytes: &[u8]) -> bool
    requires { length (D.contents disk.old).bytes ≡ 16 }
{
    if start > SIZE || bytes.len() > SIZE - start {
        return false;
    }
    let half = bytes.len() / 2;
    let written = disk.write(start as u64, bytes, false).is_ok();
    let cleared = disk.clear(start as u64, half as u32, false).is_ok();
    plain[start..start + bytes.len()].copy_from_slice(bytes);
    plain[start..start + half].fill(0);
    let mut all = [0; SIZE];
    let given = disk.read(0, &mut all).is_ok();
    written && cleared && given && all == *plain
}

// Whether each range of a disk that starts so is set and cleared as in a list of bytes.
fn ranges_hold<S: Sectors>(disk: &mut SectorDisk<S>, plain: &mut [u8; SIZE], start: usize) -> bool {
    let mut holds = true;
    for end in start..=SIZE {
        let letters = if (end - start) % 2 == 0 {
            OTHERS
        } else {
            FIRST
        };
        holds = disk.bytes() == 16 && set_both(disk, plain, start, &letters[start..end]) && holds;
    }
    holds
}

#[test]
fn every_range(rt: HostRuntime) {
    let mut disk = disk_of(&rt, rt.alloc(), 0, DiskFault::Failed);
    let mut plain = *FIRST;
    for start in 0..SIZE {
        let holds = ranges_hold(&mut disk, &mut plain, start);
        hold_at(&rt, holds, start);
    }
}
