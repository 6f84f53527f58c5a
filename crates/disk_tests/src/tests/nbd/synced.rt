//! When a disk is synced: pieces of four bytes, of which two may be changed between two syncs. The calls of its device stand for sequences.
ghost use Rattle.std.specs.Prelude.{◌≡◌, length};

use crate::tests::device::disks::over;
use crate::tests::steps::{Step, does_all};
use crate::tests::{hold_at, hold_true};
use disk_server::{Lasting, SectorDisk, Sectors, SyncMark, SyncPace, SyncedDisk, Syncs};
use nbd_stream::DiskFault;
use std::alloc::Global;
use std::cell::Cell;
use std::process::Abort;

const SIZE: u64 = 16;

const SECTOR: usize = 4;

// Four sectors of four bytes, of which none is kept back. What they are asked is counted.
#[derive(Drop)]
struct PlainSectors {
    bytes: [u8; 16],
    asked: u64,
}

impl PlainSectors {
    // Zeros.
    fn zeros() -> PlainSectors
        ensures { length result.bytes ≡ 16 }
    {
        PlainSectors {
            bytes: [0; 16],
            asked: 0,
        }
    }
}

impl Sectors for PlainSectors {
    ghost use Rattle.std.specs.Prelude.{◌≡◌, true, false};

    ghost contents = { λ device. record { bytes = device.bytes; durable = device.bytes } };

    ghost honest = { λ device. true };

    ghost calm = { λ device. false };

    ghost rests = { λ old result new. new.bytes ≡ old.bytes };

    ghost reads = { λ old new. Unit {0} };

    ghost changes = { λ old result new. Unit {0} };

    ghost sets = { λ sector old result new. Unit {0} };

    ghost flushes = { λ old result new. new.bytes ≡ old.bytes };

    ghost size = { λ device. 4 };

    ghost count = { λ device. 4 };

    ghost next = { λ device. device.asked };

    ghost takes = { λ device. true };

    fn read_sector(&mut self, sector: u64, buffer: &mut [u8]) -> Result<(), DiskFault> {
        self.asked = self.asked.saturating_add(1);
        let start = sector as usize * SECTOR;
        buffer.copy_from_slice(&self.bytes[start..start + SECTOR]);
        Ok(())
    }

    fn write_sector(&mut self, sector: u64, bytes: &[u8]) -> Result<(), DiskFault> {
        self.asked = self.asked.saturating_add(1);
        let start = sector as usize * SECTOR;
        self.bytes[start..start + SECTOR].copy_from_slice(bytes);
        Ok(())
    }

    fn trim_sector(&mut self, sector: u64) -> Result<(), DiskFault> {
        self.asked = self.asked.saturating_add(1);
        let start = sector as usize * SECTOR;
        self.bytes[start..start + SECTOR].fill(0);
        Ok(())
    }

    fn clear_sector(&mut self, sector: u64, _buffer: &mut [u8]) -> Result<(), DiskFault> {
        self.trim_sector(sector)
    }

    fn flush(&mut self) -> Result<(), DiskFault> {
        self.asked = self.asked.saturating_add(1);
        Ok(())
    }

    fn rest(&mut self) -> Result<(), DiskFault> {
        self.asked = self.asked.saturating_add(1);
        Ok(())
    }

    fn sector_bytes(&self) -> usize {
        SECTOR
    }

    fn sector_count(&self) -> u64 {
        4
    }

    fn next_sequence(&self) -> u64 {
        self.asked
    }

    fn takes_changes(&self) -> bool {
        true
    }
}

impl Lasting for PlainSectors {
    ghost use Rattle.std.specs.Prelude.{refl};

    ghost lasts = { λ device. refl };
}

const PACE: SyncPace = SyncPace { piece: 4, most: 2 };

// Syncs that are counted, the failed ones too. The one of this number fails, from 1; 0 for none.
#[derive(Drop)]
struct CountingSyncs<'a> {
    asked: &'a Cell<u64>,
    told: &'a Cell<SyncMark>,
    mark: SyncMark,
    done: u64,
    failed: u64,
    failing: u64,
}

impl Syncs for CountingSyncs<'_> {
    ghost synced = { λ s. s.done };

    ghost failed = { λ s. s.failed };

    ghost marked = { λ s. s.mark };

    fn sync(&mut self, next: u64, flushed: bool) -> Result<(), DiskFault> {
        let asked = self.asked.get().saturating_add(1);
        self.asked.set(asked);
        if asked == self.failing {
            self.failed = self.failed.saturating_add(1);
            return Err(DiskFault::Failed);
        }
        self.done = self.done.saturating_add(1);
        self.mark = self.mark.after_sync(next, flushed);
        self.told.set(self.mark);
        Ok(())
    }

    fn mark(&self) -> SyncMark {
        self.mark
    }
}

// What a disk of zeros is asked, and how many syncs it asks for.
struct Row {
    name: &'static str,
    failing: u64,
    steps: &'static [Step],
    syncs: u64,
    // the two numbers of the last mark
    mark: (u64, u64),
}

static ROWS: &[Row] = &[
    Row {
        name: "no more than two pieces",
        failing: 0,
        steps: &[
            Step::Write(0, b"abcd", false, Ok(())),
            Step::Write(5, b"XY", false, Ok(())),
            Step::Rest(Ok(())),
            Step::Read(0, b"abcd\0XY\0", Ok(())),
        ],
        syncs: 0,
        mark: (0, 0),
    },
    Row {
        name: "a third one, which a range touches with a byte",
        failing: 0,
        steps: &[
            Step::Write(3, b"abcdef", false, Ok(())),
            Step::Write(0, b"abcd", false, Ok(())),
            Step::Clear(4, 4, false, Ok(())),
        ],
        syncs: 1,
        mark: (5, 0),
    },
    Row {
        name: "three pieces that are cleared, and a fourth",
        failing: 0,
        steps: &[
            Step::Clear(0, 12, false, Ok(())),
            Step::Clear(12, 4, false, Ok(())),
        ],
        syncs: 1,
        mark: (3, 0),
    },
    Row {
        name: "a flush and what is to last count anew",
        failing: 0,
        steps: &[
            Step::Write(0, b"abcdefgh", false, Ok(())),
            Step::Flush(Ok(())),
            Step::Clear(0, 8, false, Ok(())),
            Step::Write(0, b"a", true, Ok(())),
            Step::Clear(8, 8, true, Ok(())),
            Step::Write(15, b"z", false, Ok(())),
        ],
        syncs: 3,
        mark: (8, 0),
    },
    Row {
        name: "a sync that fails, after which nothing is done",
        failing: 1,
        steps: &[
            Step::Write(0, b"abcdefghijkl", false, Err(DiskFault::Failed)),
            Step::Flush(Err(DiskFault::Failed)),
            Step::Read(0, b"a", Err(DiskFault::Failed)),
            Step::Write(0, b"a", true, Err(DiskFault::Failed)),
            Step::Clear(0, 1, false, Err(DiskFault::Failed)),
            Step::Rest(Err(DiskFault::Failed)),
            Step::Flush(Err(DiskFault::Failed)),
        ],
        syncs: 1,
        mark: (0, 0),
    },
    Row {
        name: "a sync that fails among parts, after one that was done",
        failing: 2,
        steps: &[
            Step::Write(0, b"abcd", true, Ok(())),
            Step::Clear(0, 16, true, Err(DiskFault::Failed)),
            Step::Read(0, b"a", Err(DiskFault::Failed)),
            Step::Flush(Err(DiskFault::Failed)),
        ],
        syncs: 2,
        mark: (1, 0),
    },
];

type CountedDisk<'a> = SyncedDisk<SectorDisk<PlainSectors>, CountingSyncs<'a>>;

// Nothing was synced.
const UNSYNCED: SyncMark = SyncMark {
    synced: 0,
    flushed: 0,
};

// A disk of zeros of which a sync fails, the one of this number, from 1; 0 for none.
fn counted_disk<'a>(
    rt: &impl Abort,
    alloc: Global,
    asked: &'a Cell<u64>,
    told: &'a Cell<SyncMark>,
    failing: u64,
) -> CountedDisk<'a> {
    let syncs = CountingSyncs {
        asked,
        told,
        mark: UNSYNCED,
        done: 0,
        failed: 0,
        failing,
    };
    SyncedDisk::new(over(rt, alloc, PlainSectors::zeros()), syncs, PACE)
}

// Whether a disk does all of these steps.
fn does_each(disk: &mut CountedDisk<'_>, steps: &[Step]) -> bool {
    disk.disk().bytes() == SIZE && does_all(disk, SIZE, steps)
}

// What was told of syncs: how many were asked for, and the two numbers of the last mark.
fn told_of(asked: &Cell<u64>, told: &Cell<SyncMark>) -> (u64, u64, u64) {
    let last = told.get();
    (asked.get(), last.synced, last.flushed)
}

// Whether a disk of zeros does all of a row, and asks for so many syncs, the last one with this mark.
fn holds(rt: &impl Abort, alloc: Global, row: &Row) -> bool {
    let asked = Cell::new(0);
    let told = Cell::new(UNSYNCED);
    let mut disk = counted_disk(rt, alloc, &asked, &told, row.failing);
    let did = does_each(&mut disk, row.steps);
    did && told_of(&asked, &told) == (row.syncs, row.mark.0, row.mark.1)
}

#[test]
fn syncs_between_flushes(rt: HostRuntime) {
    for row in ROWS {
        let holds = holds(&rt, rt.alloc(), row);
        hold_true(&rt, holds, row.name);
    }
}

static FOUR_BYTES: &[Step] = &[Step::Write(0, b"abcd", true, Ok(()))];

// Closes a disk so often, and tells whether it was closed each time.
fn closes(disk: &mut CountedDisk<'_>, times: u64, counts: bool) -> bool {
    let mut all = true;
    for _ in 0..times {
        all = disk.close(counts).is_ok() && all;
    }
    all
}

// Whether a disk that was written with four bytes is marked so once it is closed so often, by whether its mark counts.
fn closes_so(
    rt: &impl Abort,
    alloc: Global,
    times: u64,
    counts: bool,
    marked: (u64, u64, u64),
) -> bool {
    let asked = Cell::new(0);
    let told = Cell::new(UNSYNCED);
    let mut disk = counted_disk(rt, alloc, &asked, &told, 0);
    let closed = does_each(&mut disk, FOUR_BYTES) && closes(&mut disk, times, counts);
    closed && told_of(&asked, &told) == marked
}

// How often a disk is closed, whether its mark counts, and what it is marked with: a write is marked as synced; a disk that is closed is flushed, and marked so, once where its mark counts, and else
// each time.
static CLOSES: &[(u64, bool, (u64, u64, u64))] = &[
    (0, true, (1, 1, 0)),
    (1, true, (2, 2, 2)),
    (2, true, (2, 2, 2)),
    (2, false, (3, 3, 3)),
];

#[test]
fn closes_once(rt: HostRuntime) {
    for (row, (times, counts, marked)) in CLOSES.iter().enumerate() {
        let holds = closes_so(&rt, rt.alloc(), *times, *counts, *marked);
        hold_at(&rt, holds, row);
    }
}
