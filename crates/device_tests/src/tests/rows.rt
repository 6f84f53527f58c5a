//! Sectors that are written, read and trimmed where nothing fails.
use device_fixtures::calls::Call;
use device_fixtures::calls::Call::{Read, Trim, Write};
use device_fixtures::cases::Cached::{Clean, Dirty};
use device_fixtures::cases::Step::{Done, Refused};
use device_fixtures::cases::{Case, QUIET, hold_cases};
use device_fixtures::hold::hold_same;
use device_fixtures::pages::PageAt;
use device_fixtures::recorder::Operation::{Program, Programs, Read as ReadPage};
use device_fixtures::recorder::{Cycle, Operation, cycles_of};
use ftl_device::DeviceFault;
use std::test::Fail;

// The cycles of Reset and of a program of row 8 that passed.
static SPELLED: [Cycle; 12] = [
    Cycle::Command(0xFF),
    Cycle::Command(0x80),
    Cycle::Address(0x00),
    Cycle::Address(0x00),
    Cycle::Address(0x08),
    Cycle::Address(0x00),
    Cycle::Address(0x00),
    Cycle::In(64),
    Cycle::In(32),
    Cycle::Command(0x10),
    Cycle::Command(0x70),
    Cycle::Byte(0xE0),
];

#[test]
fn program_is_spelled(rt: HostRuntime) -> Result<(), Fail> {
    let cycles = cycles_of(rt.alloc(), &[Operation::Program(8, 0xE0)])?;
    hold_same(
        "a program",
        "cycles",
        &cycles.as_slice(),
        &SPELLED.as_slice(),
    )
}

// The spare bytes before the seal: the mark, version and kind, the sector, the sequence, the erases
// of the block, and bytes that no record uses.
const FIRST_SPARE: [u8; 24] = [
    0xFF, 0xFF, 0x01, 0x01, 0x05, 0x00, 0x00, 0x00, 0x03, 0x00, 0x00, 0x00, 0x00, 0x00, 0x00, 0x00,
    0x00, 0x00, 0x00, 0x00, 0xFF, 0xFF, 0xFF, 0xFF,
];

static SECTORS: [Case; 3] = [
    Case {
        name: "a write is one program",
        steps: &[Done(&[Write(5, 0x5A)])],
        cached: &[5],
        operations: &[Program(8, 0xE0)],
        pages: &[PageAt::Sector(8, 5, 3, 0x5A)],
        spare: &FIRST_SPARE,
        ..QUIET
    },
    // A sector that was never written is read without the die.
    Case {
        name: "a trim is one program",
        steps: &[
            Done(&[Write(5, 0x5A), Read(5, 0x5A), Read(6, 0)]),
            Done(&[Trim(5), Read(5, 0), Read(6, 0)]),
        ],
        cached: &[5, 6],
        operations: &[Program(8, 0xE0), ReadPage(8), Program(9, 0xE0), ReadPage(9)],
        pages: &[PageAt::Sector(8, 5, 3, 0x5A), PageAt::Trim(9, 5, 4)],
        ..QUIET
    },
    Case {
        name: "no such sector asks nothing",
        steps: &[Refused(
            DeviceFault::OutOfRange,
            &[Write(32, 1), Read(32, 0), Trim(32), Trim(u32::MAX)],
        )],
        free: 31,
        ..QUIET
    },
];

#[test]
fn sectors_are_kept(rt: HostRuntime) -> Result<(), Fail> {
    hold_cases(rt.alloc(), &SECTORS)
}

const FOUR: [Call; 4] = [Write(0, 7), Write(1, 7), Write(2, 7), Write(3, 7)];

const FOUR_PAGES: [PageAt; 4] = [
    PageAt::Sector(8, 0, 3, 7),
    PageAt::Sector(9, 1, 4, 7),
    PageAt::Sector(10, 2, 5, 7),
    PageAt::Sector(11, 3, 6, 7),
];

const FOUR_ENTRIES: &[u8] = &[8, 9, 10, 11];

// The pages of sectors 0 to 3 and then 16, before which the four were written back: a translation page
// with entries 0 to 3, the rows 8 to 11, and no other.
const SIX_PAGES: [PageAt; 6] = [
    PageAt::Sector(8, 0, 3, 7),
    PageAt::Sector(9, 1, 4, 7),
    PageAt::Sector(10, 2, 5, 7),
    PageAt::Sector(11, 3, 6, 7),
    PageAt::Translation(2, 0, 7, FOUR_ENTRIES),
    PageAt::Sector(12, 16, 8, 9),
];

static CACHES: [Case; 4] = [
    // The cache of four has four dirty sectors, so the fifth has their translation page written first.
    Case {
        name: "a dirty sector is written back",
        steps: &[Done(&FOUR), Done(&[Write(16, 9)])],
        cached: &[16, 3, 2, 1],
        operations: &[Programs(8, 1, 4, 0xE0), Program(2, 0xE0), Program(12, 0xE0)],
        pages: &SIX_PAGES,
        ..QUIET
    },
    // A read of a sector that isn't cached leaves the dirty ones there, and asks the die for nothing.
    Case {
        name: "a full cache of dirty sectors stays",
        steps: &[Done(&FOUR), Done(&[Read(16, 0)])],
        cached: &[0, 1, 2, 3],
        order: &[Dirty(0, 8), Dirty(1, 9), Dirty(2, 10), Dirty(3, 11)],
        operations: &[Programs(8, 1, 4, 0xE0)],
        pages: &FOUR_PAGES,
        ..QUIET
    },
    // A read of a cached one counts as its use.
    Case {
        name: "the cache is ordered by use",
        steps: &[Done(&FOUR), Done(&[Read(16, 0), Read(0, 7), Write(16, 9)])],
        cached: &[16, 0, 3, 2],
        order: &[Clean(2, 10), Clean(3, 11), Clean(0, 8), Dirty(16, 12)],
        operations: &[
            Programs(8, 1, 4, 0xE0),
            ReadPage(8),
            Program(2, 0xE0),
            Program(12, 0xE0),
        ],
        pages: &SIX_PAGES,
        ..QUIET
    },
    // Where the cache has room a sector that was read stays there: its next read asks for no translation
    // page, and one of a sector without a page for none at all.
    Case {
        name: "a sector that was read is cached",
        before: &[Done(&[
            Write(0, 7),
            Write(1, 7),
            Write(2, 7),
            Write(3, 7),
            Write(16, 9),
        ])],
        steps: &[
            Done(&[Read(3, 7), Read(3, 7), Read(6, 0)]),
            Done(&[Read(6, 0), Read(3, 7)]),
        ],
        cached: &[16, 3, 6],
        operations: &[
            ReadPage(2),
            ReadPage(11),
            ReadPage(11),
            ReadPage(2),
            ReadPage(11),
        ],
        pages: &SIX_PAGES,
        ..QUIET
    },
];

#[test]
fn sectors_are_cached(rt: HostRuntime) -> Result<(), Fail> {
    hold_cases(rt.alloc(), &CACHES)
}
