//! Devices that are flushed.
ghost use Rattle.std.specs.Prelude.{◌≡◌};
ghost use Rattle.ftl_device.specs.Device.{IsDevice};

use device_fixtures::again::Mounted;
use device_fixtures::bench::{formatted, started};
use device_fixtures::calls::Call::{Flush, Read, Write};
use device_fixtures::calls::hold_call;
use device_fixtures::cases::Cached::{Clean, Dirty};
use device_fixtures::cases::Step::Done;
use device_fixtures::cases::{Case, QUIET, hold_cases};
use device_fixtures::hold::hold_same;
use device_fixtures::pages::{NO, PageAt};
use device_fixtures::recorder::Operation::{Program, Programs, Read as ReadPage};
use ftl_device::{Device, DeviceFault};
use onfi_cycles::Nand;
use page_layout::geometry::Geometry;
use std::alloc::Global;
use std::test::Fail;

const NONE_BAD: [u8; 16] = [0; 16];

// Block 1 is grown bad.
const ONE_BAD: [u8; 16] = [0, 0, 0, 0, 2, 0, 0, 0, 0, 0, 0, 0, 0, 0, 0, 0];

// Sector 5 is in row 8.
const AT_8: &[u8] = &[NO, NO, NO, NO, NO, 8];

// The same in row 16.
const AT_16: &[u8] = &[NO, NO, NO, NO, NO, 16];

// The pages of a flush after the one write.
const FLUSHED: [PageAt; 4] = [
    PageAt::Sector(8, 5, 3, 0x5A),
    PageAt::Translation(2, 0, 4, AT_8),
    PageAt::Table(3, 0, 5, NONE_BAD),
    PageAt::Table(4, 1, 6, NONE_BAD),
];

static FLUSHES: [Case; 4] = [
    Case {
        name: "a flush of nothing writes the table",
        steps: &[Done(&[Flush])],
        free: 31,
        operations: &[Programs(2, 1, 2, 0xE0)],
        pages: &[
            PageAt::Table(2, 0, 3, NONE_BAD),
            PageAt::Table(3, 1, 4, NONE_BAD),
        ],
        ..QUIET
    },
    Case {
        name: "a flush writes back and then the table",
        steps: &[Done(&[Write(5, 0x5A), Flush])],
        cached: &[5],
        operations: &[Program(8, 0xE0), Programs(2, 1, 3, 0xE0)],
        pages: &FLUSHED,
        ..QUIET
    },
    // The die may be mounted at any capacity then.
    Case {
        name: "a cache of one after a flush",
        before: &[Done(&[Write(5, 0x5A), Flush])],
        capacity: 1,
        steps: &[Done(&[Read(5, 0x5A)])],
        cached: &[5],
        operations: &[ReadPage(2), ReadPage(8)],
        pages: &FLUSHED,
        ..QUIET
    },
    // A block that failed before is told by the table.
    Case {
        name: "a flush tells of a bad block",
        failing: &[1],
        steps: &[Done(&[Write(5, 0x5A), Flush])],
        bad: &[1],
        free: 29,
        cached: &[5],
        operations: &[Program(8, 0xE1), Program(16, 0xE0), Programs(2, 1, 3, 0xE0)],
        pages: &[
            PageAt::Sector(16, 5, 4, 0x5A),
            PageAt::Translation(2, 0, 5, AT_16),
            PageAt::Table(3, 0, 6, ONE_BAD),
            PageAt::Table(4, 1, 7, NONE_BAD),
        ],
        ..QUIET
    },
];

// Block 0 is grown bad, and here blocks 0 and 1 are.
const ZERO_BAD: [u8; 16] = [2, 0, 0, 0, 0, 0, 0, 0, 0, 0, 0, 0, 0, 0, 0, 0];

const TWO_BAD: [u8; 16] = [2, 0, 0, 0, 2, 0, 0, 0, 0, 0, 0, 0, 0, 0, 0, 0];

// The table pages are written again, all of them, until none has failed: the page that was tried says
// what was known as it was tried first.
static FAILURES: [Case; 3] = [
    Case {
        name: "one failure in a flush",
        failing: &[1],
        steps: &[Done(&[Flush])],
        bad: &[0],
        operations: &[Program(2, 0xE1), Programs(8, 1, 4, 0xE0)],
        pages: &[
            PageAt::Table(8, 0, 4, NONE_BAD),
            PageAt::Table(9, 1, 5, NONE_BAD),
            PageAt::Table(10, 0, 6, ZERO_BAD),
            PageAt::Table(11, 1, 7, NONE_BAD),
        ],
        mounted: Some(&Mounted {
            capacity: 1,
            next: 8,
            stale: 0,
            states: &[(0, 5, 0, 0, 0), (1, 2, 4, 2, 0)],
            calls: &[Flush],
        }),
        ..QUIET
    },
    // The second fails as the first page of the second round has been written.
    Case {
        name: "two failures in a flush",
        failing: &[2, 5],
        steps: &[Done(&[Flush])],
        bad: &[0, 1],
        free: 29,
        operations: &[
            Programs(2, 1, 1, 0xE0),
            Program(3, 0xE1),
            Programs(8, 1, 2, 0xE0),
            Program(10, 0xE1),
            Programs(16, 1, 3, 0xE0),
        ],
        pages: &[
            PageAt::Table(2, 0, 3, NONE_BAD),
            PageAt::Table(8, 1, 5, NONE_BAD),
            PageAt::Table(9, 0, 6, ZERO_BAD),
            PageAt::Table(16, 1, 8, NONE_BAD),
            PageAt::Table(17, 0, 9, TWO_BAD),
            PageAt::Table(18, 1, 10, NONE_BAD),
        ],
        mounted: Some(&Mounted {
            capacity: 1,
            next: 11,
            stale: 0,
            states: &[(0, 5, 0, 0, 0), (1, 5, 0, 0, 0), (2, 2, 3, 2, 0)],
            calls: &[Flush],
        }),
        ..QUIET
    },
    // The write-back before a write fails, and is tried in the next block with the next sequence. The
    // sector takes the one after.
    Case {
        name: "a write-back fails",
        failing: &[5],
        steps: &[Done(&[
            Write(0, 7),
            Write(1, 7),
            Write(2, 7),
            Write(3, 7),
            Write(16, 9),
        ])],
        bad: &[0],
        free: 29,
        cached: &[1, 2, 3, 16],
        order: &[Clean(1, 9), Clean(2, 10), Clean(3, 11), Dirty(16, 12)],
        operations: &[
            Programs(8, 1, 4, 0xE0),
            Program(2, 0xE1),
            Program(16, 0xE0),
            Program(12, 0xE0),
        ],
        pages: &[
            PageAt::Sector(8, 0, 3, 7),
            PageAt::Sector(9, 1, 4, 7),
            PageAt::Sector(10, 2, 5, 7),
            PageAt::Sector(11, 3, 6, 7),
            PageAt::Translation(16, 0, 8, WRITTEN_BACK),
            PageAt::Sector(12, 16, 9, 9),
        ],
        mounted: Some(&Mounted {
            capacity: 1,
            next: 10,
            stale: 1,
            states: &[(0, 3, 2, 2, 0), (1, 1, 5, 5, 0), (2, 2, 1, 1, 0)],
            calls: &[Read(0, 7), Read(3, 7), Read(16, 9)],
        }),
        ..QUIET
    },
];

const WRITTEN_BACK: &[u8] = &[8, 9, 10, 11];

#[test]
fn flushes_write_all(rt: HostRuntime) -> Result<(), Fail> {
    hold_cases(rt.alloc(), &FLUSHES)
}

#[test]
fn failures_are_told(rt: HostRuntime) -> Result<(), Fail> {
    hold_cases(rt.alloc(), &FAILURES)
}

// 212 writes of the one sector.
fn write_212<N: Nand>(device: &mut Device<N>) -> Result<(), Fail>
    requires { IsDevice N.view.flash device.old }
    ensures { IsDevice N.view.flash device.new }
{
    for nth in 0..212u8 {
        hold_call(device, "212 writes", Write(0, nth), Ok(()))?;
    }
    Ok(())
}

const NO_LONGER: DeviceFault = DeviceFault::ReadOnly {
    good: 62,
    need: 13,
    failed: 0,
};

// What a device shows: the next sequence, its free and its good blocks, and whether it only reads.
fn shown_by<N: Nand>(device: &Device<N>) -> (u64, u32, u32, bool) {
    let blocks = &device.engine.blocks;
    (
        device.engine.next,
        blocks.free(),
        blocks.good(),
        device.read_only(),
    )
}

// Ten blocks are free as the flush begins, and its fifth and tenth program fail: the table pages are
// written three times and open five blocks, one for the write-back before them. It is done, four
// blocks are free, and the device only reads from then on.
fn end_the_writing<N: Nand>(device: &mut Device<N>) -> Result<(), Fail>
    requires { IsDevice N.view.flash device.old }
{
    write_212(device)?;
    hold_call(device, "two failures", Flush, Ok(()))?;
    let shown = shown_by(device);
    hold_same("two failures", "shown", &shown, &(232, 4, 62, true))?;
    hold_call(device, "four free", Write(0, 1), Err(NO_LONGER))
}

// The device with a cache of one on this die ends so.
fn hold_end<N: Nand + Drop>(alloc: Global, nand: N, geometry: &Geometry) -> Result<(), Fail>
    requires { (N.view.flash nand).geometry ≡ geometry.now }
{
    let mut device = started(alloc, nand, geometry, 1)?;
    let came = end_the_writing(&mut device);
    device.into_nand();
    came
}

#[test]
fn two_failures_in_a_flush_end_the_writing(rt: HostRuntime) -> Result<(), Fail> {
    let geometry = Geometry::new(64, 32, 4, 64, 1)?;
    let driver = formatted(rt.alloc(), geometry, &[217, 222], 0)?;
    hold_end(rt.alloc(), driver, &geometry)
}
