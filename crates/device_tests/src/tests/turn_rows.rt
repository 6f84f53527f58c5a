//! Blocks that are collected from turn to turn.
ghost use Rattle.std.specs.Prelude.{◌≡◌};
ghost use Rattle.ftl_device.specs.Device.{IsDevice};

use device_fixtures::again::Mounted;
use device_fixtures::bench::{formatted_die, small, started};
use device_fixtures::calls::Call::{self, Flush, Read, Turn, Write};
use device_fixtures::calls::hold_call;
use device_fixtures::cases::Step::{self, Done, Spread};
use device_fixtures::cases::{Case, QUIET, Told, erases_of, hold_cases};
use device_fixtures::hold::hold_same;
use device_fixtures::recorder::Operation::{Erase, Program, Programs};
use ftl_device::Device;
use onfi_cycles::Nand;
use page_layout::geometry::Geometry;
use std::alloc::Global;
use std::test::Fail;

// Eleven blocks are free then, and block 1 has one live page: sector 0, in row 8.
const FLUSHED: [Step; 2] = [Spread(19, 31, 7), Done(&[Write(19, 20), Flush])];

// A turn more.
const MIDDLE: [Step; 2] = [Spread(19, 31, 7), Done(&[Write(19, 20), Flush, Turn])];

// What they hold.
const HELD: [Call; 6] = [
    Read(0, 1),
    Read(1, 2),
    Read(18, 19),
    Read(19, 20),
    Read(20, 0),
    Read(31, 6),
];

const ALL_CACHED: Case = Case {
    capacity: 32,
    free: 11,
    cached: &[
        0, 1, 2, 3, 4, 5, 6, 7, 8, 9, 10, 11, 12, 13, 14, 15, 16, 17, 18, 19, 31,
    ],
    told: Told::ChangesAlone,
    ..QUIET
};

// Two turns collect block 1, and the third asks the die for nothing.
static CACHED: [Case; 3] = [
    Case {
        name: "a turn pins a block and copies its page",
        steps: &[Spread(19, 31, 7), Done(&[Write(19, 20), Turn])],
        operations: &[Programs(8, 1, 154, 0xE0)],
        mounted: Some(&Mounted {
            capacity: 32,
            next: 157,
            stale: 21,
            states: &[(1, 3, 8, 0, 0), (2, 3, 8, 1, 0), (20, 1, 2, 2, 0)],
            calls: &HELD,
        }),
        ..ALL_CACHED
    },
    Case {
        name: "the next turn erases it",
        steps: &[Spread(19, 31, 7), Done(&[Write(19, 20), Turn, Turn])],
        free: 12,
        worn: &[(1, 1)],
        operations: &[Programs(8, 1, 154, 0xE0), Erase(8, 0xE0)],
        ..ALL_CACHED
    },
    Case {
        name: "a turn with twelve free blocks does nothing",
        steps: &[Spread(19, 31, 7), Done(&[Write(19, 20), Turn, Turn, Turn])],
        free: 12,
        worn: &[(1, 1)],
        operations: &[Programs(8, 1, 154, 0xE0), Erase(8, 0xE0)],
        mounted: Some(&Mounted {
            capacity: 32,
            next: 157,
            stale: 21,
            states: &[(1, 0, 0, 0, 0), (2, 3, 8, 1, 0), (20, 1, 2, 2, 0)],
            calls: &HELD,
        }),
        ..ALL_CACHED
    },
];

#[test]
fn cached_sectors_are_moved_by_turns(rt: HostRuntime) -> Result<(), Fail> {
    hold_cases(rt.alloc(), &CACHED)
}

// A device that is started on the flushed die has nothing cached.
const STARTED: Case = Case {
    before: &FLUSHED,
    before_capacity: 32,
    free: 11,
    told: Told::ChangesAlone,
    ..QUIET
};

static MOVED: [Case; 4] = [
    // The moved sector waits for its translation page, which the second turn writes.
    Case {
        name: "a sector is moved",
        steps: &[Done(&[Turn])],
        operations: &[Program(161, 0xE0)],
        mounted: Some(&Mounted {
            capacity: 1,
            next: 161,
            stale: 1,
            states: &[(0, 2, 6, 4, 0), (1, 3, 8, 0, 0), (20, 1, 2, 2, 0)],
            calls: &HELD,
        }),
        ..STARTED
    },
    Case {
        name: "its translation page follows",
        steps: &[Done(&[Turn, Turn])],
        operations: &[Program(161, 0xE0), Program(6, 0xE0)],
        mounted: Some(&Mounted {
            capacity: 1,
            next: 162,
            stale: 0,
            states: &[(0, 2, 7, 4, 0), (1, 3, 8, 0, 0), (20, 1, 2, 2, 0)],
            calls: &HELD,
        }),
        ..STARTED
    },
    Case {
        name: "then the block is erased",
        steps: &[Done(&[Turn, Turn, Turn])],
        free: 12,
        worn: &[(1, 1)],
        operations: &[Program(161, 0xE0), Program(6, 0xE0), Erase(8, 0xE0)],
        ..STARTED
    },
    Case {
        name: "and then nothing is left",
        steps: &[Done(&[Turn, Turn, Turn, Turn])],
        free: 12,
        worn: &[(1, 1)],
        operations: &[Program(161, 0xE0), Program(6, 0xE0), Erase(8, 0xE0)],
        ..STARTED
    },
];

static USED: [Case; 3] = [
    // A moved sector that is read is not cached. Once it is written it is, and the block is erased next: no
    // translation page has to be.
    Case {
        name: "a moved sector is read",
        steps: &[Done(&[Turn, Read(0, 1)])],
        operations: &[Program(161, 0xE0)],
        ..STARTED
    },
    Case {
        name: "a moved sector is written",
        steps: &[Done(&[Turn, Read(0, 1), Write(0, 99), Read(0, 99)])],
        cached: &[0],
        operations: &[Programs(161, 1, 2, 0xE0)],
        ..STARTED
    },
    Case {
        name: "the block is erased after it",
        steps: &[Done(&[Turn, Read(0, 1), Write(0, 99), Turn, Read(0, 99)])],
        free: 12,
        worn: &[(1, 1)],
        cached: &[0],
        operations: &[Programs(161, 1, 2, 0xE0), Erase(8, 0xE0)],
        mounted: Some(&Mounted {
            capacity: 1,
            next: 162,
            stale: 1,
            states: &[(0, 2, 6, 4, 0), (1, 0, 0, 0, 0), (20, 1, 3, 2, 0)],
            calls: &[Read(0, 99), Read(1, 2), Read(31, 6)],
        }),
        ..STARTED
    },
];

static ENDED: [Case; 3] = [
    // A flush writes the translation page of a moved sector too, and the block stays pinned. A restart
    // forgets the pin: the device that is started finds a victim without a live page, and erases it.
    Case {
        name: "a flush writes the row of a moved sector",
        steps: &[Done(&[Turn, Flush])],
        free: 10,
        operations: &[
            Program(161, 0xE0),
            Programs(6, 1, 2, 0xE0),
            Program(168, 0xE0),
        ],
        mounted: Some(&Mounted {
            capacity: 1,
            next: 164,
            stale: 0,
            states: &[(0, 3, 8, 3, 0), (1, 3, 8, 0, 0), (21, 2, 1, 1, 0)],
            calls: &HELD,
        }),
        ..STARTED
    },
    Case {
        name: "and a turn erases the block",
        steps: &[Done(&[Turn, Flush, Turn])],
        worn: &[(1, 1)],
        operations: &[
            Program(161, 0xE0),
            Programs(6, 1, 2, 0xE0),
            Program(168, 0xE0),
            Erase(8, 0xE0),
        ],
        ..STARTED
    },
    Case {
        name: "a restart in the middle",
        before: &MIDDLE,
        steps: &[Done(&[Turn, Turn])],
        free: 12,
        worn: &[(1, 1)],
        cached: &[0],
        operations: &[Erase(8, 0xE0)],
        ..STARTED
    },
];

fn hold_moved(alloc: Global) -> Result<(), Fail> {
    hold_cases(alloc, &MOVED)
}

fn hold_used(alloc: Global) -> Result<(), Fail> {
    hold_cases(alloc, &USED)
}

fn hold_ended(alloc: Global) -> Result<(), Fail> {
    hold_cases(alloc, &ENDED)
}

#[test]
fn moved_sectors_wait_for_turns(rt: HostRuntime) -> Result<(), Fail> {
    hold_moved(rt.alloc())?;
    hold_used(rt.alloc())?;
    hold_ended(rt.alloc())
}

// Makes a write: whether it erased a block.
fn has_collected<N: Nand>(device: &mut Device<N>, sector: u32, byte: u8) -> Result<bool, Fail>
    requires { IsDevice N.view.flash device.old }
    ensures { IsDevice N.view.flash device.new }
{
    let erases = erases_of(&device.engine.blocks)?;
    hold_call(device, "write", Write(sector, byte), Ok(()))?;
    Ok(erases_of(&device.engine.blocks)? != erases)
}

// Makes so many writes, with a turn after each where that is wanted: how many of them erased a block.
fn collecting<N: Nand>(device: &mut Device<N>, count: u32, turns: bool) -> Result<u32, Fail>
    requires { IsDevice N.view.flash device.old }
{
    let mut collecting = 0u32;
    for i in 0..count {
        if has_collected(device, i.wrapping_mul(11) % 32, (i % 251) as u8)? {
            collecting = collecting.saturating_add(1);
        }
        if turns {
            hold_call(device, "turn", Turn, Ok(()))?;
        }
    }
    Ok(collecting)
}

// How many of the writes of a device with a cache of four on this die erase a block.
fn collecting_on<N: Nand + Drop>(
    alloc: Global,
    nand: N,
    geometry: &Geometry,
    count: u32,
    turns: bool,
) -> Result<u32, Fail>
    requires { (N.view.flash nand).geometry ≡ geometry.now }
{
    let mut device = started(alloc, nand, geometry, 4)?;
    let found = collecting(&mut device, count, turns);
    device.into_nand();
    found
}

// The same on a new die.
fn collecting_of(alloc: Global, count: u32, turns: bool) -> Result<u32, Fail> {
    let geometry = small()?;
    let driver = formatted_die(alloc, geometry, &[], 0)?;
    collecting_on(alloc, driver, &geometry, count, turns)
}

// With a turn after each, none of 20,000 writes has to collect.
#[test]
fn turns_collect_for_writes(rt: HostRuntime) -> Result<(), Fail> {
    let alone = collecting_of(rt.alloc(), 2_000, false)?;
    let with_turns = collecting_of(rt.alloc(), 20_000, true)?;
    hold_same("writes", "collecting", &(alone, with_turns), &(321, 0))
}
