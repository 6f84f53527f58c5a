//! Programs that fail.
use device_fixtures::calls::Call::{Read, Trim, Write};
use device_fixtures::cases::Step::{Done, Refused};
use device_fixtures::cases::{Case, QUIET, hold_cases};
use device_fixtures::pages::PageAt;
use device_fixtures::recorder::Operation::{Program, Programs, Read as ReadPage};
use ftl_device::DeviceFault;
use std::test::Fail;

// The first programs after the format, or as many blocks after block 0.
const FIRST_27: [u16; 27] = [
    1, 2, 3, 4, 5, 6, 7, 8, 9, 10, 11, 12, 13, 14, 15, 16, 17, 18, 19, 20, 21, 22, 23, 24, 25, 26,
    27,
];

const FIRST_31: [u16; 31] = [
    1, 2, 3, 4, 5, 6, 7, 8, 9, 10, 11, 12, 13, 14, 15, 16, 17, 18, 19, 20, 21, 22, 23, 24, 25, 26,
    27, 28, 29, 30, 31,
];

// Read-only with so many good blocks, of which so many failed in the call.
const FIVE_LEFT: DeviceFault = DeviceFault::ReadOnly {
    good: 5,
    need: 17,
    failed: 0,
};

const ONE_LEFT: DeviceFault = DeviceFault::ReadOnly {
    good: 1,
    need: 17,
    failed: 0,
};

const ONE_LEFT_OF_32: DeviceFault = DeviceFault::ReadOnly {
    good: 1,
    need: 17,
    failed: 31,
};

static TRIED_ELSEWHERE: [Case; 5] = [
    // A sector is tried in the next block with the next sequence after each failure, which leaves its
    // block bad.
    Case {
        name: "one failed program",
        failing: &[1],
        steps: &[Done(&[Write(5, 0x77), Read(5, 0x77), Read(6, 0)])],
        bad: &[1],
        free: 29,
        cached: &[5, 6],
        operations: &[Program(8, 0xE1), Program(16, 0xE0), ReadPage(16)],
        pages: &[PageAt::Sector(16, 5, 4, 0x77)],
        ..QUIET
    },
    Case {
        name: "two failed programs",
        failing: &[1, 2],
        steps: &[Done(&[Write(5, 0x77), Read(5, 0x77)])],
        bad: &[1, 2],
        free: 28,
        cached: &[5],
        operations: &[
            Program(8, 0xE1),
            Program(16, 0xE1),
            Program(24, 0xE0),
            ReadPage(24),
        ],
        pages: &[PageAt::Sector(24, 5, 5, 0x77)],
        ..QUIET
    },
    Case {
        name: "three failed programs",
        failing: &[1, 2, 3],
        steps: &[Done(&[Write(5, 0x77), Read(5, 0x77)])],
        bad: &[1, 2, 3],
        free: 27,
        cached: &[5],
        operations: &[
            Program(8, 0xE1),
            Program(16, 0xE1),
            Program(24, 0xE1),
            Program(32, 0xE0),
            ReadPage(32),
        ],
        pages: &[PageAt::Sector(32, 5, 6, 0x77)],
        ..QUIET
    },
    // Three blocks are left, so the next write is refused, and asks the die for nothing.
    Case {
        name: "few blocks are left",
        failing: &FIRST_27,
        steps: &[
            Done(&[Write(5, 0x77)]),
            Refused(FIVE_LEFT, &[Write(5, 0x78), Trim(5)]),
            Done(&[Read(5, 0x77), Read(6, 0)]),
        ],
        bad: &FIRST_27,
        free: 3,
        read_only: true,
        cached: &[5, 6],
        operations: &[Programs(8, 8, 27, 0xE1), Program(224, 0xE0), ReadPage(224)],
        pages: &[PageAt::Sector(224, 5, 30, 0x77)],
        ..QUIET
    },
    // No block is left to try the sector in.
    Case {
        name: "no block is left",
        failing: &FIRST_31,
        steps: &[
            Refused(ONE_LEFT_OF_32, &[Write(5, 0x77)]),
            Done(&[Read(5, 0)]),
            Refused(ONE_LEFT, &[Write(5, 0x77), Trim(6)]),
        ],
        bad: &FIRST_31,
        free: 0,
        read_only: true,
        cached: &[5],
        operations: &[Programs(8, 8, 31, 0xE1)],
        ..QUIET
    },
];

#[test]
fn failed_programs_are_tried_elsewhere(rt: HostRuntime) -> Result<(), Fail> {
    hold_cases(rt.alloc(), &TRIED_ELSEWHERE)
}
