//! Blocks that are collected, and pages that are rescued from bad ones.
use device_fixtures::again::Mounted;
use device_fixtures::calls::Call::{self, Flush, Read, Trim, Turn, Write};
use device_fixtures::calls::{CLOSING, CLOSING_READ};
use device_fixtures::cases::Cached::{Clean, Dirty};
use device_fixtures::cases::Step::{Done, Over, Spread};
use device_fixtures::cases::{Case, QUIET, Told, hold_cases};
use device_fixtures::pages::{NO, PageAt};
use device_fixtures::recorder::Operation::{Erase, Program, Programs, Read as ReadPage};
use std::alloc::Global;
use std::test::Fail;

const BEFORE: &[u8] = &[10, 11, 12, NO, NO, NO, NO, 9];

const AFTER: &[u8] = &[17, 18, 19, 20, 21, 22, NO, 16];

// Block 1 is erased: its seven live pages stand in block 2 by rising row, the trim among them. Sectors
// 7, 0 and 1 weren't cached, so their translation page is written.
const COLLECTED: [PageAt; 4] = [
    PageAt::Translation(2, 0, 8, BEFORE),
    PageAt::Translation(3, 0, 19, AFTER),
    PageAt::Trim(16, 7, 12),
    PageAt::Sectors(6, 17, 0, 13, 0x10),
];

const ERASED: Mounted = Mounted {
    capacity: 1,
    next: 20,
    stale: 0,
    states: &[(0, 2, 4, 3, 0), (1, 0, 0, 0, 0), (2, 1, 7, 7, 0)],
    calls: &CLOSING_READ,
};

// The table on the die says nothing of the failed erase, which left no trace.
const NOT_ERASED: Mounted = Mounted {
    states: &[(0, 2, 4, 3, 0), (1, 3, 8, 0, 0), (2, 1, 7, 7, 0)],
    ..ERASED
};

// The cache as it was but for the rows: clean, since the translation page was written.
const SAME_ORDER: Case = Case {
    steps: &[Done(&CLOSING)],
    collects: &[(1, false)],
    cached: &[2, 3, 4, 5],
    order: &[Clean(2, 19), Clean(3, 20), Clean(4, 21), Clean(5, 22)],
    told: Told::Changes,
    ..QUIET
};

// Eight sectors that are all cached.
const CACHED: [Call; 8] = [
    Write(0, 0x20),
    Write(1, 0x21),
    Write(2, 0x22),
    Write(3, 0x23),
    Write(4, 0x24),
    Write(5, 0x25),
    Write(6, 0x26),
    Write(7, 0x27),
];

const MOVED: &[u8] = &[16, 17, 18, 19, 20, 21, 22, 23];

const MOVING: Case = Case {
    capacity: 8,
    steps: &[Done(&CACHED)],
    collects: &[(1, false)],
    worn: &[(1, 1)],
    cached: &[0, 1, 2, 3, 4, 5, 6, 7],
    told: Told::Changes,
    ..QUIET
};

static COLLECTED_BLOCKS: [Case; 4] = [
    Case {
        name: "a block is collected",
        worn: &[(1, 1)],
        operations: &[
            Programs(8, 1, 5, 0xE0),
            Program(2, 0xE0),
            Programs(13, 1, 10, 0xE0),
            Program(3, 0xE0),
            Erase(8, 0xE0),
        ],
        pages: &COLLECTED,
        mounted: Some(&ERASED),
        ..SAME_ORDER
    },
    // Its pages stay, and it is bad from then on.
    Case {
        name: "the erase of a collected block fails",
        failing: &[18],
        bad: &[1],
        free: 29,
        operations: &[
            Programs(8, 1, 5, 0xE0),
            Program(2, 0xE0),
            Programs(13, 1, 10, 0xE0),
            Program(3, 0xE0),
            Erase(8, 0xE1),
        ],
        pages: &[
            PageAt::Translation(2, 0, 8, BEFORE),
            PageAt::Translation(3, 0, 19, AFTER),
            PageAt::Sector(8, 7, 3, 0x77),
            PageAt::Trim(9, 7, 4),
            PageAt::Sectors(3, 10, 0, 5, 0x10),
            PageAt::Sectors(3, 13, 3, 9, 0x13),
            PageAt::Trim(16, 7, 12),
            PageAt::Sectors(6, 17, 0, 13, 0x10),
        ],
        mounted: Some(&NOT_ERASED),
        ..SAME_ORDER
    },
    // A moved sector that is cached waits for its translation page to be written.
    Case {
        name: "cached sectors are moved",
        order: &[Dirty(0, 16), Dirty(1, 17), Dirty(2, 18), Dirty(3, 19)],
        operations: &[Programs(8, 1, 16, 0xE0), Erase(8, 0xE0)],
        pages: &[PageAt::Sectors(8, 16, 0, 11, 0x20)],
        ..MOVING
    },
    // In a flush it doesn't.
    Case {
        name: "cached sectors are moved in a flush",
        collects: &[(1, true)],
        order: &[Clean(0, 16), Clean(1, 17), Clean(2, 18), Clean(3, 19)],
        operations: &[Programs(8, 1, 16, 0xE0), Program(2, 0xE0), Erase(8, 0xE0)],
        pages: &[
            PageAt::Translation(2, 0, 19, MOVED),
            PageAt::Sectors(8, 16, 0, 11, 0x20),
        ],
        ..MOVING
    },
];

#[test]
fn blocks_are_collected(rt: HostRuntime) -> Result<(), Fail> {
    hold_cases(rt.alloc(), &COLLECTED_BLOCKS)
}

static EMPTIED: [Case; 2] = [
    // Five live pages, as many as a block that is collected to make room may have: five copies and both
    // translation pages are seven programs, one fewer than a block has pages.
    Case {
        name: "a block with five live pages costs seven programs",
        capacity: 1,
        steps: &[Done(&[
            Write(0, 0x30),
            Write(16, 0x31),
            Write(1, 0x32),
            Write(17, 0x33),
            Write(2, 0x34),
            Write(0, 0x35),
            Write(0, 0x36),
            Write(0, 0x37),
        ])],
        collects: &[(1, false)],
        free: 29,
        worn: &[(1, 1)],
        cached: &[0],
        order: &[Clean(0, 20)],
        operations: &[
            Program(8, 0xE0),
            Program(2, 0xE0),
            Program(9, 0xE0),
            Program(3, 0xE0),
            Program(10, 0xE0),
            Program(4, 0xE0),
            Program(11, 0xE0),
            Program(5, 0xE0),
            Program(12, 0xE0),
            Program(6, 0xE0),
            Programs(13, 1, 3, 0xE0),
            Programs(16, 1, 5, 0xE0),
            Program(7, 0xE0),
            Program(24, 0xE0),
            Erase(8, 0xE0),
        ],
        told: Told::Changes,
        pages: &[
            PageAt::Translation(2, 0, 4, &[8]),
            PageAt::Translation(3, 1, 6, &[9]),
            PageAt::Translation(4, 0, 8, &[8, 10]),
            PageAt::Translation(5, 1, 10, &[9, 11]),
            PageAt::Translation(6, 0, 12, &[8, 10, 12]),
            PageAt::Translation(7, 0, 21, &[20, 17, 19]),
            PageAt::Sector(16, 16, 16, 0x31),
            PageAt::Sector(17, 1, 17, 0x32),
            PageAt::Sector(18, 17, 18, 0x33),
            PageAt::Sector(19, 2, 19, 0x34),
            PageAt::Sector(20, 0, 20, 0x37),
            PageAt::Translation(24, 1, 22, &[16, 18]),
        ],
        mounted: Some(&Mounted {
            capacity: 1,
            next: 23,
            stale: 0,
            states: &[
                (0, 3, 8, 3, 0),
                (1, 0, 0, 0, 0),
                (2, 1, 5, 5, 0),
                (3, 2, 1, 1, 0),
            ],
            calls: &[
                Read(0, 0x37),
                Read(1, 0x32),
                Read(2, 0x34),
                Read(16, 0x31),
                Read(17, 0x33),
            ],
        }),
        ..QUIET
    },
    // Block 0 is full of table pages and translation pages, block 1 of sectors and trims. The first copy out
    // of each fails. Sectors 0 to 2 aren't cached.
    Case {
        name: "every kind of page is copied",
        failing: &[16, 21],
        steps: &[
            Done(&[Write(0, 0x40), Flush, Write(16, 0x41), Flush]),
            Done(&[Write(1, 0x42), Write(2, 0x43), Write(3, 0x44)]),
            Done(&[Write(4, 0x45), Trim(5), Trim(16)]),
        ],
        collects: &[(0, false), (1, false)],
        bad: &[2, 4],
        free: 28,
        worn: &[(0, 1), (1, 1)],
        cached: &[3, 4, 5, 16],
        order: &[Clean(3, 43), Clean(4, 44), Clean(5, 45), Dirty(16, 46)],
        operations: &[
            Program(8, 0xE0),
            Programs(2, 1, 3, 0xE0),
            Program(9, 0xE0),
            Programs(5, 1, 3, 0xE0),
            Programs(10, 1, 4, 0xE0),
            Program(16, 0xE0),
            Programs(14, 1, 2, 0xE0),
            Program(17, 0xE1),
            Programs(24, 1, 3, 0xE0),
            Erase(0, 0xE0),
            Program(32, 0xE1),
            Programs(40, 1, 7, 0xE0),
            Program(27, 0xE0),
            Erase(8, 0xE0),
        ],
        told: Told::Changes,
        pages: &[
            PageAt::Translation(16, 0, 15, &[8, 10, 11, 12, 13]),
            PageAt::Translation(24, 1, 19, &[9]),
            PageAt::Table(25, 0, 20, [0; 16]),
            PageAt::Table(26, 1, 21, [0; 16]),
            PageAt::Translation(27, 0, 30, &[40, 41, 42, 43, 44, 45]),
            PageAt::Sector(40, 0, 23, 0x40),
            PageAt::Sectors(4, 41, 1, 24, 0x42),
            PageAt::Trim(45, 5, 28),
            PageAt::Trim(46, 16, 29),
        ],
        mounted: Some(&Mounted {
            capacity: 1,
            next: 31,
            stale: 1,
            states: &[
                (0, 0, 0, 0, 0),
                (1, 0, 0, 0, 0),
                (2, 3, 1, 0, 0),
                (3, 2, 4, 4, 0),
                (4, 0, 0, 0, 0),
                (5, 1, 7, 7, 0),
            ],
            calls: &[
                Read(0, 0x40),
                Read(1, 0x42),
                Read(2, 0x43),
                Read(3, 0x44),
                Read(4, 0x45),
                Read(5, 0),
                Read(16, 0),
            ],
        }),
        ..QUIET
    },
];

static CHOSEN: [Case; 2] = [
    // 270 writes of one sector: blocks 1 and 2 are erased, used again and full again, without a live page.
    // Blocks with higher numbers that were never erased are collected before them.
    Case {
        name: "the least worn of two equal blocks is collected",
        steps: &[Over(0, 270)],
        free: 9,
        worn: &[
            (1, 1),
            (2, 1),
            (3, 1),
            (4, 1),
            (5, 1),
            (6, 1),
            (7, 1),
            (8, 1),
            (9, 1),
            (10, 1),
            (11, 1),
            (12, 1),
        ],
        cached: &[0],
        told: Told::Nothing,
        mounted: Some(&Mounted {
            capacity: 1,
            next: 273,
            stale: 1,
            states: &[
                (0, 2, 2, 2, 0),
                (1, 3, 8, 0, 1),
                (2, 3, 8, 0, 1),
                (3, 1, 6, 1, 1),
                (4, 0, 0, 0, 0),
                (13, 3, 8, 0, 0),
            ],
            calls: &[Read(0, 13)],
        }),
        ..QUIET
    },
    // As many blocks as leave nine free have one live page each. A flush leaves no entry stale. Two writes of
    // sector 31 later eight are free: the next flush finds its translation page alone to be written, and room
    // to be made. The block that is collected moves sector 0, which is cached, and whose translation page is
    // written for that.
    Case {
        name: "a flush collects",
        capacity: 32,
        steps: &[
            Spread(21, 31, 7),
            Done(&[Write(21, 21)]),
            Over(31, 6),
            Done(&[Flush, Write(31, 78), Write(31, 79), Flush]),
        ],
        free: 8,
        worn: &[(1, 1)],
        cached: &[
            0, 1, 2, 3, 4, 5, 6, 7, 8, 9, 10, 11, 12, 13, 14, 15, 16, 17, 18, 19, 20, 21, 31,
        ],
        told: Told::Nothing,
        mounted: Some(&Mounted {
            capacity: 1,
            next: 189,
            stale: 0,
            states: &[
                (0, 3, 8, 2, 0),
                (1, 0, 0, 0, 1),
                (2, 3, 8, 1, 0),
                (22, 3, 8, 1, 0),
                (23, 1, 2, 2, 0),
                (24, 2, 2, 2, 0),
            ],
            calls: &[
                Read(0, 1),
                Read(1, 2),
                Read(20, 21),
                Read(21, 21),
                Read(22, 0),
                Read(31, 79),
            ],
        }),
        ..QUIET
    },
];

fn hold_emptied(alloc: Global) -> Result<(), Fail> {
    hold_cases(alloc, &EMPTIED)
}

fn hold_chosen(alloc: Global) -> Result<(), Fail> {
    hold_cases(alloc, &CHOSEN)
}

#[test]
fn blocks_are_chosen_and_emptied(rt: HostRuntime) -> Result<(), Fail> {
    hold_emptied(rt.alloc())?;
    hold_chosen(rt.alloc())
}

// The third program fails and leaves bytes. Two turns bring the two sectors out of the bad block, by
// rising row; the third asks the die for nothing.
static RESCUED: [Case; 1] = [Case {
    name: "a bad block is rescued",
    failing: &[3],
    page_left: 96,
    steps: &[Done(&[Write(0, 1), Write(1, 2), Write(2, 3), Turn, Turn, Turn])],
    bad: &[1],
    free: 29,
    cached: &[0, 1, 2],
    order: &[Dirty(0, 17), Dirty(1, 18), Dirty(2, 16)],
    operations: &[
        Programs(8, 1, 2, 0xE0),
        Program(10, 0xE1),
        Program(16, 0xE0),
        ReadPage(8),
        Program(17, 0xE0),
        ReadPage(8),
        ReadPage(9),
        Program(18, 0xE0),
    ],
    pages: &[
        PageAt::Sector(8, 0, 3, 1),
        PageAt::Sector(9, 1, 4, 2),
        PageAt::Torn(10),
        PageAt::Sector(16, 2, 6, 3),
        PageAt::Sector(17, 0, 7, 1),
        PageAt::Sector(18, 1, 8, 2),
    ],
    mounted: Some(&Mounted {
        capacity: 12,
        next: 9,
        stale: 3,
        states: &[(0, 2, 2, 2, 0), (1, 5, 0, 0, 0), (2, 1, 3, 3, 0)],
        calls: &[Read(0, 1), Read(1, 2), Read(2, 3)],
    }),
    ..QUIET
}];

#[test]
fn bad_blocks_are_rescued(rt: HostRuntime) -> Result<(), Fail> {
    hold_cases(rt.alloc(), &RESCUED)
}
