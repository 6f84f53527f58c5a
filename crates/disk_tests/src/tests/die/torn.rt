//! Lives of disks in stores of which pages are torn or missing.
ghost use Rattle.std.specs.Prelude.{◌≡◌, ◌<◌};
ghost use Rattle.page_layout.specs.Geometry.{row_count};

use super::lives::{Between, Life, QUIET, born, live};
use super::{erased, small, store_of};
use crate::tests::hold_step;
use crate::tests::steps::Step;
use file_die::{MemoryStore, Store};
use nbd_stream::DiskFault;
use std::alloc::Global;
use std::process::Abort;

// Bytes of a page with its spare area.
const PAGE: usize = 96;

// What becomes of a page: three of its bytes turn, or it was never programmed.
#[derive(Clone, Copy)]
enum Hurt {
    Torn,
    Missing,
}

// A new disk is asked something; the pages that are filled with these bytes are hurt; and then it has these lives. The page of the first write has the sequence 3.
struct Row {
    name: &'static str,
    before: &'static [Step],
    hurt: &'static [(u8, Hurt)],
    lives: &'static [Life],
}

// Four sectors, whose pages stand behind one another.
const FOUR: &[Step] = &[
    Step::Write(0, &[1; 64], false, Ok(())),
    Step::Write(64, &[2; 64], false, Ok(())),
    Step::Write(128, &[3; 64], false, Ok(())),
    Step::Write(192, &[4; 64], false, Ok(())),
];

// The same, and a flush, whose translation page has the sequence 7; then two sectors more.
const SIX: &[Step] = &[
    Step::Write(0, &[1; 64], false, Ok(())),
    Step::Write(64, &[2; 64], false, Ok(())),
    Step::Write(128, &[3; 64], false, Ok(())),
    Step::Write(192, &[4; 64], false, Ok(())),
    Step::Flush(Ok(())),
    Step::Write(256, &[5; 64], false, Ok(())),
    Step::Write(320, &[6; 64], false, Ok(())),
];

// What was flushed is there, and what was not is as before; and it takes writes again.
const FLUSHED: &[Step] = &[
    Step::Read(0, &[1; 64], Ok(())),
    Step::Read(64, &[2; 64], Ok(())),
    Step::Read(128, &[3; 64], Ok(())),
    Step::Read(192, &[4; 64], Ok(())),
    Step::Read(256, &[0; 128], Ok(())),
    Step::Write(256, &[7; 64], true, Ok(())),
    Step::Read(256, &[7; 64], Ok(())),
];

const STAYS: &[Step] = &[
    Step::Read(0, &[1; 64], Ok(())),
    Step::Read(64, &[2; 64], Ok(())),
    Step::Read(192, &[4; 64], Ok(())),
    Step::Read(256, &[7; 64], Ok(())),
    Step::Read(320, &[0; 64], Ok(())),
];

// Where the second page was torn, no page behind it is marked, and nothing was flushed: the block was cut back before it.
const CUT: &[Step] = &[
    Step::Read(0, &[1; 64], Ok(())),
    Step::Read(64, &[0; 192], Ok(())),
    Step::Write(64, &[5; 64], true, Ok(())),
    Step::Read(64, &[5; 64], Ok(())),
];

const ONE: &[Step] = &[
    Step::Read(0, &[1; 64], Ok(())),
    Step::Read(64, &[5; 64], Ok(())),
    Step::Read(128, &[0; 128], Ok(())),
];

// The sector of the second page is lost.
const LOST: &[Step] = &[
    Step::Read(0, &[1; 64], Ok(())),
    Step::Read(64, &[0; 64], Err(DiskFault::Failed)),
    Step::Read(128, &[3; 64], Ok(())),
    Step::Read(320, &[6; 64], Ok(())),
    Step::Read(0, &[0; 128], Err(DiskFault::Failed)),
];

const STILL_LOST: &[Step] = &[
    Step::Read(64, &[0; 64], Err(DiskFault::Failed)),
    Step::Flush(Ok(())),
    Step::Read(64, &[0; 64], Err(DiskFault::Failed)),
    Step::Read(192, &[4; 64], Ok(())),
];

static ROWS: &[Row] = &[
    Row {
        name: "the last page is torn",
        before: SIX,
        hurt: &[(5, Hurt::Torn), (6, Hurt::Missing)],
        lives: &[
            Life {
                synced: 8,
                flushed: 8,
                bad: 1,
                steps: FLUSHED,
                ..QUIET
            },
            Life {
                steps: STAYS,
                ..QUIET
            },
        ],
    },
    Row {
        name: "a page before the last one is missing",
        before: SIX,
        hurt: &[(5, Hurt::Missing)],
        lives: &[
            Life {
                synced: 8,
                flushed: 8,
                bad: 1,
                steps: FLUSHED,
                ..QUIET
            },
            Life {
                steps: STAYS,
                ..QUIET
            },
        ],
    },
    Row {
        name: "an old mark, and no damage beside what a crash left",
        before: SIX,
        hurt: &[(5, Hurt::Torn)],
        lives: &[
            Life {
                synced: 3,
                flushed: 0,
                bad: 1,
                steps: FLUSHED,
                ..QUIET
            },
            Life {
                steps: STAYS,
                ..QUIET
            },
        ],
    },
    Row {
        name: "a mark that was torn, and no page behind the torn one",
        before: SIX,
        hurt: &[(5, Hurt::Missing), (6, Hurt::Torn)],
        lives: &[
            Life {
                bad: 1,
                steps: FLUSHED,
                ..QUIET
            },
            Life {
                steps: STAYS,
                ..QUIET
            },
        ],
    },
    Row {
        name: "nothing was synced since the disk was made",
        before: FOUR,
        hurt: &[(2, Hurt::Torn)],
        lives: &[
            Life {
                synced: 3,
                bad: 1,
                steps: CUT,
                ..QUIET
            },
            Life {
                steps: ONE,
                ..QUIET
            },
        ],
    },
    Row {
        name: "the torn page was synced, and none behind it",
        before: FOUR,
        hurt: &[(2, Hurt::Torn)],
        lives: &[
            Life {
                synced: 5,
                bad: 1,
                steps: CUT,
                ..QUIET
            },
            Life {
                steps: ONE,
                ..QUIET
            },
        ],
    },
    // the first block is full, and each of its pages has a newer one
    Row {
        name: "an erase that was cut short: no page of the block is the newest of its sector",
        before: &[
            Step::Write(0, &[1; 64], false, Ok(())),
            Step::Write(64, &[2; 64], false, Ok(())),
            Step::Write(64, &[3; 64], false, Ok(())),
            Step::Write(64, &[4; 64], false, Ok(())),
            Step::Write(64, &[5; 64], false, Ok(())),
            Step::Write(64, &[6; 64], false, Ok(())),
            Step::Write(64, &[7; 64], false, Ok(())),
            Step::Write(64, &[8; 64], false, Ok(())),
            Step::Write(0, &[9; 64], false, Ok(())),
            Step::Write(64, &[10; 64], false, Ok(())),
        ],
        hurt: &[(1, Hurt::Missing), (2, Hurt::Torn), (3, Hurt::Torn)],
        lives: &[
            Life {
                bad: 1,
                steps: &[
                    Step::Read(0, &[9; 64], Ok(())),
                    Step::Read(64, &[10; 64], Ok(())),
                    Step::Write(64, &[11; 64], true, Ok(())),
                ],
                ..QUIET
            },
            Life {
                steps: &[
                    Step::Read(0, &[9; 64], Ok(())),
                    Step::Read(64, &[11; 64], Ok(())),
                ],
                ..QUIET
            },
        ],
    },
    // damage: it is only read first, then its list is not kept, and then it is written
    Row {
        name: "a damaged page before marked ones",
        before: SIX,
        hurt: &[(2, Hurt::Torn)],
        lives: &[
            Life {
                synced: 8,
                flushed: 8,
                bad: 1,
                lost: &[1],
                writes: false,
                steps: LOST,
                ..QUIET
            },
            Life {
                synced: 8,
                flushed: 8,
                bad: 1,
                lost: &[1],
                keeps: false,
                ..QUIET
            },
            Life {
                synced: 8,
                flushed: 8,
                bad: 1,
                lost: &[1],
                steps: STILL_LOST,
                ..QUIET
            },
            // the list alone tells it now
            Life {
                synced: 8,
                flushed: 0,
                bad: 1,
                lost: &[1],
                steps: &[
                    Step::Read(64, &[0; 64], Err(DiskFault::Failed)),
                    Step::Write(64, &[7; 64], false, Ok(())),
                    Step::Read(64, &[7; 64], Ok(())),
                    Step::Read(256, &[5; 64], Ok(())),
                ],
                ..QUIET
            },
            Life {
                synced: 8,
                flushed: 8,
                bad: 1,
                steps: &[
                    Step::Read(0, &[1; 64], Ok(())),
                    Step::Read(64, &[7; 64], Ok(())),
                    Step::Read(128, &[3; 64], Ok(())),
                    Step::Read(320, &[6; 64], Ok(())),
                ],
                ..QUIET
            },
        ],
    },
    Row {
        name: "damage, and a mark that was torn: nothing is cut, and none is known to be lost",
        before: SIX,
        hurt: &[(2, Hurt::Torn)],
        lives: &[Life {
            bad: 1,
            steps: &[
                Step::Read(0, &[1; 64], Ok(())),
                Step::Read(64, &[0; 64], Ok(())),
                Step::Read(128, &[3; 64], Ok(())),
                Step::Read(320, &[6; 64], Ok(())),
            ],
            ..QUIET
        }],
    },
    Row {
        name: "a torn disk that is only read, and then written",
        before: SIX,
        hurt: &[(5, Hurt::Torn)],
        lives: &[
            Life {
                synced: 8,
                flushed: 8,
                bad: 1,
                writes: false,
                steps: &[
                    Step::Read(192, &[4; 64], Ok(())),
                    Step::Read(256, &[0; 64], Ok(())),
                    Step::Read(320, &[6; 64], Ok(())),
                ],
                ..QUIET
            },
            Life {
                synced: 8,
                flushed: 8,
                bad: 1,
                steps: FLUSHED,
                ..QUIET
            },
        ],
    },
];

// Hurts the page of a row where it is filled with a byte, and tells whether it is.
fn hurt_row(store: &mut MemoryStore, row: u32, filled: u8, hurt: Hurt) -> bool
    requires { row < row_count store.old.geometry }
{
    let geometry = store.geometry();
    let mut page = [0; PAGE];
    if geometry.data_bytes() + geometry.spare_bytes() != PAGE
        || store.load(row, &mut page).is_err()
    {
        return false;
    }
    if page[..64] != [filled; 64] {
        return false;
    }
    match hurt {
        Hurt::Torn => page[3] = 0,
        Hurt::Missing => page = [0xFF; PAGE],
    }
    store.put(row, &page).is_ok()
}

// Hurts the one page that is filled with a byte; tells whether there is one.
fn is_hurt(store: &mut MemoryStore, filled: u8, hurt: Hurt) -> bool {
    let mut count = 0u32;
    for row in 0..256 {
        if row < store.geometry().rows() && hurt_row(store, row, filled, hurt) {
            count = count.saturating_add(1);
        }
    }
    count == 1
}

// Hurts the pages of a row.
fn hurt_all(rt: &impl Abort, store: &mut MemoryStore, row: &Row) {
    for (filled, hurt) in row.hurt {
        let is_one = is_hurt(store, *filled, *hurt);
        hold_page(rt, is_one, row.name, *filled);
    }
}

// Holds that one page is filled with a byte.
fn hold_page(rt: &impl Abort, is_one: bool, name: &str, filled: u8) {
    assert!(rt; is_one, "{name}: no page of {filled}");
}

// Holds a disk to the lives of a row.
fn hold_lives(rt: &impl Abort, alloc: Global, disk: Between<MemoryStore>, row: &Row) {
    let mut disk = disk;
    for (at, life) in row.lives.iter().enumerate() {
        disk = live(rt, alloc, disk, life);
        hold_step(rt, disk.held, row.name, at);
    }
}

// Holds a disk to a row.
fn hold_row(rt: &impl Abort, alloc: Global, row: &Row) {
    let store = store_of(rt, small(rt), erased(rt, alloc));
    let mut disk = born(rt, alloc, store, row.before);
    hurt_all(rt, &mut disk.store, row);
    hold_lives(rt, alloc, disk, row);
}

#[test]
fn torn_disks_are_recovered(rt: HostRuntime) {
    for row in ROWS {
        hold_row(&rt, rt.alloc(), row);
    }
}
