//! Lives of disks in files of pages with their codes, in which bits turn between two lives.
use super::lives::{Between, Life, QUIET, born, live};
use super::small;
use crate::tests::hold_step;
use crate::tests::steps::Step;
use coded_store::CodedStore;
use file_die::MemoryBytes;
use nbd_stream::DiskFault;
use std::alloc::Global;
use std::process::Abort;

type CodedDisk = Between<CodedStore<MemoryBytes>>;

// Bytes of a data area; of a page with its codes, of which those of its two chunks stand behind the 32 spare bytes; and of all pages.
const DATA: usize = 64;

const PAGE: usize = 102;

const FILE: usize = 256 * PAGE;

// Where the chunk of the data area and its code stand in a page, and where those of the spare area.
static DATA_CHUNK: &[(usize, usize)] = &[(0, 64), (99, 102)];

static SPARE_CHUNK: &[(usize, usize)] = &[(64, 96), (96, 99)];

// One bit of each chunk with its code turns in each page, in each its own; or two of the data chunk in the pages that are filled with this byte, and one in all others.
#[derive(Clone, Copy)]
enum Turn {
    OfEach,
    TwoIn(u8),
    None,
}

// A new disk, what is turned then, its first life, what is turned once more, and its second life.
struct Row {
    name: &'static str,
    lives: &'static [(Turn, Life)],
}

// Four sectors, one of which was written twice. The flush has the sequence 8.
static BEFORE: &[Step] = &[
    Step::Write(0, &[1; 64], false, Ok(())),
    Step::Write(64, &[9; 64], false, Ok(())),
    Step::Write(128, &[3; 64], false, Ok(())),
    Step::Write(64, &[2; 64], false, Ok(())),
    Step::Write(192, &[4; 64], false, Ok(())),
    Step::Flush(Ok(())),
];

const ALL: &[Step] = &[
    Step::Read(0, &[1; 64], Ok(())),
    Step::Read(64, &[2; 64], Ok(())),
    Step::Read(128, &[3; 64], Ok(())),
    Step::Read(192, &[4; 64], Ok(())),
    Step::Read(256, &[0; 64], Ok(())),
];

static ROWS: &[Row] = &[
    Row {
        name: "a bit of each chunk, twice",
        lives: &[
            (
                Turn::OfEach,
                Life {
                    synced: 9,
                    flushed: 9,
                    turned: 512,
                    steps: ALL,
                    ..QUIET
                },
            ),
            (
                Turn::OfEach,
                Life {
                    synced: 9,
                    flushed: 9,
                    turned: 0,
                    steps: ALL,
                    ..QUIET
                },
            ),
        ],
    },
    Row {
        name: "two bits of the newest page of a sector: it alone is lost, until it is written",
        lives: &[
            (
                Turn::TwoIn(2),
                Life {
                    synced: 9,
                    flushed: 9,
                    turned: 510,
                    unread: 1,
                    bad: 1,
                    lost: &[1],
                    steps: &[
                        Step::Read(0, &[1; 64], Ok(())),
                        Step::Read(64, &[0; 64], Err(DiskFault::Failed)),
                        Step::Read(128, &[3; 64], Ok(())),
                        Step::Read(192, &[4; 64], Ok(())),
                        Step::Write(64, &[6; 64], false, Ok(())),
                    ],
                    ..QUIET
                },
            ),
            (
                Turn::None,
                Life {
                    synced: 9,
                    flushed: 9,
                    turned: 508,
                    unread: 1,
                    bad: 1,
                    steps: &[
                        Step::Read(0, &[1; 64], Ok(())),
                        Step::Read(64, &[6; 64], Ok(())),
                        Step::Read(128, &[3; 64], Ok(())),
                    ],
                    ..QUIET
                },
            ),
        ],
    },
    Row {
        name: "two bits of an older page of it: nothing is lost but that page",
        lives: &[(
            Turn::TwoIn(9),
            Life {
                synced: 9,
                flushed: 9,
                turned: 510,
                unread: 1,
                bad: 1,
                steps: ALL,
                ..QUIET
            },
        )],
    },
];

// Turns a bit of a chunk, or of its code: the one of this number, modulo how many it has.
fn turn_in(page: &mut [u8], chunk: &[(usize, usize)], number: usize) {
    let mut at = number % 67;
    for (from, to) in chunk {
        for byte in page.iter_mut().take(*to).skip(*from) {
            if at == 0 {
                *byte ^= 1 << (number % 8);
                return;
            }
            at -= 1;
        }
    }
}

// Turns bits of a page.
fn turn_page(page: &mut [u8], turn: Turn, row: usize) {
    let two = match turn {
        Turn::OfEach => false,
        Turn::None => return,
        Turn::TwoIn(filled) => page.iter().take(DATA).all(|byte| *byte == filled),
    };
    turn_in(page, DATA_CHUNK, row);
    if two {
        turn_in(page, DATA_CHUNK, row.wrapping_add(1));
    } else {
        turn_in(page, SPARE_CHUNK, row % 35);
    }
}

// Turns bits of a file.
fn turn_file(bytes: &mut [u8], turn: Turn) {
    for (row, page) in bytes.chunks_mut(PAGE).enumerate() {
        turn_page(page, turn, row);
    }
}

// The store over a file.
fn store_of(rt: &impl Abort, alloc: Global, bytes: Vec<u8>) -> CodedStore<MemoryBytes> {
    match CodedStore::new(alloc, small(rt), MemoryBytes::new(bytes)) {
        Ok(store) => store,
        Err(_) => panic!(rt; "no store"),
    }
}

// A disk once bits have turned in its file.
fn turned(rt: &impl Abort, alloc: Global, disk: CodedDisk, turn: Turn) -> CodedDisk {
    let Between {
        store,
        keeper,
        held,
    } = disk;
    let mut bytes = store.into_file().into_bytes();
    turn_file(&mut bytes, turn);
    Between {
        store: store_of(rt, alloc, bytes),
        keeper,
        held,
    }
}

// A new disk in a file.
fn new_disk(rt: &impl Abort, alloc: Global) -> CodedDisk {
    let bytes = vec![in alloc; 0xFF; FILE].expect(rt, "a file");
    born(rt, alloc, store_of(rt, alloc, bytes), BEFORE)
}

// Holds a disk to a row.
fn hold_row(rt: &impl Abort, alloc: Global, row: &Row) {
    let mut disk = new_disk(rt, alloc);
    for (at, (turn, life)) in row.lives.iter().enumerate() {
        disk = live(rt, alloc, turned(rt, alloc, disk, *turn), life);
        hold_step(rt, disk.held, row.name, at);
    }
}

#[test]
fn turned_bits_are_turned_back(rt: HostRuntime) {
    for row in ROWS {
        hold_row(&rt, rt.alloc(), row);
    }
}
