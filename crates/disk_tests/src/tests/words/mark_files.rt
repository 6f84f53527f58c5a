//! The file of a mark, as a disk's files are synced.

use crate::tests::hold_true;
use disk_commands::{FileSyncs, FoundMark, MARK_BYTES, MarkFile, mark_of, none_found, put_blank};
use disk_server::{SyncMark, Syncs};
use file_die::{ByteFault, ByteFile, MemoryBytes};
use std::alloc::Global;
use std::process::Abort;

// A file in memory, of which a call fails: the write or the sync of this number, from 1 on; none where that is 0.
#[derive(Drop)]
struct FailingBytes {
    bytes: MemoryBytes,
    write: u32,
    sync: u32,
}

impl FailingBytes {
    // Counts down to the call that is to fail, and answers whether this is it.
    fn fails(count: &mut u32) -> bool {
        if *count == 0 {
            return false;
        }
        *count -= 1;
        *count == 0
    }
}

impl ByteFile for FailingBytes {
    ghost use Rattle.std.specs.Prelude.{false, [], ⊤};
    ghost use Rattle.file_die.specs.Bytes.{Bytes};

    ghost held = { λ _. record { bytes = []; durable = []; failed_syncs = 0 } };

    ghost honest = { λ _. false };

    ghost tells = { λ _ _ _. false };

    ghost gave = { λ _ _ _ _ _. ⊤ };

    ghost wrote = { λ _ _ _ _ _. ⊤ };

    ghost refused = { λ _ _ _. ⊤ };

    fn read_at(&mut self, to: &mut [u8], at: u64) -> Result<usize, ByteFault> {
        self.bytes.read_at(to, at)
    }

    fn write_at(&mut self, bytes: &[u8], at: u64) -> Result<usize, ByteFault> {
        if FailingBytes::fails(&mut self.write) {
            return Err(ByteFault::NoSpace);
        }
        self.bytes.write_at(bytes, at)
    }

    fn sync(&mut self) -> Result<(), ByteFault> {
        if FailingBytes::fails(&mut self.sync) {
            return Err(ByteFault::Other);
        }
        self.bytes.sync()
    }

    fn length(&mut self) -> Result<u64, ByteFault> {
        self.bytes.length()
    }
}

// A file of zeros of which these calls fail; 0 for none.
fn file_of(rt: &impl Abort, alloc: Global, size: usize, write: u32, sync: u32) -> FailingBytes {
    let bytes = vec![in alloc; 0u8; size].expect(rt, "a file");
    FailingBytes {
        bytes: MemoryBytes::new(bytes),
        write,
        sync,
    }
}

// Which call fails, of the die's file and of the mark's; by the answers to two syncs whether each was done; whether the mark's file is kept still, and the mark that is found in it then.
struct Row {
    name: &'static str,
    die_sync: u32,
    write: u32,
    sync: u32,
    done: [bool; 2],
    found: Option<(u64, u64, bool)>,
}

// The first sync is of all before sequence 5, and the second, of a flushed disk, of all before 9. The mark was found in the second slot.
static ROWS: &[Row] = &[
    Row {
        name: "the first mark stands in both slots, and later ones in the second",
        die_sync: 0,
        write: 0,
        sync: 0,
        done: [true, true],
        found: Some((9, 9, true)),
    },
    Row {
        name: "a mark is not ahead of its die",
        die_sync: 2,
        write: 0,
        sync: 0,
        done: [true, false],
        found: Some((5, 0, false)),
    },
    Row {
        name: "the first mark is not written where the die's sync fails",
        die_sync: 1,
        write: 0,
        sync: 0,
        done: [false, true],
        found: Some((9, 9, false)),
    },
    Row {
        name: "the first mark has to be written",
        die_sync: 0,
        write: 1,
        sync: 0,
        done: [false, true],
        found: None,
    },
    Row {
        name: "and to last",
        die_sync: 0,
        write: 0,
        sync: 1,
        done: [false, true],
        found: None,
    },
    Row {
        name: "a later one that is not written is the last",
        die_sync: 0,
        write: 3,
        sync: 0,
        done: [true, true],
        found: None,
    },
];

// What a file holds.
fn bytes_in(file: FailingBytes) -> Vec<u8> {
    let FailingBytes { bytes, .. } = file;
    bytes.into_bytes()
}

// The bytes of a file that holds no mark.
fn blank_bytes(rt: &impl Abort, alloc: Global) -> Vec<u8> {
    let mut file = file_of(rt, alloc, MARK_BYTES, 0, 0);
    let put = put_blank(alloc, &mut file).is_ok();
    hold_true(rt, put, "a blank file");
    bytes_in(file)
}

// The files of a disk whose mark was found in the second slot of a file of these bytes.
fn syncs_of(rt: &impl Abort, alloc: Global, row: &Row, bytes: Vec<u8>) -> FileSyncs<FailingBytes> {
    let file = FailingBytes {
        bytes: MemoryBytes::new(bytes),
        write: row.write,
        sync: row.sync,
    };
    let first = SyncMark {
        synced: 3,
        flushed: 0,
    };
    let die = file_of(rt, alloc, 0, 0, row.die_sync);
    FileSyncs::new(die).with_mark(Some(MarkFile::new(file, true)), first)
}

// The mark that is found in a file that is kept still.
fn found_in(kept: Option<MarkFile<FailingBytes>>) -> Option<FoundMark> {
    match kept {
        Some(kept) => Some(mark_of(Some(&bytes_in(kept.into_file())))),
        None => None,
    }
}

// The one that a row says.
fn wanted(row: &Row) -> Option<FoundMark> {
    match row.found {
        Some((synced, flushed, in_second)) => Some(FoundMark {
            mark: SyncMark { synced, flushed },
            in_second,
        }),
        None => None,
    }
}

// Whether two syncs of these files are as a row says.
fn syncs_so(mut syncs: FileSyncs<FailingBytes>, row: &Row) -> bool {
    let done = [syncs.sync(5, false).is_ok(), syncs.sync(9, true).is_ok()];
    done == row.done && found_in(syncs.into_mark_file()) == wanted(row)
}

// Whether a row is as it says.
fn holds(rt: &impl Abort, alloc: Global, row: &Row) -> bool {
    let blank = blank_bytes(rt, alloc);
    let holds_none = mark_of(Some(&blank)) == none_found();
    hold_true(rt, holds_none, "a blank file");
    syncs_so(syncs_of(rt, alloc, row, blank), row)
}

#[test]
fn marks_follow_their_syncs(rt: HostRuntime) {
    for row in ROWS {
        let holds = holds(&rt, rt.alloc(), row);
        hold_true(&rt, holds, row.name);
    }
}

// A file of so many bytes, of which these calls fail, and why it is not taken.
static REFUSED: &[(usize, u32, u32, &str)] = &[
    (MARK_BYTES - 1, 0, 0, "too short"),
    (MARK_BYTES, 1, 0, "not written"),
    (MARK_BYTES, 0, 1, "not synced"),
];

#[test]
fn blank_file_wants_room_and_a_sync(rt: HostRuntime) {
    for (size, write, sync, why) in REFUSED {
        let mut file = file_of(&rt, rt.alloc(), *size, *write, *sync);
        let refused = put_blank(rt.alloc(), &mut file).is_err();
        hold_true(&rt, refused, why);
    }
}
