//! The file of a mark, by what its two slots hold.

use crate::tests::{hold_at, hold_true};
use disk_commands::{FoundMark, MARK_BYTES, mark_of, none_found, slot_bytes};
use disk_server::SyncMark;
use std::alloc::Global;
use std::process::Abort;

const SLOT: usize = 32;

const SECOND: usize = 4096;

// What a slot holds: no mark, this one, or one that is written over another, up to so many bytes.
#[derive(Clone, Copy)]
enum Slot {
    Blank,
    Whole(u64, u64),
    Torn(u64, u64, usize),
}

// Two slots, and the mark that is found, with its slot; none where both hold none.
static ROWS: &[(Slot, Slot, Option<(u64, u64, bool)>)] = &[
    (Slot::Blank, Slot::Blank, None),
    (Slot::Whole(7, 5), Slot::Blank, Some((7, 5, false))),
    (Slot::Blank, Slot::Whole(7, 5), Some((7, 5, true))),
    (Slot::Whole(7, 5), Slot::Whole(9, 5), Some((9, 5, true))),
    (Slot::Whole(9, 5), Slot::Whole(7, 5), Some((9, 5, false))),
    (Slot::Whole(9, 5), Slot::Whole(9, 9), Some((9, 5, false))),
    // 255 and 256 differ in two bytes
    (
        Slot::Torn(255, 256, 0),
        Slot::Whole(7, 5),
        Some((255, 0, false)),
    ),
    (
        Slot::Torn(255, 256, 1),
        Slot::Whole(7, 5),
        Some((7, 5, true)),
    ),
    (
        Slot::Torn(255, 256, 9),
        Slot::Whole(7, 5),
        Some((7, 5, true)),
    ),
    (
        Slot::Torn(255, 256, 10),
        Slot::Whole(7, 5),
        Some((256, 0, false)),
    ),
    (
        Slot::Whole(7, 5),
        Slot::Torn(255, 256, 2),
        Some((7, 5, false)),
    ),
    (Slot::Torn(255, 256, 1), Slot::Torn(255, 256, 1), None),
];

// The slot of a mark.
fn slot_of(synced: u64, flushed: u64) -> [u8; SLOT] {
    slot_bytes(SyncMark { synced, flushed })
}

// The bytes of a slot.
fn bytes_of(slot: Slot) -> [u8; SLOT] {
    match slot {
        Slot::Blank => {
            let mut blank = [0; SLOT];
            blank[0] = 1;
            blank
        }
        Slot::Whole(synced, flushed) => slot_of(synced, flushed),
        Slot::Torn(old, new, count) => torn(&slot_of(old, 0), &slot_of(new, 0), count),
    }
}

// The first bytes of a slot behind which the others are of another.
fn torn(old: &[u8; SLOT], new: &[u8; SLOT], count: usize) -> [u8; SLOT] {
    let mut bytes = *old;
    for place in 0..SLOT {
        if place < count {
            bytes[place] = new[place];
        }
    }
    bytes
}

// The file of two slots.
fn file_of(rt: &impl Abort, alloc: Global, first: Slot, second: Slot) -> Vec<u8> {
    let mut bytes = vec![in alloc; 0u8; MARK_BYTES].expect(rt, "a file");
    bytes[..SLOT].copy_from_slice(&bytes_of(first));
    bytes[SECOND..].copy_from_slice(&bytes_of(second));
    bytes
}

// What is found.
fn found_of(wanted: Option<(u64, u64, bool)>) -> FoundMark {
    match wanted {
        Some((synced, flushed, in_second)) => FoundMark {
            mark: SyncMark { synced, flushed },
            in_second,
        },
        None => none_found(),
    }
}

#[test]
fn marks_are_found(rt: HostRuntime) {
    for (at, (first, second, wanted)) in ROWS.iter().enumerate() {
        let bytes = file_of(&rt, rt.alloc(), *first, *second);
        hold_at(&rt, mark_of(Some(&bytes)) == found_of(*wanted), at);
    }
}

// The slot of the mark 258, 3.
static SPELLED: &[u8; SLOT] =
    b"\x02\x01\0\0\0\0\0\0\x02\x01\0\0\0\0\0\0\x03\0\0\0\0\0\0\0\x03\0\0\0\0\0\0\0";

#[test]
fn other_files_are_no_marks(rt: HostRuntime) {
    let none = none_found();
    hold_true(
        &rt,
        none.mark.synced == 18_446_744_073_709_551_615,
        "all counts as synced",
    );
    hold_true(&rt, none.mark.flushed == 0, "nothing counts as flushed");
    hold_true(&rt, mark_of(None) == none, "no file");
    hold_true(&rt, mark_of(Some(&slot_of(7, 5))) == none, "a slot alone");
    hold_true(&rt, slot_of(258, 3) == *SPELLED, "the bytes of a slot");
}
