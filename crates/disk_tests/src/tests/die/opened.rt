//! Dies over stores that hold pages, and stores over which none is opened.
use super::noting::{Call, Noting};
use super::{Answer, Ask, erased, hold};
use crate::tests::{hold_at, hold_true};
use file_die::{FileDie, OpenDieFault, Store, SyncWhen};
use onfi_cycles::{Bus, BusFault};
use std::alloc::Global;
use std::process::Abort;

const PASSED: Answer = Answer::Status(0xE0);

const FAILED: Answer = Answer::Status(0xE1);

// Rows 8 and 10, with row 9 erased between them, and one byte of row 16.
static WRITTEN: &[(usize, u8)] = &[(8 * 96, 0x11), (10 * 96 + 95, 0x22), (16 * 96 + 64, 0x33)];

fn written(rt: &impl Abort, alloc: Global) -> Vec<u8> {
    let mut image = erased(rt, alloc);
    for (place, byte) in WRITTEN {
        if let Some(byte_there) = image.get_mut(*place) {
            *byte_there = *byte;
        }
    }
    image
}

// The next pages are 0 of block 0, 3 of block 1 and 1 of block 2, which is bad, as block 31.
static ASKED: &[(Ask, Answer)] = &[
    (Ask::Program(9, 0x11), FAILED),
    (Ask::Program(11, 0x11), PASSED),
    (Ask::Read(11), Answer::Filled(0x11)),
    (Ask::Program(0, 0x11), PASSED),
    (Ask::Program(17, 0x11), FAILED),
    (Ask::Erase(255), FAILED),
    (Ask::Read(8), Answer::Other),
];

// A die over a store of those bytes.
fn die_over(rt: &impl Abort, alloc: Global, bad: &[u32]) -> FileDie<Noting> {
    let store = Noting::of(rt, alloc, written(rt, alloc), 0);
    match FileDie::open(alloc, store, bad, SyncWhen::Erases) {
        Ok(die) => die,
        Err(_) => panic!(rt; "no die"),
    }
}

// Holds a bus to its first commands.
fn hold_reset<B: Bus>(rt: &impl Abort, bus: &mut B) {
    let early = bus.command(0x00) == Err(BusFault::NoReset);
    hold_true(rt, early, "no Reset yet");
    let reset = bus.command(0xFF) == Ok(());
    hold_true(rt, reset, "a Reset");
}

#[test]
fn a_die_goes_on_where_it_stopped(rt: HostRuntime) {
    let mut die = die_over(&rt, rt.alloc(), &[2, 31]);
    hold_reset(&rt, &mut die);
    hold(&rt, &mut die, "a die that goes on", ASKED);
}

// Each block is read from its last page down to one that is not erased.
static LOADED: &[Call] = &[
    Call::Load(15),
    Call::Load(14),
    Call::Load(13),
    Call::Load(12),
    Call::Load(11),
    Call::Load(10),
    Call::Load(23),
];

#[test]
fn pages_that_are_looked_at(rt: HostRuntime) {
    let store = die_over(&rt, rt.alloc(), &[]).into_store();
    let ends = store.calls().get(8..15) == Some(LOADED);
    hold_true(&rt, ends, "the blocks' ends");
    hold_true(&rt, store.calls().len() == 254, "each page once");
}

// The call at which the store fails, the blocks named bad, the fault, the calls and the failures.
static REFUSED: &[(usize, &[u32], OpenDieFault, usize, u64)] = &[
    (0, &[3, 3], OpenDieFault::BadBlock { block: 3 }, 0, 0),
    (0, &[31, 32, 31], OpenDieFault::BadBlock { block: 32 }, 0, 0),
    (1, &[], OpenDieFault::Store, 1, 1),
    (8, &[3], OpenDieFault::Store, 8, 1),
    (254, &[3], OpenDieFault::Store, 254, 1),
];

// Whether no die is opened, with this fault, these calls and failures.
fn is_refused(
    rt: &impl Abort,
    alloc: Global,
    fails_at: usize,
    bad: &[u32],
    fault: OpenDieFault,
    calls: usize,
    failures: u64,
) -> bool {
    let store = Noting::of(rt, alloc, written(rt, alloc), fails_at);
    match FileDie::open(alloc, store, bad, SyncWhen::Erases) {
        Ok(_) => false,
        Err((store, found)) => {
            found == fault && store.calls().len() == calls && store.failures() == failures
        }
    }
}

#[test]
fn stores_that_are_refused(rt: HostRuntime) {
    for (row, (fails_at, bad, fault, calls, failures)) in REFUSED.iter().enumerate() {
        let refused = is_refused(&rt, rt.alloc(), *fails_at, bad, *fault, *calls, *failures);
        hold_at(&rt, refused, row);
    }
}
