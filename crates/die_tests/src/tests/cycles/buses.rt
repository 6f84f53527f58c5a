//! The two buses for tests round a new die, call by call.
use super::steps::{Cycle, send};
use super::{hold, new_die, small};
use nand_die::{CycleFuse, Garble};
use onfi_cycles::{Bus, BusFault};
use std::alloc::Global;
use std::process::Abort;

/// A call, and what comes of it.
#[derive(Clone, Copy)]
enum Call {
    // A cycle, and its answer.
    Cycle(Cycle, Result<(), BusFault>),
    // Data out in one call, byte by byte.
    Out(&'static [u8]),
    // How many cycles the device has failed.
    Failures(u64),
}

const OK: Result<(), BusFault> = Ok(());

const DEVICE: Result<(), BusFault> = Err(BusFault::Device);

const RESET: Call = Call::Cycle(Cycle::Command(0xFF), OK);

const IDENTIFY: Call = Call::Cycle(Cycle::Command(0x90), OK);

const AT_20: Call = Call::Cycle(Cycle::Address(0x20), OK);

const AT_20_FAILS: Call = Call::Cycle(Cycle::Address(0x20), DEVICE);

const ONFI: Call = Call::Out(&[0x4F, 0x4E, 0x46, 0x49]);

// How many calls are handed on, how many fail then, and the calls.
type Fuse = (&'static str, u64, u64, &'static [Call]);

static FUSES: [Fuse; 4] = [
    // The calls that fail do not come to the die, which waits for the address.
    (
        "two fail after two",
        2,
        2,
        &[
            RESET,
            IDENTIFY,
            Call::Failures(0),
            AT_20_FAILS,
            Call::Failures(1),
            AT_20_FAILS,
            Call::Failures(2),
            AT_20,
            ONFI,
            Call::Failures(2),
        ],
    ),
    (
        "the first fails",
        0,
        1,
        &[
            Call::Cycle(Cycle::Command(0xFF), DEVICE),
            Call::Cycle(Cycle::Command(0x70), Err(BusFault::NoReset)),
            RESET,
            Call::Failures(1),
        ],
    ),
    (
        "data fails both ways",
        0,
        2,
        &[
            Call::Cycle(Cycle::In(&[1]), DEVICE),
            Call::Cycle(Cycle::Out(1), DEVICE),
            RESET,
            Call::Failures(2),
        ],
    ),
    (
        "none fails",
        1,
        0,
        &[RESET, IDENTIFY, AT_20, ONFI, Call::Failures(0)],
    ),
];

// Which data out is garbled, counted from 1, in which byte, by which mask, and the calls.
type Garbled = (&'static str, u64, usize, u8, &'static [Call]);

static GARBLES: [Garbled; 5] = [
    (
        "one byte of the second piece",
        2,
        1,
        0x80,
        &[
            RESET,
            IDENTIFY,
            AT_20,
            Call::Out(&[0x4F, 0x4E]),
            Call::Out(&[0x46, 0xC9]),
            IDENTIFY,
            AT_20,
            ONFI,
            Call::Failures(0),
        ],
    ),
    (
        "the last byte of the first piece",
        1,
        3,
        0xFF,
        &[RESET, IDENTIFY, AT_20, Call::Out(&[0x4F, 0x4E, 0x46, 0xB6])],
    ),
    (
        "a piece that is too short",
        1,
        2,
        0xFF,
        &[
            RESET,
            IDENTIFY,
            AT_20,
            Call::Out(&[0x4F, 0x4E]),
            Call::Out(&[0x46, 0x49]),
        ],
    ),
    (
        "a refused piece counts",
        1,
        0,
        0xFF,
        &[
            RESET,
            Call::Cycle(Cycle::Out(1), Err(BusFault::OutOfTurn)),
            IDENTIFY,
            AT_20,
            ONFI,
        ],
    ),
    (
        "number 0 never comes",
        0,
        0,
        0xFF,
        &[
            RESET,
            IDENTIFY,
            AT_20,
            Call::Out(&[0x4F]),
            Call::Out(&[0x4E]),
        ],
    ),
];

// Whether a bus puts out just these bytes in one cycle.
fn puts_out<B: Bus>(bus: &mut B, want: &[u8]) -> bool {
    let mut bytes = [0; 96];
    match bytes.get_mut(..want.len()) {
        Some(out) => bus.data_out(out) == Ok(()) && *out == *want,
        None => false,
    }
}

// Whether a call is answered so.
fn answers<B: Bus>(bus: &mut B, call: Call) -> bool {
    match call {
        Call::Cycle(cycle, want) => send(bus, cycle) == want,
        Call::Out(want) => puts_out(bus, want),
        Call::Failures(count) => bus.failures() == count,
    }
}

// A bus after these calls.
fn called<B: Bus + Drop>(rt: &impl Abort, mut bus: B, calls: &[Call], row: &str) -> B {
    for (step, call) in calls.iter().enumerate() {
        assert!(rt; answers(&mut bus, *call), "{row}: step {step}");
    }
    bus
}

// The faults that a die counts once a fuse before it was called.
fn faults_behind_a_fuse(rt: &impl Abort, alloc: Global, row: &Fuse) -> u64 {
    let (name, passed, failing, calls) = *row;
    let die = new_die(rt, alloc, small(rt), &[]);
    let fuse = called(rt, CycleFuse::new(die, passed, failing), calls, name);
    fuse.into_bus().failures()
}

// After the calls the die is handed back as it is.
#[test]
fn a_fuse_fails_for_a_while(rt: HostRuntime) {
    for row in &FUSES {
        hold(&rt, faults_behind_a_fuse(&rt, rt.alloc(), row) == 0, row.0);
    }
}

// The programs and erases of a die once a garble before it was called.
fn changes_behind_a_garble(rt: &impl Abort, alloc: Global, row: &Garbled) -> u64 {
    let (name, nth_out, byte, mask, calls) = *row;
    let die = new_die(rt, alloc, small(rt), &[]);
    let garble = called(rt, Garble::new(die, nth_out, byte, mask), calls, name);
    garble.into_bus().changes()
}

#[test]
fn a_garble_turns_bits_once(rt: HostRuntime) {
    for row in &GARBLES {
        hold(
            &rt,
            changes_behind_a_garble(&rt, rt.alloc(), row) == 0,
            row.0,
        );
    }
}
