//! The die over a store in memory beside the die in memory: each cycle is answered alike, and puts out the same bytes.
use super::{erased, open, small, store_of};
use crate::tests::hold_at;
use file_die::{FileDie, MemoryStore, SyncWhen};
use nand_die::Die;
use onfi_cycles::{Bus, BusFault};
use std::alloc::Global;
use std::process::Abort;

// A command and its address cycles.
type Open = (u8, &'static [u8]);

const READ: Open = (0x00, &[0; 5]);

const PUT_OUT: Open = (0x30, &[]);

const PROGRAM: Open = (0x80, &[0; 5]);

// How a die comes to each phase from its Reset on.
static PHASES: &[&[Open]] = &[
    &[],
    &[(0x00, &[])],
    &[(0x00, &[0; 2])],
    &[(0x00, &[0; 4])],
    &[READ],
    &[READ, PUT_OUT],
    &[READ, PUT_OUT, (0x05, &[])],
    &[READ, PUT_OUT, (0x05, &[3])],
    &[READ, PUT_OUT, (0x05, &[3, 0])],
    &[READ, PUT_OUT, (0x05, &[3, 0]), (0xE0, &[])],
    &[(0x80, &[])],
    &[(0x80, &[0; 3])],
    &[PROGRAM],
    &[PROGRAM, (0x85, &[])],
    &[PROGRAM, (0x85, &[3, 0])],
    &[(0x60, &[])],
    &[(0x60, &[0; 3])],
    &[(0x90, &[])],
    &[(0x90, &[0x20])],
    &[(0x90, &[0x00])],
    &[(0x70, &[])],
    &[(0x17, &[])],
];

// What is sent before the cycle that is looked at.
#[derive(Clone, Copy)]
enum Before {
    Nothing,
    In,
    Out,
    PastTheEnd,
}

static BEFORE: &[Before] = &[Before::Nothing, Before::In, Before::Out, Before::PastTheEnd];

// The answers of a bus after its Reset: to the phase's cycles, to what is sent before, and to the cycle; and what it put out.
type Answers = (
    Result<(), BusFault>,
    Result<(), BusFault>,
    Result<(), BusFault>,
    [u8; 100],
);

fn send_before<B: Bus>(bus: &mut B, before: Before, out: &mut [u8; 100]) -> Result<(), BusFault> {
    match before {
        Before::Nothing => Ok(()),
        Before::In => bus.data_in(&[0x5A; 5]),
        Before::Out => bus.data_out(&mut out[..2]),
        Before::PastTheEnd => bus.data_out(out),
    }
}

fn open_each<B: Bus>(bus: &mut B, phase: &[Open]) -> Result<(), BusFault> {
    bus.command(0xFF)?;
    for (code, addresses) in phase {
        open(bus, *code, addresses)?;
    }
    Ok(())
}

// A command in a phase, or an address cycle.
fn answers<B: Bus>(
    bus: &mut B,
    phase: &[Open],
    before: Before,
    command: bool,
    byte: u8,
) -> Answers {
    let mut out = [0; 100];
    let opened = open_each(bus, phase);
    let sent = send_before(bus, before, &mut out);
    let answer = if command {
        bus.command(byte)
    } else {
        bus.address(byte)
    };
    (opened, sent, answer, out)
}

// Whether two buses answer alike to each command and each address cycle in a phase.
fn are_alike<A: Bus, B: Bus>(one: &mut A, other: &mut B, phase: &[Open], before: Before) -> bool {
    for byte in 0..=255 {
        for command in [true, false] {
            if answers(one, phase, before, command, byte)
                != answers(other, phase, before, command, byte)
            {
                return false;
            }
        }
    }
    true
}

// The page of a row.
fn page_of<B: Bus>(bus: &mut B, row: u8) -> Result<[u8; 96], BusFault> {
    let mut page = [0; 96];
    bus.command(0xFF)?;
    open(bus, 0x00, &[0, 0, row, 0, 0])?;
    bus.command(0x30)?;
    bus.data_out(&mut page)?;
    Ok(page)
}

fn hold_pages<A: Bus, B: Bus>(rt: &impl Abort, one: &mut A, other: &mut B) {
    for row in 0..=255 {
        let alike = page_of(one, row) == page_of(other, row);
        hold_at(rt, alike, usize::from(row));
    }
}

fn file_die(rt: &impl Abort, alloc: Global) -> FileDie<MemoryStore> {
    let store = store_of(rt, small(rt), erased(rt, alloc));
    match FileDie::open(alloc, store, &[], SyncWhen::Always) {
        Ok(die) => die,
        Err(_) => panic!(rt; "no die"),
    }
}

// Holds two buses to each other in a phase.
fn hold_phase<A: Bus, B: Bus>(
    rt: &impl Abort,
    one: &mut A,
    other: &mut B,
    number: usize,
    phase: &[Open],
) {
    for before in BEFORE {
        let alike = are_alike(one, other, phase, *before);
        hold_at(rt, alike, number);
    }
}

fn hold_phases<A: Bus, B: Bus>(rt: &impl Abort, one: &mut A, other: &mut B) {
    for (number, phase) in PHASES.iter().enumerate() {
        hold_phase(rt, one, other, number, phase);
    }
}

#[test]
fn each_cycle_in_each_phase(rt: HostRuntime) {
    let mut die = Die::new(rt.alloc(), small(&rt), &[]).expect(&rt, "a die");
    let mut over = file_die(&rt, rt.alloc());
    hold_phases(&rt, &mut die, &mut over);
    hold_pages(&rt, &mut die, &mut over);
}
