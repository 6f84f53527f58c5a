//! Helpers of the tests: stores of 32 blocks of 8 pages of 64 and 32 bytes, and pages by single cycles of any bus.
ghost use Rattle.std.specs.Prelude.{◌≡◌};

mod alike;
mod coded;
mod failing;
mod lives;
mod noting;
mod opened;
mod torn;

use crate::tests::hold_step;
use file_die::MemoryStore;
use onfi_cycles::{Bus, BusFault};
use page_layout::geometry::Geometry;
use std::alloc::Global;
use std::process::Abort;

fn small(rt: &impl Abort) -> Geometry {
    Geometry::new(64, 32, 8, 32, 32).expect(rt, "a geometry within the limits")
}

// A store of these bytes.
fn store_of(rt: &impl Abort, geometry: Geometry, bytes: Vec<u8>) -> MemoryStore {
    MemoryStore::new(geometry, bytes).expect(rt, "a store")
}

// The bytes of a die that was never programmed.
fn erased(rt: &impl Abort, alloc: Global) -> Vec<u8> {
    vec![in alloc; 0xFF; 24576].expect(rt, "an image")
}

/// A program of a row with one byte, an erase of the block of a row, or a page read of a row.
#[derive(Clone, Copy)]
pub enum Ask {
    Program(u8, u8),
    Erase(u8),
    Read(u8),
}

/// What comes of it: the status, the byte that fills the page, or the device's fault.
#[derive(Clone, Copy, PartialEq, Eq)]
pub enum Answer {
    Status(u8),
    Filled(u8),
    // Another page, or another fault.
    Other,
    Fault,
}

/// A command and its address cycles.
pub fn open<B: Bus>(bus: &mut B, code: u8, addresses: &[u8]) -> Result<(), BusFault> {
    bus.command(code)?;
    for byte in addresses {
        bus.address(*byte)?;
    }
    Ok(())
}

fn status<B: Bus>(bus: &mut B) -> Result<Answer, BusFault> {
    let mut byte = [0];
    bus.command(0x70)?;
    bus.data_out(&mut byte)?;
    Ok(Answer::Status(byte[0]))
}

fn program<B: Bus>(bus: &mut B, row: u8, byte: u8) -> Result<Answer, BusFault> {
    open(bus, 0x80, &[0, 0, row, 0, 0])?;
    bus.data_in(&[byte; 96])?;
    bus.command(0x10)?;
    status(bus)
}

fn erase<B: Bus>(bus: &mut B, row: u8) -> Result<Answer, BusFault> {
    open(bus, 0x60, &[row, 0, 0])?;
    bus.command(0xD0)?;
    status(bus)
}

fn read<B: Bus>(bus: &mut B, row: u8) -> Result<Answer, BusFault> {
    let mut page = [0; 96];
    open(bus, 0x00, &[0, 0, row, 0, 0])?;
    bus.command(0x30)?;
    bus.data_out(&mut page)?;
    if page == [page[0]; 96] {
        Ok(Answer::Filled(page[0]))
    } else {
        Ok(Answer::Other)
    }
}

/// What a bus answers.
pub fn answer_of<B: Bus>(bus: &mut B, call: Ask) -> Answer {
    let answer = match call {
        Ask::Program(row, byte) => program(bus, row, byte),
        Ask::Erase(row) => erase(bus, row),
        Ask::Read(row) => read(bus, row),
    };
    match answer {
        Ok(answer) => answer,
        Err(BusFault::Device) => Answer::Fault,
        Err(_) => Answer::Other,
    }
}

/// Holds a bus to its answers, one after another.
pub fn hold<B: Bus>(rt: &impl Abort, bus: &mut B, row: &str, asked: &[(Ask, Answer)]) {
    for (step, (call, want)) in asked.iter().enumerate() {
        let same = answer_of(bus, *call) == *want;
        hold_step(rt, same, row, step);
    }
}
