//! A bus that notes the cycles of a die in memory, and the cycles that operations have.
ghost use Rattle.std.specs.Prelude.{◌≡◌};
ghost use Rattle.nand_die.specs.Laws.{TellsLaw};

use nand_die::Die;
use onfi_cycles::{Bus, BusFault};
use std::alloc::{AllocError, Global};

/// A cycle of a bus. Of data in and data out it has the count of bytes, of a single byte out the byte.
#[derive(Clone, Copy, Debug, PartialEq)]
pub enum Cycle {
    Command(u8),
    Address(u8),
    In(usize),
    Out(usize),
    Byte(u8),
}

/// A die in memory behind a bus that notes its cycles.
#[derive(Drop)]
pub struct Recorder {
    pub die: Die,
    pub seen: Vec<Cycle>,
}

impl Recorder {
    /// Notes the cycles from here on.
    pub fn new(alloc: Global, die: Die) -> Recorder {
        let seen = Vec::new(alloc);
        Recorder { die, seen }
    }

    // A cycle that finds no memory is missing in the notes.
    fn note(&mut self, cycle: Cycle)
        ensures { self.new.die ≡ self.old.die }
    {
        let _ = self.seen.push(cycle);
    }
}

// No promise is made of it, so that nothing which is proved over it rests on what the die answers.
impl Bus for Recorder {
    ghost use Rattle.std.specs.Prelude.{false};

    ghost die = { λ bus. bus.die.state };

    ghost honest = { λ _. false };

    ghost failed = { λ bus. bus.die.failures };

    ghost recorded = { λ bus. bus.die.recorded };

    fn command(&mut self, code: u8) -> Result<(), BusFault> {
        self.note(Cycle::Command(code));
        self.die.command(code)
    }

    fn address(&mut self, byte: u8) -> Result<(), BusFault> {
        self.note(Cycle::Address(byte));
        self.die.address(byte)
    }

    fn data_in(&mut self, bytes: &[u8]) -> Result<(), BusFault> {
        self.note(Cycle::In(bytes.len()));
        self.die.data_in(bytes)
    }

    fn data_out(&mut self, bytes: &mut [u8]) -> Result<(), BusFault> {
        let answer = self.die.data_out(bytes);
        self.note(match bytes {
            [byte] => Cycle::Byte(*byte),
            _ => Cycle::Out(bytes.len()),
        });
        answer
    }

    fn failures(&self) -> u64 {
        self.die.failures()
    }
}

/// A law: what it tells of programs and erases is what its die tells. Of a bus of which no promise is made that claims nothing.
pub fn recorder_laws()
    ensures tells { TellsLaw (λ bus. bus.die) ⟦<Recorder as Bus>⟧.recorded ⟦<Die as Bus>⟧.recorded }
{}

/// Programs, page reads and erases, of rows below 256. A program and an erase end with their status byte.
pub enum Operation {
    /// A row, and the status byte.
    Program(u8, u8),
    /// Programs of rows from the first on, so far apart, so many, all with this status byte.
    Programs(u8, u8, u8, u8),
    /// A row.
    Read(u8),
    /// The row of a block's first page, and the status byte.
    Erase(u8, u8),
}

// Adds the command and the address cycles that begin an operation on a row.
fn add_address(cycles: &mut Vec<Cycle>, code: u8, row: u8) -> Result<(), AllocError> {
    cycles.extend_from_slice(&[
        Cycle::Command(code),
        Cycle::Address(0),
        Cycle::Address(0),
        Cycle::Address(row),
        Cycle::Address(0),
        Cycle::Address(0),
    ])
}

// Adds the cycles of a program.
fn add_program(cycles: &mut Vec<Cycle>, row: u8, status: u8) -> Result<(), AllocError> {
    add_address(cycles, 0x80, row)?;
    cycles.extend_from_slice(&[
        Cycle::In(64),
        Cycle::In(32),
        Cycle::Command(0x10),
        Cycle::Command(0x70),
        Cycle::Byte(status),
    ])
}

// Adds the cycles of programs.
fn add_programs(
    cycles: &mut Vec<Cycle>,
    first: u8,
    apart: u8,
    count: u8,
    status: u8,
) -> Result<(), AllocError> {
    for nth in 0..count {
        add_program(cycles, first.wrapping_add(apart.wrapping_mul(nth)), status)?;
    }
    Ok(())
}

// Adds the cycles of an erase.
fn add_erase(cycles: &mut Vec<Cycle>, row: u8, status: u8) -> Result<(), AllocError> {
    cycles.extend_from_slice(&[
        Cycle::Command(0x60),
        Cycle::Address(row),
        Cycle::Address(0),
        Cycle::Address(0),
        Cycle::Command(0xD0),
        Cycle::Command(0x70),
        Cycle::Byte(status),
    ])
}

// Adds the cycles of an operation.
fn add_cycles(cycles: &mut Vec<Cycle>, operation: &Operation) -> Result<(), AllocError> {
    match operation {
        Operation::Program(row, status) => add_program(cycles, *row, *status),
        Operation::Programs(first, apart, count, status) => {
            add_programs(cycles, *first, *apart, *count, *status)
        }
        Operation::Read(row) => {
            add_address(cycles, 0x00, *row)?;
            cycles.extend_from_slice(&[Cycle::Command(0x30), Cycle::Out(64), Cycle::Out(32)])
        }
        Operation::Erase(row, status) => add_erase(cycles, *row, *status),
    }
}

/// The cycles of Reset and these operations, with pages of 64 and 32 bytes.
///
/// # Errors
///
/// A growth was refused.
pub fn cycles_of(alloc: Global, operations: &[Operation]) -> Result<Vec<Cycle>, AllocError> {
    let mut cycles = Vec::new(alloc);
    cycles.push(Cycle::Command(0xFF))?;
    for operation in operations {
        add_cycles(&mut cycles, operation)?;
    }
    Ok(cycles)
}

/// These cycles without those of page reads.
///
/// # Errors
///
/// A growth was refused.
pub fn changes_of(alloc: Global, cycles: &[Cycle]) -> Result<Vec<Cycle>, AllocError> {
    let mut changes = Vec::new(alloc);
    let mut reading = false;
    for cycle in cycles {
        if let Cycle::Command(code) = cycle {
            reading = *code == 0x00 || *code == 0x30;
        }
        if !reading {
            changes.push(*cycle)?;
        }
    }
    Ok(changes)
}
