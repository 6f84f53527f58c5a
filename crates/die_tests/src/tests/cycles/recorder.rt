//! A bus that writes down its cycles.
ghost use Rattle.std.specs.Prelude.{◌≡◌};
ghost use Rattle.nand_die.specs.Laws.{TellsLaw};

use super::hold;
use onfi_cycles::{Bus, BusFault};
use std::alloc::Global;
use std::process::Abort;

/// What a bus was handed or put out. Of data it has how many bytes, and the one that each of them is.
#[derive(Clone, Copy, PartialEq, Eq)]
pub enum Seen {
    Command(u8),
    Address(u8),
    In(usize, u8),
    Out(usize, u8),
    // Data with no byte, or with different ones.
    Mixed,
}

/// A program of row 8, with bytes 11h and 22h in its areas, up to its status.
pub const PROGRAM: &[Seen] = &[
    Seen::Command(0x80),
    Seen::Address(0),
    Seen::Address(0),
    Seen::Address(8),
    Seen::Address(0),
    Seen::Address(0),
    Seen::In(64, 0x11),
    Seen::In(32, 0x22),
    Seen::Command(0x10),
    Seen::Command(0x70),
];

/// An erase of the block of row 8 up to its status.
pub const ERASE: &[Seen] = &[
    Seen::Command(0x60),
    Seen::Address(8),
    Seen::Address(0),
    Seen::Address(0),
    Seen::Command(0xD0),
    Seen::Command(0x70),
];

/// A page read of row 8 up to its data.
pub const READ: &[Seen] = &[
    Seen::Command(0x00),
    Seen::Address(0),
    Seen::Address(0),
    Seen::Address(8),
    Seen::Address(0),
    Seen::Address(0),
    Seen::Command(0x30),
];

/// The status that says that it passed, and the one that says that it failed.
pub const STATUS_PASSED: &[Seen] = &[Seen::Out(1, 0xE0)];

pub const STATUS_FAILED: &[Seen] = &[Seen::Out(1, 0xE1)];

/// A bus that writes down the cycles of another.
#[derive(Drop)]
pub struct Recorder<B: Bus> {
    bus: B,
    seen: Vec<Seen>,
}

// The byte that each of these is.
fn repeated(bytes: &[u8]) -> Option<u8> {
    let first = *bytes.first()?;
    for byte in bytes {
        if *byte != first {
            return None;
        }
    }
    Some(first)
}

fn data_in(bytes: &[u8]) -> Seen {
    match repeated(bytes) {
        Some(byte) => Seen::In(bytes.len(), byte),
        None => Seen::Mixed,
    }
}

fn data_out(bytes: &[u8]) -> Seen {
    match repeated(bytes) {
        Some(byte) => Seen::Out(bytes.len(), byte),
        None => Seen::Mixed,
    }
}

impl<B: Bus> Recorder<B> {
    pub fn new(alloc: Global, bus: B) -> Recorder<B>
        ensures { result.bus ≡ bus }
    {
        let seen = Vec::new(alloc);
        Recorder { bus, seen }
    }

    // A cycle that finds no memory is missing in the notes.
    fn note(&mut self, seen: Seen)
        ensures { self.new.bus ≡ self.old.bus }
    {
        let _ = self.seen.push(seen);
    }
}

impl<B: Bus> Bus for Recorder<B> {
    ghost die = { λ recorder. B.die recorder.bus };

    ghost honest = { λ recorder. B.honest recorder.bus };

    ghost failed = { λ recorder. B.failed recorder.bus };

    ghost calm = { λ recorder. B.calm recorder.bus };

    ghost recorded = { λ recorder. B.recorded recorder.bus };

    ghost called = { λ old cycle answer out new. B.called old.bus cycle answer out new.bus };

    fn command(&mut self, code: u8) -> Result<(), BusFault> {
        self.note(Seen::Command(code));
        self.bus.command(code)
    }

    fn address(&mut self, byte: u8) -> Result<(), BusFault> {
        self.note(Seen::Address(byte));
        self.bus.address(byte)
    }

    fn data_in(&mut self, bytes: &[u8]) -> Result<(), BusFault> {
        self.note(data_in(bytes));
        self.bus.data_in(bytes)
    }

    fn data_out(&mut self, bytes: &mut [u8]) -> Result<(), BusFault> {
        let answer = self.bus.data_out(bytes);
        self.note(data_out(bytes));
        answer
    }

    fn failures(&self) -> u64 {
        self.bus.failures()
    }
}

/// A law: what it tells of programs and erases is what the bus behind it tells.
pub fn recorder_laws<B: Bus>()
    ensures tells { TellsLaw (λ recorder. recorder.bus) ⟦<Recorder<B> as Bus>⟧.recorded B.recorded }
{}

// The Reset of a new driver, and the cycles of all parts.
fn all_of(rt: &impl Abort, alloc: Global, parts: &[&[Seen]]) -> Vec<Seen> {
    let mut all = vec![in alloc; Seen::Command(0xFF); 1].expect(rt, "a list");
    for part in parts {
        all.extend_from_slice(part).expect(rt, "a list");
    }
    all
}

/// Gives the bus back, after the Reset of a new driver and then just these cycles.
pub fn after_cycles<B: Bus>(
    rt: &impl Abort,
    alloc: Global,
    recorder: Recorder<B>,
    name: &str,
    parts: &[&[Seen]],
) -> B {
    let Recorder { bus, seen } = recorder;
    hold(rt, seen == all_of(rt, alloc, parts), name);
    bus
}
