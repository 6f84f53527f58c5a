//! Buses for tests: what a driver and all above it meet that the die behind them is not to blame for.
ghost use Rattle.std.specs.Prelude.{◌≡◌, ◌+◌, ◌-◌, ◌^◌, false, min, if◌then◌else◌};
ghost use Rattle.nand_die.specs.Buses.{is_blown, garbled, with_outs};

use onfi_cycles::{Bus, BusFault};
use std::marker::Model;

/// A bus that breaks down for a while: it hands on so many calls, answers `Device` to the next ones without handing them on,
/// and then hands on again. Nothing is promised of the die behind it. (This project.)
#[derive(Drop)]
pub struct CycleFuse<B: Bus> {
    bus: B,
    passed: u64,
    failing: u64,
    failures: u64,
}

impl<B: Bus> Model for CycleFuse<B> {
    ghost use Rattle.nand_die.specs.Buses.{FuseState};

    ghost Value = { FuseState B };

    ghost view = { λ f. record { bus = f.bus; passed = f.passed; failing = f.failing; failures = f.failures } };
}

impl<B: Bus> CycleFuse<B> {
    ghost use Rattle.nand_die.specs.Buses.{FuseState};
    ghost use Rattle.page_layout.specs.Counter.{counted};

    /// Round a bus: `passed` calls are handed on from now, the next `failing` ones fail, and then all are handed on.
    pub fn new(bus: B, passed: u64, failing: u64) -> CycleFuse<B>
        ensures { result ≡ record { bus = bus; passed = passed; failing = failing; failures = 0 } }
    {
        CycleFuse {
            bus,
            passed,
            failing,
            failures: 0,
        }
    }

    /// Gives the bus back.
    pub fn into_bus(self) -> B
        ensures { result ≡ self.bus }
    {
        let CycleFuse {
            bus,
            passed: _,
            failing: _,
            failures: _,
        } = self;
        bus
    }

    // Whether this call fails. It counts the call.
    fn blows(&mut self) -> bool
        ensures is { result ≡ is_blown self.old }
        ensures new { self.new ≡ (if is_blown self.old
            then record { bus = self.old.bus; passed = self.old.passed; failing = self.old.failing - 1; failures = counted self.old.failures }
            else record { bus = self.old.bus; passed = self.old.passed - 1; failing = self.old.failing; failures = self.old.failures }) }
    {
        if self.passed > 0 {
            self.passed -= 1;
            return false;
        }
        if self.failing == 0 {
            return false;
        }
        self.failing -= 1;
        self.failures = self.failures.saturating_add(1);
        true
    }
}

impl<B: Bus> Bus for CycleFuse<B> {
    ghost use Rattle.nand_die.specs.Buses.{Fused};

    ghost die = { λ f. B.die f.bus };

    ghost honest = { λ _. false };

    ghost failed = { λ f. min (B.failed f.bus + f.failures) (2 ^ 64 - 1) };

    // Calls that fail never come to the bus, so its record is true of it all the same.
    ghost recorded = { λ f. B.recorded f.bus };

    // Which calls fail.
    ghost called = { λ old cycle answer out new. Fused B.called old cycle answer out new };

    fn command(&mut self, code: u8) -> Result<(), BusFault> {
        if self.blows() {
            return Err(BusFault::Device);
        }
        self.bus.command(code)
    }

    fn address(&mut self, byte: u8) -> Result<(), BusFault> {
        if self.blows() {
            return Err(BusFault::Device);
        }
        self.bus.address(byte)
    }

    fn data_in(&mut self, bytes: &[u8]) -> Result<(), BusFault> {
        if self.blows() {
            return Err(BusFault::Device);
        }
        self.bus.data_in(bytes)
    }

    fn data_out(&mut self, bytes: &mut [u8]) -> Result<(), BusFault> {
        if self.blows() {
            return Err(BusFault::Device);
        }
        self.bus.data_out(bytes)
    }

    /// The failures of the bus and its own together.
    fn failures(&self) -> u64 {
        self.bus.failures().saturating_add(self.failures)
    }
}

/// A bus on whose way out one byte is garbled, once. It is never honest. (This project.)
#[derive(Drop)]
pub struct Garble<B: Bus> {
    bus: B,
    outs: u64,
    byte: usize,
    mask: u8,
}

impl<B: Bus> Model for Garble<B> {
    ghost use Rattle.nand_die.specs.Buses.{GarbleState};

    ghost Value = { GarbleState B };

    ghost view = { λ g. record { bus = g.bus; outs = g.outs; byte = g.byte; mask = g.mask } };
}

impl<B: Bus> Garble<B> {
    ghost use Rattle.nand_die.specs.Buses.{GarbleState};

    /// Round a bus: in the nth data out from now, counted from 1, the byte numbered `byte` is combined with `mask` by exclusive
    /// or, where so many bytes are put out. Number 0 never comes.
    pub fn new(bus: B, nth_out: u64, byte: usize, mask: u8) -> Garble<B>
        ensures { result ≡ record { bus = bus; outs = nth_out; byte = byte; mask = mask } }
    {
        Garble {
            bus,
            outs: nth_out,
            byte,
            mask,
        }
    }

    /// Gives the bus back.
    pub fn into_bus(self) -> B
        ensures { result ≡ self.bus }
    {
        let Garble {
            bus,
            outs: _,
            byte: _,
            mask: _,
        } = self;
        bus
    }

    // Garbles a piece where it is the one. It counts the piece.
    fn garble(&mut self, bytes: &mut [u8])
        ensures out { bytes.new ≡ garbled self.old bytes.old }
        ensures new { self.new ≡ with_outs self.old (self.old.outs - 1) self.old.bus }
    {
        if self.outs == 1 && self.byte < bytes.len() {
            bytes[self.byte] = bytes[self.byte] ^ self.mask;
        }
        self.outs = self.outs.saturating_sub(1);
    }
}

impl<B: Bus> Bus for Garble<B> {
    ghost use Rattle.nand_die.specs.Buses.{Garbled};

    ghost die = { λ g. B.die g.bus };

    ghost honest = { λ _. false };

    ghost failed = { λ g. B.failed g.bus };

    ghost recorded = { λ g. B.recorded g.bus };

    // What comes of a piece that is put out.
    ghost called = { λ old cycle answer out new. Garbled B.called old cycle answer out new };

    fn command(&mut self, code: u8) -> Result<(), BusFault> {
        self.bus.command(code)
    }

    fn address(&mut self, byte: u8) -> Result<(), BusFault> {
        self.bus.address(byte)
    }

    fn data_in(&mut self, bytes: &[u8]) -> Result<(), BusFault> {
        self.bus.data_in(bytes)
    }

    fn data_out(&mut self, bytes: &mut [u8]) -> Result<(), BusFault> {
        let answer = self.bus.data_out(bytes);
        self.garble(bytes);
        answer
    }

    fn failures(&self) -> u64 {
        self.bus.failures()
    }
}
