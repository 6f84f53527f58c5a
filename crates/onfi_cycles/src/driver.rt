//! A die behind a bus.
ghost use Rattle.std.specs.Prelude.{◌≡◌, ◌<◌, ◌≤◌, true, [], ◌∷◌, ◌++◌, length, slice_get, is_ok, Some, IfOk, IfErr, OnOk, OnErr, MatchResult};
ghost use Rattle.page_layout.specs.Geometry.{row_count};
ghost use Rattle.page_layout.specs.Page.{page, IsImage};
ghost use Rattle.page_layout.specs.Counter.{counted, HasRisen};
ghost use Rattle.page_layout.specs.Recording.{Records, RecordsOrEnds, EndsAt, EndsIn, asked_program, asked_erase};
ghost use Rattle.page_layout.specs.Flash.{Program, Erase, Steps, page_at, block_at, IsWhole};
ghost use Rattle.onfi_cycles.specs.Cycles.{CycleStep, Command, IsCounted};
ghost use Rattle.onfi_cycles.specs.Spelling.{Taken, Spells, SpellsRead, program_cycles, erase_cycles, read_cycles, done, refused};
ghost use Rattle.onfi_cycles.specs.Sent.{Operates, SendsRead};
ghost use Rattle.onfi_cycles.specs.Outcomes.{is_passed, bus_fault_number, passed_in};
ghost use Rattle.onfi_cycles.specs.Called.{driver_called};
ghost use Rattle.page_layout.specs.DieCalls.{ReadCall, ProgramCall, EraseCall};
ghost use Rattle.onfi_cycles.specs.Driver.{flash_by, gained, cut_in, untouched};

use crate::spelling::{erase_block, fetch_page, program_page};
use crate::told::{BegunErase, BegunProgram, Erased, Programmed, Untouched};
use crate::{Bus, BusFault, Nand, Outcome};
use die_history::DieHistory;
use page_layout::geometry::Geometry;
use page_layout::source::{PageSource, SourceFault};
use std::marker::Model;

/// A die behind a bus: reads, programs and erases spelled as cycles. It counts what it was asked for, and each fault that it
/// answered; each count stays at 2^64 - 1 once there. Its record of what it did is for proofs alone and takes no memory: it begins with
/// the die as the driver found it, is told for good, and gains each operation that is answered `Ok`; one that a fault ended is at hand in
/// it. (The cycles are those of ONFI 1.0's basic commands.)
#[derive(Drop)]
pub struct Driver<B: Bus> {
    bus: B,
    history: DieHistory,
    geometry: Geometry,
    reads: u64,
    programs: u64,
    erases: u64,
    failures: u64,
}

impl<B: Bus> Model for Driver<B> {
    ghost use Rattle.std.specs.Prelude.{◌≡◌, ◌≤◌, true};
    ghost use Rattle.onfi_cycles.specs.Driver.{DriverState, IsReady};

    ghost Value = { DriverState B };

    ghost view = { λ d. record { bus = d.bus; told = d.history.told; geometry = d.geometry; reads = d.reads; programs = d.programs; erases = d.erases; failures = d.failures } };

    ghost invariant = { λ d. B.honest d.bus ≡ true → ((B.die d.bus).flash.geometry ≡ d.geometry) × IsReady (B.die d.bus).phase × (d.failures ≤ B.failed d.bus) };
}

impl<B: Bus> Driver<B> {
    /// Sends Reset, and is then ready. The geometry is that of the die behind the bus. A fault of the bus comes back with the bus;
    /// of an honest bus it is `Device`. (This project.)
    pub fn new(bus: B, geometry: Geometry) -> Result<Driver<B>, (B, BusFault)>
        requires geometry { B.honest bus ≡ true → (B.die bus).flash.geometry ≡ geometry }

        // Reset was sent, and nothing else: to any bus, and to an honest one as a step of the protocol.
        ensures sent { MatchResult result (λ driver. B.called bus (Command 0xFF) done [] driver.bus) (λ e. B.called bus (Command 0xFF) (refused e.1) [] e.0) }
        ensures reset { B.honest bus ≡ true → MatchResult result
            (λ driver. CycleStep (B.die bus) (Command 0xFF) done (B.die driver.bus))
            (λ e. CycleStep (B.die bus) (Command 0xFF) (refused e.1) (B.die e.0)) }
        ensures geometry { IfOk result (λ driver. driver.geometry ≡ geometry) }
        ensures flash { IfOk result (λ driver. B.honest bus ≡ true → flash_by B.die driver ≡ (B.die bus).flash) }

        // Its record begins with the die as it is. What the bus tells stays as it was.
        ensures told { IfOk result (λ driver. driver.told ≡ untouched (B.die driver.bus).flash) }
        ensures behind { IfOk result (λ driver. B.honest bus ≡ true → B.recorded driver.bus ≡ B.recorded bus) }

        // All counts begin at 0.
        ensures reads { IfOk result (λ driver. driver.reads ≡ 0) }
        ensures programs { IfOk result (λ driver. driver.programs ≡ 0) }
        ensures erases { IfOk result (λ driver. driver.erases ≡ 0) }
        ensures failures { IfOk result (λ driver. driver.failures ≡ 0) }

        // The bus is the one handed in, and fails only where its count of failures rose.
        ensures honest { MatchResult result (λ driver. B.honest driver.bus ≡ B.honest bus) (λ e. B.honest e.0 ≡ B.honest bus) }
        ensures calm { MatchResult result (λ driver. B.calm driver.bus ≡ B.calm bus) (λ e. B.calm e.0 ≡ B.calm bus) }
        ensures failed { MatchResult result (λ driver. B.failed bus ≤ B.failed driver.bus) (λ e. B.failed bus ≤ B.failed e.0) }
        ensures device { IfErr result (λ e. B.honest bus ≡ true → e.1 ≡ BusFault.Device) }
        ensures cause { IfErr result (λ e. B.honest bus ≡ true → HasRisen (B.failed bus) (B.failed e.0)) }
        // Device comes of any bus only so.
        ensures rose { IfErr result (λ e. IsCounted (B.failed bus) (B.failed e.0) e.1) }
    {
        let mut bus = bus;
        match bus.command(0xFF) {
            Ok(()) => {
                let history = DieHistory::of(&Untouched { bus: &bus });
                Ok(Driver {
                    bus,
                    history,
                    geometry,
                    reads: 0,
                    programs: 0,
                    erases: 0,
                    failures: 0,
                })
            }
            Err(fault) => Err((bus, fault)),
        }
    }

    /// Gives the bus back. Behind an honest one stands the driver's die: its geometry, its pages, the next pages of its blocks and its
    /// count of abuse. It has counted at least as many failures as the driver has answered faults. (This project.)
    pub fn into_bus(self) -> B
        ensures bus { result ≡ self.bus }
        ensures flash { B.honest self.bus ≡ true → (B.die result).flash ≡ flash_by B.die self }
        ensures counted { B.honest self.bus ≡ true → self.failures ≤ B.failed result }
    {
        let Driver {
            bus,
            history: _,
            geometry: _,
            reads: _,
            programs: _,
            erases: _,
            failures: _,
        } = self;
        bus
    }
}

impl<B: Bus> PageSource for Driver<B> {
    ghost view = { record {
      flash = λ d. flash_by B.die d;
      recorded = λ d. Some d.told;
      honest = λ d. B.honest d.bus;
      calm = λ d. B.calm d.bus;
      reads = λ d. d.reads;
      programs = λ d. d.programs;
      erases = λ d. d.erases;
      failed = λ d. d.failures;
      called = λ old call new. driver_called B.die B.honest B.called old call new;
    } };

    /// Reads a page: 00h, five address cycles with column 0, 30h, then `body` and `spare` out. A fault of the bus is answered by
    /// its number, 1 to 6; of an honest bus it is 6, the device's. After it the buffers hold anything. (ONFI 1.0, Read; the
    /// numbers are this project's.)
    fn read_page(&mut self, row: u32, body: &mut [u8], spare: &mut [u8]) -> Result<(), SourceFault>
        requires row_in { row < row_count self.old.geometry }
        requires body_whole { length body.old ≡ self.old.geometry.data_bytes }
        requires spare_whole { length spare.old ≡ self.old.geometry.spare_bytes }

        // What every source of pages promises.
        ensures called { driver_called B.die B.honest B.called self.old (ReadCall row (is_ok result)) self.new }
        ensures page { OnOk result (B.honest self.old.bus ≡ true → slice_get (B.die self.old.bus).flash.image row ≡ Some (page body.new spare.new)) }
        ensures same { OnOk result (B.honest self.old.bus ≡ true → flash_by B.die self.new ≡ flash_by B.die self.old) }
        ensures whole { OnOk result (B.honest self.old.bus ≡ true → IsImage self.new.geometry (B.die self.new.bus).flash.image) }
        ensures recorded { OnOk result (B.honest self.old.bus ≡ true → Some self.new.told ≡ Some self.old.told) }
        ensures cut { OnErr result (B.honest self.old.bus ≡ true → EndsAt [] (Some self.old.told) (Some self.new.told)) }
        ensures geometry { self.new.geometry ≡ self.old.geometry }
        ensures honest { B.honest self.new.bus ≡ B.honest self.old.bus }
        ensures calm { B.calm self.new.bus ≡ B.calm self.old.bus }
        ensures reads { self.new.reads ≡ counted self.old.reads }
        ensures programs { self.new.programs ≡ self.old.programs }
        ensures erases { self.new.erases ≡ self.old.erases }
        ensures failed { self.old.failures ≤ self.new.failures }
        ensures rose { OnErr result (HasRisen self.old.failures self.new.failures) }

        // The cycles sent to any bus, and what was put out; over an honest one they are steps of the protocol. Each fault is counted once.
        ensures sends { SendsRead B.called self.old.bus (read_cycles row self.old.geometry.data_bytes self.old.geometry.spare_bytes) (body.new ++ spare.new) result self.new.bus }
        ensures spells { B.honest self.old.bus ≡ true →
            SpellsRead (B.die self.old.bus) (read_cycles row self.old.geometry.data_bytes self.old.geometry.spare_bytes) result (B.die self.new.bus) }
        ensures kept { OnOk result (self.new.failures ≡ self.old.failures) }
        ensures counts { OnErr result (self.new.failures ≡ counted self.old.failures) }

        // Its own record stays as it was, and so does what the bus tells.
        ensures told { self.new.told ≡ self.old.told }
        ensures behind { OnOk result (B.honest self.old.bus ≡ true → B.recorded self.new.bus ≡ B.recorded self.old.bus) }

        // The number is that of the bus's fault. An honest bus fails only by its device, which it counts.
        ensures number { IfErr result (λ e. (fault : BusFault) × (e.0 ≡ bus_fault_number fault) × IsCounted (B.failed self.old.bus) (B.failed self.new.bus) fault) }
        ensures device { IfErr result (λ e. B.honest self.old.bus ≡ true → e.0 ≡ bus_fault_number BusFault.Device) }
        ensures cause { OnErr result (B.honest self.old.bus ≡ true → HasRisen (B.failed self.old.bus) (B.failed self.new.bus)) }
    {
        self.reads = self.reads.saturating_add(1);
        match fetch_page(&mut self.bus, row, body, spare) {
            Ok(()) => Ok(()),
            Err(fault) => {
                self.failures = self.failures.saturating_add(1);
                Err(SourceFault(fault.number()))
            }
        }
    }

    /// The faults answered so far. The count stays at 2^64 - 1 once there.
    fn failures(&self) -> u64 {
        self.failures
    }
}

impl<B: Bus> Nand for Driver<B> {
    /// Programs a page: 80h, five address cycles with column 0, `body` and `spare` in, 10h, then 70h and one status byte out. A
    /// fault is the bus's, or `Device` for a status of no finished operation; of an honest bus it is `Device`. After it nothing
    /// is known of the pages. (ONFI 1.0, Page Program and Read Status.)
    fn program(&mut self, row: u32, body: &[u8], spare: &[u8]) -> Result<Outcome, BusFault>
        requires row_in { row < row_count self.old.geometry }
        requires body_whole { length body.now ≡ self.old.geometry.data_bytes }
        requires spare_whole { length spare.now ≡ self.old.geometry.spare_bytes }

        // What every die promises.
        ensures called { driver_called B.die B.honest B.called self.old (ProgramCall row (page body.now spare.now) (passed_in result)) self.new }
        ensures step { IfOk result (λ outcome. B.honest self.old.bus ≡ true →
            Steps (flash_by B.die self.old) (Program row (page body.now spare.now) (is_passed outcome) (page_at (flash_by B.die self.new) row)) (flash_by B.die self.new)) }
        ensures recorded { IfOk result (λ outcome. B.honest self.old.bus ≡ true →
            Records (Some self.old.told) (Program row (page body.now spare.now) (is_passed outcome) (page_at (flash_by B.die self.new) row) ∷ []) (Some self.new.told)) }
        ensures cut { OnErr result (B.honest self.old.bus ≡ true → EndsIn (asked_program row (page body.now spare.now)) (Some self.old.told) (Some self.new.told)) }
        ensures whole { OnOk result (B.honest self.old.bus ≡ true → IsWhole (flash_by B.die self.new)) }
        ensures geometry { self.new.geometry ≡ self.old.geometry }
        ensures honest { B.honest self.new.bus ≡ B.honest self.old.bus }
        ensures calm { B.calm self.new.bus ≡ B.calm self.old.bus }
        ensures reads { self.new.reads ≡ self.old.reads }
        ensures programs { self.new.programs ≡ counted self.old.programs }
        ensures erases { self.new.erases ≡ self.old.erases }
        ensures failed { self.old.failures ≤ self.new.failures }
        ensures rose { OnErr result (HasRisen self.old.failures self.new.failures) }

        // The cycles sent to any bus, and its status byte, which alone decides the answer; over an honest one they are steps of the
        // protocol. Each fault is counted once.
        ensures sends { Operates B.called self.old.bus (program_cycles row body.now spare.now) result self.new.bus }
        ensures spells { B.honest self.old.bus ≡ true → Spells (B.die self.old.bus) (program_cycles row body.now spare.now) result (B.die self.new.bus) }
        ensures kept { OnOk result (self.new.failures ≡ self.old.failures) }
        ensures counts { OnErr result (self.new.failures ≡ counted self.old.failures) }

        // Its own record gains the operation just where it was answered, over any bus, and else has it at hand; what an honest bus tells gains it
        // too, or ends.
        ensures told { MatchResult result
            (λ outcome. self.new.told ≡ gained (Program row (page body.now spare.now) (is_passed outcome) (page_at (flash_by B.die self.new) row)) self.old.told)
            (λ fault. self.new.told ≡ cut_in (asked_program row (page body.now spare.now)) self.old.told) }
        ensures behind { IfOk result (λ outcome. B.honest self.old.bus ≡ true →
            RecordsOrEnds (B.recorded self.old.bus) (Program row (page body.now spare.now) (is_passed outcome) (page_at (flash_by B.die self.new) row) ∷ []) (B.recorded self.new.bus)) }

        // An honest bus fails only by its device, which it counts.
        ensures device { IfErr result (λ fault. B.honest self.old.bus ≡ true → fault ≡ BusFault.Device) }
        ensures cause { OnErr result (B.honest self.old.bus ≡ true → HasRisen (B.failed self.old.bus) (B.failed self.new.bus)) }
    {
        self.programs = self.programs.saturating_add(1);
        match program_page(&mut self.bus, row, body, spare) {
            Ok(outcome) => {
                let history = DieHistory::of(&Programmed {
                    before: &self.history,
                    bus: &self.bus,
                    row,
                    body,
                    spare,
                    outcome,
                });
                self.history = history;
                Ok(outcome)
            }
            Err(fault) => {
                self.failures = self.failures.saturating_add(1);
                let history = DieHistory::of(&BegunProgram {
                    before: &self.history,
                    row,
                    body,
                    spare,
                });
                self.history = history;
                Err(fault)
            }
        }
    }

    /// Erases a block: 60h, three row cycles of its page 0, D0h, then 70h and one status byte out. A fault is the bus's, or `Device`
    /// for a status of no finished operation; of an honest bus it is `Device`. After it nothing is known of the pages. (ONFI 1.0,
    /// Block Erase and Read Status.)
    fn erase(&mut self, block: u32) -> Result<Outcome, BusFault>
        requires block_in { block < self.old.geometry.blocks }

        // What every die promises.
        ensures called { driver_called B.die B.honest B.called self.old (EraseCall block (passed_in result)) self.new }
        ensures step { IfOk result (λ outcome. B.honest self.old.bus ≡ true →
            Steps (flash_by B.die self.old) (Erase block (is_passed outcome) (block_at (flash_by B.die self.new) block)) (flash_by B.die self.new)) }
        ensures recorded { IfOk result (λ outcome. B.honest self.old.bus ≡ true →
            Records (Some self.old.told) (Erase block (is_passed outcome) (block_at (flash_by B.die self.new) block) ∷ []) (Some self.new.told)) }
        ensures cut { OnErr result (B.honest self.old.bus ≡ true → EndsIn (asked_erase self.old.geometry block) (Some self.old.told) (Some self.new.told)) }
        ensures whole { OnOk result (B.honest self.old.bus ≡ true → IsWhole (flash_by B.die self.new)) }
        ensures geometry { self.new.geometry ≡ self.old.geometry }
        ensures honest { B.honest self.new.bus ≡ B.honest self.old.bus }
        ensures calm { B.calm self.new.bus ≡ B.calm self.old.bus }
        ensures reads { self.new.reads ≡ self.old.reads }
        ensures programs { self.new.programs ≡ self.old.programs }
        ensures erases { self.new.erases ≡ counted self.old.erases }
        ensures failed { self.old.failures ≤ self.new.failures }
        ensures rose { OnErr result (HasRisen self.old.failures self.new.failures) }

        // The cycles sent to any bus, and its status byte, which alone decides the answer; over an honest one they are steps of the
        // protocol. Each fault is counted once.
        ensures sends { Operates B.called self.old.bus (erase_cycles self.old.geometry block) result self.new.bus }
        ensures spells { B.honest self.old.bus ≡ true → Spells (B.die self.old.bus) (erase_cycles self.old.geometry block) result (B.die self.new.bus) }
        ensures kept { OnOk result (self.new.failures ≡ self.old.failures) }
        ensures counts { OnErr result (self.new.failures ≡ counted self.old.failures) }

        // Its own record gains the operation just where it was answered, over any bus, and else has it at hand; what an honest bus tells gains it
        // too, or ends.
        ensures told { MatchResult result
            (λ outcome. self.new.told ≡ gained (Erase block (is_passed outcome) (block_at (flash_by B.die self.new) block)) self.old.told)
            (λ fault. self.new.told ≡ cut_in (asked_erase self.old.geometry block) self.old.told) }
        ensures behind { IfOk result (λ outcome. B.honest self.old.bus ≡ true →
            RecordsOrEnds (B.recorded self.old.bus) (Erase block (is_passed outcome) (block_at (flash_by B.die self.new) block) ∷ []) (B.recorded self.new.bus)) }

        // An honest bus fails only by its device, which it counts.
        ensures device { IfErr result (λ fault. B.honest self.old.bus ≡ true → fault ≡ BusFault.Device) }
        ensures cause { OnErr result (B.honest self.old.bus ≡ true → HasRisen (B.failed self.old.bus) (B.failed self.new.bus)) }
    {
        self.erases = self.erases.saturating_add(1);
        match erase_block(&mut self.bus, &self.geometry, block) {
            Ok(outcome) => {
                let history = DieHistory::of(&Erased {
                    before: &self.history,
                    bus: &self.bus,
                    geometry: self.geometry,
                    block,
                    outcome,
                });
                self.history = history;
                Ok(outcome)
            }
            Err(fault) => {
                self.failures = self.failures.saturating_add(1);
                let history = DieHistory::of(&BegunErase {
                    before: &self.history,
                    geometry: self.geometry,
                    block,
                });
                self.history = history;
                Err(fault)
            }
        }
    }
}
