//! The array of a die in memory, and what it does at each cycle.
ghost use Rattle.std.specs.Prelude.{◌≡◌, ◌==◌, ◌<◌, ◌*◌, ℕ, true, false, List, length, map, IfOk, IfErr, OnOk, OnErr, if◌then◌else◌};
ghost use Rattle.page_layout.specs.Geometry.{row_count, page_bytes};
ghost use Rattle.page_layout.specs.Raw.{raw_bytes, raw_image};
ghost use Rattle.page_layout.specs.Counter.{counted};
ghost use Rattle.onfi_cycles.specs.Cycles.{Programs, Erases, Refuses, Loading, page_of, command_due, address_due, data_in_due, data_out_due, bytes_out};
ghost use Rattle.page_layout.specs.Flash.{page_at, block_at};
ghost use Rattle.nand_die.specs.Tape.{pages_of};
ghost use Rattle.nand_die.specs.BusState.{IsProtocolFault};

use crate::array::{block_slice, image_length, page_length, page_slice, write_page};
use crate::bus_state::{AddressStep, BusState, CommandStep, OutputSource};
use crate::change::{Change, NextPage, erase_into, program_into, program_is_due};
use crate::cycle_step::{address_step, command_step, data_place};
use crate::data_out::{page_put_out, put_out_at};
use crate::fault::{DieFault, Fault, Mark};
use crate::make::{blank, copy_of, loaded_next_pages, marked_next_pages};
use crate::strike::{check_faults, next_strike};
use onfi_cycles::BusFault;
use page_layout::geometry::Geometry;
use std::alloc::Global;
use std::marker::Model;

// How many programs and erases were illegal, were asked for since the faults were set, and were asked for in all.
#[derive(Clone, Copy)]
pub struct ChangeCounts {
    pub abuse: u64,
    pub asked: u64,
    pub changes: u64,
}

// The counts after a program or an erase.
fn counts_after(counts: ChangeCounts, change: Change) -> ChangeCounts
    ensures abuse { result.abuse ≡ (if change.legal then counts.abuse else counted counts.abuse) }
    ensures asked { result.asked ≡ counted counts.asked }
    ensures changes { result.changes ≡ counted counts.changes }
{
    ChangeCounts {
        abuse: if change.legal {
            counts.abuse
        } else {
            counts.abuse.saturating_add(1)
        },
        asked: counts.asked.saturating_add(1),
        changes: counts.changes.saturating_add(1),
    }
}

// The program or the erase that a command does, if one: of a program the row and the page that was handed in.
pub enum Job<'a> {
    Program { row: u32, page: &'a [u8] },
    Erase { block: u32 },
    Other,
}

// What a die in memory is but for its stop and its record: an honest bus that never answers `Device`.
#[derive(Drop)]
pub struct Chip {
    geometry: Geometry,
    bytes: Vec<u8>,
    register: Vec<u8>,
    next_pages: Vec<NextPage>,
    bus_state: BusState,
    passed: bool,
    faults: Vec<Fault>,
    counts: ChangeCounts,
}

impl Model for Chip {
    ghost use Rattle.onfi_cycles.specs.Cycles.{status_of};
    ghost use Rattle.nand_die.specs.BusState.{phase_of};
    ghost use Rattle.nand_die.specs.NextPages.{flash_of};
    ghost use Rattle.nand_die.specs.ChipValue.{ChipValue, AreFields};

    ghost Value = { ChipValue };

    ghost view = { λ d. record {
      state = record { flash = flash_of d.geometry d.bytes.items d.next_pages.items d.counts.abuse; phase = phase_of d.register.items d.bus_state; status = status_of d.passed };
      faults = d.faults.items;
      asked = d.counts.asked;
      changes = d.counts.changes;
    } };

    ghost invariant = { λ d. AreFields d.geometry d.bytes.items d.register.items d.next_pages.items d.bus_state d.faults.items };
}

impl Chip {
    ghost use Rattle.page_layout.specs.Page.{IsImage};
    ghost use Rattle.nand_die.specs.ChipValue.{ChipValue, Acts, fresh};
    ghost use Rattle.nand_die.specs.Stopping.{quit, is_change, missed, torn_image, with_image};
    ghost use Rattle.nand_die.specs.Jobs.{IsJob};
    ghost use Rattle.nand_die.specs.Faults.{ArePagesLeft, HasFirstWrong};
    ghost use Rattle.nand_die.specs.NextPages.{flash_of};
    ghost use Rattle.nand_die.specs.Made.{AreNames, marked_blocks, new_flash, loaded_flash, RefusesMarks, RefusesImage};

    fn of(
        alloc: Global,
        geometry: Geometry,
        bytes: Vec<u8>,
        next_pages: Vec<NextPage>,
    ) -> Result<Chip, DieFault>
        requires whole { length bytes.items ≡ row_count geometry * page_bytes geometry }
        requires blocks { length next_pages.items ≡ geometry.blocks }
        ensures made { IfOk result (λ chip. chip ≡ fresh (flash_of geometry bytes.items next_pages.items 0)) }
        ensures err { IfErr result (λ fault. fault ≡ DieFault.OutOfMemory) }
    {
        let register = blank(alloc, page_length(&geometry))?;
        Ok(Chip {
            geometry,
            bytes,
            register,
            next_pages,
            bus_state: BusState::Unreset,
            passed: true,
            faults: Vec::new(alloc),
            counts: ChangeCounts {
                abuse: 0,
                asked: 0,
                changes: 0,
            },
        })
    }

    // A new die with these marks.
    pub(crate) fn new(alloc: Global, geometry: Geometry, marks: &[Mark]) -> Result<Chip, DieFault>
        ensures made { IfOk result (λ chip. chip ≡ fresh (new_flash geometry marks.now)) }
        ensures named { OnOk result (AreNames geometry (marked_blocks marks.now)) }
        ensures err { IfErr result (RefusesMarks geometry marks.now) }
    {
        let mut bytes = blank(alloc, image_length(&geometry))?;
        let next_pages = marked_next_pages(alloc, &mut bytes, &geometry, marks)?;
        Chip::of(alloc, geometry, bytes, next_pages)
    }

    // A die that holds a raw image, with these bad blocks.
    pub(crate) fn from_image(
        alloc: Global,
        geometry: Geometry,
        image: &[u8],
        bad: &[u32],
    ) -> Result<Chip, DieFault>
        ensures made { IfOk result (λ chip. chip ≡ fresh (loaded_flash geometry image.now bad.now)) }
        ensures whole { OnOk result (length image.now ≡ row_count geometry * page_bytes geometry) }
        ensures named { OnOk result (AreNames geometry bad.now) }
        ensures err { IfErr result (RefusesImage geometry image.now bad.now) }
    {
        if image.len() != image_length(&geometry) {
            return Err(DieFault::WrongLength);
        }
        let next_pages = loaded_next_pages(alloc, &geometry, image, bad)?;
        let bytes = copy_of(alloc, image)?;
        Chip::of(alloc, geometry, bytes, next_pages)
    }

    // The programs and erases so far that were illegal.
    pub(crate) fn abuse(&self) -> u64
        ensures { result ≡ self.now.state.flash.abuse }
    {
        self.counts.abuse
    }

    // The programs and erases so far.
    pub(crate) fn changes(&self) -> u64
        ensures { result ≡ self.now.changes }
    {
        self.counts.changes
    }

    // Writes the raw image out.
    pub(crate) fn image_into(&self, out: &mut [u8])
        requires whole { length out.old ≡ row_count self.now.state.flash.geometry * page_bytes self.now.state.flash.geometry }
        ensures bytes { out.new ≡ raw_bytes self.now.state.flash.image }
        ensures pages { raw_image self.now.state.flash.geometry out.new ≡ self.now.state.flash.image }
    {
        out.copy_from_slice(self.bytes.as_slice());
    }

    // Sets the programs and erases that are to fail.
    pub(crate) fn set_faults(&mut self, faults: Vec<Fault>) -> Result<(), DieFault>
        ensures ok { OnOk result (self.new ≡ record { state = self.old.state; faults = faults.items; asked = 0; changes = self.old.changes }) }
        ensures left { OnOk result (ArePagesLeft self.old.state.flash.geometry faults.items) }
        ensures err { IfErr result (HasFirstWrong self.old.state.flash.geometry faults.items) }
        ensures kept { OnErr result (self.new ≡ self.old) }
    {
        check_faults(&self.geometry, faults.as_slice())?;
        self.faults = faults;
        self.counts.asked = 0;
        Ok(())
    }

    // The geometry that it was made with.
    pub(crate) fn geometry(&self) -> Geometry
        ensures { result ≡ self.now.state.flash.geometry }
    {
        self.geometry
    }

    // Gives up the unfinished command, and does nothing else.
    pub(crate) fn give_up(&mut self)
        ensures new { self.new ≡ quit self.old }
        ensures whole { IsImage self.new.state.flash.geometry self.new.state.flash.image }
    {
        self.bus_state = self.bus_state.given_up();
    }

    // Counts a program or an erase that was asked for and not done.
    pub(crate) fn miss(&mut self)
        ensures { self.new ≡ missed self.old }
    {
        self.counts.changes = self.counts.changes.saturating_add(1);
    }

    // The image.
    pub(crate) fn image(&self) -> &[u8]
        ensures { raw_image self.now.state.flash.geometry result.now ≡ self.now.state.flash.image }
    {
        self.bytes.as_slice()
    }

    // The page of a row.
    pub(crate) fn page(&self, row: u32) -> &[u8]
        requires { row < row_count self.now.state.flash.geometry }
        ensures page { page_at self.now.state.flash row ≡ page_of self.now.state.flash.geometry result.now }
        ensures size { length result.now ≡ page_bytes self.now.state.flash.geometry }
    {
        page_slice(self.bytes.as_slice(), &self.geometry, row)
    }

    // The pages of a block.
    pub(crate) fn block(&self, block: u32) -> &[u8]
        requires { block < self.now.state.flash.geometry.blocks }
        ensures pages { block_at self.now.state.flash block ≡ pages_of self.now.state.flash.geometry self.now.state.flash.geometry.pages result.now }
        ensures size { length result.now ≡ self.now.state.flash.geometry.pages * page_bytes self.now.state.flash.geometry }
    {
        block_slice(self.bytes.as_slice(), &self.geometry, block)
    }

    // Whether the last program or erase passed, by the status.
    pub(crate) fn passed(&self) -> bool
        ensures { result ≡ (self.now.state.status == 0xE0) }
    {
        self.passed
    }

    // The program or the erase that a command does.
    #[tactic(auto, unfolding(onfi_cycles::specs::Cycles::command_due))]
    pub(crate) fn job(&self, code: u8) -> Job<'_>
        ensures { IsJob self.now.state.flash.geometry result (command_due self.now.state.flash.geometry self.now.state.phase code) }
    {
        match command_step(&self.geometry, self.bus_state, code) {
            CommandStep::Programs { row } => Job::Program {
                row,
                page: self.register.as_slice(),
            },
            CommandStep::Erases { block } => Job::Erase { block },
            CommandStep::Moves(_) => Job::Other,
            CommandStep::Resets => Job::Other,
            CommandStep::Refuses(_) => Job::Other,
        }
    }

    // Whether a command does a program or an erase.
    #[tactic(auto, unfolding(onfi_cycles::specs::Cycles::command_due))]
    pub(crate) fn confirms(&self, code: u8) -> bool
        ensures { result ≡ is_change (command_due self.now.state.flash.geometry self.now.state.phase code) }
    {
        match command_step(&self.geometry, self.bus_state, code) {
            CommandStep::Programs { row: _ } => true,
            CommandStep::Erases { block: _ } => true,
            CommandStep::Moves(_) => false,
            CommandStep::Resets => false,
            CommandStep::Refuses(_) => false,
        }
    }

    // Leaves a page where the program or the erase that a command does would change one, if it is legal.
    pub(crate) fn tear(&mut self, code: u8, page: &[u8])
        requires { length page.now ≡ page_bytes self.old.state.flash.geometry }
        ensures { self.new ≡ with_image (torn_image (command_due self.old.state.flash.geometry self.old.state.phase code) self.old.state.flash (page_of self.old.state.flash.geometry page.now)) self.old }
    {
        match command_step(&self.geometry, self.bus_state, code) {
            CommandStep::Programs { row } => {
                if program_is_due(&self.next_pages, &self.geometry, row) {
                    write_page(&mut self.bytes, &self.geometry, row, page);
                }
            }
            CommandStep::Erases { block } => {
                if !self.next_pages[block as usize].barred {
                    write_page(
                        &mut self.bytes,
                        &self.geometry,
                        self.geometry.row(block, 0),
                        page,
                    );
                }
            }
            CommandStep::Moves(_) => {}
            CommandStep::Resets => {}
            CommandStep::Refuses(_) => {}
        }
    }

    // Gives up the unfinished command.
    fn refuse(&mut self, fault: BusFault) -> Result<(), BusFault>
        requires { IsProtocolFault fault }
        ensures { Acts (Refuses fault) self.old self.new result }
    {
        self.bus_state = self.bus_state.given_up();
        Err(fault)
    }

    // The program that a confirm cycle asks for.
    fn confirm_program(&mut self, row: u32) -> Result<(), BusFault>
        requires in_range { row < row_count self.old.state.flash.geometry }
        ensures { (register : List ℕ) (column : ℕ) → self.old.state.phase ≡ Loading row column register →
            Acts (Programs row (page_of self.old.state.flash.geometry register)) self.old self.new result }
    {
        let strike = next_strike(self.faults.as_slice(), self.counts.asked);
        let change = program_into(
            &mut self.bytes,
            &mut self.next_pages,
            &self.geometry,
            row,
            &self.register,
            strike,
        );
        self.counts = counts_after(self.counts, change);
        self.passed = change.passed;
        self.bus_state = BusState::Ready(OutputSource::Nothing);
        Ok(())
    }

    // The erase that a confirm cycle asks for.
    fn confirm_erase(&mut self, block: u32) -> Result<(), BusFault>
        requires in_range { block < self.old.state.flash.geometry.blocks }
        ensures { Acts (Erases block) self.old self.new result }
    {
        let strike = next_strike(self.faults.as_slice(), self.counts.asked);
        let change = erase_into(
            &mut self.bytes,
            &mut self.next_pages,
            &self.geometry,
            block,
            strike,
        );
        self.counts = counts_after(self.counts, change);
        self.passed = change.passed;
        self.bus_state = BusState::Ready(OutputSource::Nothing);
        Ok(())
    }

    pub(crate) fn command(&mut self, code: u8) -> Result<(), BusFault>
        ensures { Acts (command_due self.old.state.flash.geometry self.old.state.phase code) self.old self.new result }
    {
        match command_step(&self.geometry, self.bus_state, code) {
            CommandStep::Moves(to) => {
                self.bus_state = to;
                Ok(())
            }
            CommandStep::Resets => {
                self.passed = true;
                self.bus_state = BusState::Ready(OutputSource::Nothing);
                Ok(())
            }
            CommandStep::Programs { row } => self.confirm_program(row),
            CommandStep::Erases { block } => self.confirm_erase(block),
            CommandStep::Refuses(fault) => self.refuse(fault),
        }
    }

    pub(crate) fn address(&mut self, byte: u8) -> Result<(), BusFault>
        ensures acts { Acts (address_due self.old.state.flash.geometry self.old.state.phase byte) self.old self.new result }
        ensures quiet { is_change (address_due self.old.state.flash.geometry self.old.state.phase byte) ≡ false }
    {
        match address_step(&self.geometry, self.bus_state, byte) {
            AddressStep::Moves(to) => {
                self.bus_state = to;
                Ok(())
            }
            AddressStep::Loads { row, column } => {
                self.register.as_mut_slice().fill(0xFF);
                self.bus_state = BusState::Loading { row, column };
                Ok(())
            }
            AddressStep::Refuses(fault) => self.refuse(fault),
        }
    }

    pub(crate) fn data_in(&mut self, bytes: &[u8]) -> Result<(), BusFault>
        ensures acts { Acts (data_in_due self.old.state.flash.geometry self.old.state.phase bytes.now) self.old self.new result }
        ensures quiet { is_change (data_in_due self.old.state.flash.geometry self.old.state.phase bytes.now) ≡ false }
    {
        match data_place(&self.geometry, self.bus_state, bytes.len()) {
            Ok((row, column)) => {
                let end = column as usize + bytes.len();
                self.register[column as usize..end].copy_from_slice(bytes);
                self.bus_state = BusState::Loading {
                    row,
                    column: end as u32,
                };
                Ok(())
            }
            Err(fault) => self.refuse(fault),
        }
    }

    pub(crate) fn data_out(&mut self, bytes: &mut [u8]) -> Result<(), BusFault>
        ensures acts { Acts (data_out_due self.old.state.flash.geometry self.old.state.phase (length bytes.old)) self.old self.new result }
        ensures quiet { is_change (data_out_due self.old.state.flash.geometry self.old.state.phase (length bytes.old)) ≡ false }
        ensures out { OnOk result (bytes.new ≡ bytes_out self.old.state self.old.state.phase (length bytes.old)) }
        ensures kept { OnErr result (bytes.new ≡ bytes.old) }
    {
        match put_out_at(
            &self.geometry,
            page_put_out(self.bytes.as_slice(), &self.geometry, self.bus_state),
            self.passed,
            self.bus_state,
            bytes,
        ) {
            Ok(next) => {
                self.bus_state = BusState::Ready(next);
                Ok(())
            }
            Err(fault) => self.refuse(fault),
        }
    }
}
