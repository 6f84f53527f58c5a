//! A die whose pages stand in a store.
ghost use Rattle.std.specs.Prelude.{◌≡◌, ◌<◌, ◌/◌, ℕ, List, Bool, true, length, get_or, is_ok, IfOk, IfErr, OnOk, OnErr, MatchResult};
ghost use Rattle.page_layout.specs.Geometry.{row_count};
ghost use Rattle.page_layout.specs.Flash.{no_next_page};
ghost use Rattle.onfi_cycles.specs.Cycles.{Ready, NoOutput, status_of, Moves, Programs, Erases, Refuses, Loading, page_of, command_due, address_due, data_in_due, data_out_due, bytes_out};
ghost use Rattle.nand_die.specs.BusState.{IsProtocolFault, IsWithin, phase_of};
ghost use Rattle.nand_die.specs.NextPages.{next_page_of};
ghost use Rattle.nand_die.specs.Made.{AreNames, first_next_pages, next_in};
ghost use Rattle.file_die.specs.Open.{newly_opened, OnlyLooks, IsCause, CountsAs, LeavesUnread};

use crate::asks;
use crate::open::{OpenDieFault, Parts, parts_of};
use crate::store::Store;
use nand_die::{
    AddressStep, BusState, Change, CommandStep, NextPage, OutputSource, address_step, change_of,
    command_step, data_place, erased, is_due, programmed, put_out_at,
};
use onfi_cycles::{Bus, BusFault};
use page_layout::geometry::Geometry;
use std::alloc::Global;
use std::marker::Model;

/// When a die syncs its store. Before and after each erase it does so in either case. (This project's.)
#[derive(Clone, Copy, Debug, PartialEq, Eq)]
pub enum SyncWhen {
    /// Before and after each erase alone.
    Erases,
    /// After each program too.
    Always,
}

/// A raw NAND die over a store, behind its bus. It holds two pages and the next page of each block, and never the image. Where the store fails
/// the cycle is answered `Device`, and the unfinished command is given up; of its pages is known then what the store says. (Commands and
/// status bits are ONFI 1.0's; the rules of turns are this project's.)
#[derive(Drop)]
pub struct FileDie<S: Store> {
    store: S,
    geometry: Geometry,
    register: Vec<u8>,
    page: Vec<u8>,
    page_row: Option<u32>,
    next_pages: Vec<NextPage>,
    bus_state: BusState,
    passed: bool,
    abuse: u64,
    sync_when: SyncWhen,
}

impl<S: Store> Model for FileDie<S> {
    ghost use Rattle.std.specs.Prelude.{map};
    ghost use Rattle.onfi_cycles.specs.Cycles.{status_of};
    ghost use Rattle.nand_die.specs.BusState.{phase_of};
    ghost use Rattle.nand_die.specs.NextPages.{next_page_of};
    ghost use Rattle.file_die.specs.Die.{FileState, AreParts};

    ghost Value = { FileState S };

    ghost view = { λ d. record {
      store = d.store;
      next_pages = map next_page_of d.next_pages.items;
      abuse = d.abuse;
      phase = phase_of d.register.items d.bus_state;
      register = d.register.items;
      status = status_of d.passed;
      sync_when = d.sync_when;
    } };

    ghost invariant = { λ d. AreParts (S.held d.store) (S.honest d.store) d.geometry d.register.items d.page.items d.page_row d.next_pages.items d.bus_state };
}

impl<S: Store> FileDie<S> {
    ghost use Rattle.file_die.specs.Store.{Syncs};
    ghost use Rattle.file_die.specs.Die.{ActsOverStore, IsFit, Asks, ProgramsIn, ErasesInStore, change_ended, idle, shown, die_with_store};

    /// A die of the pages that a store holds, not yet reset. Of each block the next page is one past the last that is not erased: the store is
    /// read once, each block from its last page down to that one. The blocks named are bad, and nothing was asked of any of them.
    ///
    /// # Errors
    ///
    /// With the store, whose pages are as they were:
    ///
    /// - `OutOfMemory` where there is no memory for two pages and the next pages of the blocks. No page was read.
    /// - `BadBlock` of the first name that lies past the die or was named before. No page was read.
    /// - `Store` where the store failed to load a page.
    pub fn open(
        alloc: Global,
        store: S,
        bad: &[u32],
        sync_when: SyncWhen,
    ) -> Result<FileDie<S>, (S, OpenDieFault)>
        ensures fresh { IfOk result (λ die. die ≡ newly_opened die.store (S.held store).geometry die.next_pages sync_when) }
        ensures next_pages { IfOk result (λ die. S.honest store ≡ true → die.next_pages ≡ first_next_pages (S.held store).geometry (next_in (S.held store).geometry (S.held store).pages) bad.now) }
        ensures named { OnOk result (AreNames (S.held store).geometry bad.now) }
        ensures looks { MatchResult result (λ die. OnlyLooks S.held S.honest store die.store) (λ e. OnlyLooks S.held S.honest store e.0) }
        ensures uncounted { IfOk result (λ die. S.failed die.store ≡ S.failed store) }
        ensures err { IfErr result (λ e. IsCause (S.held store).geometry bad.now e.1 × CountsAs e.1 (S.failed store) (S.failed e.0)) }
        ensures unread { IfErr result (λ e. LeavesUnread e.1 store e.0) }
    {
        let mut store = store;
        let geometry = store.geometry();
        match parts_of(alloc, &mut store, &geometry, bad) {
            Ok(
                Parts {
                    register,
                    page,
                    next_pages,
                },
            ) => Ok(FileDie {
                store,
                geometry,
                register,
                page,
                page_row: None,
                next_pages,
                bus_state: BusState::Unreset,
                passed: true,
                abuse: 0,
                sync_when,
            }),
            Err(fault) => Err((store, fault)),
        }
    }

    // Gives up the unfinished command.
    fn refuse(&mut self, fault: BusFault) -> Result<(), BusFault>
        requires { IsProtocolFault fault }
        ensures { ActsOverStore S.held S.honest S.failed (Refuses fault) self.old self.new result }
    {
        self.bus_state = self.bus_state.given_up();
        Err(fault)
    }

    // Loads the page of a row, and puts it out.
    fn load(&mut self, row: u32, column: u32) -> Result<(), BusFault>
        requires { IsWithin (S.held self.old.store).geometry (BusState.Ready (OutputSource.Page row column)) }
        ensures { ActsOverStore S.held S.honest S.failed (Moves (phase_of self.old.register (BusState.Ready (OutputSource.Page row column)))) self.old self.new result }
    {
        self.page_row = None;
        self.bus_state = self.bus_state.given_up();
        asks::load(&mut self.store, row, &mut self.page)?;
        self.page_row = Some(row);
        self.bus_state = BusState::Ready(OutputSource::Page { row, column });
        Ok(())
    }

    // Puts out the page of a row, which is loaded where the buffer has another one.
    fn show(&mut self, row: u32, column: u32) -> Result<(), BusFault>
        requires { IsWithin (S.held self.old.store).geometry (BusState.Ready (OutputSource.Page row column)) }
        ensures { ActsOverStore S.held S.honest S.failed (Moves (phase_of self.old.register (BusState.Ready (OutputSource.Page row column)))) self.old self.new result }
    {
        if self.page_row != Some(row) {
            return self.load(row, column);
        }
        self.bus_state = BusState::Ready(OutputSource::Page { row, column });
        Ok(())
    }

    // Goes on to where a cycle leads.
    fn go_on(&mut self, to: BusState) -> Result<(), BusFault>
        requires { IsWithin (S.held self.old.store).geometry to }
        ensures { ActsOverStore S.held S.honest S.failed (Moves (phase_of self.old.register to)) self.old self.new result }
    {
        if let BusState::Ready(OutputSource::Page { row, column }) = to {
            return self.show(row, column);
        }
        self.bus_state = to;
        Ok(())
    }

    // The next page of a block.
    fn next_page(&self, block: u32) -> NextPage
        requires { block < (S.held self.now.store).geometry.blocks }
        ensures next_page { next_page_of result ≡ get_or self.now.next_pages block no_next_page }
        ensures fit { IsFit S.held S.honest self.now }
    {
        self.next_pages[block as usize]
    }

    // Ends a program or an erase.
    fn end(&mut self, block: u32, next_page: NextPage, change: Change)
        requires { block < (S.held self.old.store).geometry.blocks }
        ensures { self.new ≡ change_ended block (next_page_of next_page) change.legal change.passed self.old }
    {
        self.next_pages[block as usize] = next_page;
        self.passed = change.passed;
        self.bus_state = BusState::Ready(OutputSource::Nothing);
        if !change.legal {
            self.abuse = self.abuse.saturating_add(1);
        }
    }

    // Programs the register at a row.
    fn put(&mut self, row: u32) -> Result<(), BusFault>
        requires { row < row_count (S.held self.old.store).geometry }
        ensures others { self.new ≡ idle self.new.store self.old }
        ensures asks { Asks S.held S.honest S.failed self.old.store self.new.store result }
        ensures programs { S.honest self.old.store ≡ true → ProgramsIn (S.held self.old.store) row (page_of (S.held self.old.store).geometry self.old.register) self.old.sync_when (is_ok result) (S.held self.new.store) }
    {
        self.page_row = None;
        self.bus_state = self.bus_state.given_up();
        asks::program(&mut self.store, row, &self.register, self.sync_when)
    }

    // Erases a block.
    fn clear(&mut self, block: u32) -> Result<(), BusFault>
        requires { block < (S.held self.old.store).geometry.blocks }
        ensures others { self.new ≡ idle self.new.store self.old }
        ensures asks { Asks S.held S.honest S.failed self.old.store self.new.store result }
        ensures erases { S.honest self.old.store ≡ true → ErasesInStore (S.held self.old.store) block (is_ok result) (S.held self.new.store) }
    {
        self.page_row = None;
        self.bus_state = self.bus_state.given_up();
        asks::erase(&mut self.store, block)
    }

    // The program that a confirm cycle asks for.
    fn program(&mut self, row: u32) -> Result<(), BusFault>
        requires in_range { row < row_count (S.held self.old.store).geometry }
        ensures { ActsOverStore S.held S.honest S.failed (Programs row (page_of (S.held self.old.store).geometry self.old.register)) self.old self.new result }
    {
        let block = row / self.geometry.pages();
        let next_page = self.next_page(block);
        let change = change_of(is_due(next_page, row % self.geometry.pages()), false);
        if change.legal {
            self.put(row)?;
        }
        self.end(block, programmed(next_page, change), change);
        Ok(())
    }

    // The erase that a confirm cycle asks for.
    fn erase(&mut self, block: u32) -> Result<(), BusFault>
        requires in_range { block < (S.held self.old.store).geometry.blocks }
        ensures { ActsOverStore S.held S.honest S.failed (Erases block) self.old self.new result }
    {
        let next_page = self.next_page(block);
        let change = change_of(!next_page.barred, false);
        if change.legal {
            self.clear(block)?;
        }
        self.end(block, erased(next_page, change), change);
        Ok(())
    }

    // What a command asks for.
    fn take_command(&mut self, code: u8) -> Result<(), BusFault>
        ensures { ActsOverStore S.held S.honest S.failed (command_due (S.held self.old.store).geometry self.old.phase code) self.old self.new result }
    {
        match command_step(&self.geometry, self.bus_state, code) {
            CommandStep::Moves(to) => self.go_on(to),
            CommandStep::Resets => {
                self.passed = true;
                self.bus_state = BusState::Ready(OutputSource::Nothing);
                Ok(())
            }
            CommandStep::Programs { row } => self.program(row),
            CommandStep::Erases { block } => self.erase(block),
            CommandStep::Refuses(fault) => self.refuse(fault),
        }
    }

    // What an address cycle asks for.
    fn take_address(&mut self, byte: u8) -> Result<(), BusFault>
        ensures { ActsOverStore S.held S.honest S.failed (address_due (S.held self.old.store).geometry self.old.phase byte) self.old self.new result }
    {
        match address_step(&self.geometry, self.bus_state, byte) {
            AddressStep::Moves(to) => self.go_on(to),
            AddressStep::Loads { row, column } => {
                self.register.as_mut_slice().fill(0xFF);
                self.bus_state = BusState::Loading { row, column };
                Ok(())
            }
            AddressStep::Refuses(fault) => self.refuse(fault),
        }
    }

    // Takes bytes into the page register.
    fn take_data(&mut self, bytes: &[u8]) -> Result<(), BusFault>
        ensures { ActsOverStore S.held S.honest S.failed (data_in_due (S.held self.old.store).geometry self.old.phase bytes.now) self.old self.new result }
    {
        match data_place(&self.geometry, self.bus_state, bytes.len()) {
            Ok((row, column)) => {
                let end = column as usize + bytes.len();
                self.register[column as usize..end].copy_from_slice(bytes);
                self.bus_state = BusState::Loading {
                    row,
                    column: end as u32,
                };
                Ok(())
            }
            Err(fault) => self.refuse(fault),
        }
    }

    // Gives bytes of what is put out.
    fn give_data(&mut self, bytes: &mut [u8]) -> Result<(), BusFault>
        ensures acts { ActsOverStore S.held S.honest S.failed (data_out_due (S.held self.old.store).geometry self.old.phase (length bytes.old)) self.old self.new result }
        ensures out { OnOk result (S.honest self.old.store ≡ true → bytes.new ≡ bytes_out (shown S.held self.old) self.old.phase (length bytes.old)) }
        ensures kept { OnErr result (bytes.new ≡ bytes.old) }
    {
        match put_out_at(
            &self.geometry,
            &self.page,
            self.passed,
            self.bus_state,
            bytes,
        ) {
            Ok(next) => {
                self.bus_state = BusState::Ready(next);
                Ok(())
            }
            Err(fault) => self.refuse(fault),
        }
    }

    /// The geometry of the store.
    pub fn geometry(&self) -> Geometry
        ensures { result ≡ (S.held self.now.store).geometry }
    {
        self.geometry
    }

    /// Makes all pages last.
    ///
    /// # Errors
    ///
    /// `Device` where the store failed: the pages are as they were, and may not all last. The die is as it was in either case.
    pub fn sync(&mut self) -> Result<(), BusFault>
        ensures syncs { S.honest self.old.store ≡ true → Syncs (S.held self.old.store) (is_ok result) (S.held self.new.store) }
        ensures asks { Asks S.held S.honest S.failed self.old.store self.new.store result }
        ensures same { self.new ≡ die_with_store self.new.store self.old }
    {
        asks::sync(&mut self.store)
    }

    /// The store, as the die has left it.
    pub fn into_store(self) -> S
        ensures { result ≡ self.store }
    {
        let FileDie { store, .. } = self;
        store
    }
}

impl<S: Store> Bus for FileDie<S> {
    ghost use Rattle.file_die.specs.Die.{ActsOnCycle, shown, syncs_always};

    ghost die = { λ d. shown S.held d };

    ghost honest = { λ d. S.honest d.store };

    ghost failed = { λ d. S.failed d.store };

    /// Whether each program is synced: no call changes when it syncs, so that a device over it has a die that syncs as it was opened to.
    ghost calm = { λ d. syncs_always d.sync_when };

    /// Each call is what was due: over any store, honest or not, its faults are counted, and over an honest one its pages are told.
    ghost called = { ActsOnCycle S.held S.honest S.failed };

    fn command(&mut self, code: u8) -> Result<(), BusFault> {
        self.take_command(code)
    }

    fn address(&mut self, byte: u8) -> Result<(), BusFault> {
        self.take_address(byte)
    }

    fn data_in(&mut self, bytes: &[u8]) -> Result<(), BusFault> {
        self.take_data(bytes)
    }

    fn data_out(&mut self, bytes: &mut [u8]) -> Result<(), BusFault> {
        self.give_data(bytes)
    }

    fn failures(&self) -> u64 {
        self.store.failures()
    }
}
