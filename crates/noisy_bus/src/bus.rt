//! The bus.
ghost use Rattle.std.specs.Prelude.{◌≡◌, ◌+◌, ◌<◌, ◌≤◌, ◌/◌, ℕ, ◌∷◌, [], length, take, true, Err, IfOk, IfErr, OnOk, OnErr};
ghost use Rattle.page_layout.specs.Geometry.{row_count};
ghost use Rattle.page_layout.specs.Page.{page};
ghost use Rattle.page_layout.specs.Counter.{HasRisen};
ghost use Rattle.onfi_cycles.specs.Cycles.{IsCounted, status_of};
ghost use Rattle.page_code.specs.Layout.{outer_bytes, coded};
ghost use Rattle.onfi_cycles.specs.Outcomes.{is_passed};
ghost use Rattle.onfi_cycles.specs.Spelling.{done};
ghost use Rattle.noisy_bus.specs.Bus.{moved, is_beginning, KeepsLawAndGeometry, HasDoneOperation, HasPutOutPage, HasReadPage, HasDoneProgram, HasDoneErase, RefusesCycle};
ghost use Rattle.noisy_bus.specs.declared.stage.Stage.TheVariants as at;

use crate::stage::Stage;
use corrected_nand::NoisyNand;
use onfi_cycles::{Bus, BusFault, Outcome};
use page_code::encode_page;
use page_code::laws::page_laws;
use page_layout::geometry::Geometry;
use page_layout::source::SourceFault;
use std::marker::Model;

/// The bus of a chip with bit errors: reads, programs and erases of whole pages, as ONFI spells them. A command that begins is taken at any time, and
/// gives up what was unfinished. A page is programmed with its right codes alone. (This project's, for tests.)
#[derive(Drop)]
pub struct NoisyBus<N: NoisyNand> {
    nand: N,
    geometry: Geometry,
    stage: Stage,
    // a page with its codes, of which the bytes from the first to the end are held
    register: Vec<u8>,
    first: usize,
    end: usize,
    status: u8,
}

impl<N: NoisyNand> Model for NoisyBus<N> {
    ghost use Rattle.std.specs.Prelude.{◌≡◌, ◌+◌, ◌≤◌, length, slice_range};
    ghost use Rattle.page_code.specs.Layout.{outer_bytes};
    ghost use Rattle.noisy_bus.specs.Bus.{BusState};

    ghost Value = { BusState N };

    ghost view = { λ b. record { nand = b.nand; geometry = b.geometry; stage = b.stage; held = slice_range b.register.items b.first b.end; status = b.status } };

    ghost invariant = { λ b. ((N.flash b.nand).geometry ≡ b.geometry) × (outer_bytes b.geometry ≤ 256) × (length b.register.items ≡ b.geometry.data_bytes + outer_bytes b.geometry) × (b.first ≤ b.end) × (b.end ≤ length b.register.items) };
}

// Whether a page stands with its right codes.
fn is_coded(geometry: &Geometry, body: &[u8], outer: &[u8]) -> bool
    requires body_whole { length body.now ≡ geometry.now.data_bytes }
    requires outer_whole { length outer.now ≡ outer_bytes geometry.now }
    requires room { outer_bytes geometry.now ≤ 256 }
    ensures { result ≡ true → page body.now outer.now ≡ coded geometry.now (page body.now (take geometry.now.spare_bytes outer.now)) }
{
    page_laws();
    let mut buffer = [0; 256];
    let right = &mut buffer[..outer.len()];
    encode_page(geometry, body, &outer[..geometry.spare_bytes()], right);
    *right == *outer
}

// Whether a command begins: a read, an erase, a program.
fn is_beginning(code: u8) -> bool
    ensures { result ≡ is_beginning code }
{
    code == 0x00 || code == 0x60 || code == 0x80
}

// Reads the page of a row into a register.
fn fill<N: NoisyNand>(
    nand: &mut N,
    geometry: &Geometry,
    row: u32,
    register: &mut [u8],
) -> Result<(), SourceFault>
    requires geometry { (N.flash nand.old).geometry ≡ geometry.now }
    requires row_in { row < row_count geometry.now }
    requires whole { length register.old ≡ geometry.now.data_bytes + outer_bytes geometry.now }
    ensures put { OnOk result (HasPutOutPage N.flash N.honest geometry.now row nand.old nand.new register.new) }
    ensures geometry { (N.flash nand.new).geometry ≡ (N.flash nand.old).geometry }
    ensures honest { N.honest nand.new ≡ N.honest nand.old }
    ensures failed { N.failed nand.old ≤ N.failed nand.new }
    ensures rose { OnErr result (HasRisen (N.failed nand.old) (N.failed nand.new)) }
{
    let (body, outer) = register.split_at_mut(geometry.data_bytes());
    nand.read_page(row, body, outer)
}

// The status byte of an operation that ended so.
fn status_of(outcome: Outcome) -> u8
    ensures { result ≡ status_of (is_passed outcome) }
{
    match outcome {
        Outcome::Passed => 0xE0,
        Outcome::Failed => 0xE1,
    }
}

impl<N: NoisyNand> NoisyBus<N> {
    /// The bus of this chip, whose pages without their codes have this geometry. The register has the bytes of a page with them.
    pub fn new(nand: N, geometry: Geometry, register: Vec<u8>) -> NoisyBus<N>
        requires geometry { (N.flash nand).geometry ≡ geometry }
        requires room { outer_bytes geometry ≤ 256 }
        requires register { length register.items ≡ geometry.data_bytes + outer_bytes geometry }
        ensures nand { result.nand ≡ nand }
        ensures geometry { result.geometry ≡ geometry }
    {
        NoisyBus {
            nand,
            geometry,
            stage: Stage::Idle,
            register,
            first: 0,
            end: 0,
            status: 0xE0,
        }
    }

    // Holds nothing, and stands here.
    fn stand(&mut self, stage: Stage)
        ensures is { self.new ≡ moved stage [] self.old }
        ensures stays { KeepsLawAndGeometry N.flash N.honest N.failed self.old self.new }
    {
        self.stage = stage;
        self.first = 0;
        self.end = 0;
    }

    // Puts out the status.
    fn show_status(&mut self)
        ensures is { self.new ≡ moved at.Putting (self.old.status ∷ []) self.old }
        ensures stays { KeepsLawAndGeometry N.flash N.honest N.failed self.old self.new }
    {
        self.register[0] = self.status;
        self.stage = Stage::Putting;
        self.first = 0;
        self.end = 1;
    }

    // Takes no such command.
    fn refuse(&mut self) -> Result<(), BusFault>
        ensures refused { (result ≡ Err BusFault.UnknownCommand) × (self.new ≡ moved at.Idle [] self.old) }
        ensures stays { KeepsLawAndGeometry N.flash N.honest N.failed self.old self.new }
    {
        self.stand(Stage::Idle);
        Err(BusFault::UnknownCommand)
    }

    // Reads the page of a row, which is put out then.
    fn read(&mut self, row: u32) -> Result<(), BusFault>
        requires { row < row_count self.old.geometry }
        ensures read { OnOk result (HasReadPage N.flash N.honest row self.old self.new) }
        ensures refused { IfErr result (λ fault. RefusesCycle fault self.old self.new) }
        ensures stays { KeepsLawAndGeometry N.flash N.honest N.failed self.old self.new }
        ensures rose { OnErr result (HasRisen (N.failed self.old.nand) (N.failed self.new.nand)) }
    {
        let answer = fill(&mut self.nand, &self.geometry, row, &mut self.register);
        self.first = 0;
        match answer {
            Ok(()) => {
                self.stage = Stage::Putting;
                self.end = self.register.len();
                Ok(())
            }
            Err(_) => {
                self.stage = Stage::Idle;
                self.end = 0;
                Err(BusFault::Device)
            }
        }
    }

    // 30h: the read of the row that was addressed.
    fn confirm_read(&mut self) -> Result<(), BusFault>
        ensures read { OnOk result ((row : ℕ) × (self.old.stage ≡ at.Address 0 5 row) × HasReadPage N.flash N.honest row self.old self.new) }
        ensures refused { IfErr result (λ fault. RefusesCycle fault self.old self.new) }
        ensures stays { KeepsLawAndGeometry N.flash N.honest N.failed self.old self.new }
        ensures rose { IfErr result (IsCounted (N.failed self.old.nand) (N.failed self.new.nand)) }
    {
        match self.stage {
            Stage::Address {
                code: 0x00,
                count: 5,
                row,
            } if self.geometry.has_row(row) => self.read(row),
            _ => Err(BusFault::OutOfTurn),
        }
    }

    // What an operation came to.
    fn finish(&mut self, answer: Result<Outcome, BusFault>) -> Result<(), BusFault>
        ensures done { IfOk answer (λ outcome. HasDoneOperation self.old self.new outcome × (self.new.nand ≡ self.old.nand) × (result ≡ done)) }
        ensures failed { OnErr answer ((self.new ≡ moved at.Idle [] self.old) × (result ≡ Err BusFault.Device)) }
    {
        self.stand(Stage::Idle);
        match answer {
            Ok(outcome) => {
                self.status = status_of(outcome);
                Ok(())
            }
            Err(_) => Err(BusFault::Device),
        }
    }

    // Programs the page of a row with what is held, where that is a whole page with its right codes.
    fn program(&mut self, row: u32) -> Result<(), BusFault>
        requires { row < row_count self.old.geometry }
        ensures programmed { OnOk result (HasDoneProgram N.flash N.honest row self.old self.new) }
        ensures refused { IfErr result (λ fault. RefusesCycle fault self.old self.new) }
        ensures stays { KeepsLawAndGeometry N.flash N.honest N.failed self.old self.new }
        ensures rose { IfErr result (IsCounted (N.failed self.old.nand) (N.failed self.new.nand)) }
    {
        if self.first != 0 || self.end != self.register.len() {
            return Err(BusFault::ColumnRange);
        }
        let (body, outer) = self.register.split_at(self.geometry.data_bytes());
        if !is_coded(&self.geometry, body, outer) {
            return Err(BusFault::ColumnRange);
        }
        let answer = self.nand.program(row, body, outer);
        self.finish(answer)
    }

    // 10h: the program of the row that was addressed.
    fn confirm_program(&mut self) -> Result<(), BusFault>
        ensures programmed { OnOk result ((row : ℕ) × (self.old.stage ≡ at.Loading row) × HasDoneProgram N.flash N.honest row self.old self.new) }
        ensures refused { IfErr result (λ fault. RefusesCycle fault self.old self.new) }
        ensures stays { KeepsLawAndGeometry N.flash N.honest N.failed self.old self.new }
        ensures rose { IfErr result (IsCounted (N.failed self.old.nand) (N.failed self.new.nand)) }
    {
        match self.stage {
            Stage::Loading { row } if self.geometry.has_row(row) => self.program(row),
            _ => Err(BusFault::OutOfTurn),
        }
    }

    // Erases a block.
    fn erase(&mut self, block: u32) -> Result<(), BusFault>
        requires { block < self.old.geometry.blocks }
        ensures erased { OnOk result (HasDoneErase N.flash N.honest block self.old self.new) }
        ensures refused { IfErr result (λ fault. RefusesCycle fault self.old self.new) }
        ensures stays { KeepsLawAndGeometry N.flash N.honest N.failed self.old self.new }
        ensures rose { IfErr result (IsCounted (N.failed self.old.nand) (N.failed self.new.nand)) }
    {
        let answer = self.nand.erase(block);
        self.finish(answer)
    }

    // D0h: the erase of the block of the row that was addressed.
    fn confirm_erase(&mut self) -> Result<(), BusFault>
        ensures erased { OnOk result ((row : ℕ) × (self.old.stage ≡ at.Address 0x60 3 row) × HasDoneErase N.flash N.honest (row / self.old.geometry.pages) self.old self.new) }
        ensures refused { IfErr result (λ fault. RefusesCycle fault self.old self.new) }
        ensures stays { KeepsLawAndGeometry N.flash N.honest N.failed self.old self.new }
        ensures rose { IfErr result (IsCounted (N.failed self.old.nand) (N.failed self.new.nand)) }
    {
        match self.stage {
            Stage::Address {
                code: 0x60,
                count: 3,
                row,
            } if self.geometry.has_row(row) => {
                let pages = self.geometry.pages();
                self.erase(row / pages)
            }
            _ => Err(BusFault::OutOfTurn),
        }
    }
}

impl<N: NoisyNand> Bus for NoisyBus<N> {
    ghost use Rattle.std.specs.Prelude.{false};
    ghost use Rattle.onfi_cycles.specs.Cycles.{Unreset};
    ghost use Rattle.noisy_bus.specs.Bus.{IsCalled};

    // The pages without their codes.
    ghost die = { λ b. record { flash = N.flash b.nand; phase = Unreset; status = b.status } };

    // What it puts out is not what the protocol says.
    ghost honest = { λ _. false };

    ghost failed = { λ b. N.failed b.nand };

    // What each cycle does.
    ghost called = { λ old cycle answer out new. IsCalled N.flash N.honest N.failed old cycle answer out new };

    fn command(&mut self, code: u8) -> Result<(), BusFault> {
        if is_beginning(code) {
            self.stand(Stage::Address {
                code,
                count: 0,
                row: 0,
            });
            return Ok(());
        }
        match code {
            0x70 => {
                self.show_status();
                Ok(())
            }
            0xFF => {
                self.stand(Stage::Idle);
                Ok(())
            }
            0x30 => self.confirm_read(),
            0x10 => self.confirm_program(),
            0xD0 => self.confirm_erase(),
            _ => self.refuse(),
        }
    }

    fn address(&mut self, byte: u8) -> Result<(), BusFault> {
        self.stand(self.stage.with_address(byte).loading());
        Ok(())
    }

    fn data_in(&mut self, bytes: &[u8]) -> Result<(), BusFault> {
        if self.first != 0 || bytes.len() > self.register.len() - self.end {
            return Err(BusFault::ColumnRange);
        }
        let end = self.end + bytes.len();
        self.register[self.end..end].copy_from_slice(bytes);
        self.end = end;
        Ok(())
    }

    fn data_out(&mut self, bytes: &mut [u8]) -> Result<(), BusFault> {
        if bytes.len() > self.end - self.first {
            return Err(BusFault::ColumnRange);
        }
        let first = self.first + bytes.len();
        bytes.copy_from_slice(&self.register[self.first..first]);
        self.first = first;
        Ok(())
    }

    fn failures(&self) -> u64 {
        self.nand.failures()
    }
}
