//! A chip with bit errors behind a bus.
ghost use Rattle.std.specs.Prelude.{◌≡◌, ◌<◌, ◌≤◌, true, [], ◌∷◌, ◌++◌, length, take, IfOk, IfErr, OnOk, OnErr, MatchResult};
ghost use Rattle.page_layout.specs.Geometry.{row_count};
ghost use Rattle.page_layout.specs.Counter.{HasRisen};
ghost use Rattle.onfi_cycles.specs.Cycles.{Command, IsCounted};
ghost use Rattle.onfi_cycles.specs.Spelling.{done, refused};
ghost use Rattle.onfi_cycles.specs.Driver.{untouched};
ghost use Rattle.page_code.specs.Layout.{outer_bytes};
ghost use Rattle.page_code.specs.Chip.{IsChipOf};
ghost use Rattle.corrected_nand.specs.Errors.{AreFor};

use crate::chip_told::{ErasedChip, ProgrammedChip, UntouchedChip};
use crate::corrected::Corrected;
use crate::errors::ReadErrors;
use crate::noisy::NoisyNand;
use die_history::DieHistory;
use onfi_cycles::{Bus, BusFault, Driver, Nand, Outcome};
use page_code::chip::ChipGeometry;
use page_layout::geometry::Geometry;
use page_layout::source::{PageSource, SourceFault};
use std::marker::Model;

/// A bus of a chip whose pages stand with their codes, and whose reads have wrong bits. Of single cycles it says what any bus does. Where it keeps the law
/// of such a chip, the cycles of a read, a program or an erase, all taken one after another, are one of the pages without their codes: a
/// page that is put out reads as `NoisyNand` has it, and a page that is programmed with its codes, or a block erased, is one step of the die.
pub trait ChipBus: Bus {
    ghost use Rattle.std.specs.Prelude.{Bool};
    ghost use Rattle.page_layout.specs.Flash.{Flash};
    ghost use Rattle.corrected_nand.specs.ChipBus.{SteadyLaw, ReadLaw, CodedProgramLaw, ChipEraseLaw};

    /// The die that the chip is, without the codes.
    ghost chip: { Self → Flash };

    /// Whether it keeps the law. Of a real chip nothing can be proved: there this is false.
    ghost keeps: { Self → Bool };

    /// No cycle changes that, or the geometry where the law is kept.
    ghost steady: { SteadyLaw Self chip keeps Self.called };

    /// What is read.
    ghost read: { ReadLaw Self chip keeps Self.called };

    /// What a program does.
    ghost programmed: { CodedProgramLaw Self chip keeps Self.called };

    /// What an erase does.
    ghost erased: { ChipEraseLaw Self chip keeps Self.called };
}

/// A chip behind a bus: its reads, programs and erases are spelled as cycles of whole pages, with their codes. It has two geometries, of two
/// types: that of the pages without their codes, and the chip's. Its record is of the pages without their codes; it is for proofs alone, and
/// takes no memory.
#[derive(Drop)]
pub struct ChipDriver<B: ChipBus> {
    driver: Driver<B>,
    history: DieHistory,
    geometry: Geometry,
}

impl<B: ChipBus> Model for ChipDriver<B> {
    ghost use Rattle.std.specs.Prelude.{◌≡◌, true};
    ghost use Rattle.page_code.specs.Chip.{IsChipOf};
    ghost use Rattle.corrected_nand.specs.ChipBus.{ChipDriverState};

    ghost Value = { ChipDriverState B };

    ghost view = { λ c. record { driver = c.driver; told = c.history.told; geometry = c.geometry } };

    ghost invariant = { λ c. IsChipOf c.geometry c.driver.geometry × (B.keeps c.driver.bus ≡ true → (B.chip c.driver.bus).geometry ≡ c.geometry) };
}

impl<B: ChipBus> ChipDriver<B> {
    /// Sends Reset, and is then ready. `geometry` is that of the pages without their codes, `chip` that of the chip. A fault of the
    /// bus comes back with the bus.
    pub fn new(
        bus: B,
        geometry: Geometry,
        chip: &ChipGeometry,
    ) -> Result<ChipDriver<B>, (B, BusFault)>
        requires pages { IsChipOf geometry chip.now.raw }
        requires raw { B.honest bus ≡ true → (B.die bus).flash.geometry ≡ chip.now.raw }
        requires plain { B.keeps bus ≡ true → (B.chip bus).geometry ≡ geometry }

        // Reset was sent, and nothing else.
        ensures sent { MatchResult result (λ driver. B.called bus (Command 0xFF) done [] driver.driver.bus) (λ e. B.called bus (Command 0xFF) (refused e.1) [] e.0) }
        ensures keeps { MatchResult result (λ driver. B.keeps driver.driver.bus ≡ B.keeps bus) (λ e. B.keeps e.0 ≡ B.keeps bus) }
        ensures geometry { IfOk result (λ driver. driver.geometry ≡ geometry) }
        ensures chip { IfOk result (λ driver. driver.driver.geometry ≡ chip.now.raw) }
        ensures failures { IfOk result (λ driver. driver.driver.failures ≡ 0) }
        // Its record begins with the die as it is.
        ensures told { IfOk result (λ driver. driver.told ≡ untouched (B.chip driver.driver.bus)) }
        ensures rose { IfErr result (λ e. IsCounted (B.failed bus) (B.failed e.0) e.1) }
    {
        match Driver::new(bus, *chip.raw()) {
            Ok(driver) => {
                let history = DieHistory::of(&UntouchedChip { driver: &driver });
                Ok(ChipDriver {
                    driver,
                    history,
                    geometry,
                })
            }
            Err((bus, fault)) => Err((bus, fault)),
        }
    }

    /// Gives the bus back.
    pub fn into_bus(self) -> B
        ensures { result ≡ self.driver.bus }
    {
        let ChipDriver {
            driver,
            history: _,
            geometry: _,
        } = self;
        driver.into_bus()
    }
}

impl<B: ChipBus> NoisyNand for ChipDriver<B> {
    ghost use Rattle.std.specs.Prelude.{◌≡◌, ◌<◌, ◌≤◌, [], ◌∷◌, Some, true, length, take, IfOk, OnErr, OnOk};
    ghost use Rattle.page_layout.specs.Counter.{HasRisen};
    ghost use Rattle.page_layout.specs.Flash.{Erase, IsWhole, Program, Steps, block_at, page_at};
    ghost use Rattle.page_layout.specs.Geometry.{row_count};
    ghost use Rattle.page_layout.specs.Page.{page};
    ghost use Rattle.page_layout.specs.Recording.{Records, EndsAt, EndsIn, asked_program, asked_erase};
    ghost use Rattle.onfi_cycles.specs.Driver.{seen};
    ghost use Rattle.onfi_cycles.specs.Outcomes.{is_passed};
    ghost use Rattle.corrected_nand.specs.Driven.{ChipReads, ChipPrograms, ChipErases};
    ghost use Rattle.page_code.specs.Layout.{coded, outer_bytes};

    ghost flash = { λ c. seen c.geometry (B.chip c.driver.bus) };

    ghost honest = { λ c. B.keeps c.driver.bus };

    ghost failed = { λ c. c.driver.failures };

    ghost recorded = { λ c. Some c.told };

    // Which cycles each call sends, and what it leaves.
    ghost asked = { λ old row answer put new. ChipReads B.called row answer put old new };

    ghost asked_to_program = { λ old row p answer new. ChipPrograms B.chip B.called row p answer old new };

    ghost asked_to_erase = { λ old block answer new. ChipErases B.chip B.called block answer old new };

    fn read_page(
        &mut self,
        row: u32,
        body: &mut [u8],
        outer: &mut [u8],
    ) -> Result<(), SourceFault> {
        self.driver.read_page(row, body, outer)
    }

    /// Programs the page of a row with its codes. Its record gains the operation just where that was answered, and else has it at hand.
    fn program(&mut self, row: u32, body: &[u8], outer: &[u8]) -> Result<Outcome, BusFault>
        requires row_in { row < row_count self.old.geometry }
        requires body_whole { length body.now ≡ self.old.geometry.data_bytes }
        requires outer_whole { length outer.now ≡ outer_bytes self.old.geometry }
        requires is_coded { page body.now outer.now ≡ coded self.old.geometry (page body.now (take self.old.geometry.spare_bytes outer.now)) }

        // What every such chip promises.
        ensures step { IfOk result (λ outcome. B.keeps self.old.driver.bus ≡ true →
            Steps (seen self.old.geometry (B.chip self.old.driver.bus)) (Program row (page body.now (take self.old.geometry.spare_bytes outer.now)) (is_passed outcome) (page_at (seen self.new.geometry (B.chip self.new.driver.bus)) row))
            (seen self.new.geometry (B.chip self.new.driver.bus))) }
        ensures recorded { IfOk result (λ outcome. B.keeps self.old.driver.bus ≡ true →
            Records (Some self.old.told) (Program row (page body.now (take self.old.geometry.spare_bytes outer.now)) (is_passed outcome) (page_at (seen self.new.geometry (B.chip self.new.driver.bus)) row) ∷ []) (Some self.new.told)) }
        ensures cut { OnErr result (B.keeps self.old.driver.bus ≡ true →
            EndsIn (asked_program row (page body.now (take self.old.geometry.spare_bytes outer.now))) (Some self.old.told) (Some self.new.told)) }
        ensures whole { OnOk result (B.keeps self.old.driver.bus ≡ true → IsWhole (seen self.new.geometry (B.chip self.new.driver.bus))) }
        ensures geometry { self.new.geometry ≡ self.old.geometry }
        ensures honest { B.keeps self.new.driver.bus ≡ B.keeps self.old.driver.bus }
        ensures failed { self.old.driver.failures ≤ self.new.driver.failures }
        ensures rose { OnErr result (HasRisen self.old.driver.failures self.new.driver.failures) }

        // Over any chip: just the cycles of this program, and its answer by them; its record; each fault counted once.
        ensures asked { ChipPrograms B.chip B.called row (page body.now outer.now) result self.old self.new }
    {
        let answer = self.driver.program(row, body, outer);
        self.history = DieHistory::of(&ProgrammedChip {
            before: &self.history,
            driver: &self.driver,
            geometry: self.geometry,
            row,
            body,
            outer,
            answer,
        });
        answer
    }

    /// Erases a block. Its record gains the operation just where that was answered, and else has it at hand.
    fn erase(&mut self, block: u32) -> Result<Outcome, BusFault>
        requires block_in { block < self.old.geometry.blocks }

        // What every such chip promises.
        ensures step { IfOk result (λ outcome. B.keeps self.old.driver.bus ≡ true →
            Steps (seen self.old.geometry (B.chip self.old.driver.bus)) (Erase block (is_passed outcome) (block_at (seen self.new.geometry (B.chip self.new.driver.bus)) block)) (seen self.new.geometry (B.chip self.new.driver.bus))) }
        ensures recorded { IfOk result (λ outcome. B.keeps self.old.driver.bus ≡ true →
            Records (Some self.old.told) (Erase block (is_passed outcome) (block_at (seen self.new.geometry (B.chip self.new.driver.bus)) block) ∷ []) (Some self.new.told)) }
        ensures cut { OnErr result (B.keeps self.old.driver.bus ≡ true → EndsIn (asked_erase self.old.geometry block) (Some self.old.told) (Some self.new.told)) }
        ensures whole { OnOk result (B.keeps self.old.driver.bus ≡ true → IsWhole (seen self.new.geometry (B.chip self.new.driver.bus))) }
        ensures geometry { self.new.geometry ≡ self.old.geometry }
        ensures honest { B.keeps self.new.driver.bus ≡ B.keeps self.old.driver.bus }
        ensures failed { self.old.driver.failures ≤ self.new.driver.failures }
        ensures rose { OnErr result (HasRisen self.old.driver.failures self.new.driver.failures) }

        // Over any chip: just the cycles of this erase, and its answer by them; its record; each fault counted once.
        ensures asked { ChipErases B.chip B.called block result self.old self.new }
    {
        let answer = self.driver.erase(block);
        self.history = DieHistory::of(&ErasedChip {
            before: &self.history,
            driver: &self.driver,
            geometry: self.geometry,
            block,
            answer,
        });
        answer
    }

    fn failures(&self) -> u64 {
        self.driver.failures()
    }
}

/// THE DIE OVER A CHIP BEHIND A BUS, for `format`, `mount` and `Device`: the chip is driven by its own geometry, and the die that is shown has that of the
/// pages without their codes. It counts on from these errors. A fault of the bus comes back with the bus and the errors.
pub fn die_on_chip<B: ChipBus + Drop>(
    bus: B,
    geometry: Geometry,
    chip: &ChipGeometry,
    errors: ReadErrors,
) -> Result<Corrected<ChipDriver<B>>, (B, ReadErrors, BusFault)>
    requires pages { IsChipOf geometry chip.now.raw }
    requires raw { B.honest bus ≡ true → (B.die bus).flash.geometry ≡ chip.now.raw }
    requires plain { B.keeps bus ≡ true → (B.chip bus).geometry ≡ geometry }
    requires errors { AreFor geometry errors }
    ensures sent { MatchResult result (λ die. B.called bus (Command 0xFF) done [] die.nand.driver.bus) (λ e. B.called bus (Command 0xFF) (refused e.2) [] e.0) }
    ensures keeps { MatchResult result (λ die. B.keeps die.nand.driver.bus ≡ B.keeps bus) (λ e. B.keeps e.0 ≡ B.keeps bus) }
    ensures geometry { IfOk result (λ die. die.geometry ≡ geometry) }
    ensures chip { IfOk result (λ die. die.nand.driver.geometry ≡ chip.now.raw) }
    ensures errors { MatchResult result (λ die. die.errors ≡ errors) (λ e. e.1 ≡ errors) }
    ensures failures { IfOk result (λ die. die.failures ≡ 0) }
    ensures told { IfOk result (λ die. die.nand.told ≡ untouched (B.chip die.nand.driver.bus)) }
    ensures rose { IfErr result (λ e. IsCounted (B.failed bus) (B.failed e.0) e.2) }
{
    match ChipDriver::new(bus, geometry, chip) {
        Ok(driver) => Ok(Corrected::new(driver, geometry, errors)),
        Err((bus, fault)) => Err((bus, errors, fault)),
    }
}
