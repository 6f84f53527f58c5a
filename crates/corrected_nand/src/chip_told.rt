//! What a driver for a chip with bit errors tells its history, at each operation.
use crate::chip_driver::ChipBus;
use die_history::{DieHistory, Moment};
use onfi_cycles::{BusFault, Driver, Outcome};
use page_layout::geometry::Geometry;

/// A chip behind which nothing was done yet.
#[derive(Drop)]
pub(crate) struct UntouchedChip<'a, B: ChipBus> {
    pub(crate) driver: &'a Driver<B>,
}

impl<'a, B: ChipBus> Moment for UntouchedChip<'a, B> {
    ghost use Rattle.onfi_cycles.specs.Driver.{untouched};

    ghost recording = { λ u. untouched (B.chip u.driver.now.bus) };
}

/// A program, its answer, and the driver after it.
#[derive(Drop)]
pub(crate) struct ProgrammedChip<'a, B: ChipBus> {
    pub(crate) before: &'a DieHistory,
    pub(crate) driver: &'a Driver<B>,
    pub(crate) geometry: Geometry,
    pub(crate) row: u32,
    pub(crate) body: &'a [u8],
    pub(crate) outer: &'a [u8],
    pub(crate) answer: Result<Outcome, BusFault>,
}

impl<'a, B: ChipBus> Moment for ProgrammedChip<'a, B> {
    ghost use Rattle.std.specs.Prelude.{take};
    ghost use Rattle.page_layout.specs.Flash.{Program, page_at};
    ghost use Rattle.page_layout.specs.Page.{page};
    ghost use Rattle.page_layout.specs.Recording.{asked_program};
    ghost use Rattle.onfi_cycles.specs.Outcomes.{is_passed};
    ghost use Rattle.corrected_nand.specs.Told.{gained_by};

    ghost recording = { λ p. gained_by p.answer (λ outcome. Program p.row (page p.body.now (take p.geometry.spare_bytes p.outer.now)) (is_passed outcome) (page_at (B.chip p.driver.now.bus) p.row))
        (asked_program p.row (page p.body.now (take p.geometry.spare_bytes p.outer.now))) p.before.now.told };
}

/// An erase, its answer, and the driver after it.
#[derive(Drop)]
pub(crate) struct ErasedChip<'a, B: ChipBus> {
    pub(crate) before: &'a DieHistory,
    pub(crate) driver: &'a Driver<B>,
    pub(crate) geometry: Geometry,
    pub(crate) block: u32,
    pub(crate) answer: Result<Outcome, BusFault>,
}

impl<'a, B: ChipBus> Moment for ErasedChip<'a, B> {
    ghost use Rattle.page_layout.specs.Flash.{Erase, block_at};
    ghost use Rattle.page_layout.specs.Recording.{asked_erase};
    ghost use Rattle.onfi_cycles.specs.Outcomes.{is_passed};
    ghost use Rattle.onfi_cycles.specs.Driver.{seen};
    ghost use Rattle.corrected_nand.specs.Told.{gained_by};

    ghost recording = { λ e. gained_by e.answer (λ outcome. Erase e.block (is_passed outcome) (block_at (seen e.geometry (B.chip e.driver.now.bus)) e.block))
        (asked_erase e.geometry e.block) e.before.now.told };
}
