//! What a driver tells its history, at each operation.
use crate::{Bus, Outcome};
use die_history::{DieHistory, Moment};
use page_layout::geometry::Geometry;

/// A bus behind which nothing was done yet.
#[derive(Drop)]
pub(crate) struct Untouched<'a, B: Bus> {
    pub(crate) bus: &'a B,
}

impl<'a, B: Bus> Moment for Untouched<'a, B> {
    ghost use Rattle.onfi_cycles.specs.Driver.{untouched};

    ghost recording = { λ u. untouched (B.die u.bus.now).flash };
}

/// A program that was answered, and the bus after it.
#[derive(Drop)]
pub(crate) struct Programmed<'a, B: Bus> {
    pub(crate) before: &'a DieHistory,
    pub(crate) bus: &'a B,
    pub(crate) row: u32,
    pub(crate) body: &'a [u8],
    pub(crate) spare: &'a [u8],
    pub(crate) outcome: Outcome,
}

impl<'a, B: Bus> Moment for Programmed<'a, B> {
    ghost use Rattle.page_layout.specs.Flash.{Program, page_at};
    ghost use Rattle.page_layout.specs.Page.{page};
    ghost use Rattle.onfi_cycles.specs.Outcomes.{is_passed};
    ghost use Rattle.onfi_cycles.specs.Driver.{gained};

    ghost recording = { λ p. gained (Program p.row (page p.body.now p.spare.now) (is_passed p.outcome) (page_at (B.die p.bus.now).flash p.row)) p.before.now.told };
}

/// An erase that was answered, and the bus after it.
#[derive(Drop)]
pub(crate) struct Erased<'a, B: Bus> {
    pub(crate) before: &'a DieHistory,
    pub(crate) bus: &'a B,
    pub(crate) geometry: Geometry,
    pub(crate) block: u32,
    pub(crate) outcome: Outcome,
}

impl<'a, B: Bus> Moment for Erased<'a, B> {
    ghost use Rattle.page_layout.specs.Flash.{Erase, block_at};
    ghost use Rattle.onfi_cycles.specs.Outcomes.{is_passed};
    ghost use Rattle.onfi_cycles.specs.Driver.{gained, seen};

    ghost recording = { λ e. gained (Erase e.block (is_passed e.outcome) (block_at (seen e.geometry (B.die e.bus.now).flash) e.block)) e.before.now.told };
}

/// A program that a fault ended.
#[derive(Drop)]
pub(crate) struct BegunProgram<'a> {
    pub(crate) before: &'a DieHistory,
    pub(crate) row: u32,
    pub(crate) body: &'a [u8],
    pub(crate) spare: &'a [u8],
}

impl<'a> Moment for BegunProgram<'a> {
    ghost use Rattle.page_layout.specs.Page.{page};
    ghost use Rattle.page_layout.specs.Recording.{asked_program};
    ghost use Rattle.onfi_cycles.specs.Driver.{cut_in};

    ghost recording = { λ p. cut_in (asked_program p.row (page p.body.now p.spare.now)) p.before.now.told };
}

/// An erase that a fault ended.
#[derive(Drop)]
pub(crate) struct BegunErase<'a> {
    pub(crate) before: &'a DieHistory,
    pub(crate) geometry: Geometry,
    pub(crate) block: u32,
}

impl<'a> Moment for BegunErase<'a> {
    ghost use Rattle.page_layout.specs.Recording.{asked_erase};
    ghost use Rattle.onfi_cycles.specs.Driver.{cut_in};

    ghost recording = { λ e. cut_in (asked_erase e.geometry e.block) e.before.now.told };
}
