//! The die behind a link, once it took Reset.
ghost use Rattle.std.specs.Prelude.{◌≡◌, None, Some, IfOk, IfErr};
ghost use Rattle.page_code.specs.Chip.{IsChipOf};
ghost use Rattle.ftl_disk.specs.Either.{IsDieFor, IsUnreset, LeadsTo, flash_of_either};

use crate::either::EitherDie;
use crate::number::{BUS_FAULT, OUT_OF_MEMORY};
use crate::plan::Plan;
use corrected_nand::{ReadErrors, die_on_chip};
use onfi_cycles::Driver;
use page_code::chip::ChipGeometry;
use std::alloc::Global;
use stream_bus::{ChipLink, StreamBus};

// A die whose pages read back as they were programmed.
fn plain_die<L: ChipLink + Drop>(link: L, plan: &Plan) -> Result<EitherDie<L>, u32>
    requires leads { LeadsTo L.die L.chip L.honest L.keeps plan.now link }
    requires none { plan.now.chip ≡ None }
    ensures die { IfOk result (IsDieFor L.called plan.now link) }
    ensures geometry { IfOk result (λ die. (flash_of_either L.die L.chip die).geometry ≡ plan.now.geometry) }
    ensures fault { IfErr result (IsUnreset L.called plan.now link) }
{
    match Driver::new(StreamBus::new(link), plan.geometry) {
        Ok(die) => Ok(EitherDie::Plain(die)),
        Err(_) => Err(BUS_FAULT),
    }
}

// A die over a chip whose pages have codes.
fn coded_die<L: ChipLink + Drop>(
    alloc: Global,
    link: L,
    plan: &Plan,
    chip: &ChipGeometry,
) -> Result<EitherDie<L>, u32>
    requires leads { LeadsTo L.die L.chip L.honest L.keeps plan.now link }
    requires some { plan.now.chip ≡ Some chip.now }
    requires pages { IsChipOf plan.now.geometry chip.now.raw }
    ensures die { IfOk result (IsDieFor L.called plan.now link) }
    ensures geometry { IfOk result (λ die. (flash_of_either L.die L.chip die).geometry ≡ plan.now.geometry) }
    ensures fault { IfErr result (IsUnreset L.called plan.now link) }
{
    let errors = match ReadErrors::new(alloc, plan.geometry.blocks()) {
        Ok(errors) => errors,
        Err(_) => return Err(OUT_OF_MEMORY),
    };
    match die_on_chip(StreamBus::new(link), plan.geometry, chip, errors) {
        Ok(die) => Ok(EitherDie::Coded(die)),
        Err(_) => Err(BUS_FAULT),
    }
}

/// The die behind a link, after Reset; or the number of the link's failure, or of want of memory.
pub(crate) fn reset<L: ChipLink + Drop>(
    alloc: Global,
    link: L,
    plan: &Plan,
) -> Result<EitherDie<L>, u32>
    requires { LeadsTo L.die L.chip L.honest L.keeps plan.now link }
    ensures die { IfOk result (IsDieFor L.called plan.now link) }
    ensures geometry { IfOk result (λ die. (flash_of_either L.die L.chip die).geometry ≡ plan.now.geometry) }
    ensures fault { IfErr result (IsUnreset L.called plan.now link) }
{
    match &plan.chip {
        None => plain_die(link, plan),
        Some(chip) => coded_die(alloc, link, plan, chip),
    }
}
