//! The die over such a bus.
ghost use Rattle.std.specs.Prelude.{◌≡◌, ◌+◌, ◌≤◌, IfOk, length};
ghost use Rattle.page_code.specs.Layout.{outer_bytes};
ghost use Rattle.page_code.specs.Chip.{IsChipOf};
ghost use Rattle.corrected_nand.specs.Errors.{AreFor};

use crate::bus::NoisyBus;
use corrected_nand::{ChipDriver, Corrected, NoisyNand, ReadErrors, die_on_chip};
use onfi_cycles::BusFault;
use page_code::chip::ChipGeometry;
use page_layout::geometry::Geometry;

/// The die over a chip behind such a bus: as honest as the chip. (This project's, for tests.)
///
/// # Errors
///
/// The bus's fault at Reset, with the bus and the errors.
pub fn die_on_bus<N: NoisyNand + Drop>(
    nand: N,
    geometry: Geometry,
    chip: &ChipGeometry,
    register: Vec<u8>,
    errors: ReadErrors,
) -> Result<Corrected<ChipDriver<NoisyBus<N>>>, (NoisyBus<N>, ReadErrors, BusFault)>
    requires plain { (N.flash nand).geometry ≡ geometry }
    requires room { outer_bytes geometry ≤ 256 }
    requires pages { IsChipOf geometry chip.now.raw }
    requires register { length register.items ≡ geometry.data_bytes + outer_bytes geometry }
    requires errors { AreFor geometry errors }
    ensures honest { IfOk result (λ die. N.honest die.nand.driver.bus.nand ≡ N.honest nand) }
    ensures geometry { IfOk result (λ die. die.nand.geometry ≡ geometry) }
{
    let bus = NoisyBus::new(nand, geometry, register);
    die_on_chip(bus, geometry, chip, errors)
}
