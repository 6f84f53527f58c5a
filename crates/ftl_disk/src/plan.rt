//! What a disk is made for, within the limits.
ghost use Rattle.std.specs.Prelude.{◌≤◌};
ghost use Rattle.std.specs.Option.{ForSome};
ghost use Rattle.page_code.specs.Chip.{IsChipOf};

use page_code::chip::ChipGeometry;
use page_layout::geometry::Geometry;

/// A geometry within its limits, a cache within its own, and the geometry of the chip where its pages have codes. (This project's.)
#[derive(Clone, Copy)]
pub struct Plan {
    pub(crate) geometry: Geometry,
    pub(crate) cache: u32,
    pub(crate) chip: Option<ChipGeometry>,
    ghost fits: { (1 ≤ cache) × (cache ≤ 65536) },
    ghost room: { ForSome chip (λ c. IsChipOf geometry c.raw) },
}
