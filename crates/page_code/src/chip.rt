//! The geometry of a chip, beside that of the die that it is without the codes.
ghost use Rattle.std.specs.Prelude.{◌≡◌, ◌<◌, IfSome, IfNone};
ghost use Rattle.page_code.specs.Layout.{outer_bytes};
ghost use Rattle.page_code.specs.Chip.{IsChipOf};

use crate::outer_bytes;
use page_layout::geometry::Geometry;

/// The geometry of a chip: its pages as they stand there, with their codes. It is a type of its own, so that it is never taken for the
/// geometry of the pages without the codes. (This project's.)
#[derive(Clone, Copy, Debug, PartialEq, Eq)]
pub struct ChipGeometry {
    raw: Geometry,
}

impl ChipGeometry {
    /// The geometry of the chip whose pages without their codes have this one. `None` where the spare area with the codes, `outer_bytes`, would have
    /// more than 256 bytes.
    pub fn of(geometry: &Geometry) -> Option<ChipGeometry>
        ensures some { IfSome result (λ chip. IsChipOf geometry.now chip.raw) }
        ensures none { IfNone result (256 < outer_bytes geometry.now) }
    {
        if outer_bytes(geometry) > 256 {
            return None;
        }
        match Geometry::new(
            geometry.data_bytes() as u32,
            outer_bytes(geometry) as u32,
            geometry.pages(),
            geometry.blocks(),
            geometry.sectors(),
        ) {
            Ok(raw) => Some(ChipGeometry { raw }),
            Err(_) => None,
        }
    }

    /// The five numbers, where a page is its bytes and no more: its data area, and its whole spare area.
    pub fn raw(&self) -> &Geometry
        ensures { result.now ≡ self.now.raw }
    {
        &self.raw
    }
}
