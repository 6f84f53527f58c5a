//! What a disk is made for, as C says it.
ghost use Rattle.std.specs.Prelude.{MatchResult};
ghost use Rattle.ftl_disk.specs.Plans.{IsChipFor, IsPlanOf, IsUnplanned, HasNoRoom};

use crate::number::{CACHE, CODES, of_geometry};
use crate::plan::Plan;
use page_code::chip::ChipGeometry;
use page_layout::geometry::Geometry;

/// The numbers of a die as C hands them over, how many entries of the mapping are kept in memory, and whether the pages have codes. (This
/// project's.)
#[repr(C)]
#[derive(Clone, Copy)]
pub struct Shape {
    /// The bytes of a page's data area, and of a sector.
    pub data_bytes: u32,
    /// The bytes of a page's spare area, without its codes.
    pub spare_bytes: u32,
    /// The pages of a block.
    pub pages: u32,
    /// The blocks of the die.
    pub blocks: u32,
    /// The sectors that the disk has.
    pub sectors: u32,
    /// The entries of the cache.
    pub cache: u32,
    /// 1 where the pages stand on the chip with codes, by which wrong bits are turned back; else 0.
    pub codes: u32,
}

// The geometry of the chip, where its pages have codes.
fn chip_for(geometry: &Geometry, codes: u32) -> Result<Option<ChipGeometry>, u32>
    ensures { MatchResult result (IsChipFor geometry.now codes) (HasNoRoom geometry.now codes) }
{
    if codes == 0 {
        return Ok(None);
    }
    if codes != 1 {
        return Err(CODES);
    }
    match ChipGeometry::of(geometry) {
        Some(chip) => Ok(Some(chip)),
        None => Err(CODES),
    }
}

impl Shape {
    /// The plan that C asks for, or the number of the first limit that it breaks.
    pub(crate) fn plan(&self) -> Result<Plan, u32>
        ensures { MatchResult result (IsPlanOf self.now) (IsUnplanned self.now) }
    {
        let made = Geometry::new(
            self.data_bytes,
            self.spare_bytes,
            self.pages,
            self.blocks,
            self.sectors,
        );
        let geometry = match made {
            Ok(geometry) => geometry,
            Err(fault) => return Err(of_geometry(fault)),
        };
        let cache = self.cache;
        if !geometry.is_capacity(cache) {
            return Err(CACHE);
        }
        let chip = chip_for(&geometry, self.codes)?;
        Ok(Plan {
            geometry,
            cache,
            chip,
        })
    }
}
