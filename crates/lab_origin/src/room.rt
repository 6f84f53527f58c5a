//! The memory of a run that holds a dump beside its readings.
use lab_dump::MapMark;
use page_layout::geometry::Geometry;
use page_layout::newest::Latest;
use std::alloc::{AllocError, Global};

/// The memory of a run that holds a dump of one geometry beside the readings that it was made of. (This project's.)
#[derive(Drop)]
pub struct OriginRoom {
    // the page at hand, and that of a reading
    pub(crate) page: Vec<u8>,
    pub(crate) other: Vec<u8>,
    // what is held of each sector
    pub(crate) latest: Vec<Latest>,
    pub(crate) marks: Vec<MapMark>,
}

impl OriginRoom {
    ghost use Rattle.std.specs.Prelude.{IfOk};
    ghost use Rattle.lab_origin.specs.Tracing.{IsOriginRoom};

    /// All the memory that it takes, whatever the readings are: two pages, and what is held of each sector.
    ///
    /// # Errors
    ///
    /// Where a growth was refused. (This project's.)
    pub fn new(alloc: Global, geometry: &Geometry) -> Result<OriginRoom, AllocError>
        ensures { IfOk result (IsOriginRoom geometry.now) }
    {
        let size = geometry.data_bytes() + geometry.spare_bytes();
        let sectors = geometry.sectors() as usize;
        Ok(OriginRoom {
            page: vec![in alloc; 0; size]?,
            other: vec![in alloc; 0; size]?,
            latest: vec![in alloc; Latest::Never; sectors]?,
            marks: vec![in alloc; MapMark::Untried; sectors]?,
        })
    }
}
