//! The geometry of a dump of so many bytes.
ghost use Rattle.std.specs.Prelude.{◌≡◌};
ghost use Rattle.page_layout.specs.Limits.{IsDataSize, IsPageCount, IsSpareSize};
ghost use Rattle.lab_shapes.specs.Better.{IsShapeAs, IsShapeIn, pages_size};
ghost use Rattle.lab_shapes.specs.Tried.{IsTriedWay};
ghost use Rattle.lab_shapes.specs.declared.tried.Way.TheVariants.{Cut};

use crate::tried::Way;
use lab_arrange::{Arrangement, in_order};
use page_layout::geometry::Geometry;

// The most blocks that a die may have.
const MOST_BLOCKS: u64 = 4096;

// How many bytes the pages have of a dump of this size, if it has room for what stands around them.
fn pages_size(size: u64, arrangement: &Arrangement) -> Option<u64>
    ensures { result ≡ pages_size size arrangement.now }
{
    let header = u64::from(arrangement.header.unwrap_or(0));
    let tail = u64::from(arrangement.tail.unwrap_or(0));
    size.checked_sub(header + tail)
}

// The geometry with one sector of such areas and blocks that comes to so many bytes, if there is one.
fn shape_as(bytes: u64, data_bytes: u32, spare_bytes: u32, pages: u32) -> Option<Geometry>
    requires data_size { IsDataSize data_bytes }
    requires spare_size { IsSpareSize spare_bytes }
    requires page_count { IsPageCount pages }
    ensures { IsShapeAs bytes data_bytes spare_bytes pages result }
{
    let page_bytes = u64::from(data_bytes + spare_bytes);
    if bytes % page_bytes != 0 {
        return None;
    }
    let rows = bytes / page_bytes;
    let blocks = rows / u64::from(pages);
    if rows % u64::from(pages) != 0 {
        return None;
    }
    if blocks > MOST_BLOCKS {
        return None;
    }
    Geometry::new(data_bytes, spare_bytes, pages, blocks as u32, 1).ok()
}

// The same in order, where a part of the last block was cut off.
fn shape_cut(
    size: u64,
    data_bytes: u32,
    spare_bytes: u32,
    pages: u32,
) -> Option<(Geometry, Arrangement)>
    requires data_size { IsDataSize data_bytes }
    requires spare_size { IsSpareSize spare_bytes }
    requires page_count { IsPageCount pages }
    ensures { IsShapeIn size Cut data_bytes spare_bytes pages result }
{
    let block_bytes = u64::from(pages * (data_bytes + spare_bytes));
    let whole = size / block_bytes;
    let there = size % block_bytes;
    if there == 0 || whole >= MOST_BLOCKS {
        return None;
    }
    let blocks = whole as u32 + 1;
    let geometry = Geometry::new(data_bytes, spare_bytes, pages, blocks, 1).ok()?;
    Some((
        geometry,
        Arrangement {
            cut: Some((block_bytes - there) as u32),
            ..in_order()
        },
    ))
}

/// The geometry with one sector of such areas and blocks that comes to a dump of this size, in an arrangement of this way, and that arrangement, if
/// there is one.
pub(crate) fn shape_in(
    size: u64,
    way: &Way,
    data_bytes: u32,
    spare_bytes: u32,
    pages: u32,
) -> Option<(Geometry, Arrangement)>
    requires data_size { IsDataSize data_bytes }
    requires spare_size { IsSpareSize spare_bytes }
    requires page_count { IsPageCount pages }
    requires tried { IsTriedWay way.now }
    ensures { IsShapeIn size way.now data_bytes spare_bytes pages result }
{
    match way {
        Way::Order(arrangement) => {
            let bytes = pages_size(size, arrangement)?;
            let geometry = shape_as(bytes, data_bytes, spare_bytes, pages)?;
            Some((geometry, *arrangement))
        }
        Way::Cut => shape_cut(size, data_bytes, spare_bytes, pages),
    }
}
