//! Which shapes a dump of so many bytes may have.
ghost use Rattle.std.specs.Prelude.{◌≡◌, ◌+◌, ◌*◌, ◌/◌, ◌<◌, ◌≤◌, ◌^◌, All, IfSome, IfNone, false, true};
ghost use Rattle.page_layout.specs.Geometry.{row_count};
ghost use Rattle.page_layout.specs.Limits.{IsDataSize, IsSpareSize, IsPageCount};
ghost use Rattle.lab_dump.specs.Shape.{data_sizes, page_counts, has_shape, rows_in_size, IsShapeOf};

use page_layout::geometry::Geometry;

/// The bytes that a data area may have, a power of two from 64 to 4096.
pub fn data_sizes() -> [u32; 7]
    ensures is { result ≡ data_sizes }
    ensures sizes { All IsDataSize result }
{
    [64, 128, 256, 512, 1024, 2048, 4096]
}

/// The pages that a block may have, a power of two from 4 to 256.
pub fn page_counts() -> [u32; 7]
    ensures is { result ≡ page_counts }
    ensures counts { All IsPageCount result }
{
    [4, 8, 16, 32, 64, 128, 256]
}

// The geometry with one sector of a dump of so many bytes, which are whole blocks of so many pages, as many as a die may have.
pub(crate) fn shape(size: u64, data_bytes: u32, spare_bytes: u32, pages: u32) -> Option<Geometry>
    requires data_size { IsDataSize data_bytes }
    requires spare_size { IsSpareSize spare_bytes }
    requires page_count { IsPageCount pages }
    ensures { IsShapeOf size data_bytes spare_bytes pages result }
{
    let page_bytes = u64::from(data_bytes + spare_bytes);
    let rows = size / page_bytes;
    if size % page_bytes != 0 || rows % u64::from(pages) != 0 {
        return None;
    }
    let blocks = u32::try_from(rows / u64::from(pages)).ok()?;
    Geometry::new(data_bytes, spare_bytes, pages, blocks, 1).ok()
}

/// A geometry of such areas, if the bytes are of some: its pages are as many as those of each other shape of these areas.
pub fn first_shape(size: u64, data_bytes: u32, spare_bytes: u32) -> Option<Geometry>
    requires data_size { IsDataSize data_bytes }
    requires spare_size { IsSpareSize spare_bytes }
    ensures none { IfNone result (has_shape size data_bytes spare_bytes ≡ false) }
    ensures some { IfSome result (λ geometry. has_shape size data_bytes spare_bytes ≡ true) }
    ensures areas { IfSome result (λ geometry. (geometry.data_bytes ≡ data_bytes) × (geometry.spare_bytes ≡ spare_bytes)) }
    ensures rows { IfSome result (λ geometry. row_count geometry ≡ rows_in_size size data_bytes spare_bytes) }
{
    let counts = page_counts();
    for pages in counts {
        if let Some(geometry) = shape(size, data_bytes, spare_bytes, pages) {
            return Some(geometry);
        }
    }
    None
}
