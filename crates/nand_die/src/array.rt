//! The pages of a die, one after another in an array of bytes.
ghost use Rattle.std.specs.Prelude.{◌≡◌, ◌<◌, ◌≤◌, ◌+◌, ◌*◌, List, length, slice_set, take, drop, replicate, get_or};
ghost use Rattle.page_layout.specs.Geometry.{row_count, page_bytes};
ghost use Rattle.page_layout.specs.Raw.{raw_image, IsRaw};
ghost use Rattle.page_layout.specs.Change.{erased_page};
ghost use Rattle.page_layout.specs.Flash.{no_page, with_block};
ghost use Rattle.onfi_cycles.specs.Cycles.{page_of};
ghost use Rattle.nand_die.specs.Tape.{pages_of};
ghost use Rattle.nand_die.specs.Made.{with_mark};

use page_layout::geometry::Geometry;

/// The bytes of a page: of its data area and of its spare area.
pub fn page_length(geometry: &Geometry) -> usize
    ensures { result ≡ page_bytes geometry.now }
{
    geometry.data_bytes() + geometry.spare_bytes()
}

/// The bytes of a raw image: of all pages of the die.
pub fn image_length(geometry: &Geometry) -> usize
    ensures { result ≡ row_count geometry.now * page_bytes geometry.now }
{
    geometry.rows() as usize * page_length(geometry)
}

// Where a page begins in a raw image.
fn page_start(geometry: &Geometry, row: u32) -> usize
    requires in_range { row < row_count geometry.now }
    ensures is { result ≡ row * page_bytes geometry.now }
    ensures ends { result + page_bytes geometry.now ≤ row_count geometry.now * page_bytes geometry.now }
{
    row as usize * page_length(geometry)
}

// The bytes of a block.
fn block_length(geometry: &Geometry) -> usize
    ensures { result ≡ geometry.now.pages * page_bytes geometry.now }
{
    geometry.pages() as usize * page_length(geometry)
}

// Where a block begins in a raw image.
fn block_start(geometry: &Geometry, block: u32) -> usize
    requires in_range { block < geometry.now.blocks }
    ensures is { result ≡ block * geometry.now.pages * page_bytes geometry.now }
    ensures ends { result + geometry.now.pages * page_bytes geometry.now ≤ row_count geometry.now * page_bytes geometry.now }
{
    block as usize * block_length(geometry)
}

/// Writes a page into its place in a raw image: its data area and then its spare area.
pub fn write_page(bytes: &mut [u8], geometry: &Geometry, row: u32, page: &[u8])
    requires in_range { row < row_count geometry.now }
    requires whole { length bytes.old ≡ row_count geometry.now * page_bytes geometry.now }
    requires page { length page.now ≡ page_bytes geometry.now }
    ensures raw { IsRaw geometry.now bytes.new }
    ensures image { raw_image geometry.now bytes.new ≡ slice_set (raw_image geometry.now bytes.old) row (page_of geometry.now page.now) }
{
    let size = page_length(geometry);
    let start = page_start(geometry, row);
    bytes[start..start + size].copy_from_slice(page);
}

/// A page of a raw image, lent: its data area and then its spare area.
pub fn page_slice<'a>(bytes: &'a [u8], geometry: &Geometry, row: u32) -> &'a [u8]
    requires in_range { row < row_count geometry.now }
    requires whole { length bytes.now ≡ row_count geometry.now * page_bytes geometry.now }
    ensures page { get_or (raw_image geometry.now bytes.now) row no_page ≡ page_of geometry.now result.now }
    ensures size { length result.now ≡ page_bytes geometry.now }
{
    let size = page_length(geometry);
    let start = page_start(geometry, row);
    &bytes[start..start + size]
}

// A block, lent.
pub fn block_slice<'a>(bytes: &'a [u8], geometry: &Geometry, block: u32) -> &'a [u8]
    requires in_range { block < geometry.now.blocks }
    requires whole { length bytes.now ≡ row_count geometry.now * page_bytes geometry.now }
    ensures pages { take geometry.now.pages (drop (block * geometry.now.pages) (raw_image geometry.now bytes.now)) ≡ pages_of geometry.now geometry.now.pages result.now }
    ensures size { length result.now ≡ geometry.now.pages * page_bytes geometry.now }
{
    let size = block_length(geometry);
    let start = block_start(geometry, block);
    &bytes[start..start + size]
}

// Puts a factory mark on a page.
pub fn mark_page(bytes: &mut [u8], geometry: &Geometry, row: u32)
    requires in_range { row < row_count geometry.now }
    requires whole { length bytes.old ≡ row_count geometry.now * page_bytes geometry.now }
    ensures { raw_image geometry.now bytes.new ≡ slice_set (raw_image geometry.now bytes.old) row (with_mark (get_or (raw_image geometry.now bytes.old) row no_page)) }
{
    let size = page_length(geometry);
    let start = page_start(geometry, row);
    let page = &mut bytes[start..start + size];
    page[geometry.data_bytes()] = 0;
}

/// Fills the pages of a block in a raw image with FFh.
pub fn erase_pages(bytes: &mut [u8], geometry: &Geometry, block: u32)
    requires in_range { block < geometry.now.blocks }
    requires whole { length bytes.old ≡ row_count geometry.now * page_bytes geometry.now }
    ensures raw { IsRaw geometry.now bytes.new }
    ensures image { raw_image geometry.now bytes.new ≡ with_block geometry.now.pages block (replicate geometry.now.pages (erased_page geometry.now)) (raw_image geometry.now bytes.old) }
{
    let size = block_length(geometry);
    let start = block_start(geometry, block);
    bytes[start..start + size].fill(0xFF);
}
