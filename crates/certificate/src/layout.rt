//! Where the parts of a certificate lie among its bytes.
ghost use Rattle.std.specs.Prelude.{◌≡◌};
ghost use Rattle.certificate.specs.Claim.{sizes_of};
ghost use Rattle.certificate.specs.Spelling.{directory_rows, layout};

use page_layout::geometry::Geometry;

pub(crate) const MAGIC: [u8; 8] = *b"DFTLCRT1";

// The bytes before the states of the blocks.
pub(crate) const HEAD_BYTES: usize = 40;

pub(crate) const BLOCK_BYTES: usize = 9;

pub(crate) const ROW_BYTES: usize = 4;

// The greatest class of a block.
pub(crate) const MOST_CLASS: u8 = 5;

// The rows of translation pages and table pages.
pub(crate) fn directory_rows(geometry: &Geometry) -> usize
    ensures { result ≡ directory_rows (sizes_of geometry.now) }
{
    geometry.translation_pages() as usize + geometry.table_pages() as usize
}

// The bytes of a certificate of a die of this geometry.
pub(crate) fn layout_bytes(geometry: &Geometry) -> usize
    ensures { result ≡ layout (sizes_of geometry.now) }
{
    HEAD_BYTES
        + BLOCK_BYTES * geometry.blocks() as usize
        + ROW_BYTES * directory_rows(geometry)
        + ROW_BYTES * geometry.sectors() as usize
}
