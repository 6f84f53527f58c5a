//! The page of a row, as a geometry has it.
ghost use Rattle.std.specs.Prelude.{◌≡◌, ◌+◌, ◌*◌, ◌^◌, ◌<◌, List, ℕ, length, slice_range, IfOk, OnOk, Some, OnErr, true};
ghost use Rattle.page_layout.specs.Geometry.{page_bytes};
ghost use Rattle.page_layout.specs.PageLook.{look_of};
ghost use Rattle.lab_dump.specs.PageBytes.{page_from_bytes};
ghost use Rattle.lab_dump.specs.Pages.{dump_page_at};

use crate::dump::Dump;
use image_check::DumpFault;
use page_layout::geometry::Geometry;
use page_layout::look::{PageLook, look_at};

// Reads the page of a row.
pub(crate) fn read_row<D: Dump>(dump: &mut D, row: u32, page: &mut [u8]) -> Result<(), DumpFault>
    requires { length page.old < 2 ^ 32 }
    ensures read { OnOk result ((all : List ℕ) → D.bytes dump.old ≡ Some all → page.new ≡ slice_range all (row * length page.new) (row * length page.new + length page.new)) }
    ensures failed { OnErr result (D.failed dump.new ≡ true) }
    ensures same { D.bytes dump.new ≡ D.bytes dump.old }
{
    dump.read_at(u64::from(row) * page.len() as u64, page)
}

/// What a page is, by its bytes: those of its data area and then those of its spare area, as many as the geometry says.
pub fn look_in(geometry: &Geometry, page: &[u8]) -> PageLook
    requires { length page.now ≡ page_bytes geometry.now }
    ensures { result ≡ look_of (page_from_bytes geometry.now.data_bytes page.now) }
{
    let (body, spare) = page.split_at(geometry.data_bytes());
    look_at(geometry, body, spare)
}

// Reads the page of a row, and says what it is.
pub(crate) fn look_at_row<D: Dump>(
    dump: &mut D,
    geometry: &Geometry,
    row: u32,
    page: &mut [u8],
) -> Result<PageLook, DumpFault>
    requires { length page.old ≡ page_bytes geometry.now }
    ensures look { IfOk result (λ look. look ≡ look_of (page_from_bytes geometry.now.data_bytes page.new)) }
    ensures read { OnOk result ((all : List ℕ) → D.bytes dump.old ≡ Some all → page_from_bytes geometry.now.data_bytes page.new ≡ dump_page_at geometry.now.data_bytes geometry.now.spare_bytes all row) }
    ensures failed { OnErr result (D.failed dump.new ≡ true) }
    ensures same { D.bytes dump.new ≡ D.bytes dump.old }
{
    read_row(dump, row, page)?;
    Ok(look_in(geometry, page))
}
