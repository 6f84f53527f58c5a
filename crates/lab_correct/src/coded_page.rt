//! The page of a row of a chip, put right.
ghost use Rattle.std.specs.Prelude.{◌≡◌, ◌+◌, ◌*◌, ◌/◌, ◌≤◌, ◌<◌, ◌^◌, List, ℕ, length, replicate, OnOk, OnErr, Some, true};
ghost use Rattle.page_layout.specs.Geometry.{page_bytes};
ghost use Rattle.page_layout.specs.Raw.{bytes_of_page};
ghost use Rattle.page_code.specs.Layout.{outer_size};
ghost use Rattle.lab_dump.specs.PageBytes.{page_from_bytes};
ghost use Rattle.lab_dump.specs.Pages.{dump_page_at};
ghost use Rattle.lab_correct.specs.Decoded.{decoded, decoded_bytes, raw_size};

use lab_dump::{Dump, DumpFault};
use page_code::correct_page;
use page_layout::geometry::Geometry;

/// How many bytes a page has on the chip, whose areas have so many without the codes.
pub(crate) fn raw_size(data_bytes: usize, spare_bytes: usize) -> usize
    requires data_small { data_bytes ≤ 4096 }
    requires spare_small { spare_bytes ≤ 256 }
    ensures { result ≡ raw_size data_bytes spare_bytes }
{
    data_bytes + spare_bytes + 3 * (data_bytes.div_ceil(256) + 1)
}

// Bytes 00h.
fn clear(page: &mut [u8])
    ensures { page.new ≡ replicate (length page.old) 0 }
{
    page.fill(0);
}

// A page of a chip, put right where none of its chunks is lost, and else 00h bytes.
fn decode(geometry: &Geometry, raw: &[u8], page: &mut [u8])
    requires raw_whole { length raw.now ≡ raw_size geometry.now.data_bytes geometry.now.spare_bytes }
    requires page_whole { length page.old ≡ page_bytes geometry.now }
    ensures { page.new ≡ bytes_of_page (decoded geometry.now.data_bytes geometry.now.spare_bytes (page_from_bytes geometry.now.data_bytes raw.now)) }
{
    let (body, outer) = raw.split_at(geometry.data_bytes());
    let tally = correct_page(geometry, body, outer, page);
    if tally.lost > 0 {
        clear(page);
    }
}

/// Reads the page of a row of a chip, so put right, to `page`. The geometry is that of the pages without their codes; `raw` is scratch.
pub(crate) fn read_decoded<D: Dump>(
    dump: &mut D,
    geometry: &Geometry,
    row: u32,
    raw: &mut [u8],
    page: &mut [u8],
) -> Result<(), DumpFault>
    requires raw_whole { length raw.old ≡ raw_size geometry.now.data_bytes geometry.now.spare_bytes }
    requires page_whole { length page.old ≡ page_bytes geometry.now }
    ensures read { OnOk result ((all : List ℕ) → D.bytes dump.old ≡ Some all → row < length all / raw_size geometry.now.data_bytes geometry.now.spare_bytes
        → page_from_bytes geometry.now.data_bytes page.new ≡ dump_page_at geometry.now.data_bytes geometry.now.spare_bytes (decoded_bytes geometry.now.data_bytes geometry.now.spare_bytes all) row) }
    ensures failed { OnErr result (D.failed dump.new ≡ true) }
    ensures same { D.bytes dump.new ≡ D.bytes dump.old }
{
    dump.read_at(u64::from(row) * raw.len() as u64, raw)?;
    decode(geometry, raw, page);
    Ok(())
}
