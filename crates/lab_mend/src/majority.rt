//! What more than half of several pages say, bit by bit. The pages stand one behind another.
ghost use Rattle.std.specs.Prelude.{◌≡◌, ◌<◌, ◌≤◌, ◌+◌, ◌*◌, ◌/◌, length, slice_index, map, nat_lt, if◌then◌else◌};
ghost use Rattle.std.specs.List.{range_with_len};
ghost use Rattle.page_layout.specs.Geometry.{page_bytes};
ghost use Rattle.page_layout.specs.Raw.{bytes_of_page};
ghost use Rattle.lab_mend.specs.Majority.{byte_of, majority, majority_bit};
ghost use Rattle.lab_mend.specs.Pages.{bytes_at, pages_in};

use page_layout::geometry::Geometry;

// 1 where more than half of the pages have this bit of byte `place` set, else 0.
fn majority_bit(pages: &[u8], size: usize, count: usize, place: usize, bit: u32) -> u8
    requires whole { length pages.now ≡ count * size }
    requires place_in { place < size }
    requires bit_in { bit < 8 }
    ensures { result ≡ majority_bit (bytes_at pages.now size count place) bit }
{
    let mut votes = 0;
    for i in 0..count {
        votes += (pages[i * size + place] >> bit & 1) as usize;
    }
    if votes > count / 2 { 1 } else { 0 }
}

// The byte that has each bit set which more than half of the pages have set there.
fn majority_byte(pages: &[u8], size: usize, count: usize, place: usize) -> u8
    requires whole { length pages.now ≡ count * size }
    requires place_in { place < size }
    ensures { result ≡ byte_of (majority_bit (bytes_at pages.now size count place)) 8 }
{
    let mut byte = 0;
    for bit in 0..8 {
        byte += majority_bit(pages, size, count, place, bit) << bit;
    }
    byte
}

/// Writes the page that has each bit set which more than half of the pages have set.
pub(crate) fn write_majority(geometry: &Geometry, pages: &[u8], count: usize, out: &mut [u8])
    requires whole { length pages.now ≡ count * page_bytes geometry.now }
    requires room { length out.old ≡ page_bytes geometry.now }
    ensures { out.new ≡ bytes_of_page (majority geometry.now (pages_in geometry.now pages.now count)) }
{
    let size = geometry.data_bytes() + geometry.spare_bytes();
    for place in 0..size {
        out[place] = majority_byte(pages, size, count, place);
    }
}
