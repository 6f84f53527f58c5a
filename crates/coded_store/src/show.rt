//! A page with its codes, as it reads and as it is written.
ghost use Rattle.std.specs.Prelude.{◌≡◌, ◌*◌, length};
ghost use Rattle.page_layout.specs.Geometry.{page_bytes};
ghost use Rattle.onfi_cycles.specs.Cycles.{page_of};
ghost use Rattle.page_code.specs.Layout.{coded};
ghost use Rattle.corrected_nand.specs.Shown.{lost_page};
ghost use Rattle.coded_store.specs.Reading.{coded_bytes, read_as, wrong_with};
ghost use Rattle.coded_store.specs.File.{IsWithCodes};

use crate::wrong::Wrong;
use page_code::{correct_page, encode_page, outer_bytes};
use page_layout::geometry::Geometry;

/// How many bytes a page has with its codes: its data area, and its spare area as on a chip.
pub fn coded_length(geometry: &Geometry) -> usize
    ensures { result ≡ coded_bytes geometry.now }
{
    geometry.data_bytes() + outer_bytes(geometry)
}

// The page that is lost.
fn lose(geometry: &Geometry, page: &mut [u8])
    requires room { length page.old ≡ page_bytes geometry.now }
    ensures { page_of geometry.now page.new ≡ lost_page geometry.now }
{
    page.fill(0);
}

// Makes of the bytes that stand for a page the page that they read as, and says what was wrong with them.
pub(crate) fn show(geometry: &Geometry, stands: &[u8], page: &mut [u8]) -> Wrong
    requires whole { length stands.now ≡ coded_bytes geometry.now }
    requires room { length page.old ≡ page_bytes geometry.now }
    ensures page { page_of geometry.now page.new ≡ read_as geometry.now (page_of geometry.now stands.now) }
    ensures wrong { result ≡ wrong_with geometry.now (page_of geometry.now stands.now) }
    ensures bytes { IsWithCodes geometry.now (page_of geometry.now stands.now) }
{
    let (body, outer) = stands.split_at(geometry.data_bytes());
    let tally = correct_page(geometry, body, outer, page);
    if tally.lost > 0 {
        lose(geometry, page);
        return Wrong::Lost;
    }
    Wrong::Turned(tally.turned as u8)
}

// Writes the bytes that stand for a page: the page, with its codes.
pub(crate) fn spell(geometry: &Geometry, page: &[u8], stands: &mut [u8])
    requires page_whole { length page.now ≡ page_bytes geometry.now }
    requires room { length stands.old ≡ coded_bytes geometry.now }
    ensures { page_of geometry.now stands.new ≡ coded geometry.now (page_of geometry.now page.now) }
{
    let size = geometry.data_bytes();
    let (body, spare) = page.split_at(size);
    stands[..size].copy_from_slice(body);
    encode_page(geometry, body, spare, &mut stands[size..]);
}
