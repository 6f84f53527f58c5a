//! How many pages are of each sort.
ghost use Rattle.std.specs.Prelude.{◌≡◌, ◌+◌, ◌-◌, ◌/◌, ◌<◌, ◌≤◌, ◌^◌, All, length, slice_get, Some, true, not, ◌&&◌, is_some};
ghost use Rattle.page_layout.specs.Change.{one_if};
ghost use Rattle.page_layout.specs.Geometry.{row_count};
ghost use Rattle.page_layout.specs.Page.{Page, Image};
ghost use Rattle.page_layout.specs.Sound.{record_of, is_erased_page};
ghost use Rattle.lab_dump.specs.Count.{AreFew, HasUnsound, SortsLaw, with_page_counted, is_last, is_of_kind, is_outside, no_counts};

use page_layout::geometry::Geometry;
use page_layout::record::{Key, Kind, Record};

/// How many pages of a dump are of each sort. The first six sum to the pages of the die.
#[derive(Clone, Copy, Debug, PartialEq, Eq)]
pub struct PageCounts {
    /// Sound, with the bytes of a sector.
    pub sectors: u32,
    /// Sound, a trim of a sector.
    pub trims: u32,
    /// Sound translation pages.
    pub translations: u32,
    /// Sound table pages.
    pub tables: u32,
    /// As an erase leaves them.
    pub erased: u32,
    /// Neither sound nor erased.
    pub unsound: u32,
    /// Sound, of a sector, translation page or table page that the die has not.
    pub outside: u32,
    /// Sound, with the sequence 2^64 - 1, which none follows.
    pub last: u32,
}

/// Each page is of one of the first six sorts, and of one alone.
pub fn sorts_law()
    ensures { SortsLaw }
{}

// Whether there is a record, of this kind.
fn is_of_kind(found: Option<Record>, kind: Kind) -> bool
    ensures { result ≡ is_of_kind kind found }
{
    match found {
        Some(found) => found.kind == kind,
        None => false,
    }
}

// Whether there is a record whose number is out of range.
pub(crate) fn is_outside(geometry: &Geometry, found: Option<Record>) -> bool
    ensures { result ≡ is_outside geometry.now found }
{
    let Some(found) = found else {
        return false;
    };
    match found.key() {
        Key::Sector(n) => n >= geometry.sectors(),
        Key::Translation(t) => t >= geometry.translation_pages(),
        Key::Table(u) => u >= geometry.table_pages(),
    }
}

// Whether there is a record, with the last sequence.
fn is_last(found: Option<Record>) -> bool
    ensures { result ≡ is_last found }
{
    match found {
        Some(found) => !(found.sequence < u64::MAX),
        None => false,
    }
}

// 1 where there is a record whose number is out of range, else 0.
pub(crate) fn one_strange(geometry: &Geometry, found: Option<Record>) -> u32
    ensures is { result ≡ one_if (is_outside geometry.now found) }
    ensures small { result ≤ 1 }
{
    one(is_outside(geometry, found))
}

fn one(is: bool) -> u32
    ensures is { result ≡ one_if is }
    ensures small { result ≤ 1 }
{
    if is { 1 } else { 0 }
}

impl PageCounts {
    // Nothing counted.
    pub(crate) fn none() -> PageCounts
        ensures { result ≡ no_counts }
    {
        PageCounts {
            sectors: 0,
            trims: 0,
            translations: 0,
            tables: 0,
            erased: 0,
            unsound: 0,
            outside: 0,
            last: 0,
        }
    }

    // The counts with one page more.
    pub(crate) fn step(self, geometry: &Geometry, found: Option<Record>, erased: bool) -> PageCounts
        requires { AreFew (2 ^ 32 - 2) self }
        ensures { result ≡ with_page_counted geometry.now self found erased }
    {
        PageCounts {
            sectors: self.sectors + one(is_of_kind(found, Kind::Sector)),
            trims: self.trims + one(is_of_kind(found, Kind::Trim)),
            translations: self.translations + one(is_of_kind(found, Kind::Translation)),
            tables: self.tables + one(is_of_kind(found, Kind::Table)),
            erased: self.erased + one(erased),
            unsound: self.unsound + one(!erased && found.is_none()),
            outside: self.outside + one(is_outside(geometry, found)),
            last: self.last + one(is_last(found)),
        }
    }
}

// Counts a page of a block that is neither erased nor sound.
pub(crate) fn note_unsound(
    geometry: &Geometry,
    unsound: &mut [u32],
    row: u32,
    found: Option<Record>,
    erased: bool,
)
    requires row_in { row < row_count geometry.now }
    requires size { length unsound.old ≡ geometry.now.blocks }
    requires few { All (λ n. n ≤ row) unsound.old }
    ensures noted { (image : Image) (p : Page) → HasUnsound geometry.now image row unsound.old → slice_get image row ≡ Some p →
        erased ≡ is_erased_page p → found ≡ record_of p → HasUnsound geometry.now image (row + 1) unsound.new }
    ensures few { All (λ n. n ≤ row + 1) unsound.new }
{
    if erased || found.is_some() {
        return;
    }
    let (block, _page) = geometry.split_row(row);
    unsound[block as usize] += 1;
}
