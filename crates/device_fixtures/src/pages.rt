//! What stands in the pages of a die.
ghost use Rattle.std.specs.Prelude.{◌≡◌};

use crate::hold::hold_same;
use page_layout::geometry::Geometry;
use page_layout::record::{Kind, Record, read_record};
use page_layout::source::PageSource;
use std::test::Fail;

/// An entry of a translation page without a row.
pub const NO: u8 = 0xFF;

/// Pages that were programmed in blocks that were never erased.
pub enum PageAt {
    /// A row, the sector, the sequence, and the byte that its data area has throughout.
    Sector(u32, u32, u64, u8),
    /// So many such pages from this one on, each with the next row, sector, sequence and byte.
    Sectors(u8, u32, u32, u64, u8),
    /// A row, the sector, and the sequence. The data area has bytes 00h.
    Trim(u32, u32, u64),
    /// A row, the number, the sequence, and the rows of the first entries. The others have none.
    Translation(u32, u32, u64, &'static [u8]),
    /// A row, the number, the sequence, and the first bytes. The others are 00h.
    Table(u32, u32, u64, [u8; 16]),
    /// A row with 00h in all its bytes.
    Torn(u32),
}

// The record of a page and its data area. Where it has no record, its spare area has the same bytes
// throughout as its data area.
#[derive(Clone, Copy)]
struct Page {
    record: Option<Record>,
    body: [u8; 64],
}

fn page_with(kind: Kind, number: u32, sequence: u64, body: [u8; 64]) -> Page {
    let record = Some(Record {
        kind,
        number,
        sequence,
        wear: 0,
    });
    Page { record, body }
}

// The data area of a translation page with these entries first, of four bytes each.
fn translation_body(entries: &[u8]) -> [u8; 64] {
    let mut body = [0xFF; 64];
    for nth in 0..16usize {
        let row = entries.get(nth).copied().unwrap_or(NO);
        if row != NO {
            body[4 * nth..4 * nth + 4].copy_from_slice(&[row, 0, 0, 0]);
        }
    }
    body
}

// The data area of a table page that begins with these bytes.
fn table_body(first: &[u8; 16]) -> [u8; 64] {
    let mut body = [0; 64];
    body[..16].copy_from_slice(first);
    body
}

impl PageAt {
    // The first row.
    fn row(&self) -> u32 {
        match self {
            PageAt::Sector(row, ..) | PageAt::Sectors(_, row, ..) | PageAt::Trim(row, ..) => *row,
            PageAt::Translation(row, ..) | PageAt::Table(row, ..) | PageAt::Torn(row) => *row,
        }
    }

    // How many pages these are.
    fn count(&self) -> u8 {
        match self {
            PageAt::Sectors(count, ..) => *count,
            PageAt::Sector(..)
            | PageAt::Trim(..)
            | PageAt::Translation(..)
            | PageAt::Table(..)
            | PageAt::Torn(_) => 1,
        }
    }

    // The page so many after the first.
    fn page(&self, after: u8) -> Page {
        match self {
            PageAt::Sector(_, n, sequence, byte) | PageAt::Sectors(_, _, n, sequence, byte) => {
                page_with(
                    Kind::Sector,
                    n.wrapping_add(u32::from(after)),
                    sequence.wrapping_add(u64::from(after)),
                    [byte.wrapping_add(after); 64],
                )
            }
            PageAt::Trim(_, n, sequence) => page_with(Kind::Trim, *n, *sequence, [0; 64]),
            PageAt::Translation(_, t, sequence, entries) => page_with(
                Kind::Translation,
                *t,
                *sequence,
                translation_body(entries),
            ),
            PageAt::Table(_, u, sequence, first) => page_with(
                Kind::Table,
                *u,
                *sequence,
                table_body(first),
            ),
            PageAt::Torn(_) => Page {
                record: None,
                body: [0; 64],
            },
        }
    }

    // The page that stands in a row, if it is one of these.
    fn page_at(&self, row: u32) -> Option<Page> {
        let after = u8::try_from(row.checked_sub(self.row())?).ok()?;
        if after < self.count() {
            Some(self.page(after))
        } else {
            None
        }
    }
}

// The page of this list that stands in a row: else the row is as an erase leaves it.
fn page_in(pages: &[PageAt], row: u32) -> Page {
    for at in pages {
        if let Some(page) = at.page_at(row) {
            return page;
        }
    }
    Page {
        record: None,
        body: [0xFF; 64],
    }
}

// What was read of a row: the record, if the page is sound, and the areas.
#[derive(Clone, Copy)]
struct Found {
    record: Option<Record>,
    body: [u8; 64],
    spare: [u8; 32],
}

// Reads the areas of a page, and its record.
fn read_areas<S: PageSource>(
    source: &mut S,
    geometry: &Geometry,
    row: u32,
    body: &mut [u8],
    spare: &mut [u8],
) -> Result<Option<Record>, Fail>
    requires { (S.view.flash source.old).geometry ≡ geometry.now }
    ensures { (S.view.flash source.new).geometry ≡ geometry.now }
{
    if geometry.data_bytes() != body.len()
        || geometry.spare_bytes() != spare.len()
        || !geometry.has_row(row)
    {
        return Err(Fail::new("pages of another size, or no such row"));
    }
    source.read_page(row, body, spare)?;
    Ok(read_record(geometry, body, spare))
}

// Reads a page.
fn read_row<S: PageSource>(source: &mut S, geometry: &Geometry, row: u32) -> Result<Found, Fail>
    requires { (S.view.flash source.old).geometry ≡ geometry.now }
    ensures { (S.view.flash source.new).geometry ≡ geometry.now }
{
    let mut body = [0; 64];
    let mut spare = [0; 32];
    let record = read_areas(source, geometry, row, &mut body, &mut spare)?;
    Ok(Found {
        record,
        body,
        spare,
    })
}

// What was read of a row is this page.
fn hold_page(name: &str, row: u32, found: &Found, page: &Page) -> Result<(), Fail> {
    let held = (row, found.record, found.body);
    hold_same(name, "a page", &held, &(row, page.record, page.body))?;
    if page.record.is_some() {
        return Ok(());
    }
    let wanted = [page.body[0]; 32];
    hold_same(name, "a spare area", &(row, found.spare), &(row, wanted))
}

// A row has the page of the list, or is as an erase leaves it.
fn hold_row<S: PageSource>(
    source: &mut S,
    geometry: &Geometry,
    name: &str,
    pages: &[PageAt],
    row: u32,
) -> Result<(), Fail>
    requires { (S.view.flash source.old).geometry ≡ geometry.now }
    ensures { (S.view.flash source.new).geometry ≡ geometry.now }
{
    let found = read_row(source, geometry, row)?;
    hold_page(name, row, &found, &page_in(pages, row))
}

/// After the two pages of its format the die has these pages and no others.
///
/// # Errors
///
/// A page is another, or the geometry isn't that of these tests.
pub fn hold_pages<S: PageSource>(
    source: &mut S,
    geometry: &Geometry,
    name: &str,
    pages: &[PageAt],
) -> Result<(), Fail>
    requires { (S.view.flash source.old).geometry ≡ geometry.now }
    ensures { (S.view.flash source.new).geometry ≡ geometry.now }
{
    for row in 2..256 {
        hold_row(source, geometry, name, pages, row)?;
    }
    Ok(())
}

// Bytes begin with these.
fn begins_with(bytes: &[u8], first: &[u8]) -> bool {
    bytes.get(..first.len()) == Some(first)
}

/// The spare area of row 8 begins with these bytes.
///
/// # Errors
///
/// It begins with others, or the geometry isn't that of these tests.
pub fn hold_spare<S: PageSource>(
    source: &mut S,
    geometry: &Geometry,
    name: &str,
    first: &[u8],
) -> Result<(), Fail>
    requires { (S.view.flash source.old).geometry ≡ geometry.now }
    ensures { (S.view.flash source.new).geometry ≡ geometry.now }
{
    let found = read_row(source, geometry, 8)?;
    let begins = begins_with(&found.spare, first);
    hold_same(
        name,
        "the spare area of row 8 is the wanted one",
        &begins,
        &true,
    )
}
