//! The pages of version 1 that count on a die with pages of 64 and 40 bytes, by a pass over all its pages.
ghost use Rattle.std.specs.Prelude.{◌≡◌};

use page_layout::geometry::Geometry;
use page_layout::record::{Key, read_record, record_version};
use page_layout::source::PageSource;
use std::alloc::Global;
use std::test::Fail;

/// How many newest pages are of version 1: table pages, and others.
#[derive(Clone, Copy, Debug, PartialEq)]
pub struct Old {
    pub tables: usize,
    pub others: usize,
}

impl Old {
    // Counts a page of this key.
    fn count(&mut self, key: Key) {
        match key {
            Key::Table(_) => self.tables = self.tables.saturating_add(1),
            _ => self.others = self.others.saturating_add(1),
        }
    }
}

// A sound page: what it is of, and its sequence and version.
#[derive(Clone, Copy)]
struct Page {
    key: Key,
    sequence: u64,
    version: u8,
}

// The page in these areas, if it is sound.
fn sound_page(geometry: &Geometry, body: &[u8], spare: &[u8]) -> Option<Page> {
    if geometry.data_bytes() != body.len() || geometry.spare_bytes() != spare.len() {
        return None;
    }
    let record = read_record(geometry, body, spare)?;
    let version = record_version(geometry, body, spare)?;
    Some(Page {
        key: record.key(),
        sequence: record.sequence,
        version,
    })
}

// The page of a row, if it is sound.
fn page_at<S: PageSource>(
    source: &mut S,
    geometry: &Geometry,
    row: u32,
) -> Result<Option<Page>, Fail>
    requires { (S.view.flash source.old).geometry ≡ geometry.now }
    ensures { (S.view.flash source.new).geometry ≡ geometry.now }
{
    let mut body = [0; 64];
    let mut spare = [0; 40];
    if geometry.data_bytes() != body.len() || geometry.spare_bytes() != spare.len() {
        return Err(Fail::new("pages of another size"));
    }
    if !geometry.has_row(row) {
        return Err(Fail::new("no such row"));
    }
    source.read_page(row, &mut body, &mut spare)?;
    Ok(sound_page(geometry, &body, &spare))
}

// The sound pages of a die.
fn pages_of<S: PageSource>(
    alloc: Global,
    source: &mut S,
    geometry: &Geometry,
) -> Result<Vec<Page>, Fail>
    requires { (S.view.flash source.old).geometry ≡ geometry.now }
    ensures { (S.view.flash source.new).geometry ≡ geometry.now }
{
    let mut pages = Vec::new(alloc);
    for row in 0..geometry.rows() {
        if let Some(page) = page_at(source, geometry, row)? {
            pages.push(page)?;
        }
    }
    Ok(pages)
}

// Whether none of these pages is newer than this one.
fn is_newest(pages: &[Page], page: &Page) -> bool {
    for other in pages {
        if other.key == page.key && other.sequence > page.sequence {
            return false;
        }
    }
    true
}

// How many newest ones of these pages are of version 1.
fn old_in(pages: &[Page]) -> Old {
    let mut old = Old {
        tables: 0,
        others: 0,
    };
    for page in pages {
        if page.version == 1 && is_newest(pages, page) {
            old.count(page.key);
        }
    }
    old
}

/// How many newest pages of a die are of version 1.
///
/// # Errors
///
/// Its pages have other sizes, or a growth was refused.
pub fn old_of<S: PageSource>(
    alloc: Global,
    source: &mut S,
    geometry: &Geometry,
) -> Result<Old, Fail>
    requires { (S.view.flash source.old).geometry ≡ geometry.now }
    ensures { (S.view.flash source.new).geometry ≡ geometry.now }
{
    let pages = pages_of(alloc, source, geometry)?;
    Ok(old_in(&pages))
}
