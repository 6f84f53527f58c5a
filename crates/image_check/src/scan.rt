//! The plain scan: one sector of an image, found by a look at every page.
ghost use Rattle.std.specs.Prelude.{◌≡◌, ◌≢◌, ◌+◌, ◌^◌, ◌≤◌, ◌<◌, ◌↔◌, true, Err, OnOk, OnErr, length, IfOk, IfErr, unwrap_or};
ghost use Rattle.std.specs.Prelude.{option_copied, IfSome, IsSome, IsTrue, Some};
ghost use Rattle.page_layout.specs.Counter.{HasRisen};
ghost use Rattle.page_layout.specs.Page.{IsImage, page};
ghost use Rattle.page_layout.specs.Newest.{latest_below, sequence_of};
ghost use Rattle.page_layout.specs.Array.{marks, zeros, content, sector_of};
ghost use Rattle.page_layout.specs.Sound.{record_of};
ghost use Rattle.page_layout.specs.declared.record.Key.TheVariants as key;
ghost use Rattle.page_layout.specs.declared.record.Kind.TheVariants as kind;
ghost use Rattle.page_layout.specs.Geometry.{row_count, page_bytes};
ghost use Rattle.page_layout.specs.OnlyReads.{OnlyReads};
ghost use Rattle.image_check.specs.Sector.{IsAmbiguous, NamesRows, NamesLowest, MayShow, ShowsSector, NamesTwoRows, IsBelow};

use page_layout::geometry::Geometry;
use page_layout::newest::Latest;
use page_layout::record::{Key, Kind, Record, read_record, sequence_in};
use page_layout::source::{ImageSlice, PageSource, SourceFault};
use thiserror::Error;

/// Why an image gives no bytes for a sector.
#[derive(Clone, Copy, Debug, PartialEq, Eq, Error)]
pub enum SectorFault {
    /// The sector's number is at or past the number of sectors.
    #[error("there is no such sector")]
    OutOfRange,
    /// Two pages of the sector share its greatest sequence. These are the lowest two such rows.
    #[error("the pages of rows {first} and {second} share the sector's greatest sequence")]
    SequenceRepeated { first: u32, second: u32 },
    /// A page could not be read.
    #[error("a page could not be read")]
    Source,
}

// What all pages together say of the newest page of a key.
#[tactic(auto, using(page_layout::proofs::ArrayLemmas::latest_none, page_layout::proofs::ArrayLemmas::latest_more))]
fn latest(image: &ImageSlice, key: Key) -> Latest
    ensures { result ≡ latest_below (marks image.now.flash.image) key (row_count image.now.flash.geometry) }
{
    let geometry = image.geometry();
    let mut latest = Latest::Never;
    for row in 0..geometry.rows() {
        let (body, spare) = image.page(row);
        let sequence = sequence_in(&geometry, key, body, spare);
        latest = latest.step(row, sequence);
    }
    latest
}

// Whether the record is that of a page with the sector's bytes.
fn holds_sector(found: &Record, sector: u32) -> bool
    ensures { IsTrue result ↔ ((found.now.kind ≡ kind.Sector) × (found.now.number ≡ sector)) }
{
    found.kind == Kind::Sector && found.number == sector
}

// What a sector reads as whose newest page this is: its data area, or `None` for zeros. A page that is not of the sector
// is not lent, since a source may put out another page than it did before.
fn content<'a>(geometry: &Geometry, sector: u32, body: &'a [u8], spare: &[u8]) -> Option<&'a [u8]>
    requires body_whole { length body.now ≡ geometry.now.data_bytes }
    requires spare_whole { length spare.now ≡ geometry.now.spare_bytes }
    ensures is { IsSome (sequence_of (key.Sector sector) (record_of (page body.now spare.now))) →
        unwrap_or (option_copied result) (zeros geometry.now) ≡ content geometry.now (Some (page body.now spare.now)) }
    ensures own { IfSome result (λ found. ShowsSector sector (page body.now spare.now) found.now) }
    ensures whole { IfSome result (λ found. length found.now ≡ geometry.now.data_bytes) }
{
    let Some(found) = read_record(geometry, body, spare) else {
        return None;
    };
    if holds_sector(&found, sector) {
        Some(body)
    } else {
        None
    }
}

/// A sector of a raw image in memory: the data area of the sector's newest page, lent without a
/// copy, or `None` where the sector reads as zeros (its newest page is a trim, or it has none).
///
/// The newest page of a sector is its sound page of greatest sequence, over all blocks, bad ones
/// included. Takes no memory.
///
/// # Errors
///
/// `OutOfRange` exactly where `sector` is at or past the geometry's sectors; else
/// `SequenceRepeated`, with the rows, exactly where two pages of the sector share its greatest
/// sequence. Never `Source`.
///
/// (This project's rule.)
pub fn sector_in<'a>(image: &ImageSlice<'a>, sector: u32) -> Result<Option<&'a [u8]>, SectorFault>
    ensures range { (result ≡ Err SectorFault.OutOfRange) ↔ (image.now.flash.geometry.sectors ≤ sector) }
    ensures repeated { NamesTwoRows result ↔ IsAmbiguous image.now.flash.geometry image.now.flash.image sector }
    ensures rows { IfErr result (NamesRows image.now.flash.image sector) }
    ensures lowest { IfErr result (NamesLowest image.now.flash.image sector) }
    ensures never_source { result ≢ Err SectorFault.Source }

    // What is lent is the sector, and nothing lent means zeros.
    ensures ok { IfOk result (λ found. unwrap_or (option_copied found) (zeros image.now.flash.geometry) ≡ sector_of image.now.flash.geometry image.now.flash.image sector) }
    ensures whole { IfOk result (λ found. IfSome found (λ bytes. length bytes.now ≡ image.now.flash.geometry.data_bytes)) }
{
    let geometry = image.geometry();
    if geometry.sectors() <= sector {
        return Err(SectorFault::OutOfRange);
    }
    match latest(image, Key::Sector(sector)) {
        Latest::Never => Ok(None),
        Latest::Tied(first, second, _) => Err(SectorFault::SequenceRepeated { first, second }),
        Latest::Once(row, _) => {
            let (body, spare) = image.page(row);
            Ok(content(&geometry, sector, body, spare))
        }
    }
}

impl From<SourceFault> for SectorFault {
    ghost use Rattle.std.specs.Prelude.{◌≡◌};
    ghost use Rattle.image_check.specs.declared.scan.SectorFault.{SectorFault};

    ghost from_gives = { λ _ fault. fault ≡ SectorFault.Source };

    fn from(_fault: SourceFault) -> SectorFault {
        SectorFault::Source
    }
}

// What all pages together say of the newest page of a key, read one by one.
#[tactic(auto, using(page_layout::proofs::ArrayLemmas::latest_none, page_layout::proofs::ArrayLemmas::latest_more, crate::proofs::SectorLemmas::step_below))]
fn latest_of<S: PageSource>(
    source: &mut S,
    geometry: &Geometry,
    key: Key,
    body: &mut [u8],
    spare: &mut [u8],
) -> Result<Latest, SourceFault>
    requires same_geometry { (S.view.flash source.old).geometry ≡ geometry.now }
    requires body_whole { length body.old ≡ geometry.now.data_bytes }
    requires spare_whole { length spare.old ≡ geometry.now.spare_bytes }
    ensures found { IfOk result (λ latest. S.view.honest source.old ≡ true → latest ≡ latest_below (marks (S.view.flash source.old).image) key (row_count geometry.now)) }
    ensures within { IfOk result (IsBelow (row_count geometry.now)) }
    ensures same { OnOk result (S.view.honest source.old ≡ true → S.view.flash source.new ≡ S.view.flash source.old) }
    ensures whole { OnOk result (S.view.honest source.old ≡ true → IsImage geometry.now (S.view.flash source.new).image) }
    ensures only_reads { OnlyReads S.view source.old source.new }
    ensures reads { S.view.reads source.new ≤ S.view.reads source.old + row_count geometry.now }
    ensures counted { S.view.reads source.old < 2 ^ 64 → (S.view.reads source.old ≤ S.view.reads source.new) × (S.view.reads source.new < 2 ^ 64) }
    ensures rose { OnErr result (HasRisen (S.view.failed source.old) (S.view.failed source.new)) }
{
    let mut newest = Latest::Never;
    for row in 0..geometry.rows() {
        source.read_page(row, body, spare)?;
        let sequence = sequence_in(geometry, key, body, spare);
        newest = newest.step(row, sequence);
    }
    Ok(newest)
}

/// Reads a sector into `out` by a look at every page of the source: the data area of the sector's
/// newest page, or zeros where that page is a trim or the sector has none.
///
/// `page` is scratch of one page, data area and spare area together; `out` has the bytes of a data
/// area. Takes no memory. Reads each page once and the newest one once more, programs and erases
/// nothing, and leaves an honest source's pages as they are. A source that changes its pages in between is shown as zeros,
/// or as the sector stands in the page that was read last, and never as another sector: `page` holds that page then, a sound one of
/// this sector.
///
/// # Errors
///
/// Each leaves `out` all 00h. `OutOfRange` exactly where `sector` is at or past the geometry's
/// sectors, whatever the source does, and nothing is read then. Else, where no page read failed,
/// `SequenceRepeated`, with the rows, exactly where two pages of the sector share its greatest
/// sequence. `Source` only where a page read failed: the source's count of failures rose, or stands
/// at its greatest value.
///
/// (This project's rule.)
pub fn sector<S: PageSource>(
    source: &mut S,
    geometry: &Geometry,
    sector: u32,
    page: &mut [u8],
    out: &mut [u8],
) -> Result<(), SectorFault>
    requires same_geometry { (S.view.flash source.old).geometry ≡ geometry.now }
    requires page_whole { length page.old ≡ page_bytes geometry.now }
    requires out_whole { length out.old ≡ geometry.now.data_bytes }
    ensures range { (result ≡ Err SectorFault.OutOfRange) ↔ (geometry.now.sectors ≤ sector) }
    ensures zeros { OnErr result (out.new ≡ zeros geometry.now) }
    ensures rose { result ≡ Err SectorFault.Source → HasRisen (S.view.failed source.old) (S.view.failed source.new) }

    // What an honest source's image says.
    ensures ok { OnOk result (S.view.honest source.old ≡ true → out.new ≡ sector_of geometry.now (S.view.flash source.old).image sector) }
    ensures repeated { S.view.honest source.old ≡ true → result ≢ Err SectorFault.Source → (NamesTwoRows result ↔ IsAmbiguous geometry.now (S.view.flash source.old).image sector) }
    ensures rows { S.view.honest source.old ≡ true → IfErr result (NamesRows (S.view.flash source.old).image sector) }
    ensures lowest { S.view.honest source.old ≡ true → IfErr result (NamesLowest (S.view.flash source.old).image sector) }
    ensures same { S.view.honest source.old ≡ true → result ≢ Err SectorFault.Source → S.view.flash source.new ≡ S.view.flash source.old }

    // What any source shows: zeros, or the page that `page` then holds, which is a sound one of the sector.
    ensures own { OnOk result (MayShow geometry.now sector page.new out.new) }

    // What stays the same of any source.
    ensures unread { geometry.now.sectors ≤ sector → source.new ≡ source.old }
    ensures only_reads { OnlyReads S.view source.old source.new }
    ensures reads { S.view.reads source.new ≤ S.view.reads source.old + row_count geometry.now + 1 }
    ensures counted { S.view.reads source.old < 2 ^ 64 → S.view.reads source.old ≤ S.view.reads source.new }
{
    out.fill(0);
    if sector >= geometry.sectors() {
        return Err(SectorFault::OutOfRange);
    }
    let (body, spare) = page.split_at_mut(geometry.data_bytes());
    let latest = latest_of(source, geometry, Key::Sector(sector), body, spare)?;
    let row = match latest {
        Latest::Never => return Ok(()),
        Latest::Tied(first, second, _) => {
            return Err(SectorFault::SequenceRepeated { first, second });
        }
        Latest::Once(row, _) => row,
    };
    source.read_page(row, body, spare)?;
    if let Some(found) = content(geometry, sector, body, spare) {
        out.copy_from_slice(found);
    }
    Ok(())
}
