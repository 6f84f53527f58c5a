//! The sectors whose entries on flash differ from the rows of their newest pages.
ghost use Rattle.std.specs.Prelude.{◌≡◌, ◌≢◌, true, Err, ℕ, ◌+◌, ◌-◌, ◌*◌, ◌<◌, ◌≤◌, ◌++◌, [], All, length, filter, not, get_or, IfErr, OnOk, OnErr};
ghost use Rattle.std.specs.List.{range_with_len};
ghost use Rattle.page_layout.specs.Counter.{HasRisen};
ghost use Rattle.page_layout.specs.Geometry.{row_count, key_count, entries, translation_pages};
ghost use Rattle.page_layout.specs.OnlyReads.{OnlyReads};
ghost use Rattle.certificate.specs.Spelling.{IsRowOf};
ghost use Rattle.translation_pages.specs.TranslationPage.{entry_at};
ghost use Rattle.image_check.specs.Newest.{place_in, no_newest};
ghost use Rattle.translation_pages.specs.Entry.{entry_in};
ghost use Rattle.image_check.specs.Stale.{same_row, stale_sectors};
ghost use Rattle.image_check.specs.Surveyed.{SurveysKeys};
ghost use Rattle.image_check.specs.Refused.{StopsCheck};
ghost use Rattle.image_check.specs.Rising.{IsRisingBelow};

use crate::newest::Newest;
use crate::parts::same_row;
use crate::refusal::Refusal;
use page_layout::geometry::Geometry;
use page_layout::source::{PageSource, SourceFault};
use std::alloc::AllocError;
use translation_pages::entry;

// Notes which sectors from `first` up to `end` differ from their entries in this translation page.
fn note_stale(
    newest: &[Newest],
    first: u32,
    end: u32,
    page: &[u8],
    stale: &mut Vec<u32>,
) -> Result<(), AllocError>
    requires order { first ≤ end }
    requires sectors { end ≤ length newest.now }
    requires entries { 4 * (end - first) ≤ length page.now }
    ensures noted { OnOk result (stale.new.items ≡ stale.old.items ++ filter (λ n. not (same_row (entry_at page.now (n - first)) (place_in (get_or newest.now n no_newest)))) (range_with_len first (end - first))) }
    ensures rising { OnOk result (IsRisingBelow first stale.old.items → IsRisingBelow end stale.new.items) }
{
    for sector in first..end {
        let newest_row = newest[sector as usize].row();
        if !same_row(entry(page, sector - first), newest_row) {
            stale.push(sector)?;
        }
    }
    Ok(())
}

// Puts the newest page of translation page `page` into `body`, or FFh bytes where there is none.
fn read_translation<S: PageSource>(
    source: &mut S,
    geometry: &Geometry,
    latest: Newest,
    body: &mut [u8],
    spare: &mut [u8],
) -> Result<(), SourceFault>
    requires same_geometry { (S.view.flash source.old).geometry ≡ geometry.now }
    requires within { IsRowOf (row_count geometry.now) (place_in latest) }
    requires body_whole { length body.old ≡ geometry.now.data_bytes }
    requires spare_whole { length spare.old ≡ geometry.now.spare_bytes }
    ensures entries { OnOk result (S.view.honest source.old ≡ true → (i : ℕ) → i < entries geometry.now → entry_at body.new i ≡ entry_in (S.view.flash source.old).image i (place_in latest)) }
    ensures same { OnOk result (S.view.honest source.old ≡ true → S.view.flash source.new ≡ S.view.flash source.old) }
    ensures told { OnOk result (S.view.honest source.old ≡ true → S.view.recorded source.new ≡ S.view.recorded source.old) }
    ensures only_reads { OnlyReads S.view source.old source.new }
    ensures reads { S.view.reads source.new ≤ S.view.reads source.old + 1 }
    ensures rose { OnErr result (HasRisen (S.view.failed source.old) (S.view.failed source.new)) }
{
    match latest.row() {
        Some(row) => source.read_page(row, body, spare),
        None => {
            body.fill(0xFF);
            Ok(())
        }
    }
}

/// Finds the stale sectors, rising: those whose entry in the newest translation page isn't the row of their newest page.
/// `newest` is a survey's, and one read is made of each newest translation page. `stale` has to be empty. `body` and
/// `spare` are scratch of one data area and one spare area in bytes, and hold anything afterwards.
///
/// # Errors
/// `Source` where a page read failed, `OutOfMemory` where a growth was refused. (This project's rules.)
pub fn find_stale<S: PageSource>(
    source: &mut S,
    geometry: &Geometry,
    newest: &[Newest],
    body: &mut [u8],
    spare: &mut [u8],
    stale: &mut Vec<u32>,
) -> Result<(), Refusal>
    requires same_geometry { (S.view.flash source.old).geometry ≡ geometry.now }
    requires newest { length newest.now ≡ key_count geometry.now }
    requires within { All (λ x. IsRowOf (row_count geometry.now) (place_in x)) newest.now }
    requires body_whole { length body.old ≡ geometry.now.data_bytes }
    requires spare_whole { length spare.old ≡ geometry.now.spare_bytes }
    requires empty { stale.old.items ≡ [] }
    ensures stale { OnOk result (S.view.honest source.old ≡ true → SurveysKeys geometry.now (S.view.flash source.old).image newest.now →
        stale.new.items ≡ stale_sectors geometry.now (S.view.flash source.old).image) }
    ensures rising { OnOk result (IsRisingBelow geometry.now.sectors stale.new.items) }
    ensures same { result ≢ Err Refusal.Source → S.view.honest source.old ≡ true → S.view.flash source.new ≡ S.view.flash source.old }
    ensures stops { IfErr result StopsCheck }
    ensures told { OnOk result (S.view.honest source.old ≡ true → S.view.recorded source.new ≡ S.view.recorded source.old) }
    ensures only_reads { OnlyReads S.view source.old source.new }
    ensures reads { S.view.reads source.new ≤ S.view.reads source.old + translation_pages geometry.now }
    ensures rose { result ≡ Err Refusal.Source → HasRisen (S.view.failed source.old) (S.view.failed source.new) }
{
    let sectors = geometry.sectors();
    let entries = geometry.entries();
    for page in 0..geometry.translation_pages() {
        let latest = newest[(sectors + page) as usize];
        read_translation(source, geometry, latest, body, spare)?;
        let first = page * entries;
        let end = sectors.min(first + entries);
        note_stale(newest, first, end, body, stale)?;
    }
    Ok(())
}
