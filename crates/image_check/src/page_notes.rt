//! What is noted of each page as it passes.
ghost use Rattle.std.specs.Prelude.{◌≡◌, true, ◌+◌, ◌*◌, ◌<◌, ◌≤◌, ◌++◌, List, All, length, get_or, slice_get, MatchOption, Option};
ghost use Rattle.std.specs.Prelude.{Some, None, vec_len, vec_capacity};
ghost use Rattle.page_layout.specs.declared.record.Record.{Record};
ghost use Rattle.page_layout.specs.Page.{Page, Image};
ghost use Rattle.page_layout.specs.Geometry.{key_count, row_count, table_pages};
ghost use Rattle.page_layout.specs.Sound.{record_of, is_erased_page};
ghost use Rattle.page_layout.specs.Live.{IsKeyOf};
ghost use Rattle.page_layout.specs.Array.{marks};
ghost use Rattle.certificate.specs.Spelling.{IsRowOf};
ghost use Rattle.image_check.specs.Newest.{place_in};
ghost use Rattle.image_check.specs.Survey.{index_of, HasNewest, HasOutside, pair_of, HasPassed, HasLooks, HasTableBytes};

use crate::look::BlockLook;
use crate::newest::Newest;
use crate::parts::same_row;
use certificate::Certificate;
use page_layout::geometry::Geometry;
use page_layout::record::{Key, Record};

// The place of a key, where its number is in range.
pub(crate) fn index_of(geometry: &Geometry, key: Key) -> Option<usize>
    ensures { MatchOption result (¬ IsKeyOf geometry.now key) (λ index. IsKeyOf geometry.now key × (index ≡ index_of geometry.now key)) }
{
    let sectors = geometry.sectors();
    let translation_pages = geometry.translation_pages();
    let index = match key {
        Key::Sector(n) if n < sectors => n,
        Key::Translation(t) if t < translation_pages => sectors + t,
        Key::Table(u) if u < geometry.table_pages() => sectors + translation_pages + u,
        _ => return None,
    };
    Some(index as usize)
}

#[tactic(auto, using(crate::proofs::SurveyLemmas::newest_none, crate::proofs::SurveyLemmas::newest_outside, crate::proofs::SurveyLemmas::newest_set))]
pub(crate) fn note_newest(
    geometry: &Geometry,
    newest: &mut [Newest],
    row: u32,
    found: Option<Record>,
)
    requires row_in { row < row_count geometry.now }
    requires size { length newest.old ≡ key_count geometry.now }
    requires within { All (λ x. IsRowOf row (place_in x)) newest.old }
    ensures newest { (ms : List (Option Record)) → HasNewest geometry.now ms row newest.old → get_or ms row None ≡ found → HasNewest geometry.now ms (row + 1) newest.new }
    ensures within { All (λ x. IsRowOf (row + 1) (place_in x)) newest.new }
{
    let Some(found) = found else {
        return;
    };
    if let Some(index) = index_of(geometry, found.key()) {
        newest[index] = newest[index].step(row, found.sequence);
    }
}

#[tactic(auto, using(crate::proofs::SurveyLemmas::outside_none, crate::proofs::SurveyLemmas::outside_within, crate::proofs::SurveyLemmas::outside_found))]
pub(crate) fn note_number(
    geometry: &Geometry,
    outside: Option<u32>,
    row: u32,
    found: Option<Record>,
) -> Option<u32>
    ensures { (ms : List (Option Record)) → HasOutside geometry.now ms row outside → get_or ms row None ≡ found → HasOutside geometry.now ms (row + 1) result }
{
    if outside.is_some() {
        return outside;
    }
    let found = found?;
    match index_of(geometry, found.key()) {
        Some(_) => None,
        None => Some(row),
    }
}

// Notes the sequence and the row of a sound page. There is room for it.
pub(crate) fn note_sequence(pairs: &mut Vec<(u64, u32)>, row: u32, found: Option<Record>)
    requires { vec_len pairs.old < vec_capacity pairs.old }
    ensures items { pairs.new.items ≡ pairs.old.items ++ pair_of row found }
    ensures few { vec_len pairs.new ≤ vec_len pairs.old + 1 }
    ensures room { vec_capacity pairs.old ≤ vec_capacity pairs.new }
{
    if let Some(found) = found {
        let _ = pairs.push((found.sequence, row));
    }
}

// Notes that the page of a row is sound and of the sector for which the certificate claims that row.
pub(crate) fn note_claim(
    certificate: &Certificate,
    passed: &mut [bool],
    row: u32,
    found: Option<Record>,
)
    requires { length passed.old ≡ length certificate.now.sectors }
    ensures { (ms : List (Option Record)) → HasPassed ms row certificate.now.sectors passed.old → get_or ms row None ≡ found → HasPassed ms (row + 1) certificate.now.sectors passed.new }
{
    let Some(found) = found else {
        return;
    };
    let Key::Sector(sector) = found.key() else {
        return;
    };
    if sector as usize >= passed.len() {
        return;
    }
    if same_row(certificate.sector_row(sector), Some(row)) {
        passed[sector as usize] = true;
    }
}

pub(crate) fn note_look(
    geometry: &Geometry,
    looks: &mut [BlockLook],
    row: u32,
    erased: bool,
    found: Option<Record>,
)
    requires row_in { row < row_count geometry.now }
    requires size { length looks.old ≡ geometry.now.blocks }
    requires bounded { All (λ look. look.written ≤ row) looks.old }
    ensures looks { (image : Image) (p : Page) → HasLooks geometry.now image row looks.old → slice_get image row ≡ Some p →
        erased ≡ is_erased_page p → found ≡ record_of p → HasLooks geometry.now image (row + 1) looks.new }
    ensures bounded { All (λ look. look.written ≤ row + 1) looks.new }
{
    let (block, page) = geometry.split_row(row);
    let look = &mut looks[block as usize];
    *look = look.step(page == 0, erased, found);
}

// Keeps the data area of a table page that is the newest of its key so far.
pub(crate) fn note_table(
    geometry: &Geometry,
    tables: &mut [u8],
    newest: &[Newest],
    row: u32,
    found: Option<Record>,
    body: &[u8],
)
    requires size { length tables.old ≡ table_pages geometry.now * geometry.now.data_bytes }
    requires newest_size { length newest.now ≡ key_count geometry.now }
    requires body_whole { length body.now ≡ geometry.now.data_bytes }
    ensures { (image : Image) (p : Page) → HasTableBytes geometry.now image row tables.old →
        HasNewest geometry.now (marks image) (row + 1) newest.now → slice_get image row ≡ Some p → found ≡ record_of p → body.now ≡ p.body →
        HasTableBytes geometry.now image (row + 1) tables.new }
{
    let Some(found) = found else {
        return;
    };
    let key = found.key();
    let Key::Table(number) = key else {
        return;
    };
    let Some(index) = index_of(geometry, key) else {
        return;
    };
    if same_row(newest[index].row(), Some(row)) {
        let data_bytes = geometry.data_bytes();
        let at = number as usize * data_bytes;
        tables[at..at + data_bytes].copy_from_slice(body);
    }
}
