//! How the keys stand, and which table pages are well formed.
ghost use Rattle.std.specs.Prelude.{◌≡◌, ◌≢◌, ℕ, ◌+◌, ◌/◌, ◌<◌, ◌↔◌, true, false, List, length, get_or, slice_get, MatchOption, Option, Some, None, IfOk};
ghost use Rattle.page_layout.specs.declared.record.Record.{Record};
ghost use Rattle.page_layout.specs.Geometry.{key_count, row_count, table_pages, entries};
ghost use Rattle.page_layout.specs.Page.{Image, Page};
ghost use Rattle.page_layout.specs.Sound.{record_of};
ghost use Rattle.page_layout.specs.Limits.{IsDataSize};
ghost use Rattle.page_layout.specs.Live.{IsKeyOf};
ghost use Rattle.page_layout.specs.Array.{marks};
ghost use Rattle.bad_blocks.specs.TablePage.{IsWellFormed};
ghost use Rattle.image_check.specs.Newest.{place_in};
ghost use Rattle.image_check.specs.Survey.{HasNewest, index_of};
ghost use Rattle.lab_dump.specs.Keys.{HasFormed};

use bad_blocks::{Class, Table, TableRow, read_table_page};
use image_check::Newest;
use page_layout::geometry::Geometry;
use page_layout::record::{Key, Record};
use std::alloc::{AllocError, Global};

// The place of a key, where its number is in range: sectors, then translation pages, then table pages.
pub(crate) fn index_of(geometry: &Geometry, key: Key) -> Option<usize>
    ensures { MatchOption result (¬ IsKeyOf geometry.now key) (λ index. IsKeyOf geometry.now key × (index ≡ index_of geometry.now key)) }
{
    let sectors = geometry.sectors();
    let translation_pages = geometry.translation_pages();
    let index = match key {
        Key::Sector(n) if n < sectors => n,
        Key::Translation(t) if t < translation_pages => sectors + t,
        Key::Table(u) if u < geometry.table_pages() => sectors + translation_pages + u,
        _ => return None,
    };
    Some(index as usize)
}

// A table of good blocks, to read table pages into.
pub(crate) fn blank_table(alloc: Global, blocks: u32) -> Result<Table, AllocError>
    ensures { IfOk result (λ table. length table ≡ blocks) }
{
    let row = TableRow {
        class: Class::Good,
        wear: 0,
    };
    let rows = vec![in alloc; row; blocks as usize]?;
    Table::new(alloc, &rows)
}

// Whether a table page is well formed. `table` is scratch.
fn is_well_formed(table: &mut Table, page: u32, body: &[u8]) -> bool
    requires { IsDataSize (length body.now) }
    ensures formed { (result ≡ true) ↔ IsWellFormed (length body.now / 4) (length table.old) page body.now }
    ensures size { length table.new ≡ length table.old }
{
    match read_table_page(table, page, body) {
        Ok(()) => true,
        Err(_) => false,
    }
}

// Whether the newest page is that of this row.
fn is_at(newest: Newest, row: u32) -> bool
    ensures yes { result ≡ true → place_in newest ≡ Some row }
    ensures no { result ≡ false → place_in newest ≢ Some row }
{
    match newest.row() {
        Some(found) => found == row,
        None => false,
    }
}

// Notes whether a table page that is the newest of its key so far is well formed.
pub(crate) fn note_formed(
    geometry: &Geometry,
    table: &mut Table,
    formed: &mut [bool],
    newest: &[Newest],
    row: u32,
    found: Option<Record>,
    body: &[u8],
)
    requires table { length table.old ≡ geometry.now.blocks }
    requires size { length formed.old ≡ table_pages geometry.now }
    requires newest_size { length newest.now ≡ key_count geometry.now }
    requires body_whole { length body.now ≡ geometry.now.data_bytes }
    ensures formed { (image : Image) (p : Page) → HasFormed geometry.now image row formed.old →
        HasNewest geometry.now (marks image) (row + 1) newest.now → slice_get image row ≡ Some p → found ≡ record_of p → body.now ≡ p.body →
        HasFormed geometry.now image (row + 1) formed.new }
    ensures table { length table.new ≡ geometry.now.blocks }
{
    let Some(found) = found else {
        return;
    };
    let key = found.key();
    let Key::Table(number) = key else {
        return;
    };
    let Some(index) = index_of(geometry, key) else {
        return;
    };
    if is_at(newest[index], row) {
        formed[number as usize] = is_well_formed(table, number, body);
    }
}
