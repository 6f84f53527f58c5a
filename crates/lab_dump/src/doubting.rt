//! What the pages that have passed leave open.
ghost use Rattle.std.specs.Prelude.{◌≡◌, ◌≢◌, ◌+◌, ◌*◌, ◌<◌, ◌≤◌, ◌^◌, true, false, All, List, Option, None, length, get_or, slice_get, Some, IfOk};
ghost use Rattle.page_layout.specs.declared.record.Record.{Record};
ghost use Rattle.page_layout.specs.Geometry.{key_count, row_count, table_pages};
ghost use Rattle.page_layout.specs.Page.{Page, Image, page};
ghost use Rattle.page_layout.specs.Sound.{record_of, is_erased_page};
ghost use Rattle.page_layout.specs.Array.{marks};
ghost use Rattle.image_check.specs.Survey.{HasTableBytes};
ghost use Rattle.lab_dump.specs.Count.{HasUnsound};
ghost use Rattle.page_layout.specs.Change.{one_if};
ghost use Rattle.lab_dump.specs.Doubts.{is_record_past};
ghost use Rattle.lab_dump.specs.Doubting.{DoubtingStands, HasHoles, HasTraces, IsDoubting};
ghost use Rattle.lab_dump.specs.Trace.{place_in_trace};

use crate::counts::{note_unsound, one_strange};
use crate::keys::index_of;
use crate::pass::{Areas, Stopped, Taker};
use crate::said::{SaidPage, note_said};
use crate::trace::Trace;
use page_layout::geometry::Geometry;
use page_layout::record::{Key, Record, is_erased, read_record};
use std::alloc::{AllocError, Global};

// What the pages that have passed leave open.
#[derive(Drop)]
pub(crate) struct Doubting {
    // of each key what is known of its newest page
    pub(crate) traces: Vec<Trace>,
    // the data areas of the newest table pages
    pub(crate) tables: Vec<u8>,
    // of each block, how many pages are neither erased nor sound
    pub(crate) unsound: Vec<u32>,
    // of each block, how many of its pages are holes
    pub(crate) holes: Vec<u32>,
    // the erased pages behind the last one that is not, in the block of the last page
    pub(crate) ending: u32,
    // what the pages say that are neither erased nor sound
    pub(crate) said: Vec<SaidPage>,
    // the sound pages of a sector at or past the number of sectors
    pub(crate) outside: u32,
    // the sound pages of a key that the die has not
    pub(crate) strange: u32,
    // known in the end: how many of the pages that say something are counted as unsound
    pub(crate) legible: u32,
    // room for the end: of each block whether some key has its newest page in it
    pub(crate) kept: Vec<bool>,
}

// 1 where there is a record, of a sector at or past the number of sectors, else 0.
fn one_outside(geometry: &Geometry, found: Option<Record>) -> u32
    ensures is { result ≡ one_if (is_record_past geometry.now found) }
    ensures small { result ≤ 1 }
{
    let Some(found) = found else {
        return 0;
    };
    match found.key() {
        Key::Sector(n) if n >= geometry.sectors() => 1,
        Key::Sector(_) | Key::Translation(_) | Key::Table(_) => 0,
    }
}

// The erased pages that end the rows before this one, if it is of the same block.
fn carried(geometry: &Geometry, row: u32, ending: u32) -> u32
    ensures is { (image : Image) → ending ≡ Rattle.lab_dump.specs.Doubting.ending geometry.now image row → result ≡ Rattle.lab_dump.specs.Doubting.carried geometry.now image row }
    ensures few { result ≤ ending }
{
    if row % geometry.pages() == 0 {
        0
    } else {
        ending
    }
}

// Notes the holes that a page shows where it is not erased. Gives how many erased pages end the rows with it.
fn note_holes(geometry: &Geometry, holes: &mut [u32], row: u32, erased: bool, ending: u32) -> u32
    requires row_in { row < row_count geometry.now }
    requires size { length holes.old ≡ geometry.now.blocks }
    requires few { All (λ n. n + ending ≤ row) holes.old }
    requires end { ending ≤ row }
    ensures ending { (image : Image) (p : Page) → ending ≡ Rattle.lab_dump.specs.Doubting.ending geometry.now image row → slice_get image row ≡ Some p → erased ≡ is_erased_page p → result ≡ Rattle.lab_dump.specs.Doubting.ending geometry.now image (row + 1) }
    ensures noted { (image : Image) (p : Page) → HasHoles geometry.now image row holes.old → ending ≡ Rattle.lab_dump.specs.Doubting.ending geometry.now image row → slice_get image row ≡ Some p → erased ≡ is_erased_page p → HasHoles geometry.now image (row + 1) holes.new }
    ensures few { All (λ n. n + result ≤ row + 1) holes.new }
    ensures end { result ≤ row + 1 }
{
    let carried = carried(geometry, row, ending);
    if erased {
        return carried + 1;
    }
    let (block, _page) = geometry.split_row(row);
    holes[block as usize] += carried;
    0
}

// Notes what a sound page says of its key.
fn note_trace(geometry: &Geometry, traces: &mut [Trace], row: u32, found: Option<Record>)
    requires { length traces.old ≡ key_count geometry.now }
    ensures { (ms : List (Option Record)) → HasTraces geometry.now ms row traces.old → get_or ms row None ≡ found → HasTraces geometry.now ms (row + 1) traces.new }
{
    let Some(found) = found else {
        return;
    };
    if let Some(index) = index_of(geometry, found.key()) {
        let trace = traces[index];
        traces[index] = trace.step(row, found.sequence);
    }
}

// Whether the newest page is that of this row.
fn is_at(trace: Trace, row: u32) -> bool
    ensures yes { result ≡ true → place_in_trace trace ≡ Some row }
    ensures no { result ≡ false → place_in_trace trace ≢ Some row }
{
    match trace.row() {
        Some(found) => found == row,
        None => false,
    }
}

// Keeps the data area of a table page that is the newest of its key so far.
fn note_table(
    geometry: &Geometry,
    tables: &mut [u8],
    traces: &[Trace],
    row: u32,
    found: Option<Record>,
    body: &[u8],
)
    requires size { length tables.old ≡ table_pages geometry.now * geometry.now.data_bytes }
    requires traces_size { length traces.now ≡ key_count geometry.now }
    requires body_whole { length body.now ≡ geometry.now.data_bytes }
    ensures { (image : Image) (p : Page) → HasTableBytes geometry.now image row tables.old →
        HasTraces geometry.now (marks image) (row + 1) traces.now → slice_get image row ≡ Some p → found ≡ record_of p → body.now ≡ p.body →
        HasTableBytes geometry.now image (row + 1) tables.new }
{
    let Some(found) = found else {
        return;
    };
    let key = found.key();
    let Key::Table(number) = key else {
        return;
    };
    let Some(index) = index_of(geometry, key) else {
        return;
    };
    if is_at(traces[index], row) {
        let data_bytes = geometry.data_bytes();
        let at = number as usize * data_bytes;
        tables[at..at + data_bytes].copy_from_slice(body);
    }
}

impl Doubting {
    // No page has passed. All its memory is taken here.
    pub(crate) fn new(alloc: Global, geometry: &Geometry) -> Result<Doubting, AllocError>
        ensures stands { IfOk result (DoubtingStands geometry.now 0) }
        ensures is { IfOk result (λ d. (image : Image) → IsDoubting geometry.now 0 image d) }
    {
        let table_pages = geometry.table_pages();
        let keys = geometry.sectors() + geometry.translation_pages() + table_pages;
        let blocks = geometry.blocks() as usize;
        let table_bytes = table_pages as usize * geometry.data_bytes();
        Ok(Doubting {
            traces: vec![in alloc; Trace::Never; keys as usize]?,
            tables: vec![in alloc; 0; table_bytes]?,
            unsound: vec![in alloc; 0; blocks]?,
            holes: vec![in alloc; 0; blocks]?,
            ending: 0,
            said: Vec::with_capacity(alloc, geometry.rows() as usize)?,
            outside: 0,
            strange: 0,
            legible: 0,
            kept: vec![in alloc; false; blocks]?,
        })
    }

    // The next page passes, that of this row, with this record, if it is sound.
    pub(crate) fn step(
        &mut self,
        geometry: &Geometry,
        row: u32,
        found: Option<Record>,
        body: &[u8],
        spare: &[u8],
    )
        requires row_in { row < row_count geometry.now }
        requires body_whole { length body.now ≡ geometry.now.data_bytes }
        requires spare_whole { length spare.now ≡ geometry.now.spare_bytes }
        requires found { found ≡ record_of (page body.now spare.now) }
        requires stands { DoubtingStands geometry.now row self.old }
        ensures stands { DoubtingStands geometry.now (row + 1) self.new }
        ensures is { (image : Image) → IsDoubting geometry.now row image self.old → slice_get image row ≡ Some (page body.now spare.now) → IsDoubting geometry.now (row + 1) image self.new }
    {
        let erased = is_erased(body, spare);
        note_unsound(geometry, &mut self.unsound, row, found, erased);
        self.ending = note_holes(geometry, &mut self.holes, row, erased, self.ending);
        note_said(geometry, &mut self.said, row, found, erased, spare);
        self.outside += one_outside(geometry, found);
        self.strange += one_strange(geometry, found);
        note_trace(geometry, &mut self.traces, row, found);
        note_table(geometry, &mut self.tables, &self.traces, row, found, body);
    }
}

impl Taker for Doubting {
    ghost use Rattle.std.specs.Prelude.{◌≡◌, ◌<◌, ◌+◌, ℕ, length, slice_get, OnOk, OnErr, Some};
    ghost use Rattle.page_layout.specs.Geometry.{row_count};
    ghost use Rattle.page_layout.specs.Page.{Image, page};
    ghost use Rattle.lab_dump.specs.Doubting.{DoubtingStands, IsDoubting};

    ghost stands = { λ d g rows. DoubtingStands g rows d };

    ghost shows = { λ d g rows image. IsDoubting g rows image d };

    // it never stops
    ghost stopped = { λ _. ⊥ };

    fn take(&mut self, geometry: &Geometry, row: u32, areas: Areas<'_>) -> Result<(), Stopped> {
        let found = read_record(geometry, areas.body, areas.spare);
        self.step(geometry, row, found, areas.body, areas.spare);
        Ok(())
    }
}
