//! What a dump leaves open, by what all its pages have shown.
ghost use Rattle.std.specs.Prelude.{◌≡◌, ◌+◌, ◌*◌, ◌<◌, ◌==◌, ◌&&◌, ◌||◌, not, false, ℕ, ◌≤◌, All, length, get_or, slice_range};
ghost use Rattle.page_layout.specs.Geometry.{key_count, row_count, table_pages};
ghost use Rattle.page_layout.specs.Live.{is_in_block};
ghost use Rattle.page_layout.specs.Page.{Image};
ghost use Rattle.page_layout.specs.Array.{marks};
ghost use Rattle.image_check.specs.Blocks.{table_class};
ghost use Rattle.image_check.specs.Survey.{HasTableBytes};
ghost use Rattle.lab_dump.specs.Doubts.{doubts_of, legible_of};
ghost use Rattle.lab_dump.specs.Doubting.{DoubtingStands, HasTraces, IsDoubting};
ghost use Rattle.lab_dump.specs.Said.{said_below, said_of};
ghost use Rattle.lab_dump.specs.Concluding;
ghost use Rattle.lab_dump.specs.Concluding.{IsSeen, IsDoubtingSized, excuse_of, keeps_in, ties_in};

use crate::doubting::Doubting;
use crate::doubts::Doubts;
use crate::said::judge;
use crate::trace::Trace;
use page_layout::geometry::Geometry;
use page_layout::word::read_word;

// Why the pages of a block leave nothing open, if they do.
#[derive(Clone, Copy, Debug, PartialEq, Eq)]
pub(crate) enum Excuse {
    // they may
    Open,
    // the newest table names it factory bad
    Factory,
    // the newest table names it grown bad, and its content was written again
    Rewritten,
}

// By what the newest table names the block, whether each sound page is of a key of the die and none is tied, and whether some key has its newest page
// in it.
fn excuse_by(class: u32, plain: bool, kept: bool) -> Excuse
    ensures { result ≡ Rattle.lab_dump.specs.Concluding.excuse_by class plain kept }
{
    match class {
        1 => Excuse::Factory,
        2 if plain && !kept => Excuse::Rewritten,
        _ => Excuse::Open,
    }
}

// What is left open with the pages of one block more, of which so many are neither erased nor sound, and so many holes.
fn added(mut doubts: Doubts, excuse: Excuse, unsound: u32, holes: u32) -> Doubts
    ensures { result ≡ Rattle.lab_dump.specs.Concluding.added doubts excuse unsound holes }
{
    match excuse {
        Excuse::Open => {
            doubts.unsound = doubts.unsound.saturating_add(unsound);
            doubts.holes = doubts.holes.saturating_add(holes);
        }
        Excuse::Factory => {
            doubts.factory = doubts.factory.saturating_add(unsound).saturating_add(holes);
        }
        Excuse::Rewritten => {
            doubts.rewritten = doubts
                .rewritten
                .saturating_add(unsound)
                .saturating_add(holes);
        }
    }
    doubts
}

// Whether two pages share the greatest sequence of some key.
fn has_tie(traces: &[Trace]) -> bool
    ensures { result ≡ ties_in traces.now (length traces.now) }
{
    for i in 0..traces.len() {
        if traces[i].is_tied() {
            return true;
        }
    }
    false
}

// Marks the block of a row, if there is one.
fn mark(kept: &mut [bool], pages: u32, row: Option<u32>)
    requires { 0 < pages }
    ensures size { length kept.new ≡ length kept.old }
    ensures each { (b : ℕ) → b < length kept.new → get_or kept.new b false ≡ (get_or kept.old b false || is_in_block pages b row) }
{
    let Some(row) = row else {
        return;
    };
    let block = (row / pages) as usize;
    if block >= kept.len() {
        return;
    }
    kept[block] = true;
}

// Marks the blocks in which some key has its newest page. None is marked before.
fn mark_kept(traces: &[Trace], pages: u32, kept: &mut [bool])
    requires pages { 0 < pages }
    requires none { (b : ℕ) → get_or kept.old b false ≡ false }
    ensures size { length kept.new ≡ length kept.old }
    ensures each { (b : ℕ) → b < length kept.new → get_or kept.new b false ≡ keeps_in pages traces.now (length traces.now) b }
{
    for i in 0..traces.len() {
        mark(kept, pages, traces[i].row());
    }
}

// The data area that is held of a table page.
fn body_of<'a>(geometry: &Geometry, tables: &'a [u8], page: u32) -> &'a [u8]
    requires tables { length tables.now ≡ table_pages geometry.now * geometry.now.data_bytes }
    requires within { page < table_pages geometry.now }
    ensures size { length result.now ≡ geometry.now.data_bytes }
    ensures is { result.now ≡ slice_range tables.now (page * geometry.now.data_bytes) (page * geometry.now.data_bytes + geometry.now.data_bytes) }
{
    let size = geometry.data_bytes();
    let at = page as usize * size;
    &tables[at..at + size]
}

// What the newest table names a block: 0 where there is none for it.
fn class_of(geometry: &Geometry, traces: &[Trace], tables: &[u8], block: u32) -> u32
    requires traces { length traces.now ≡ key_count geometry.now }
    requires tables { length tables.now ≡ table_pages geometry.now * geometry.now.data_bytes }
    requires within { block < geometry.now.blocks }
    ensures { (image : Image) → length image ≡ row_count geometry.now → HasTraces geometry.now (marks image) (row_count geometry.now) traces.now →
        HasTableBytes geometry.now image (row_count geometry.now) tables.now → result ≡ table_class geometry.now image block }
{
    let entries = geometry.entries();
    let page = block / entries;
    let first = geometry.sectors() + geometry.translation_pages();
    let trace = traces[(first + page) as usize];
    match trace.row() {
        Some(_) => read_word(body_of(geometry, tables, page), block % entries) % 256,
        None => 0,
    }
}

// Why the pages of a block leave nothing open, if they do.
fn excuse_at(geometry: &Geometry, doubting: &Doubting, plain: bool, block: u32) -> Excuse
    requires sized { IsDoubtingSized geometry.now doubting.now }
    requires within { block < geometry.now.blocks }
    ensures { (image : Image) → length image ≡ row_count geometry.now → IsSeen geometry.now image doubting.now plain → result ≡ excuse_of geometry.now image block }
{
    let class = class_of(geometry, &doubting.traces, &doubting.tables, block);
    excuse_by(class, plain, doubting.kept[block as usize])
}

// 1 where the pages of a block may leave something open, else 0.
fn one_open(excuse: Excuse) -> u32
    ensures is { result ≡ Rattle.lab_dump.specs.Concluding.one_open excuse }
    ensures small { result ≤ 1 }
{
    match excuse {
        Excuse::Open => 1,
        Excuse::Factory | Excuse::Rewritten => 0,
    }
}

// How many of the pages that say something are of blocks whose pages may leave something open.
fn count_legible(geometry: &Geometry, doubting: &Doubting, plain: bool) -> u32
    requires sized { IsDoubtingSized geometry.now doubting.now }
    requires rows { All (λ x. x.row < row_count geometry.now) doubting.now.said.items }
    requires few { length doubting.now.said.items ≤ row_count geometry.now }
    ensures { (image : Image) → length image ≡ row_count geometry.now → IsSeen geometry.now image doubting.now plain → doubting.now.said.items ≡ said_below geometry.now image (row_count geometry.now)
        → result ≡ legible_of geometry.now image }
{
    let mut legible = 0;
    for i in 0..doubting.said.len() {
        let (block, _page) = geometry.split_row(doubting.said[i].row);
        legible += one_open(excuse_at(geometry, doubting, plain, block));
    }
    legible
}

// Whether each sound page is of a key of the die, and no two share the greatest sequence of theirs.
fn is_plain(strange: u32, traces: &[Trace]) -> bool
    ensures { result ≡ ((strange == 0) && not (ties_in traces.now (length traces.now))) }
{
    strange == 0 && !has_tie(traces)
}

// Sums up what the pages of each block leave open.
fn sum_blocks(geometry: &Geometry, doubting: &Doubting, plain: bool) -> Doubts
    requires { IsDoubtingSized geometry.now doubting.now }
    ensures { (image : Image) → length image ≡ row_count geometry.now → IsSeen geometry.now image doubting.now plain → result ≡ doubts_of geometry.now image }
{
    let mut doubts = Doubts {
        unsound: 0,
        holes: 0,
        factory: 0,
        rewritten: 0,
        outside: doubting.outside,
    };
    for block in 0..geometry.blocks() {
        let excuse = excuse_at(geometry, doubting, plain, block);
        let unsound = doubting.unsound[block as usize];
        let holes = doubting.holes[block as usize];
        doubts = added(doubts, excuse, unsound, holes);
    }
    doubts
}

impl Doubting {
    // What is left open in the end; and of each page that says something whether that is newer.
    pub(crate) fn conclude(&mut self, geometry: &Geometry) -> Doubts
        requires stands { DoubtingStands geometry.now (row_count geometry.now) self.old }
        ensures is { (image : Image) → length image ≡ row_count geometry.now → IsDoubting geometry.now (row_count geometry.now) image self.old → result ≡ doubts_of geometry.now image }
        ensures legible { (image : Image) → length image ≡ row_count geometry.now → IsDoubting geometry.now (row_count geometry.now) image self.old → self.new.legible ≡ legible_of geometry.now image }
        ensures said { (image : Image) → length image ≡ row_count geometry.now → IsDoubting geometry.now (row_count geometry.now) image self.old → self.new.said.items ≡ said_of geometry.now image }
        ensures unsound { self.new.unsound ≡ self.old.unsound }
        ensures traces { self.new.traces ≡ self.old.traces }
    {
        let plain = is_plain(self.strange, &self.traces);
        mark_kept(&self.traces, geometry.pages(), &mut self.kept);
        self.legible = count_legible(geometry, self, plain);
        judge(geometry, &self.traces, &mut self.said);
        sum_blocks(geometry, self, plain)
    }
}
