//! What the pages of a store show of the blocks that a crash left torn.
ghost use Rattle.std.specs.Prelude.{◌≡◌, ◌<◌, ◌≤◌, ◌*◌, ◌/◌, ◌%◌, ◌==◌, ℕ, Some, true, false, length, is_ok, IfOk, IfSome, OnOk};
ghost use Rattle.page_layout.specs.declared.record.Key.TheVariants.{Table};
ghost use Rattle.page_layout.specs.Geometry.{entries, row_count};
ghost use Rattle.page_layout.specs.Word.{word_at};
ghost use Rattle.page_layout.specs.Sound.{record_of};
ghost use Rattle.page_layout.specs.Array.{marks};
ghost use Rattle.page_layout.specs.Newest.{newest};
ghost use Rattle.file_die.specs.Store.{page_in};
ghost use Rattle.image_check.specs.Agrees.{Agrees};
ghost use Rattle.image_check.specs.Blocks.{table_class};
ghost use Rattle.crash_recovery.specs.Asked.{CanBeLookedAt, HasLooked, IsClaimOf};
ghost use Rattle.crash_recovery.specs.Torn.{FindsCut, FindsCuts, HasSoundRun, IsTableRow, IsTorn, NoneIsMarked};

use certificate::Certificate;
use file_die::{Store, StoreFault};
use page_layout::geometry::Geometry;
use page_layout::record::{Record, read_record};
use page_layout::word::read_word;

// The class of a grown bad block in a certificate.
const SHOWN_BAD: u8 = 5;

// The same in a table page.
const NAMED_GROWN: u32 = 2;

// The record of a row's page.
fn record_at<S: Store>(
    store: &mut S,
    geometry: &Geometry,
    row: u32,
    page: &mut [u8],
) -> Result<Option<Record>, StoreFault>
    requires look { CanBeLookedAt S.held S.honest geometry.now store.old page.old }
    requires in_range { row < row_count geometry.now }
    ensures found { IfOk result (λ its. S.honest store.old ≡ true → its ≡ record_of (page_in (S.held store.old).pages row)) }
    ensures looks { HasLooked S.held S.honest S.failed store.old (is_ok result) store.new }
{
    store.load(row, page)?;
    let (body, spare) = page.split_at(geometry.data_bytes());
    Ok(read_record(geometry, body, spare))
}

// The row of the newest table page that tells the class of a block, where the certificate knows one.
fn table_row(geometry: &Geometry, certificate: &Certificate, block: u32) -> Option<u32>
    requires claim { IsClaimOf geometry.now certificate.now }
    requires in_range { block < geometry.now.blocks }
    ensures row { IfSome result (λ row. row < row_count geometry.now) }
    ensures is { IsTableRow geometry.now certificate.now block result }
{
    let entries = geometry.entries();
    certificate.directory_row(geometry.translation_pages() + block / entries)
}

// Whether the data area of such a page names the block as one that has grown bad.
fn names_grown(geometry: &Geometry, body: &[u8], block: u32) -> bool
    requires body { length body.now ≡ geometry.now.data_bytes }
    ensures { result ≡ (word_at body.now (4 * (block % entries geometry.now)) % 256 == 2) }
{
    read_word(body, block % geometry.entries()) % 256 == NAMED_GROWN
}

// Whether the table page at a row names a block as one that has grown bad.
fn is_named<S: Store>(
    store: &mut S,
    geometry: &Geometry,
    row: u32,
    block: u32,
    page: &mut [u8],
) -> Result<bool, StoreFault>
    requires look { CanBeLookedAt S.held S.honest geometry.now store.old page.old }
    requires in_range { row < row_count geometry.now }
    ensures named { IfOk result (λ named. S.honest store.old ≡ true → newest (marks (S.held store.old).pages) (Table (block / entries geometry.now)) ≡ Some row →
        named ≡ (table_class geometry.now (S.held store.old).pages block == 2)) }
    ensures looks { HasLooked S.held S.honest S.failed store.old (is_ok result) store.new }
{
    store.load(row, page)?;
    let (body, _) = page.split_at(geometry.data_bytes());
    Ok(names_grown(geometry, body, block))
}

/// Whether a block is torn. None is where the certificate knows no table page of it.
pub fn is_torn<S: Store>(
    store: &mut S,
    geometry: &Geometry,
    certificate: &Certificate,
    block: u32,
    page: &mut [u8],
) -> Result<bool, StoreFault>
    requires look { CanBeLookedAt S.held S.honest geometry.now store.old page.old }
    requires claim { IsClaimOf geometry.now certificate.now }
    requires in_range { block < geometry.now.blocks }
    ensures torn { IfOk result (λ torn. S.honest store.old ≡ true → (capacity : ℕ) → Agrees geometry.now capacity (S.held store.old).pages certificate.now →
        torn ≡ true → IsTorn geometry.now (S.held store.old).pages block) }
    ensures fine { IfOk result (λ torn. S.honest store.old ≡ true → (capacity : ℕ) → Agrees geometry.now capacity (S.held store.old).pages certificate.now →
        torn ≡ false → ¬ IsTorn geometry.now (S.held store.old).pages block) }
    ensures looks { HasLooked S.held S.honest S.failed store.old (is_ok result) store.new }
{
    if certificate.block(block).class != SHOWN_BAD {
        return Ok(false);
    }
    let Some(row) = table_row(geometry, certificate, block) else {
        return Ok(false);
    };
    Ok(!is_named(store, geometry, row, block, page)?)
}

// How many pages of a block are sound at its start.
fn sound_run<S: Store>(
    store: &mut S,
    geometry: &Geometry,
    block: u32,
    page: &mut [u8],
) -> Result<u32, StoreFault>
    requires look { CanBeLookedAt S.held S.honest geometry.now store.old page.old }
    requires in_range { block < geometry.now.blocks }
    ensures most { IfOk result (λ count. count ≤ geometry.now.pages) }
    ensures run { IfOk result (λ count. S.honest store.old ≡ true → HasSoundRun geometry.now (S.held store.old).pages block count) }
    ensures looks { HasLooked S.held S.honest S.failed store.old (is_ok result) store.new }
{
    for k in 0..geometry.pages() {
        let Some(_) = record_at(store, geometry, geometry.row(block, k), page)? else {
            return Ok(k);
        };
    }
    Ok(geometry.pages())
}

// Whether none of a block's sound pages from one on has a sequence below the mark.
fn none_is_marked<S: Store>(
    store: &mut S,
    geometry: &Geometry,
    mark: u64,
    block: u32,
    from: u32,
    page: &mut [u8],
) -> Result<bool, StoreFault>
    requires look { CanBeLookedAt S.held S.honest geometry.now store.old page.old }
    requires in_range { block < geometry.now.blocks }
    ensures none { IfOk result (λ none. S.honest store.old ≡ true → none ≡ true → NoneIsMarked geometry.now (S.held store.old).pages mark block from) }
    ensures some { IfOk result (λ none. S.honest store.old ≡ true → none ≡ false → ¬ NoneIsMarked geometry.now (S.held store.old).pages mark block from) }
    ensures looks { HasLooked S.held S.honest S.failed store.old (is_ok result) store.new }
{
    for k in from..geometry.pages() {
        if let Some(found) = record_at(store, geometry, geometry.row(block, k), page)? {
            if found.sequence < mark {
                return Ok(false);
            }
        }
    }
    Ok(true)
}

// The page from which a torn block is to be cut, or as many pages as a block has where it isn't.
fn cut_of_torn<S: Store>(
    store: &mut S,
    geometry: &Geometry,
    mark: u64,
    block: u32,
    page: &mut [u8],
) -> Result<u32, StoreFault>
    requires look { CanBeLookedAt S.held S.honest geometry.now store.old page.old }
    requires in_range { block < geometry.now.blocks }
    ensures most { IfOk result (λ from. from ≤ geometry.now.pages) }
    ensures finds { IfOk result (λ from. S.honest store.old ≡ true → IsTorn geometry.now (S.held store.old).pages block →
        FindsCut geometry.now (S.held store.old).pages mark block from) }
    ensures looks { HasLooked S.held S.honest S.failed store.old (is_ok result) store.new }
{
    let from = sound_run(store, geometry, block, page)?;
    if !none_is_marked(store, geometry, mark, block, from, page)? {
        return Ok(geometry.pages());
    }
    Ok(from)
}

// The page from which a block is to be cut, or as many pages as a block has where it isn't.
fn cut_of<S: Store>(
    store: &mut S,
    geometry: &Geometry,
    certificate: &Certificate,
    mark: u64,
    block: u32,
    page: &mut [u8],
) -> Result<u32, StoreFault>
    requires look { CanBeLookedAt S.held S.honest geometry.now store.old page.old }
    requires claim { IsClaimOf geometry.now certificate.now }
    requires in_range { block < geometry.now.blocks }
    ensures most { IfOk result (λ from. from ≤ geometry.now.pages) }
    ensures finds { IfOk result (λ from. S.honest store.old ≡ true → (capacity : ℕ) → Agrees geometry.now capacity (S.held store.old).pages certificate.now →
        FindsCut geometry.now (S.held store.old).pages mark block from) }
    ensures looks { HasLooked S.held S.honest S.failed store.old (is_ok result) store.new }
{
    if !is_torn(store, geometry, certificate, block, page)? {
        return Ok(geometry.pages());
    }
    cut_of_torn(store, geometry, mark, block, page)
}

/// Finds for each block the page from which it is to be cut; as many pages as a block has where it isn't. The store is looked at alone.
///
/// # Errors
///
/// `StoreFault` where a load failed. (This project's.)
pub fn find_cuts<S: Store>(
    store: &mut S,
    geometry: &Geometry,
    certificate: &Certificate,
    mark: u64,
    page: &mut [u8],
    cuts: &mut [u32],
) -> Result<(), StoreFault>
    requires look { CanBeLookedAt S.held S.honest geometry.now store.old page.old }
    requires claim { IsClaimOf geometry.now certificate.now }
    requires blocks { length cuts.old ≡ geometry.now.blocks }
    ensures finds { OnOk result (S.honest store.old ≡ true → (capacity : ℕ) → Agrees geometry.now capacity (S.held store.old).pages certificate.now →
        FindsCuts geometry.now (S.held store.old).pages mark geometry.now.blocks cuts.new) }
    ensures looks { HasLooked S.held S.honest S.failed store.old (is_ok result) store.new }
{
    for block in 0..geometry.blocks() {
        cuts[block as usize] = cut_of(store, geometry, certificate, mark, block, page)?;
    }
    Ok(())
}
