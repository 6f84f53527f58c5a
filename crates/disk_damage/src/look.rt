//! What a look at a store that was mounted finds: its bad blocks, and the pages that are neither erased nor sound.
ghost use Rattle.std.specs.Prelude.{◌≡◌, ◌<◌, ◌++◌, ◌∷◌, [], true, length, IfOk, OnErr, OnOk, IsErrOf};
ghost use Rattle.page_layout.specs.Counter.{HasRisen};
ghost use Rattle.page_layout.specs.Block.{is_broken};
ghost use Rattle.page_layout.specs.Geometry.{row_count, page_bytes};
ghost use Rattle.page_layout.specs.Page.{page};
ghost use Rattle.file_die.specs.Open.{OnlyLooks};
ghost use Rattle.disk_damage.specs.Look.{bad_numbers, has_bad_class_in, is_factory_in, unsound_numbers, is_unsound_unmarked};

use certificate::Certificate;
use file_die::{Store, StoreFault};
use lost_sectors::LostFault;
use nand_die::page_length;
use page_layout::geometry::Geometry;
use page_layout::record::{is_erased, read_record};
use std::alloc::{AllocError, Global};

// The least class of a bad block, which is that of one that the factory marked.
const FACTORY: u8 = 4;

// The class of a block, which is 0 where the certificate has no such block.
fn class_of(certificate: &Certificate, block: u32) -> u8
    ensures { result ≡ Rattle.disk_damage.specs.Look.class_in certificate.now.blocks block }
{
    if block >= certificate.geometry().blocks() {
        return 0;
    }
    certificate.block(block).class
}

// Adds a number to a list.
fn add(numbers: &mut Vec<u64>, number: u32) -> Result<(), AllocError>
    ensures { OnOk result (numbers.new.items ≡ numbers.old.items ++ (number ∷ [])) }
{
    numbers.push(u64::from(number))?;
    Ok(())
}

/// The bad blocks of a store that was mounted, whose certificate this is, by rising number: those that the factory marked, and those that have grown bad.
///
/// # Errors
///
/// Where a growth was refused. (This project's.)
pub fn bad_blocks(alloc: Global, certificate: &Certificate) -> Result<Vec<u64>, AllocError>
    ensures { IfOk result (λ blocks. blocks.items ≡ bad_numbers certificate.now.blocks) }
{
    let mut blocks = Vec::new(alloc);
    for block in 0..certificate.geometry().blocks() {
        if class_of(certificate, block) >= FACTORY {
            add(&mut blocks, block)?;
        }
    }
    Ok(blocks)
}

// Whether a page is neither erased nor sound.
fn is_broken(geometry: &Geometry, body: &[u8], spare: &[u8]) -> bool
    requires body { length body.now ≡ geometry.now.data_bytes }
    requires spare { length spare.now ≡ geometry.now.spare_bytes }
    ensures { result ≡ is_broken (page body.now spare.now) }
{
    !is_erased(body, spare) && read_record(geometry, body, spare).is_none()
}

// Whether the page of a row is so, in a block that the factory did not mark.
fn is_unsound<S: Store>(
    store: &mut S,
    geometry: &Geometry,
    certificate: &Certificate,
    row: u32,
    page: &mut [u8],
) -> Result<bool, StoreFault>
    requires geometry { (S.held store.old).geometry ≡ geometry.now }
    requires in_range { row < row_count geometry.now }
    requires room { length page.old ≡ page_bytes geometry.now }
    ensures unsound { IfOk result (λ unsound. S.honest store.old ≡ true → unsound ≡ is_unsound_unmarked geometry.now (S.held store.old).pages certificate.now.blocks row) }
    ensures looks { OnlyLooks S.held S.honest store.old store.new }
    ensures settled { OnOk result (S.failed store.new ≡ S.failed store.old) }
    ensures rose { OnErr result (HasRisen (S.failed store.old) (S.failed store.new)) }
{
    if class_of(certificate, row / geometry.pages()) == FACTORY {
        return Ok(false);
    }
    store.load(row, page)?;
    let (body, spare) = page.split_at(geometry.data_bytes());
    Ok(is_broken(geometry, body, spare))
}

// Adds the rows of such pages to a list.
fn add_unsound<S: Store>(
    store: &mut S,
    geometry: &Geometry,
    certificate: &Certificate,
    page: &mut [u8],
    rows: &mut Vec<u64>,
) -> Result<(), LostFault>
    requires geometry { (S.held store.old).geometry ≡ geometry.now }
    requires room { length page.old ≡ page_bytes geometry.now }
    requires none { rows.old.items ≡ [] }
    ensures rows { OnOk result (S.honest store.old ≡ true → rows.new.items ≡ unsound_numbers geometry.now (S.held store.old).pages certificate.now.blocks) }
    ensures looks { OnlyLooks S.held S.honest store.old store.new }
    ensures settled { OnOk result (S.failed store.new ≡ S.failed store.old) }
    ensures memory { IsErrOf result LostFault.OutOfMemory → S.failed store.new ≡ S.failed store.old }
    ensures rose { IsErrOf result LostFault.Store → HasRisen (S.failed store.old) (S.failed store.new) }
{
    for row in 0..geometry.rows() {
        if is_unsound(store, geometry, certificate, row, page)? {
            add(rows, row)?;
        }
    }
    Ok(())
}

/// The rows of a store that was mounted, whose certificate this is, of which the page is neither erased nor sound and the block was not marked by the factory, by rising number. Each page
/// is loaded once, but those of blocks that the factory marked, of which none is.
///
/// # Errors
///
/// `OutOfMemory` where a growth was refused, and no load had failed; `Store` where a load failed, which was counted. The store's pages are as they were. (This project's.)
pub fn unsound_rows<S: Store>(
    alloc: Global,
    store: &mut S,
    certificate: &Certificate,
) -> Result<Vec<u64>, LostFault>
    ensures rows { IfOk result (λ rows. S.honest store.old ≡ true → rows.items ≡ unsound_numbers (S.held store.old).geometry (S.held store.old).pages certificate.now.blocks) }
    ensures looks { OnlyLooks S.held S.honest store.old store.new }
    ensures settled { OnOk result (S.failed store.new ≡ S.failed store.old) }
    ensures memory { IsErrOf result LostFault.OutOfMemory → S.failed store.new ≡ S.failed store.old }
    ensures rose { IsErrOf result LostFault.Store → HasRisen (S.failed store.old) (S.failed store.new) }
{
    let geometry = store.geometry();
    let mut page = vec![in alloc; 0xFFu8; page_length(&geometry)]?;
    let mut rows = Vec::new(alloc);
    add_unsound(store, &geometry, certificate, &mut page, &mut rows)?;
    Ok(rows)
}
