//! How a die over a store is begun.
ghost use Rattle.std.specs.Prelude.{◌≡◌, ◌<◌, true, [], ℕ, List, length, map, replicate, IfOk, IfErr, OnOk};
ghost use Rattle.page_layout.specs.Geometry.{row_count, page_bytes};
ghost use Rattle.page_layout.specs.Sound.{is_erased_page};
ghost use Rattle.nand_die.specs.NextPages.{next_page_of};
ghost use Rattle.nand_die.specs.Made.{AreNames, IsFirstMisnamed, first_next_pages, next_in};
ghost use Rattle.file_die.specs.Store.{page_in};
ghost use Rattle.file_die.specs.Open.{OnlyLooks, CountsFailedLoads, IsCause, LeavesUnread};

use crate::asks::load;
use crate::store::Store;
use nand_die::{NextPage, bar_all, new_next_pages, page_length};
use page_layout::geometry::Geometry;
use page_layout::record::is_erased;
use std::alloc::Global;
use thiserror::Error;

/// Why a die was not opened. (This project's.)
#[derive(Clone, Copy, Debug, PartialEq, Eq, Error)]
pub enum OpenDieFault {
    /// There is no memory for two pages and the next pages of the blocks.
    #[error("OutOfMemory")]
    OutOfMemory,
    /// A block that is named bad lies past the die, or was named before.
    #[error("BadBlock {block}")]
    BadBlock { block: u32 },
    /// The store failed to load a page.
    #[error("Store")]
    Store,
}

// What a die holds beside its store.
#[derive(Drop)]
pub struct Parts {
    pub register: Vec<u8>,
    pub page: Vec<u8>,
    pub next_pages: Vec<NextPage>,
}

// A page of bytes FFh.
fn blank(alloc: Global, geometry: &Geometry) -> Result<Vec<u8>, OpenDieFault>
    ensures ok { IfOk result (λ bytes. bytes.items ≡ replicate (page_bytes geometry.now) 255) }
    ensures err { IfErr result (λ fault. fault ≡ OpenDieFault.OutOfMemory) }
{
    match vec![in alloc; 0xFF; page_length(geometry)] {
        Ok(page) => Ok(page),
        Err(_) => Err(OpenDieFault::OutOfMemory),
    }
}

// A next page for each block.
fn turns_for(alloc: Global, geometry: &Geometry) -> Result<Vec<NextPage>, OpenDieFault>
    ensures ok { IfOk result (λ next_pages. map next_page_of next_pages.items ≡ first_next_pages geometry.now (λ block. 0) []) }
    ensures len { IfOk result (λ next_pages. length next_pages.items ≡ geometry.now.blocks) }
    ensures err { IfErr result (λ fault. fault ≡ OpenDieFault.OutOfMemory) }
{
    match new_next_pages(alloc, geometry) {
        Ok(next_pages) => Ok(next_pages),
        Err(_) => Err(OpenDieFault::OutOfMemory),
    }
}

// Whether the page of a row is erased.
fn is_row_erased<S: Store>(
    store: &mut S,
    geometry: &Geometry,
    row: u32,
    page: &mut [u8],
) -> Result<bool, OpenDieFault>
    requires geometry { (S.held store.old).geometry ≡ geometry.now }
    requires in_range { row < row_count geometry.now }
    requires room { length page.old ≡ page_bytes geometry.now }
    ensures erased { IfOk result (λ erased. S.honest store.old ≡ true → erased ≡ is_erased_page (page_in (S.held store.old).pages row)) }
    ensures looks { OnlyLooks S.held S.honest store.old store.new }
    ensures counts { CountsFailedLoads result (S.failed store.old) (S.failed store.new) }
    ensures err { IfErr result (λ fault. fault ≡ OpenDieFault.Store) }
{
    if load(store, row, page).is_err() {
        return Err(OpenDieFault::Store);
    }
    let (body, spare) = page.split_at(geometry.data_bytes());
    Ok(is_erased(body, spare))
}

// One past the last page of a block that isn't erased, its pages looked at from the last one down.
fn next_page<S: Store>(
    store: &mut S,
    geometry: &Geometry,
    block: u32,
    page: &mut [u8],
) -> Result<u32, OpenDieFault>
    requires geometry { (S.held store.old).geometry ≡ geometry.now }
    requires images { S.honest store.old ≡ true → length (S.held store.old).pages ≡ row_count geometry.now }
    requires in_range { block < geometry.now.blocks }
    requires room { length page.old ≡ page_bytes geometry.now }
    ensures next { IfOk result (λ next. S.honest store.old ≡ true → next ≡ next_in geometry.now (S.held store.old).pages block) }
    ensures looks { OnlyLooks S.held S.honest store.old store.new }
    ensures counts { CountsFailedLoads result (S.failed store.old) (S.failed store.new) }
    ensures err { IfErr result (λ fault. fault ≡ OpenDieFault.Store) }
{
    let mut next = geometry.pages();
    while next > 0 {
        if !is_row_erased(store, geometry, geometry.row(block, next - 1), page)? {
            return Ok(next);
        }
        next -= 1;
    }
    Ok(0)
}

// Names blocks bad, where none was yet.
fn name_bad(
    next_pages: &mut [NextPage],
    geometry: &Geometry,
    bad: &[u32],
) -> Result<(), OpenDieFault>
    requires blocks { length next_pages.old ≡ geometry.now.blocks }
    requires fresh { map next_page_of next_pages.old ≡ first_next_pages geometry.now (λ block. 0) [] }
    ensures next_pages { OnOk result (map next_page_of next_pages.new ≡ first_next_pages geometry.now (λ block. 0) bad.now) }
    ensures named { OnOk result (AreNames geometry.now bad.now) }
    ensures err { IfErr result (λ fault. (block : ℕ) × (fault ≡ OpenDieFault.BadBlock block) × IsFirstMisnamed geometry.now bad.now block) }
{
    match bar_all(next_pages, geometry, bad) {
        Ok(()) => Ok(()),
        Err(block) => Err(OpenDieFault::BadBlock { block }),
    }
}

// Finds the next page of each block of a store.
fn find_next_pages<S: Store>(
    next_pages: &mut [NextPage],
    store: &mut S,
    geometry: &Geometry,
    page: &mut [u8],
) -> Result<(), OpenDieFault>
    requires geometry { (S.held store.old).geometry ≡ geometry.now }
    requires images { S.honest store.old ≡ true → length (S.held store.old).pages ≡ row_count geometry.now }
    requires blocks { length next_pages.old ≡ geometry.now.blocks }
    requires room { length page.old ≡ page_bytes geometry.now }
    ensures next_pages { OnOk result (S.honest store.old ≡ true → (bad : List ℕ) → map next_page_of next_pages.old ≡ first_next_pages geometry.now (λ block. 0) bad →
        map next_page_of next_pages.new ≡ first_next_pages geometry.now (next_in geometry.now (S.held store.old).pages) bad) }
    ensures looks { OnlyLooks S.held S.honest store.old store.new }
    ensures counts { CountsFailedLoads result (S.failed store.old) (S.failed store.new) }
    ensures err { IfErr result (λ fault. fault ≡ OpenDieFault.Store) }
{
    for block in 0..geometry.blocks() {
        next_pages[block as usize].next = next_page(store, geometry, block, page)?;
    }
    Ok(())
}

// Takes memory for what a die holds: of no block anything was asked.
fn new_parts(alloc: Global, geometry: &Geometry) -> Result<Parts, OpenDieFault>
    ensures register { IfOk result (λ parts. parts.register.items ≡ replicate (page_bytes geometry.now) 255) }
    ensures page { IfOk result (λ parts. length parts.page.items ≡ page_bytes geometry.now) }
    ensures blocks { IfOk result (λ parts. length parts.next_pages.items ≡ geometry.now.blocks) }
    ensures next_pages { IfOk result (λ parts. map next_page_of parts.next_pages.items ≡ first_next_pages geometry.now (λ block. 0) []) }
    ensures err { IfErr result (λ fault. fault ≡ OpenDieFault.OutOfMemory) }
{
    Ok(Parts {
        register: blank(alloc, geometry)?,
        page: blank(alloc, geometry)?,
        next_pages: turns_for(alloc, geometry)?,
    })
}

// Takes memory for what a die holds, and looks over its store.
pub fn parts_of<S: Store>(
    alloc: Global,
    store: &mut S,
    geometry: &Geometry,
    bad: &[u32],
) -> Result<Parts, OpenDieFault>
    requires geometry { (S.held store.old).geometry ≡ geometry.now }
    requires images { S.honest store.old ≡ true → length (S.held store.old).pages ≡ row_count geometry.now }
    ensures register { IfOk result (λ parts. parts.register.items ≡ replicate (page_bytes geometry.now) 255) }
    ensures page { IfOk result (λ parts. length parts.page.items ≡ page_bytes geometry.now) }
    ensures blocks { IfOk result (λ parts. length parts.next_pages.items ≡ geometry.now.blocks) }
    ensures next_pages { IfOk result (λ parts. S.honest store.old ≡ true → map next_page_of parts.next_pages.items ≡ first_next_pages geometry.now (next_in geometry.now (S.held store.old).pages) bad.now) }
    ensures named { OnOk result (AreNames geometry.now bad.now) }
    ensures looks { OnlyLooks S.held S.honest store.old store.new }
    ensures counts { CountsFailedLoads result (S.failed store.old) (S.failed store.new) }
    ensures err { IfErr result (IsCause geometry.now bad.now) }
    ensures unread { IfErr result (λ fault. LeavesUnread fault store.old store.new) }
{
    let mut parts = new_parts(alloc, geometry)?;
    name_bad(&mut parts.next_pages, geometry, bad)?;
    find_next_pages(&mut parts.next_pages, store, geometry, &mut parts.page)?;
    Ok(parts)
}
