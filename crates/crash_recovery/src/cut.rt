//! Blocks are cut back: their last pages are made erased.
ghost use Rattle.std.specs.Prelude.{◌≡◌, ◌<◌, ◌≤◌, ◌/◌, ◌%◌, ℕ, true, false, length, get_or, IfOk, OnOk, IsErrOf, is_ok};
ghost use Rattle.page_layout.specs.Counter.{HasRisen};
ghost use Rattle.page_layout.specs.Geometry.{page_bytes};
ghost use Rattle.page_layout.specs.Change.{erased_page};
ghost use Rattle.onfi_cycles.specs.Cycles.{page_of};
ghost use Rattle.certificate.specs.Claim.{sizes_of};
ghost use Rattle.file_die.specs.Store.{AreImages};
ghost use Rattle.image_check.specs.Agrees.{Agrees, IsCertificateOf};
ghost use Rattle.crash_recovery.specs.Asked.{IsClaimOf, KeepsAsked, TakesAway};
ghost use Rattle.crash_recovery.specs.Torn.{IsBehind, IsCut, NoneCut};
ghost use Rattle.crash_recovery.specs.Taken.{IsInTail, LeavesErased, Takes, WasCutBack};

use crate::fault::RecoveryFault;
use crate::look::find_cuts;
use certificate::Certificate;
use file_die::{Store, StoreFault};
use nand_die::page_length;
use page_layout::geometry::Geometry;
use std::alloc::Global;

// Makes the pages of a block erased, from the last one down to one.
fn cut_block<S: Store>(
    store: &mut S,
    geometry: &Geometry,
    block: u32,
    from: u32,
    erased: &[u8],
) -> Result<(), StoreFault>
    requires geometry { (S.held store.old).geometry ≡ geometry.now }
    requires in_range { block < geometry.now.blocks }
    requires long { length erased.now ≡ page_bytes geometry.now }
    requires erased { page_of geometry.now erased.now ≡ erased_page geometry.now }
    requires images { S.honest store.old ≡ true → AreImages (S.held store.old) }
    ensures takes { S.honest store.old ≡ true → Takes (IsInTail geometry.now block from) (S.held store.old) (S.held store.new) }
    ensures erased { OnOk result (S.honest store.old ≡ true → LeavesErased (IsInTail geometry.now block from) (S.held store.new)) }
    ensures keeps { KeepsAsked S.held S.honest S.failed store.old (is_ok result) store.new }
{
    let mut next = geometry.pages();
    while next > from {
        store.put(geometry.row(block, next - 1), erased)?;
        next -= 1;
    }
    Ok(())
}

// Cuts each block from its page on.
fn cut_blocks<S: Store>(
    store: &mut S,
    geometry: &Geometry,
    cuts: &[u32],
    erased: &[u8],
) -> Result<(), StoreFault>
    requires geometry { (S.held store.old).geometry ≡ geometry.now }
    requires blocks { length cuts.now ≡ geometry.now.blocks }
    requires long { length erased.now ≡ page_bytes geometry.now }
    requires erased { page_of geometry.now erased.now ≡ erased_page geometry.now }
    requires images { S.honest store.old ≡ true → AreImages (S.held store.old) }
    ensures takes { S.honest store.old ≡ true → Takes (IsBehind geometry.now cuts.now) (S.held store.old) (S.held store.new) }
    ensures erased { OnOk result (S.honest store.old ≡ true → LeavesErased (IsBehind geometry.now cuts.now) (S.held store.new)) }
    ensures keeps { KeepsAsked S.held S.honest S.failed store.old (is_ok result) store.new }
{
    for block in 0..geometry.blocks() {
        cut_block(store, geometry, block, cuts[block as usize], erased)?;
    }
    Ok(())
}

// Whether a block is to be cut.
fn is_any_cut(geometry: &Geometry, cuts: &[u32]) -> bool
    ensures none { result ≡ false → (k : ℕ) → k < length cuts.now → geometry.now.pages ≤ get_or cuts.now k 0 }
    ensures some { result ≡ true → (k : ℕ) × (k < length cuts.now) × (get_or cuts.now k 0 < geometry.now.pages) }
{
    for from in cuts {
        if *from < geometry.pages() {
            return true;
        }
    }
    false
}

// Cuts back the blocks that are torn, once there is memory for it.
fn cut_found<S: Store>(
    store: &mut S,
    certificate: &Certificate,
    mark: u64,
    page: &mut [u8],
    erased: &[u8],
    cuts: &mut [u32],
) -> Result<bool, StoreFault>
    requires claim { IsClaimOf (S.held store.old).geometry certificate.now }
    requires room { length page.old ≡ page_bytes (S.held store.old).geometry }
    requires long { length erased.now ≡ page_bytes (S.held store.old).geometry }
    requires erased { page_of (S.held store.old).geometry erased.now ≡ erased_page (S.held store.old).geometry }
    requires blocks { length cuts.old ≡ (S.held store.old).geometry.blocks }
    ensures away { S.honest store.old ≡ true → TakesAway certificate.now (Takes (IsCut (S.held store.old).geometry (S.held store.old).pages mark) (S.held store.old) (S.held store.new))
        (WasCutBack mark (S.held store.old) (S.held store.new))
        (NoneCut (S.held store.old).geometry (S.held store.old).pages mark) (S.held store.old) result (S.held store.new) }
    ensures keeps { KeepsAsked S.held S.honest S.failed store.old (is_ok result) store.new }
{
    let geometry = store.geometry();
    find_cuts(store, &geometry, certificate, mark, page, cuts)?;
    if !is_any_cut(&geometry, cuts) {
        return Ok(false);
    }
    cut_blocks(store, &geometry, cuts, erased)?;
    store.sync()?;
    Ok(true)
}

/// Cuts back each block that is torn, from its first page on that isn't sound, where no page behind that one has a sequence below `mark`: those pages are made
/// erased, and the store is synced. Answers whether any row was to be cut. The certificate is that of the store's pages. **Of an honest store just those rows are erased, and
/// all pages last; whatever fails, no other row is touched.** So a run that was stopped at any write is finished by the next one.
///
/// # Errors
///
/// `OutOfMemory` where a growth was refused: the store was not asked. `Store` where it failed: of an honest store each of these rows is as it was, or has no sound record. (This project's.)
pub fn cut_back<S: Store>(
    alloc: Global,
    store: &mut S,
    certificate: &Certificate,
    mark: u64,
) -> Result<bool, RecoveryFault>
    requires sizes { certificate.now.sizes ≡ sizes_of (S.held store.old).geometry }
    requires whole { IsCertificateOf (S.held store.old).geometry certificate.now }
    ensures takes { S.honest store.old ≡ true → (capacity : ℕ) → Agrees (S.held store.old).geometry capacity (S.held store.old).pages certificate.now →
        Takes (IsCut (S.held store.old).geometry (S.held store.old).pages mark) (S.held store.old) (S.held store.new) }
    ensures cut { IfOk result (λ cut. S.honest store.old ≡ true → (capacity : ℕ) → Agrees (S.held store.old).geometry capacity (S.held store.old).pages certificate.now →
        cut ≡ true → WasCutBack mark (S.held store.old) (S.held store.new)) }
    ensures uncut { IfOk result (λ cut. S.honest store.old ≡ true → cut ≡ false → S.held store.new ≡ S.held store.old) }
    ensures none { IfOk result (λ cut. S.honest store.old ≡ true → (capacity : ℕ) → Agrees (S.held store.old).geometry capacity (S.held store.old).pages certificate.now →
        cut ≡ false → NoneCut (S.held store.old).geometry (S.held store.old).pages mark) }
    ensures geometry { (S.held store.new).geometry ≡ (S.held store.old).geometry }
    ensures honest { S.honest store.new ≡ S.honest store.old }
    ensures settled { OnOk result (S.failed store.new ≡ S.failed store.old) }
    ensures rose { IsErrOf result RecoveryFault.Store → HasRisen (S.failed store.old) (S.failed store.new) }
    ensures unasked { IsErrOf result RecoveryFault.OutOfMemory → store.new ≡ store.old }
{
    let geometry = store.geometry();
    let mut page = vec![in alloc; 0xFFu8; page_length(&geometry)]?;
    let erased = vec![in alloc; 0xFFu8; page_length(&geometry)]?;
    let mut cuts = vec![in alloc; 0u32; geometry.blocks() as usize]?;
    let cut = cut_found(store, certificate, mark, &mut page, &erased, &mut cuts)?;
    Ok(cut)
}
