//! Blocks are erased again whose erase was cut short.
ghost use Rattle.std.specs.Prelude.{◌≡◌, ◌⊎◌, ◌<◌, ◌/◌, ℕ, true, false, length, get_or, IfOk, OnOk, IsErrOf, is_ok};
ghost use Rattle.page_layout.specs.Counter.{HasRisen};
ghost use Rattle.page_layout.specs.Geometry.{page_bytes};
ghost use Rattle.certificate.specs.Claim.{sizes_of};
ghost use Rattle.file_die.specs.Store.{AreImages, Syncs};
ghost use Rattle.image_check.specs.Agrees.{Agrees, IsCertificateOf};
ghost use Rattle.crash_recovery.specs.Asked.{CanBeLookedAt, HasLooked, IsClaimOf, KeepsAsked, TakesAway};
ghost use Rattle.crash_recovery.specs.Torn.{FindsDead, IsDeadRow, NoneDead};
ghost use Rattle.crash_recovery.specs.Taken.{IsOf, LeavesErased, Takes, WasErasedAgain, lasting};

use crate::fault::RecoveryFault;
use crate::look::is_torn;
use certificate::Certificate;
use file_die::{Store, StoreFault};
use nand_die::page_length;
use page_layout::geometry::Geometry;
use std::alloc::Global;

// Finds the blocks that are torn and have no live page.
fn find_dead<S: Store>(
    store: &mut S,
    geometry: &Geometry,
    certificate: &Certificate,
    page: &mut [u8],
    dead: &mut [bool],
) -> Result<(), StoreFault>
    requires look { CanBeLookedAt S.held S.honest geometry.now store.old page.old }
    requires claim { IsClaimOf geometry.now certificate.now }
    requires blocks { length dead.old ≡ geometry.now.blocks }
    ensures finds { OnOk result (S.honest store.old ≡ true → (capacity : ℕ) → Agrees geometry.now capacity (S.held store.old).pages certificate.now →
        FindsDead geometry.now (S.held store.old).pages geometry.now.blocks dead.new) }
    ensures looks { HasLooked S.held S.honest S.failed store.old (is_ok result) store.new }
{
    for block in 0..geometry.blocks() {
        if certificate.block(block).live != 0 {
            dead[block as usize] = false;
            continue;
        }
        dead[block as usize] = is_torn(store, geometry, certificate, block, page)?;
    }
    Ok(())
}

// Clears a block.
fn clear_block<S: Store>(store: &mut S, geometry: &Geometry, block: u32) -> Result<(), StoreFault>
    requires geometry { (S.held store.old).geometry ≡ geometry.now }
    requires in_range { block < geometry.now.blocks }
    requires images { S.honest store.old ≡ true → AreImages (S.held store.old) }
    ensures takes { S.honest store.old ≡ true → Takes (λ row. row / geometry.now.pages ≡ block) (S.held store.old) (S.held store.new) }
    ensures erased { OnOk result (S.honest store.old ≡ true → LeavesErased (λ row. row / geometry.now.pages ≡ block) (S.held store.new)) }
    ensures keeps { KeepsAsked S.held S.honest S.failed store.old (is_ok result) store.new }
{
    store.clear(block)
}

// Clears the blocks that are to be erased again.
fn clear_blocks<S: Store>(
    store: &mut S,
    geometry: &Geometry,
    dead: &[bool],
) -> Result<(), StoreFault>
    requires geometry { (S.held store.old).geometry ≡ geometry.now }
    requires blocks { length dead.now ≡ geometry.now.blocks }
    requires images { S.honest store.old ≡ true → AreImages (S.held store.old) }
    ensures takes { S.honest store.old ≡ true → Takes (IsOf geometry.now dead.now) (S.held store.old) (S.held store.new) }
    ensures erased { OnOk result (S.honest store.old ≡ true → LeavesErased (IsOf geometry.now dead.now) (S.held store.new)) }
    ensures keeps { KeepsAsked S.held S.honest S.failed store.old (is_ok result) store.new }
{
    for block in 0..geometry.blocks() {
        if dead[block as usize] {
            clear_block(store, geometry, block)?;
        }
    }
    Ok(())
}

// Whether any block is to be erased again.
fn is_any_dead(dead: &[bool]) -> bool
    ensures none { result ≡ false → (k : ℕ) → k < length dead.now → get_or dead.now k false ≡ false }
    ensures some { result ≡ true → (k : ℕ) × (k < length dead.now) × (get_or dead.now k false ≡ true) }
{
    for is_dead in dead {
        if *is_dead {
            return true;
        }
    }
    false
}

// Erases again the blocks that are torn and have no live page, once there is memory for it.
fn erase_found<S: Store>(
    store: &mut S,
    certificate: &Certificate,
    page: &mut [u8],
    dead: &mut [bool],
) -> Result<bool, StoreFault>
    requires claim { IsClaimOf (S.held store.old).geometry certificate.now }
    requires room { length page.old ≡ page_bytes (S.held store.old).geometry }
    requires blocks { length dead.old ≡ (S.held store.old).geometry.blocks }
    ensures away { S.honest store.old ≡ true → TakesAway certificate.now ((Syncs (S.held store.old) false (S.held store.new)) ⊎ ((S.held store.new ≡ S.held store.old)
        ⊎ Takes (IsDeadRow (S.held store.old).geometry (S.held store.old).pages) (lasting (S.held store.old)) (S.held store.new)))
        (WasErasedAgain (S.held store.old) (S.held store.new))
        (NoneDead (S.held store.old).geometry (S.held store.old).pages) (S.held store.old) result (S.held store.new) }
    ensures keeps { KeepsAsked S.held S.honest S.failed store.old (is_ok result) store.new }
{
    let geometry = store.geometry();
    find_dead(store, &geometry, certificate, page, dead)?;
    if !is_any_dead(dead) {
        return Ok(false);
    }
    store.sync()?;
    clear_blocks(store, &geometry, dead)?;
    store.sync()?;
    Ok(true)
}

/// Erases again each block that is torn and has no live page, as one whose erase was cut short, between two syncs of the store: what was copied out of it lasts before. Answers
/// whether any block was. The certificate is that of the store's pages. **Of an honest store just the rows of those blocks are erased, and all pages last; whatever fails,
/// no other row is touched.**
///
/// # Errors
///
/// `OutOfMemory` where a growth was refused: the store was not asked. `Store` where it failed: where that was its first sync no page was changed, else some of these rows may be erased or
/// torn. (This project's.)
pub fn erase_dead<S: Store>(
    alloc: Global,
    store: &mut S,
    certificate: &Certificate,
) -> Result<bool, RecoveryFault>
    requires sizes { certificate.now.sizes ≡ sizes_of (S.held store.old).geometry }
    requires whole { IsCertificateOf (S.held store.old).geometry certificate.now }
    ensures takes { S.honest store.old ≡ true → (capacity : ℕ) → Agrees (S.held store.old).geometry capacity (S.held store.old).pages certificate.now →
        (Syncs (S.held store.old) false (S.held store.new)) ⊎ ((S.held store.new ≡ S.held store.old)
        ⊎ Takes (IsDeadRow (S.held store.old).geometry (S.held store.old).pages) (lasting (S.held store.old)) (S.held store.new)) }
    ensures erased { IfOk result (λ erased. S.honest store.old ≡ true → (capacity : ℕ) → Agrees (S.held store.old).geometry capacity (S.held store.old).pages certificate.now →
        erased ≡ true → WasErasedAgain (S.held store.old) (S.held store.new)) }
    ensures untouched { IfOk result (λ erased. S.honest store.old ≡ true → erased ≡ false → S.held store.new ≡ S.held store.old) }
    ensures none { IfOk result (λ erased. S.honest store.old ≡ true → (capacity : ℕ) → Agrees (S.held store.old).geometry capacity (S.held store.old).pages certificate.now →
        erased ≡ false → NoneDead (S.held store.old).geometry (S.held store.old).pages) }
    ensures unasked { IsErrOf result RecoveryFault.OutOfMemory → store.new ≡ store.old }
    ensures geometry { (S.held store.new).geometry ≡ (S.held store.old).geometry }
    ensures honest { S.honest store.new ≡ S.honest store.old }
    ensures settled { OnOk result (S.failed store.new ≡ S.failed store.old) }
    ensures rose { IsErrOf result RecoveryFault.Store → HasRisen (S.failed store.old) (S.failed store.new) }
{
    let geometry = store.geometry();
    let mut page = vec![in alloc; 0xFFu8; page_length(&geometry)]?;
    let mut dead = vec![in alloc; false; geometry.blocks() as usize]?;
    let erased = erase_found(store, certificate, &mut page, &mut dead)?;
    Ok(erased)
}
