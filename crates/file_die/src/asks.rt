//! What a die asks of its store. A call that fails is the device's fault.
ghost use Rattle.std.specs.Prelude.{◌≡◌, ◌<◌, true, length, is_ok};
ghost use Rattle.page_layout.specs.Geometry.{row_count, page_bytes};
ghost use Rattle.onfi_cycles.specs.Cycles.{page_of};
ghost use Rattle.file_die.specs.Store.{AreImages, Loads, Syncs};
ghost use Rattle.file_die.specs.Die.{Asks, ProgramsIn, ErasesInStore};

use crate::die::SyncWhen;
use crate::store::Store;
use onfi_cycles::BusFault;

// Loads the page of a row.
pub fn load<S: Store>(store: &mut S, row: u32, page: &mut [u8]) -> Result<(), BusFault>
    requires in_range { row < row_count (S.held store.old).geometry }
    requires room { length page.old ≡ page_bytes (S.held store.old).geometry }
    ensures asks { Asks S.held S.honest S.failed store.old store.new result }
    ensures loads { S.honest store.old ≡ true → Loads (S.held store.old) row (page_of (S.held store.old).geometry page.new) (is_ok result) (S.held store.new) }
{
    match store.load(row, page) {
        Ok(()) => Ok(()),
        Err(_) => Err(BusFault::Device),
    }
}

// Makes all pages last.
pub fn sync<S: Store>(store: &mut S) -> Result<(), BusFault>
    ensures asks { Asks S.held S.honest S.failed store.old store.new result }
    ensures syncs { S.honest store.old ≡ true → Syncs (S.held store.old) (is_ok result) (S.held store.new) }
{
    match store.sync() {
        Ok(()) => Ok(()),
        Err(_) => Err(BusFault::Device),
    }
}

// Puts a page at a row, and makes it last where that is asked after each program.
pub fn program<S: Store>(
    store: &mut S,
    row: u32,
    page: &[u8],
    sync_when: SyncWhen,
) -> Result<(), BusFault>
    requires in_range { row < row_count (S.held store.old).geometry }
    requires whole { length page.now ≡ page_bytes (S.held store.old).geometry }
    requires images { S.honest store.old ≡ true → AreImages (S.held store.old) }
    ensures asks { Asks S.held S.honest S.failed store.old store.new result }
    ensures programs { S.honest store.old ≡ true → ProgramsIn (S.held store.old) row (page_of (S.held store.old).geometry page.now) sync_when (is_ok result) (S.held store.new) }
{
    if store.put(row, page).is_err() {
        return Err(BusFault::Device);
    }
    match sync_when {
        SyncWhen::Always => sync(store),
        SyncWhen::Erases => Ok(()),
    }
}

// Clears a block between two syncs: what was copied out of it lasts before, and none of its old pages lasts beside those that are put there
// later.
pub fn erase<S: Store>(store: &mut S, block: u32) -> Result<(), BusFault>
    requires in_range { block < (S.held store.old).geometry.blocks }
    requires images { S.honest store.old ≡ true → AreImages (S.held store.old) }
    ensures asks { Asks S.held S.honest S.failed store.old store.new result }
    ensures erases { S.honest store.old ≡ true → ErasesInStore (S.held store.old) block (is_ok result) (S.held store.new) }
{
    sync(store)?;
    if store.clear(block).is_err() {
        return Err(BusFault::Device);
    }
    sync(store)
}
