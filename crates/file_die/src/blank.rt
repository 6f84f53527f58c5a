//! How a store is begun: all its pages erased.
ghost use Rattle.std.specs.Prelude.{◌≡◌, ◌≤◌, true, false, OnErr, OnOk, is_ok};
ghost use Rattle.page_layout.specs.Counter.{HasRisen};
ghost use Rattle.file_die.specs.Store.{ErasesSome, blank};

use crate::store::{Store, StoreFault};

/// Erases all blocks of a store, and has them last.
///
/// # Errors
///
/// `StoreFault` where the store failed: each page is then as it was, an erased one, or one without a sound record.
pub fn erase_all<S: Store>(store: &mut S) -> Result<(), StoreFault>
    ensures blank { is_ok result ≡ true → S.honest store.old ≡ true → S.held store.new ≡ blank (S.held store.old).geometry }
    ensures left { is_ok result ≡ false → S.honest store.old ≡ true → ErasesSome (S.held store.old) (S.held store.new) }
    ensures geometry { (S.held store.new).geometry ≡ (S.held store.old).geometry }
    ensures honest { S.honest store.new ≡ S.honest store.old }
    ensures failed { S.failed store.old ≤ S.failed store.new }
    ensures settled { OnOk result (S.failed store.new ≡ S.failed store.old) }
    ensures rose { OnErr result (HasRisen (S.failed store.old) (S.failed store.new)) }
{
    for block in 0..store.geometry().blocks() {
        store.clear(block)?;
    }
    store.sync()
}
