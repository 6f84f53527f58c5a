//! Where the pages of a die stand.
use page_layout::geometry::Geometry;
use thiserror::Error;

/// A load, a change or a sync that failed. (This project's.)
#[derive(Clone, Copy, Debug, PartialEq, Eq, Error)]
#[error("StoreFault")]
pub struct StoreFault;

/// The pages of a die, each at its row, and what they would be if the power went now. (This project's.)
///
/// That is said of an honest store: one that gives back what it was given, that changes no other pages, and whose sync holds. A store is
/// honest or not for good. Of one that is not, nothing is known but its geometry and that it counts its failures.
pub trait Store {
    ghost use Rattle.std.specs.Prelude.{◌≡◌, ◌<◌, ◌≤◌, ℕ, Bool, true, length, OnErr, OnOk, is_ok};
    ghost use Rattle.page_layout.specs.Counter.{HasRisen};
    ghost use Rattle.page_layout.specs.Geometry.{row_count, page_bytes};
    ghost use Rattle.onfi_cycles.specs.Cycles.{page_of};
    ghost use Rattle.file_die.specs.Store.{Held, AreImages, Loads, Puts, Clears, Syncs};

    /// What it holds.
    ghost held: { Self → Held };

    /// Whether it keeps what it is given.
    ghost honest: { Self → Bool };

    /// Its failures so far. They stay at 2^64 - 1 once there.
    ghost failed: { Self → ℕ };

    /// Gives the page of a row: its data area and then its spare area.
    ///
    /// # Errors
    ///
    /// `StoreFault` where the store failed: the buffer holds anything, and the pages are as they were.
    fn load(&mut self, row: u32, page: &mut [u8]) -> Result<(), StoreFault>
        requires in_range { row < row_count (held self.old).geometry }
        requires room { length page.old ≡ page_bytes (held self.old).geometry }
        ensures loads { honest self.old ≡ true → Loads (held self.old) row (page_of (held self.old).geometry page.new) (is_ok result) (held self.new) }
        ensures geometry { (held self.new).geometry ≡ (held self.old).geometry }
        ensures honest { honest self.new ≡ honest self.old }
        ensures failed { failed self.old ≤ failed self.new }
        ensures settled { OnOk result (failed self.new ≡ failed self.old) }
        ensures rose { OnErr result (HasRisen (failed self.old) (failed self.new)) };

    /// Puts a page at a row: its data area and then its spare area.
    ///
    /// # Errors
    ///
    /// `StoreFault` where the store failed: the row has the page that it had, this one, or one without a sound record.
    fn put(&mut self, row: u32, page: &[u8]) -> Result<(), StoreFault>
        requires in_range { row < row_count (held self.old).geometry }
        requires whole { length page.now ≡ page_bytes (held self.old).geometry }
        ensures puts { honest self.old ≡ true → Puts (held self.old) row (page_of (held self.old).geometry page.now) (is_ok result) (held self.new) }
        ensures geometry { (held self.new).geometry ≡ (held self.old).geometry }
        ensures honest { honest self.new ≡ honest self.old }
        ensures failed { failed self.old ≤ failed self.new }
        ensures settled { OnOk result (failed self.new ≡ failed self.old) }
        ensures rose { OnErr result (HasRisen (failed self.old) (failed self.new)) };

    /// Puts erased pages at the rows of a block.
    ///
    /// # Errors
    ///
    /// `StoreFault` where the store failed: each of these rows has the page that it had, an erased one, or one without a sound record.
    fn clear(&mut self, block: u32) -> Result<(), StoreFault>
        requires in_range { block < (held self.old).geometry.blocks }
        ensures clears { honest self.old ≡ true → Clears (held self.old) block (is_ok result) (held self.new) }
        ensures geometry { (held self.new).geometry ≡ (held self.old).geometry }
        ensures honest { honest self.new ≡ honest self.old }
        ensures failed { failed self.old ≤ failed self.new }
        ensures settled { OnOk result (failed self.new ≡ failed self.old) }
        ensures rose { OnErr result (HasRisen (failed self.old) (failed self.new)) };

    /// Makes all pages last.
    ///
    /// # Errors
    ///
    /// `StoreFault` where the store failed: the pages are as they were, and may not all last.
    fn sync(&mut self) -> Result<(), StoreFault>
        ensures syncs { honest self.old ≡ true → Syncs (held self.old) (is_ok result) (held self.new) }
        ensures geometry { (held self.new).geometry ≡ (held self.old).geometry }
        ensures honest { honest self.new ≡ honest self.old }
        ensures failed { failed self.old ≤ failed self.new }
        ensures settled { OnOk result (failed self.new ≡ failed self.old) }
        ensures rose { OnErr result (HasRisen (failed self.old) (failed self.new)) };

    /// The geometry of its die. The pages of an honest store are those of such a die.
    fn geometry(&self) -> Geometry
        ensures geometry { result ≡ (held self.now).geometry }
        ensures whole { honest self.now ≡ true → AreImages (held self.now) };

    /// Its failures so far. The count stays at 2^64 - 1 once there.
    fn failures(&self) -> u64
        ensures { result ≡ failed self.now };
}
