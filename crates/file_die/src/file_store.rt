//! A store over a file of bytes.
ghost use Rattle.std.specs.Prelude.{◌≡◌, ◌≢◌, ◌<◌, ◌≤◌, ℕ, ◌*◌, ◌&&◌, ◌==◌, true, false, length, None, IfOk, IfErr, OnErr, OnOk, OnSome, IfNone, Some, is_ok};
ghost use Rattle.page_layout.specs.Counter.{HasRisen};
ghost use Rattle.page_layout.specs.Geometry.{row_count, page_bytes};
ghost use Rattle.onfi_cycles.specs.Cycles.{page_of};
ghost use Rattle.file_die.specs.Store.{Clears, Loads, Puts, Syncs};
ghost use Rattle.file_die.specs.Bytes.{Gives, HasRefused, TakesBytes, TakesFewer};
ghost use Rattle.file_die.specs.Rows.{BlanksBlock, BlanksFewer, FailsSync, TellsEnd, TellsFull};

use crate::bytes::{ByteFault, ByteFile};
use crate::row_file::{RowFault, RowFile};
use crate::store::{Store, StoreFault};
use nand_die::page_length;
use page_layout::geometry::Geometry;
use std::alloc::Global;

/// The pages of a die in a file, one behind another in row order, each its data area and then its spare area. It keeps them just where the file keeps its
/// bytes. (This project's.)
#[derive(Drop)]
pub struct DieFile<F: ByteFile> {
    rows: RowFile<F>,
    ghost sized: { rows.size ≡ page_bytes rows.geometry },
}

impl<F: ByteFile> DieFile<F> {
    ghost use Rattle.file_die.specs.Rows.{is_kept};

    /// A store over a file that is open for reading and writing, in which what stands is made to last first. It holds one erased block in memory. No page is read.
    ///
    /// # Errors
    ///
    /// - `OutOfMemory` where there is no memory for a block.
    /// - `Length` where the file has not as many bytes as all pages.
    /// - `File` where the file did not tell its length, or the sync failed.
    pub fn new(alloc: Global, geometry: Geometry, file: F) -> Result<DieFile<F>, RowFault>
    where
        F: Drop,
        ensures made { IfOk result (λ store. (store.rows.geometry ≡ geometry) × (store.rows.failures ≡ 0) × (store.rows.fault ≡ None) × (store.rows.full ≡ false)) }
        ensures honest { IfOk result (λ store. is_kept F.held F.honest F.tells (page_of geometry) store.rows ≡ (F.honest file && (F.tells file (page_bytes geometry) (page_of geometry) && ((F.held file).failed_syncs == 0)))) }
        ensures bytes { IfOk result (λ store. F.honest file ≡ true → (F.held store.rows.file).bytes ≡ (F.held file).bytes) }
        ensures whole { IfOk result (λ store. F.honest file ≡ true → length (F.held file).bytes ≡ row_count geometry * page_bytes geometry) }
        ensures length { IfErr result (λ fault. (n : ℕ) → fault ≡ RowFault.Length n → F.honest file ≡ true → (n ≡ length (F.held file).bytes) × (n ≢ row_count geometry * page_bytes geometry)) }
        ensures memory { IfErr result (λ fault. fault ≡ RowFault.OutOfMemory → F.honest file ≡ true → length (F.held file).bytes ≡ row_count geometry * page_bytes geometry) }
        ensures refused { IfErr result (λ fault. (why : ByteFault) → fault ≡ RowFault.File why → (left : F) × HasRefused F.refused why left) }
    {
        let rows = RowFile::new(alloc, geometry, page_length(&geometry) as u32, file)?;
        Ok(DieFile { rows })
    }

    /// Whether its last call was a change that failed for want of room in the file, where no sync has failed.
    pub fn lacks_room(&self) -> bool
        ensures { result ≡ self.now.rows.full }
    {
        self.rows.is_full()
    }

    /// Why the first call failed that did. `None` just where none has.
    pub fn first_fault(&self) -> Option<ByteFault>
        ensures fault { result ≡ self.now.rows.fault }
        ensures none { IfNone result (self.now.rows.failures ≡ 0) }
        ensures some { OnSome result (self.now.rows.failures ≡ 0 → ⊥) }
    {
        self.rows.first_fault()
    }

    /// The file.
    pub fn into_file(self) -> F
        ensures { result ≡ self.rows.file }
    {
        let DieFile { rows } = self;
        rows.into_file()
    }
}

impl<F: ByteFile> Store for DieFile<F> {
    ghost use Rattle.file_die.specs.Rows.{held_in, is_kept};

    ghost held = { λ s. held_in F.held (page_of s.rows.geometry) s.rows };

    ghost honest = { λ s. is_kept F.held F.honest F.tells (page_of s.rows.geometry) s.rows };

    ghost failed = { λ s. s.rows.failures };

    fn load(&mut self, row: u32, page: &mut [u8]) -> Result<(), StoreFault>
        requires in_range { row < row_count self.old.rows.geometry }
        requires room { length page.old ≡ page_bytes self.old.rows.geometry }

        // What every store promises.
        ensures loads { is_kept F.held F.honest F.tells (page_of self.old.rows.geometry) self.old.rows ≡ true →
            Loads (held_in F.held (page_of self.old.rows.geometry) self.old.rows) row (page_of self.old.rows.geometry page.new) (is_ok result) (held_in F.held (page_of self.new.rows.geometry) self.new.rows) }
        ensures geometry { self.new.rows.geometry ≡ self.old.rows.geometry }
        ensures honest { is_kept F.held F.honest F.tells (page_of self.new.rows.geometry) self.new.rows ≡ is_kept F.held F.honest F.tells (page_of self.old.rows.geometry) self.old.rows }
        ensures failed { self.old.rows.failures ≤ self.new.rows.failures }
        ensures settled { OnOk result (self.new.rows.failures ≡ self.old.rows.failures) }
        ensures rose { OnErr result (HasRisen self.old.rows.failures self.new.rows.failures) }
        ensures unfilled { self.new.rows.full ≡ false }

        // Whatever the file does: the page is the bytes that its reads gave, and it fails just where they ended before.
        ensures gave { OnOk result (Gives F.gave self.old.rows.file (row * page_bytes self.old.rows.geometry) page.new self.new.rows.file) }
        ensures ended { OnErr result (TellsEnd F.gave row (page_bytes self.old.rows.geometry) self.old.rows self.new.rows) }
    {
        self.rows.read(row, page)
    }

    fn put(&mut self, row: u32, page: &[u8]) -> Result<(), StoreFault>
        requires in_range { row < row_count self.old.rows.geometry }
        requires whole { length page.now ≡ page_bytes self.old.rows.geometry }

        // What every store promises.
        ensures puts { is_kept F.held F.honest F.tells (page_of self.old.rows.geometry) self.old.rows ≡ true →
            Puts (held_in F.held (page_of self.old.rows.geometry) self.old.rows) row (page_of self.old.rows.geometry page.now) (is_ok result) (held_in F.held (page_of self.new.rows.geometry) self.new.rows) }
        ensures geometry { self.new.rows.geometry ≡ self.old.rows.geometry }
        ensures honest { is_kept F.held F.honest F.tells (page_of self.new.rows.geometry) self.new.rows ≡ is_kept F.held F.honest F.tells (page_of self.old.rows.geometry) self.old.rows }
        ensures failed { self.old.rows.failures ≤ self.new.rows.failures }
        ensures settled { OnOk result (self.new.rows.failures ≡ self.old.rows.failures) }
        ensures rose { OnErr result (HasRisen self.old.rows.failures self.new.rows.failures) }

        // Whatever the file does: it is full just where the file's last answer was that.
        ensures room { OnOk result (self.new.rows.full ≡ false) }
        ensures full { OnErr result (TellsFull F.wrote self.old.rows self.new.rows) }

        // And the page is what its writes took.
        ensures taken { OnOk result (TakesBytes F.wrote self.old.rows.file (row * page_bytes self.old.rows.geometry) page.now (length page.now) self.new.rows.file) }
        ensures stopped { OnErr result (TakesFewer F.wrote self.old.rows.file (row * page_bytes self.old.rows.geometry) page.now self.new.rows.file) }
    {
        self.rows.write(row, page)
    }

    fn clear(&mut self, block: u32) -> Result<(), StoreFault>
        requires in_range { block < self.old.rows.geometry.blocks }

        // What every store promises.
        ensures clears { is_kept F.held F.honest F.tells (page_of self.old.rows.geometry) self.old.rows ≡ true →
            Clears (held_in F.held (page_of self.old.rows.geometry) self.old.rows) block (is_ok result) (held_in F.held (page_of self.new.rows.geometry) self.new.rows) }
        ensures geometry { self.new.rows.geometry ≡ self.old.rows.geometry }
        ensures honest { is_kept F.held F.honest F.tells (page_of self.new.rows.geometry) self.new.rows ≡ is_kept F.held F.honest F.tells (page_of self.old.rows.geometry) self.old.rows }
        ensures failed { self.old.rows.failures ≤ self.new.rows.failures }
        ensures settled { OnOk result (self.new.rows.failures ≡ self.old.rows.failures) }
        ensures rose { OnErr result (HasRisen self.old.rows.failures self.new.rows.failures) }

        // Whatever the file does: it is full just where the file's last answer was that.
        ensures room { OnOk result (self.new.rows.full ≡ false) }
        ensures full { OnErr result (TellsFull F.wrote self.old.rows self.new.rows) }

        // And the block has the bytes FFh that its writes took.
        ensures taken { OnOk result (BlanksBlock F.wrote block self.old.rows self.new.rows) }
        ensures stopped { OnErr result (BlanksFewer F.wrote block self.old.rows self.new.rows) }
    {
        self.rows.erase(block)
    }

    fn sync(&mut self) -> Result<(), StoreFault>
        // What every store promises.
        ensures syncs { is_kept F.held F.honest F.tells (page_of self.old.rows.geometry) self.old.rows ≡ true →
            Syncs (held_in F.held (page_of self.old.rows.geometry) self.old.rows) (is_ok result) (held_in F.held (page_of self.new.rows.geometry) self.new.rows) }
        ensures geometry { self.new.rows.geometry ≡ self.old.rows.geometry }
        ensures honest { is_kept F.held F.honest F.tells (page_of self.new.rows.geometry) self.new.rows ≡ is_kept F.held F.honest F.tells (page_of self.old.rows.geometry) self.old.rows }
        ensures failed { self.old.rows.failures ≤ self.new.rows.failures }
        ensures settled { OnOk result (self.new.rows.failures ≡ self.old.rows.failures) }
        ensures rose { OnErr result (HasRisen self.old.rows.failures self.new.rows.failures) }
        ensures unfilled { self.new.rows.full ≡ false }

        // Whatever the file does: after one that failed none is asked for.
        ensures once { self.old.rows.sync_failed ≡ true → (is_ok result ≡ false) × (self.new.rows.file ≡ self.old.rows.file) }
        ensures refused { OnErr result (FailsSync F.refused self.old.rows self.new.rows) }
    {
        self.rows.sync()
    }

    fn geometry(&self) -> Geometry {
        self.rows.geometry()
    }

    fn failures(&self) -> u64 {
        self.rows.failures()
    }
}
