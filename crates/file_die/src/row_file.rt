//! The rows of a die in a file of bytes.
ghost use Rattle.std.specs.Prelude.{◌≡◌, ◌≢◌, ◌<◌, ◌≤◌, ◌==◌, ◌&&◌, ℕ, ◌*◌, ◌^◌, true, false, List, length, replicate, None, Some, OnOk, OnErr, OnSome, IfOk, IfErr, IfNone, is_ok, slice_set};
ghost use Rattle.page_layout.specs.Page.{Page};
ghost use Rattle.page_layout.specs.Flash.{with_block};
ghost use Rattle.page_layout.specs.Geometry.{row_count};
ghost use Rattle.page_layout.specs.Counter.{counted, HasRisen};
ghost use Rattle.file_die.specs.Bytes.{Gives, HasRefused, TakesBytes, TakesFewer, piece};
ghost use Rattle.file_die.specs.Store.{AreImages, Loads, Puts, Clears, Syncs};
ghost use Rattle.file_die.specs.Rows.{BlanksBlock, BlanksFewer, CountsRowFailures, FailsSync, IsReading, TellsEnd, TellsFull, held_in, is_kept, lacks_room};

use crate::bytes::{ByteFault, ByteFile};
use crate::moves::{read_all, write_all};
use crate::store::StoreFault;
use page_layout::geometry::Geometry;
use std::alloc::Global;
use std::marker::Model;
use thiserror::Error;

/// Why a file was not taken for the rows of a die. (This project's.)
#[derive(Clone, Copy, Debug, PartialEq, Eq, Error)]
pub enum RowFault {
    /// There is no memory for the bytes of a block.
    #[error("OutOfMemory")]
    OutOfMemory,
    /// The file has so many bytes, and not those of all rows.
    #[error("Length {0}")]
    Length(u64),
    /// The file did not tell its length.
    #[error("File")]
    File(ByteFault),
}

/// The rows of a die in a file of bytes, one behind another, each of one size. Rows are written as given, and made all FFh a block at a time. After a sync
/// that failed none is asked for, since nobody knows what it would say. (This project's.)
#[derive(Drop)]
pub struct RowFile<F: ByteFile> {
    file: F,
    geometry: Geometry,
    size: u32,
    // the bytes of an erased block
    erased: Vec<u8>,
    failures: u64,
    fault: Option<ByteFault>,
    full: bool,
    sync_failed: bool,
}

impl<F: ByteFile> Model for RowFile<F> {
    ghost use Rattle.file_die.specs.Rows.{Rows, AreRows};

    ghost Value = { Rows F };

    ghost view = { λ r. record {
      file = r.file;
      geometry = r.geometry;
      size = r.size;
      failures = r.failures;
      fault = r.fault;
      full = r.full;
      sync_failed = r.sync_failed;
    } };

    ghost invariant = { λ r. AreRows (F.honest r.file) (F.held r.file) r.geometry r.size r.erased.items r.failures r.fault r.sync_failed };
}

impl<F: ByteFile> RowFile<F> {
    /// The rows of a die in a file that is open for reading and writing. What stands in it is made to last first. It holds the bytes of one block in
    /// memory. No row is read.
    ///
    /// # Errors
    ///
    /// - `OutOfMemory` where there is no memory for a block.
    /// - `Length` where the file has not as many bytes as all rows.
    /// - `File` where the file did not tell its length, or the sync failed.
    pub fn new(
        alloc: Global,
        geometry: Geometry,
        size: u32,
        file: F,
    ) -> Result<RowFile<F>, RowFault>
    where
        F: Drop,
        ensures made { IfOk result (λ r. (r.geometry ≡ geometry) × (r.size ≡ size) × (r.failures ≡ 0) × (r.fault ≡ None) × (r.full ≡ false)) }
        ensures kept { IfOk result (λ r. (reads : List ℕ → Page) → is_kept F.held F.honest F.tells reads r ≡ (F.honest file && (F.tells file size reads && ((F.held file).failed_syncs == 0)))) }
        ensures bytes { IfOk result (λ r. F.honest file ≡ true → (F.held r.file).bytes ≡ (F.held file).bytes) }
        ensures whole { IfOk result (λ r. F.honest file ≡ true → length (F.held file).bytes ≡ row_count geometry * size) }
        ensures length { IfErr result (λ fault. (n : ℕ) → fault ≡ RowFault.Length n → F.honest file ≡ true → (n ≡ length (F.held file).bytes) × (n ≢ row_count geometry * size)) }
        ensures memory { IfErr result (λ fault. fault ≡ RowFault.OutOfMemory → F.honest file ≡ true → length (F.held file).bytes ≡ row_count geometry * size) }
        ensures refused { IfErr result (λ fault. (why : ByteFault) → fault ≡ RowFault.File why → (left : F) × HasRefused F.refused why left) }
    {
        let mut file = file;
        let found = match file.length() {
            Ok(found) => found,
            Err(fault) => return Err(RowFault::File(fault)),
        };
        if found != geometry.rows() as u64 * size as u64 {
            return Err(RowFault::Length(found));
        }
        if let Err(fault) = file.sync() {
            return Err(RowFault::File(fault));
        }
        match vec![in alloc; 0xFFu8; geometry.pages() as usize * size as usize] {
            Ok(erased) => Ok(RowFile {
                file,
                geometry,
                size,
                erased,
                failures: 0,
                fault: None,
                full: false,
                sync_failed: false,
            }),
            Err(_) => Err(RowFault::OutOfMemory),
        }
    }

    // The byte at which a row begins.
    fn offset(&self, row: u32) -> u64
        ensures { result ≡ row * self.now.size }
    {
        row as u64 * self.size as u64
    }

    // Counts a failure of the file, and remembers the first; and whether this call was a change for which there was no room.
    fn settle(&mut self, answer: Result<(), ByteFault>, changes: bool) -> Result<(), StoreFault>
        ensures ok { OnOk result ((self.new.failures ≡ self.old.failures) × (self.new.fault ≡ self.old.fault)) }
        ensures full { self.new.full ≡ lacks_room changes self.old.sync_failed answer }
        ensures answer { is_ok result ≡ is_ok answer }
        ensures rising { self.old.failures ≤ self.new.failures }
        ensures rose { OnErr result (self.new.failures ≡ counted self.old.failures) }
        ensures first { (fault : ByteFault) → self.old.fault ≡ Some fault → self.new.fault ≡ Some fault }
        ensures told { IfErr answer (λ fault. self.old.fault ≡ None → self.new.fault ≡ Some fault) }
        ensures file { self.new.file ≡ self.old.file }
        ensures geometry { self.new.geometry ≡ self.old.geometry }
        ensures size { self.new.size ≡ self.old.size }
        ensures sync_failed { self.new.sync_failed ≡ self.old.sync_failed }
    {
        self.full = matches!(answer, Err(ByteFault::NoSpace)) && changes && !self.sync_failed;
        match answer {
            Ok(()) => Ok(()),
            Err(fault) => {
                self.failures = self.failures.saturating_add(1);
                if self.fault.is_none() {
                    self.fault = Some(fault);
                }
                Err(StoreFault)
            }
        }
    }

    /// Reads the bytes of a row.
    ///
    /// # Errors
    ///
    /// `StoreFault` where the file failed: the buffer holds anything.
    pub fn read(&mut self, row: u32, to: &mut [u8]) -> Result<(), StoreFault>
        requires in_range { row < row_count self.old.geometry }
        requires room { length to.old ≡ self.old.size }
        ensures gave { is_ok result ≡ true → Gives F.gave self.old.file (row * self.old.size) to.new self.new.file }
        ensures ended { OnErr result (TellsEnd F.gave row self.old.size self.old self.new) }
        ensures bytes { is_ok result ≡ true → F.honest self.old.file ≡ true → to.new ≡ piece self.old.size row (F.held self.old.file).bytes }
        ensures loads { (reads : List ℕ → Page) → is_kept F.held F.honest F.tells reads self.old ≡ true → Loads (held_in F.held reads self.old) row (reads to.new) (is_ok result) (held_in F.held reads self.new) }
        ensures kept { (reads : List ℕ → Page) → is_kept F.held F.honest F.tells reads self.new ≡ is_kept F.held F.honest F.tells reads self.old }
        ensures counts { CountsRowFailures self.old self.new result }
        ensures unfilled { self.new.full ≡ false }
    {
        let start = self.offset(row);
        let answer = read_all(&mut self.file, to, start);
        self.settle(answer, false)
    }

    /// Writes the bytes of a row.
    ///
    /// # Errors
    ///
    /// `StoreFault` where the file failed: the row reads as it did, as these bytes, or as a page without a sound record.
    pub fn write(&mut self, row: u32, bytes: &[u8]) -> Result<(), StoreFault>
        requires in_range { row < row_count self.old.geometry }
        requires whole { length bytes.now ≡ self.old.size }
        ensures written { is_ok result ≡ true → F.honest self.old.file ≡ true → (reads : List ℕ → Page) → (held_in F.held reads self.new).pages ≡ slice_set (held_in F.held reads self.old).pages row (reads bytes.now) }
        ensures puts { (reads : List ℕ → Page) → IsReading self.old.geometry self.old.size reads → is_kept F.held F.honest F.tells reads self.old ≡ true →
            Puts (held_in F.held reads self.old) row (reads bytes.now) (is_ok result) (held_in F.held reads self.new) }
        ensures kept { (reads : List ℕ → Page) → is_kept F.held F.honest F.tells reads self.new ≡ is_kept F.held F.honest F.tells reads self.old }
        ensures counts { CountsRowFailures self.old self.new result }
        ensures full { OnErr result (TellsFull F.wrote self.old self.new) }
        ensures room { OnOk result (self.new.full ≡ false) }
        ensures taken { OnOk result (TakesBytes F.wrote self.old.file (row * self.old.size) bytes.now (length bytes.now) self.new.file) }
        ensures stopped { OnErr result (TakesFewer F.wrote self.old.file (row * self.old.size) bytes.now self.new.file) }
    {
        let start = self.offset(row);
        let answer = write_all(&mut self.file, bytes, start);
        self.settle(answer, true)
    }

    /// Makes all bytes of the rows of a block FFh.
    ///
    /// # Errors
    ///
    /// `StoreFault` where the file failed: each of these rows reads as it did, as an erased page, or as one without a sound record.
    pub fn erase(&mut self, block: u32) -> Result<(), StoreFault>
        requires in_range { block < self.old.geometry.blocks }
        ensures cleared { is_ok result ≡ true → F.honest self.old.file ≡ true → (reads : List ℕ → Page) →
            (held_in F.held reads self.new).pages ≡ with_block self.old.geometry.pages block (replicate self.old.geometry.pages (reads (replicate self.old.size 255))) (held_in F.held reads self.old).pages }
        ensures clears { (reads : List ℕ → Page) → IsReading self.old.geometry self.old.size reads → is_kept F.held F.honest F.tells reads self.old ≡ true →
            Clears (held_in F.held reads self.old) block (is_ok result) (held_in F.held reads self.new) }
        ensures kept { (reads : List ℕ → Page) → is_kept F.held F.honest F.tells reads self.new ≡ is_kept F.held F.honest F.tells reads self.old }
        ensures counts { CountsRowFailures self.old self.new result }
        ensures full { OnErr result (TellsFull F.wrote self.old self.new) }
        ensures room { OnOk result (self.new.full ≡ false) }
        ensures taken { OnOk result (BlanksBlock F.wrote block self.old self.new) }
        ensures stopped { OnErr result (BlanksFewer F.wrote block self.old self.new) }
    {
        let start = self.offset(self.geometry.row(block, 0));
        let answer = write_all(&mut self.file, &self.erased, start);
        self.settle(answer, true)
    }

    /// Makes all rows last.
    ///
    /// # Errors
    ///
    /// `StoreFault` where the file failed, or a sync before this one did: the rows are as they were, and may not all last.
    pub fn sync(&mut self) -> Result<(), StoreFault>
        ensures syncs { (reads : List ℕ → Page) → IsReading self.old.geometry self.old.size reads → is_kept F.held F.honest F.tells reads self.old ≡ true →
            Syncs (held_in F.held reads self.old) (is_ok result) (held_in F.held reads self.new) }
        ensures kept { (reads : List ℕ → Page) → is_kept F.held F.honest F.tells reads self.new ≡ is_kept F.held F.honest F.tells reads self.old }
        ensures counts { CountsRowFailures self.old self.new result }
        ensures unfilled { self.new.full ≡ false }
        ensures once { self.old.sync_failed ≡ true → (is_ok result ≡ false) × (self.new.file ≡ self.old.file) }
        ensures refused { OnErr result (FailsSync F.refused self.old self.new) }
    {
        if self.sync_failed {
            return self.settle(Err(ByteFault::Other), false);
        }
        let answer = self.file.sync();
        self.sync_failed = answer.is_err();
        self.settle(answer, false)
    }

    /// The geometry of the die.
    pub fn geometry(&self) -> Geometry
        ensures geometry { result ≡ self.now.geometry }
        ensures images { (reads : List ℕ → Page) → IsReading self.now.geometry self.now.size reads → is_kept F.held F.honest F.tells reads self.now ≡ true → AreImages (held_in F.held reads self.now) }
    {
        self.geometry
    }

    /// Its failures so far. The count stays at 2^64 - 1 once there.
    pub fn failures(&self) -> u64
        ensures { result ≡ self.now.failures }
    {
        self.failures
    }

    /// Whether its last call was a change that failed for want of room in the file, where no sync has failed.
    pub fn is_full(&self) -> bool
        ensures { result ≡ self.now.full }
    {
        self.full
    }

    /// Why the first call failed that did. `None` just where none has.
    pub fn first_fault(&self) -> Option<ByteFault>
        ensures fault { result ≡ self.now.fault }
        ensures none { IfNone result (self.now.failures ≡ 0) }
        ensures some { OnSome result (self.now.failures ≡ 0 → ⊥) }
    {
        self.fault
    }

    /// The file.
    pub fn into_file(self) -> F
        ensures { result ≡ self.file }
    {
        let RowFile {
            file,
            geometry: _,
            size: _,
            erased: _,
            failures: _,
            fault: _,
            full: _,
            sync_failed: _,
        } = self;
        file
    }
}
