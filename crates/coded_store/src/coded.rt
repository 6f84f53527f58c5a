//! The store over a file of pages with their codes.
ghost use Rattle.std.specs.Prelude.{◌≡◌, ◌≢◌, ◌<◌, ◌≤◌, ◌^◌, ℕ, ◌*◌, ◌&&◌, ◌==◌, true, false, length, replicate, slice_set, None, OnErr, OnOk, OnSome, IfOk, IfErr, IfNone, is_ok};
ghost use Rattle.page_layout.specs.Counter.{HasRisen};
ghost use Rattle.page_layout.specs.Geometry.{row_count, page_bytes};
ghost use Rattle.page_layout.specs.Flash.{with_block};
ghost use Rattle.onfi_cycles.specs.Cycles.{page_of};
ghost use Rattle.page_code.specs.Layout.{coded};
ghost use Rattle.file_die.specs.Bytes.{HasRefused};
ghost use Rattle.file_die.specs.Rows.{FailsSync, TellsEnd, TellsFull};
ghost use Rattle.file_die.specs.Store.{Loads, Puts, Clears, Syncs, page_in};
ghost use Rattle.coded_store.specs.Reading.{coded_bytes, erased_with_codes, page_as_read, wrong_with};
ghost use Rattle.coded_store.specs.Coded.{none_read, turned_of, mended_of, reading, standing_with_codes, is_reading_kept, BlanksFewerWithCodes, BlanksWithCodes, ShowsRow, TakesFewerWithCodes, TakesWithCodes};

use crate::show::{coded_length, show, spell};
use crate::wrong::Wrong;
use file_die::{ByteFault, ByteFile, RowFault, RowFile, Store, StoreFault};
use page_layout::geometry::Geometry;
use std::alloc::{AllocError, Global};
use std::marker::Model;

/// What was wrong with the rows of a store as each was last read. (This project's.)
#[derive(Clone, Copy, Debug, PartialEq, Eq)]
pub struct Mended {
    /// How many bits were turned back.
    pub turned: u64,
    /// How many rows were lost.
    pub lost: u64,
}

/// The pages of a die in a file, each with its codes, one behind another in row order: its data area, and then its spare area as on a chip. A page of which
/// each chunk with its code has at most one wrong bit is loaded as it was put; one of which a chunk has more is loaded as a page of 00h bytes, which is neither
/// erased nor sound. It keeps its pages just where the file keeps its bytes, and remembers what was wrong with each row as it was last read.
/// (This project's.)
#[derive(Drop)]
pub struct CodedStore<F: ByteFile> {
    rows: RowFile<F>,
    stands: Vec<u8>,
    wrong: Vec<Wrong>,
}

impl<F: ByteFile> Model for CodedStore<F> {
    ghost use Rattle.coded_store.specs.Coded.{Coded, AreCodedParts};

    ghost Value = { Coded F };

    ghost view = { λ s. record { rows = s.rows; wrong = s.wrong.items } };

    ghost invariant = { λ s. AreCodedParts s.rows.geometry s.rows.size s.stands.items s.wrong.items };
}

// The bits that were turned back of a row.
fn turned_in(wrong: Wrong) -> u64
    ensures is { result ≡ Rattle.coded_store.specs.Coded.turned_in wrong }
    ensures few { result < 256 }
{
    match wrong {
        Wrong::Turned(bits) => u64::from(bits),
        Wrong::Lost => 0,
    }
}

// Whether a row was lost.
fn is_lost(wrong: Wrong) -> bool
    ensures { result ≡ Rattle.coded_store.specs.Coded.is_row_lost wrong }
{
    match wrong {
        Wrong::Turned(_) => false,
        Wrong::Lost => true,
    }
}

// The bits that were turned back of rows.
fn bits_of(wrong: &[Wrong]) -> u64
    requires { length wrong.now < 2 ^ 48 }
    ensures { result ≡ turned_of wrong.now }
{
    let mut bits = 0;
    for row in wrong {
        bits += turned_in(*row);
    }
    bits
}

// What was wrong with rows in all.
fn tally(wrong: &[Wrong]) -> Mended
    requires { length wrong.now < 2 ^ 48 }
    ensures { result ≡ mended_of wrong.now }
{
    Mended {
        turned: bits_of(wrong),
        lost: wrong.iter().filter(|row| is_lost(**row)).count() as u64,
    }
}

// Room for a page with its codes, and for what was wrong with each row.
fn room_for(alloc: Global, geometry: &Geometry) -> Result<(Vec<u8>, Vec<Wrong>), AllocError>
    ensures stands { IfOk result (λ room. length room.0.items ≡ coded_bytes geometry.now) }
    ensures wrong { IfOk result (λ room. room.1.items ≡ none_read geometry.now) }
{
    let stands = vec![in alloc; 0u8; coded_length(geometry)]?;
    let wrong = vec![in alloc; Wrong::Turned(0); geometry.rows() as usize]?;
    Ok((stands, wrong))
}

impl<F: ByteFile> CodedStore<F> {
    /// A store over a file that is open for reading and writing, in which what stands is made to last first. It takes memory for an erased block, a page and
    /// two bytes for each row; no call of it takes more. No page is read.
    ///
    /// # Errors
    ///
    /// - `OutOfMemory` where there is no memory for these.
    /// - `Length` where the file has not as many bytes as all pages with their codes.
    /// - `File` where the file did not tell its length, or the sync failed.
    pub fn new(alloc: Global, geometry: Geometry, file: F) -> Result<CodedStore<F>, RowFault>
    where
        F: Drop,
        ensures made { IfOk result (λ store. (store.rows.geometry ≡ geometry) × (store.rows.failures ≡ 0) × (store.rows.fault ≡ None) × (store.wrong ≡ none_read geometry)) }
        ensures unfilled { IfOk result (λ store. store.rows.full ≡ false) }
        ensures honest { IfOk result (λ store. is_reading_kept F.held F.honest F.tells store ≡ (F.honest file && (F.tells file (coded_bytes geometry) (page_as_read geometry) && ((F.held file).failed_syncs == 0)))) }
        ensures bytes { IfOk result (λ store. F.honest file ≡ true → (F.held store.rows.file).bytes ≡ (F.held file).bytes) }
        ensures whole { IfOk result (λ store. F.honest file ≡ true → length (F.held file).bytes ≡ row_count geometry * coded_bytes geometry) }
        ensures length { IfErr result (λ fault. (n : ℕ) → fault ≡ RowFault.Length n → F.honest file ≡ true → (n ≡ length (F.held file).bytes) × (n ≢ row_count geometry * coded_bytes geometry)) }
        ensures memory { IfErr result (λ fault. fault ≡ RowFault.OutOfMemory → F.honest file ≡ true → length (F.held file).bytes ≡ row_count geometry * coded_bytes geometry) }
        ensures refused { IfErr result (λ fault. (why : ByteFault) → fault ≡ RowFault.File why → (left : F) × HasRefused F.refused why left) }
    {
        let rows = RowFile::new(alloc, geometry, coded_length(&geometry) as u32, file)?;
        let Ok((stands, wrong)) = room_for(alloc, &geometry) else {
            return Err(RowFault::OutOfMemory);
        };
        Ok(CodedStore {
            rows,
            stands,
            wrong,
        })
    }

    /// What was wrong with its rows, as each was last read. Of one that was not read it is nothing.
    pub fn mended_so_far(&self) -> Mended
        ensures { result ≡ mended_of self.now.wrong }
    {
        tally(&self.wrong)
    }

    /// Whether its last call was a change that failed for want of room in the file, where no sync has failed.
    pub fn lacks_room(&self) -> bool
        ensures { result ≡ self.now.rows.full }
    {
        self.rows.is_full()
    }

    /// Why the first call failed that did. `None` just where none has.
    pub fn first_fault(&self) -> Option<ByteFault>
        ensures fault { result ≡ self.now.rows.fault }
        ensures none { IfNone result (self.now.rows.failures ≡ 0) }
        ensures some { OnSome result (self.now.rows.failures ≡ 0 → ⊥) }
    {
        self.rows.first_fault()
    }

    /// The file.
    pub fn into_file(self) -> F
        ensures { result ≡ self.rows.file }
    {
        let CodedStore {
            rows,
            stands: _,
            wrong: _,
        } = self;
        rows.into_file()
    }
}

impl<F: ByteFile> Store for CodedStore<F> {
    ghost held = { reading F.held };

    ghost honest = { is_reading_kept F.held F.honest F.tells };

    ghost failed = { λ s. s.rows.failures };

    /// Loads the page of a row as it reads.
    fn load(&mut self, row: u32, page: &mut [u8]) -> Result<(), StoreFault>
        requires in_range { row < row_count self.old.rows.geometry }
        requires room { length page.old ≡ page_bytes self.old.rows.geometry }

        // What every store promises.
        ensures loads { is_reading_kept F.held F.honest F.tells self.old ≡ true → Loads (reading F.held self.old) row (page_of self.old.rows.geometry page.new) (is_ok result) (reading F.held self.new) }
        ensures geometry { self.new.rows.geometry ≡ self.old.rows.geometry }
        ensures honest { is_reading_kept F.held F.honest F.tells self.new ≡ is_reading_kept F.held F.honest F.tells self.old }
        ensures failed { self.old.rows.failures ≤ self.new.rows.failures }
        ensures settled { OnOk result (self.new.rows.failures ≡ self.old.rows.failures) }
        ensures rose { OnErr result (HasRisen self.old.rows.failures self.new.rows.failures) }
        ensures unfilled { self.new.rows.full ≡ false }

        // Whatever the file does, honest or not: of just the bytes that its reads gave, one behind the other from the row's first on, the page is shown, and
        // what is wrong with them is remembered of the row, and of no other. A load that fails changes nothing of that.
        ensures told_of { OnOk result (ShowsRow F.gave self.old.rows.geometry self.old self.new row (page_of self.old.rows.geometry page.new)) }
        ensures untold { OnErr result (self.new.wrong ≡ self.old.wrong) }

        // It fails just where its reads ended before the row did.
        ensures ended { OnErr result (TellsEnd F.gave row (coded_bytes self.old.rows.geometry) self.old.rows self.new.rows) }

        // Where the file is honest these are the bytes that stand there.
        ensures told { OnOk result (F.honest self.old.rows.file ≡ true → self.new.wrong ≡ slice_set self.old.wrong row (wrong_with self.old.rows.geometry (page_in (standing_with_codes F.held self.old) row))) }
    {
        self.rows.read(row, &mut self.stands)?;
        self.wrong[row as usize] = show(&self.rows.geometry(), &self.stands, page);
        Ok(())
    }

    /// Puts a page at a row, with its codes.
    fn put(&mut self, row: u32, page: &[u8]) -> Result<(), StoreFault>
        requires in_range { row < row_count self.old.rows.geometry }
        requires whole { length page.now ≡ page_bytes self.old.rows.geometry }

        // What every store promises.
        ensures puts { is_reading_kept F.held F.honest F.tells self.old ≡ true → Puts (reading F.held self.old) row (page_of self.old.rows.geometry page.now) (is_ok result) (reading F.held self.new) }
        ensures geometry { self.new.rows.geometry ≡ self.old.rows.geometry }
        ensures honest { is_reading_kept F.held F.honest F.tells self.new ≡ is_reading_kept F.held F.honest F.tells self.old }
        ensures failed { self.old.rows.failures ≤ self.new.rows.failures }
        ensures settled { OnOk result (self.new.rows.failures ≡ self.old.rows.failures) }
        ensures rose { OnErr result (HasRisen self.old.rows.failures self.new.rows.failures) }

        // It stands there with its codes. What was wrong as rows were last read stays.
        ensures stands { OnOk result (F.honest self.old.rows.file ≡ true → standing_with_codes F.held self.new ≡ slice_set (standing_with_codes F.held self.old) row (coded self.old.rows.geometry (page_of self.old.rows.geometry page.now))) }
        ensures untold { self.new.wrong ≡ self.old.wrong }

        // Whatever the file does: it is full just where the file's last answer was that.
        ensures room { OnOk result (self.new.rows.full ≡ false) }
        ensures full { OnErr result (TellsFull F.wrote self.old.rows self.new.rows) }

        // And what its writes took are the page's bytes with its codes.
        ensures taken { OnOk result (TakesWithCodes F.wrote self.old.rows.geometry row (page_of self.old.rows.geometry page.now) self.old.rows self.new.rows) }
        ensures stopped { OnErr result (TakesFewerWithCodes F.wrote self.old.rows.geometry row (page_of self.old.rows.geometry page.now) self.old.rows self.new.rows) }
    {
        spell(&self.rows.geometry(), page, &mut self.stands);
        self.rows.write(row, &self.stands)
    }

    /// Puts erased pages at the rows of a block, whose codes are erased too.
    fn clear(&mut self, block: u32) -> Result<(), StoreFault>
        requires in_range { block < self.old.rows.geometry.blocks }

        // What every store promises.
        ensures clears { is_reading_kept F.held F.honest F.tells self.old ≡ true → Clears (reading F.held self.old) block (is_ok result) (reading F.held self.new) }
        ensures geometry { self.new.rows.geometry ≡ self.old.rows.geometry }
        ensures honest { is_reading_kept F.held F.honest F.tells self.new ≡ is_reading_kept F.held F.honest F.tells self.old }
        ensures failed { self.old.rows.failures ≤ self.new.rows.failures }
        ensures settled { OnOk result (self.new.rows.failures ≡ self.old.rows.failures) }
        ensures rose { OnErr result (HasRisen self.old.rows.failures self.new.rows.failures) }

        // Its rows stand as erased pages, whose codes are erased too, and all others as they did. What was wrong as rows were last read stays.
        ensures stands { OnOk result (F.honest self.old.rows.file ≡ true → standing_with_codes F.held self.new
            ≡ with_block self.old.rows.geometry.pages block (replicate self.old.rows.geometry.pages (erased_with_codes self.old.rows.geometry)) (standing_with_codes F.held self.old)) }
        ensures untold { self.new.wrong ≡ self.old.wrong }

        // Whatever the file does: it is full just where the file's last answer was that.
        ensures room { OnOk result (self.new.rows.full ≡ false) }
        ensures full { OnErr result (TellsFull F.wrote self.old.rows self.new.rows) }

        // And what its writes took are bytes FFh.
        ensures taken { OnOk result (BlanksWithCodes F.wrote self.old.rows.geometry block self.old.rows self.new.rows) }
        ensures stopped { OnErr result (BlanksFewerWithCodes F.wrote self.old.rows.geometry block self.old.rows self.new.rows) }
    {
        self.rows.erase(block)
    }

    fn sync(&mut self) -> Result<(), StoreFault>
        // What every store promises.
        ensures syncs { is_reading_kept F.held F.honest F.tells self.old ≡ true → Syncs (reading F.held self.old) (is_ok result) (reading F.held self.new) }
        ensures geometry { self.new.rows.geometry ≡ self.old.rows.geometry }
        ensures honest { is_reading_kept F.held F.honest F.tells self.new ≡ is_reading_kept F.held F.honest F.tells self.old }
        ensures failed { self.old.rows.failures ≤ self.new.rows.failures }
        ensures settled { OnOk result (self.new.rows.failures ≡ self.old.rows.failures) }
        ensures rose { OnErr result (HasRisen self.old.rows.failures self.new.rows.failures) }
        ensures unfilled { self.new.rows.full ≡ false }
        ensures untold { self.new.wrong ≡ self.old.wrong }

        // After one that failed none is asked for.
        ensures once { self.old.rows.sync_failed ≡ true → (is_ok result ≡ false) × (self.new.rows.file ≡ self.old.rows.file) }
        ensures refused { OnErr result (FailsSync F.refused self.old.rows self.new.rows) }
    {
        self.rows.sync()
    }

    fn geometry(&self) -> Geometry {
        self.rows.geometry()
    }

    fn failures(&self) -> u64 {
        self.rows.failures()
    }
}
