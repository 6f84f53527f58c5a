//! Where the newest page of a sector is, and what it holds.
ghost use Rattle.std.specs.Prelude.{◌≡◌, ◌≢◌, ◌+◌, ◌*◌, ◌/◌, ◌<◌, ◌≤◌, true, [], length, replicate, slice_get, Some, None, Ok, Err, IsSome, IfOk};
ghost use Rattle.std.specs.Prelude.{IfErr, OnOk, OnErr, MatchResult};
ghost use Rattle.std.specs.Option.{ForSome};
ghost use Rattle.page_layout.specs.Page.{page};
ghost use Rattle.page_layout.specs.Counter.{counted, HasRisen};
ghost use Rattle.page_layout.specs.Geometry.{row_count, entries};
ghost use Rattle.page_layout.specs.declared.record.Key.TheVariants.{Sector};
ghost use Rattle.mapping_cache.specs.Mapping.{known};
ghost use Rattle.translation_pages.specs.TranslationPage.{entry_at};
ghost use Rattle.collection.specs.Pages.{newest_row};
ghost use Rattle.collection.specs.Safe.{IsSafe, IsBuffer, ram, image_in, page_in_buffer};
ghost use Rattle.collection.specs.Truth.{IsTrue};
ghost use Rattle.collection.specs.Looks.{IsPageOf, IsNotOf, IsRead, GivesRow, FindsRow, GivesSector, IsReadFault, LooksUpDamage, FindsDamage};
ghost use Rattle.collection.specs.Acts.{EngineLooks};
ghost use Rattle.page_layout.specs.OnlyReads.{OnlyReads};
ghost use Rattle.page_layout.specs.DieCalls.{AsksOnly};
ghost use Rattle.page_layout.specs.Recording.{EndsAt};

use super::operations::read_sound;
use super::{Buffer, Engine};
use crate::fault::EngineFault;
use onfi_cycles::Nand;
use page_layout::geometry::Geometry;
use page_layout::record::{Key, Kind, Record, sequence_of};
use translation_pages::entry;

// Reads the page of a key into a buffer, and answers its record. A page that isn't sound or not of
// the key is damaged.
pub(crate) fn read_of<N: Nand>(
    nand: &mut N,
    geometry: &Geometry,
    key: Key,
    row: u32,
    buffer: &mut Buffer,
) -> Result<Record, EngineFault>
    requires row_in { row < row_count geometry.now }
    requires same_geometry { (N.view.flash nand.old).geometry ≡ geometry.now }
    requires buffer { IsBuffer geometry.now buffer.old }
    ensures buffer { IsBuffer geometry.now buffer.new }
    ensures only_reads { OnlyReads N.view nand.old nand.new }
    ensures asked { AsksOnly N.view.called nand.old nand.new }
    ensures reads { N.view.reads nand.new ≡ counted (N.view.reads nand.old) }
    ensures faults { IfErr result IsReadFault }
    ensures rose { result ≡ Err EngineFault.Bus → HasRisen (N.view.failed nand.old) (N.view.failed nand.new) }

    // Whatever the die does, what is in the buffer is a sound page of the key.
    ensures checked { IfOk result (λ found. IsPageOf key found (page buffer.new.body.items buffer.new.spare.items)) }
    ensures same { N.view.honest nand.old ≡ true → result ≢ Err EngineFault.Bus → N.view.flash nand.new ≡ N.view.flash nand.old }
    ensures told { N.view.honest nand.old ≡ true → result ≢ Err EngineFault.Bus → N.view.recorded nand.new ≡ N.view.recorded nand.old }
    ensures cut { N.view.honest nand.old ≡ true → result ≡ Err EngineFault.Bus → EndsAt [] (N.view.recorded nand.old) (N.view.recorded nand.new) }
    ensures page { N.view.honest nand.old ≡ true → OnOk result
        (slice_get (N.view.flash nand.old).image row ≡ Some (page buffer.new.body.items buffer.new.spare.items)) }
    ensures damaged { result ≡ Err EngineFault.Damaged → IsNotOf key (page buffer.new.body.items buffer.new.spare.items) }
    ensures undamaged { N.view.honest nand.old ≡ true → newest_row (N.view.flash nand.old).image key ≡ Some row →
        IfErr result (λ fault. fault ≡ EngineFault.Bus) }
{
    match read_sound(nand, geometry, row, &mut buffer.body, &mut buffer.spare) {
        Err(_) => Err(EngineFault::Bus),
        Ok(None) => Err(EngineFault::Damaged),
        Ok(Some(found)) if sequence_of(key, Some(found)).is_none() => Err(EngineFault::Damaged),
        Ok(Some(found)) => Ok(found),
    }
}

// The row in an entry of a translation page, where it is one of the die.
fn checked_entry(geometry: &Geometry, body: &[u8], i: u32) -> Result<Option<u32>, EngineFault>
    requires { 4 * i + 4 ≤ length body.now }
    ensures row { IfOk result (λ row. ForSome row (λ r. r < row_count geometry.now)) }
    ensures entry { IfOk result (λ row. row ≡ entry_at body.now i) }
    ensures damaged { IfErr result (λ fault. fault ≡ EngineFault.Damaged) }
    ensures undamaged { ForSome (entry_at body.now i) (λ r. r < row_count geometry.now) → OnErr result ⊥ }
{
    let row = entry(body, i);
    match row {
        Some(r) if !geometry.has_row(r) => Err(EngineFault::Damaged),
        _ => Ok(row),
    }
}

// Makes all bytes 00h.
pub(crate) fn clear(out: &mut [u8])
    ensures { out.new ≡ replicate (length out.old) 0 }
{
    out.fill(0);
}

// Takes the bytes of a sector out of its page: a trim has none.
fn copy_sector(kind: Kind, body: &[u8], out: &mut [u8])
    requires { length body.now ≡ length out.old }
    ensures sector { kind ≡ Kind.Sector → out.new ≡ body.now }
    ensures others { kind ≢ Kind.Sector → out.new ≡ replicate (length out.old) 0 }
{
    match kind {
        Kind::Sector => out.copy_from_slice(body),
        Kind::Trim | Kind::Translation | Kind::Table => clear(out),
    }
}

impl<N: Nand> Engine<N> {
    /// The row of a sector's newest page, or `None` where the sector was never written. It is
    /// answered from memory where the cached or the moved sectors have it, and else after one page
    /// read at most; memory stays as it is, the order of the cache too.
    ///
    /// Whatever the die does, a row that memory doesn't have is the sector's entry in the page in the
    /// scratch buffer, which is sound and of the sector's translation page.
    ///
    /// # Errors
    ///
    /// `Bus` where the die gives no page, and `Damaged` where the translation page isn't sound or not
    /// of its key, or names a row that the die doesn't have; an honest die never gives such a page.
    /// No fault is noted, and one that stands is not answered.
    ///
    /// Source: the address translation of the DFTL paper; that pages are checked is this project's.
    pub fn row_of_sector(&mut self, sector: u32) -> Result<Option<u32>, EngineFault>
        requires safe { IsSafe N.view.flash self.old }
        requires sector { sector < self.old.geometry.sectors }
        ensures looks { EngineLooks N.view self.old self.new result }
        ensures page { self.new.page ≡ self.old.page }
        ensures reads { N.view.reads self.new.nand ≤ N.view.reads self.old.nand + 1 }
        ensures row { IfOk result (λ row. ForSome row (λ r. r < row_count self.old.geometry)) }
        ensures hit { ForSome (known self.old.mapping sector) (λ row. (result ≡ Ok row) × (self.new ≡ self.old)) }
        ensures unmapped { known self.old.mapping sector ≡ None → slice_get self.old.directory (sector / entries self.old.geometry) ≡ Some None →
            (result ≡ Ok None) × (self.new ≡ self.old) }
        ensures checked { known self.old.mapping sector ≡ None →
            IfOk result (GivesRow self.old.geometry self.old.directory sector (page_in_buffer self.new.scratch)) }
        ensures damaged { result ≡ Err EngineFault.Damaged → LooksUpDamage (ram self.old) sector (page_in_buffer self.new.scratch) }
        ensures truth { N.view.honest self.old.nand ≡ true → IsTrue None (ram self.old) (image_in N.view.flash self.old) →
            MatchResult result
            (λ row. row ≡ newest_row (image_in N.view.flash self.old) (Sector sector))
            (λ fault. fault ≡ EngineFault.Bus) }
    {
        let known = self.mapping.peek(sector);
        match known {
            Some(row) => Ok(row),
            None => self.row_on_page(sector),
        }
    }

    // The row that the newest translation page gives for a sector that the mapping doesn't know.
    fn row_on_page(&mut self, sector: u32) -> Result<Option<u32>, EngineFault>
        requires safe { IsSafe N.view.flash self.old }
        requires sector { sector < self.old.geometry.sectors }
        requires unknown { known self.old.mapping sector ≡ None }
        ensures looks { EngineLooks N.view self.old self.new result }
        ensures page { self.new.page ≡ self.old.page }
        ensures reads { N.view.reads self.new.nand ≤ N.view.reads self.old.nand + 1 }
        ensures row { IfOk result (λ row. ForSome row (λ r. r < row_count self.old.geometry)) }
        ensures unmapped { slice_get self.old.directory (sector / entries self.old.geometry) ≡ Some None →
            (result ≡ Ok None) × (self.new ≡ self.old) }
        ensures checked { IfOk result (GivesRow self.old.geometry self.old.directory sector (page_in_buffer self.new.scratch)) }
        ensures damaged { result ≡ Err EngineFault.Damaged → LooksUpDamage (ram self.old) sector (page_in_buffer self.new.scratch) }
        ensures truth { N.view.honest self.old.nand ≡ true → IsTrue None (ram self.old) (image_in N.view.flash self.old) →
            MatchResult result
            (λ row. row ≡ newest_row (image_in N.view.flash self.old) (Sector sector))
            (λ fault. fault ≡ EngineFault.Bus) }
    {
        let entries = self.geometry.entries();
        let t = sector / entries;
        let found = self.directory.row_of(t);
        let Some(at) = found else {
            return Ok(None);
        };
        let key = Key::Translation(t);
        read_of(&mut self.nand, &self.geometry, key, at, &mut self.scratch)?;
        checked_entry(&self.geometry, &self.scratch.body, sector % entries)
    }

    /// Reads a sector: `out`, of one data area, gets its bytes, or 00h bytes where it was never
    /// written or was trimmed. It answers the row of the sector's newest page, if there is one, and
    /// makes at most two page reads, and at most one where memory has the row; it programs and erases
    /// nothing, and memory stays as it is.
    ///
    /// Whatever the die does, the row is the one that memory has, or else the one that the page in the
    /// scratch buffer gives, a sound translation page; and what is given is zeros where there is no
    /// row, and else the data area of the page in the page buffer, which is sound and of the sector,
    /// or zeros where that is a trim.
    ///
    /// # Errors
    ///
    /// `Bus` and `Damaged` as `row_of_sector`; `Damaged` also where the sector's page isn't sound or
    /// not of the sector. `out` then stays; no fault is noted, and one that stands is not answered.
    ///
    /// Source: the read of the DFTL paper; that pages are checked, and trims, are this project's.
    pub fn read_sector(&mut self, sector: u32, out: &mut [u8]) -> Result<Option<u32>, EngineFault>
        requires safe { IsSafe N.view.flash self.old }
        requires sector { sector < self.old.geometry.sectors }
        requires whole { length out.old ≡ self.old.geometry.data_bytes }
        ensures looks { EngineLooks N.view self.old self.new result }
        ensures reads { N.view.reads self.new.nand ≤ N.view.reads self.old.nand + 2 }
        ensures row { IfOk result (λ row. ForSome row (λ r. r < row_count self.old.geometry)) }
        ensures hit { IsSome (known self.old.mapping sector) → N.view.reads self.new.nand ≤ N.view.reads self.old.nand + 1 }
        ensures unwritten { known self.old.mapping sector ≡ Some None → (result ≡ Ok None) × (self.new ≡ self.old) }
        ensures unmapped { known self.old.mapping sector ≡ None → slice_get self.old.directory (sector / entries self.old.geometry) ≡ Some None →
            (result ≡ Ok None) × (self.new ≡ self.old) }
        ensures looked_up { IfOk result (FindsRow (ram self.old) sector (page_in_buffer self.new.scratch)) }
        ensures refused { OnErr result (out.new ≡ out.old) }
        ensures checked { IfOk result (λ row. GivesSector self.old.geometry sector row (page_in_buffer self.new.page) out.new) }
        ensures damaged { result ≡ Err EngineFault.Damaged → FindsDamage (ram self.old) sector (page_in_buffer self.new.scratch) (page_in_buffer self.new.page) }
        ensures truth { N.view.honest self.old.nand ≡ true → IsTrue None (ram self.old) (image_in N.view.flash self.old) →
            MatchResult result
            (λ row. IsRead sector row out.new self.old.geometry (image_in N.view.flash self.old))
            (λ fault. fault ≡ EngineFault.Bus) }
    {
        let found = self.row_of_sector(sector)?;
        let Some(row) = found else {
            clear(out);
            return Ok(None);
        };
        let written = read_of(
            &mut self.nand,
            &self.geometry,
            Key::Sector(sector),
            row,
            &mut self.page,
        )?;
        copy_sector(written.kind, &self.page.body, out);
        Ok(found)
    }
}
