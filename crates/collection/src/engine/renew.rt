//! Pages of version 1 are copied, so that a die's pages come to be of version 2.
ghost use Rattle.std.specs.Prelude.{◌≡◌, ◌≢◌, ◌+◌, ◌<◌, ◌≤◌, true, false, length, Some, None, Ok, Err, IfOk, IfErr, OnOk, MatchResult};
ghost use Rattle.std.specs.Option.{ForSome};
ghost use Rattle.page_layout.specs.Geometry.{row_count};
ghost use Rattle.page_layout.specs.OnlyReads.{OnlyReads};
ghost use Rattle.collection.specs.Safe.{IsSafe, ram, image_in, page_in_buffer};
ghost use Rattle.collection.specs.Left.{LeavesPin};
ghost use Rattle.collection.specs.Truth as truth;
ghost use Rattle.collection.specs.Live.{IsFoundIn};
ghost use Rattle.collection.specs.Looks.{IsReadFault};
ghost use Rattle.collection.specs.Results.{Refused, Goes};
ghost use Rattle.collection.specs.Collect.{waiting, KeepsKeys, RescueCosts};
ghost use Rattle.page_layout.specs.Version.{is_1};
ghost use Rattle.collection.specs.Renew.{is_table_key, is_due_page, LooksAtDue, FindsDue, IsRenewedAt, IsUndue};
ghost use Rattle.collection.specs.Acts.{EngineLooks, Stands};
ghost use Rattle.collection.specs.Stops.{CutsSafely, StopsSafely};
ghost use Rattle.collection.specs.Moves.{MovesOne};

use super::Engine;
use crate::fault::{EngineFault, WriteFault};
use onfi_cycles::Nand;
use page_layout::record::{Key, Record, record_version};

// The version of the pages that are copied.
const OLD: u8 = 1;

// Whether a key is a table page's.
fn is_table(key: Key) -> bool
    ensures { result ≡ is_table_key key }
{
    match key {
        Key::Sector(_) | Key::Translation(_) => false,
        Key::Table(_) => true,
    }
}

// Whether a page's version is the old one, if it has one.
fn is_old(version: Option<u8>) -> bool
    ensures { result ≡ is_1 version }
{
    match version {
        Some(version) => version == OLD,
        None => false,
    }
}

impl<N: Nand> Engine<N> {
    // Whether a sound page in the page buffer has to be renewed: one of version 1, but a table page.
    fn is_due(&self, found: &Record) -> bool
        requires safe { IsSafe N.view.flash self.now }
        ensures { result ≡ is_due_page found.now (page_in_buffer self.now.page) }
    {
        let version = record_version(&self.geometry, &self.page.body, &self.page.spare);
        !is_table(found.key()) && is_old(version)
    }

    // Takes the page of a row into the page buffer, and answers its record where it is the newest of
    // its key and has to be renewed.
    fn due_record(&mut self, row: u32) -> Result<Option<Record>, EngineFault>
        requires safe { IsSafe N.view.flash self.old }
        requires row { row < row_count self.old.geometry }
        ensures looks { EngineLooks N.view self.old self.new result }
        ensures checked { IfOk result (λ found. ForSome found (IsFoundIn (ram self.old) (page_in_buffer self.new.page) (page_in_buffer self.new.scratch) row)) }
        ensures unfound { result ≡ Ok None → IsUndue (ram self.old) (page_in_buffer self.new.page) (page_in_buffer self.new.scratch) row }
        ensures truth { N.view.honest self.old.nand ≡ true → truth.IsTrue None (ram self.old) (image_in N.view.flash self.old) →
            MatchResult result
            (LooksAtDue row self.new.page.body.items (image_in N.view.flash self.old))
            (λ fault. fault ≡ EngineFault.Bus) }
    {
        let live = self.live_record(row)?;
        let Some(found) = live else {
            return Ok(None);
        };
        if self.is_due(&found) {
            Ok(Some(found))
        } else {
            Ok(None)
        }
    }

    // The next row, from a row on, whose page has to be renewed, whatever fault stands.
    fn look_for_due(&mut self, from: u32) -> Result<Option<u32>, EngineFault>
        requires safe { IsSafe N.view.flash self.old }
        ensures looks { EngineLooks N.view self.old self.new result }
        ensures row { IfOk result (λ found. ForSome found (λ row. row < row_count self.old.geometry)) }
        ensures truth { N.view.honest self.old.nand ≡ true → truth.IsTrue None (ram self.old) (image_in N.view.flash self.old) →
            MatchResult result
            (FindsDue from (image_in N.view.flash self.old))
            (λ fault. fault ≡ EngineFault.Bus) }
    {
        'rows: for row in from..self.geometry.rows() {
            let due = self.due_record(row)?;
            if due.is_some() {
                return Ok(Some(row));
            }
        }
        Ok(None)
    }

    // Moves the page of a row where it has to be renewed, whatever fault stands. Answers whether it was
    // so.
    fn renew(&mut self, row: u32) -> Result<bool, EngineFault>
        requires safe { IsSafe N.view.flash self.old }
        requires row { row < row_count self.old.geometry }
        ensures moves { MovesOne N.view (IsRenewedAt row) self.old self.new result }
        ensures unfound { result ≡ Ok false → IsUndue (ram self.old) (page_in_buffer self.new.page) (page_in_buffer self.new.scratch) row }
    {
        if !self.mapping.has_place() {
            return Err(EngineFault::Damaged);
        }
        let due = self.due_record(row)?;
        let Some(found) = due else {
            return Ok(false);
        };
        self.move_page(&found, row)?;
        Ok(true)
    }

    /// Looks for the next page of version 1, from a row on, that is the newest of its key and no table
    /// page, and answers its row. The die is only read, and memory stays but for a fault that stands.
    ///
    /// # Errors
    ///
    /// `Bus` where a page read failed, or what stands. (This project.)
    pub fn next_old(&mut self, from: u32) -> Result<Option<u32>, EngineFault>
        requires safe { IsSafe N.view.flash self.old }
        ensures stands { Stands N.view self.old self.new result }
        ensures only_reads { OnlyReads N.view self.old.nand self.new.nand }
        ensures still { ram self.new ≡ record (ram self.old) { fault = self.new.fault } }
        ensures same { N.view.honest self.old.nand ≡ true → OnOk result (N.view.flash self.new.nand ≡ N.view.flash self.old.nand) }
        ensures faults { self.old.fault ≡ None → IfErr result IsReadFault }
        ensures row { IfOk result (λ found. ForSome found (λ row. row < row_count self.old.geometry)) }
        ensures truth { N.view.honest self.old.nand ≡ true → self.old.fault ≡ None → truth.IsTrue None (ram self.old) (image_in N.view.flash self.old) →
            MatchResult result
            (FindsDue from (image_in N.view.flash self.old))
            (λ fault. fault ≡ EngineFault.Bus) }
        ensures stops { N.view.honest self.old.nand ≡ true → self.old.fault ≡ None → truth.IsTrue None (ram self.old) (image_in N.view.flash self.old) → result ≢ Err EngineFault.Bus →
            StopsSafely N.view self.old self.new }
        ensures cut { N.view.honest self.old.nand ≡ true → self.old.fault ≡ None → truth.IsTrue None (ram self.old) (image_in N.view.flash self.old) → result ≡ Err EngineFault.Bus →
            CutsSafely N.view self.old self.new }
    {
        self.standing()?;
        let answer = self.look_for_due(from);
        self.noted(answer)
    }

    /// Copies the page of a row into its stream, as `rescue_one` does, where it is of version 1, the
    /// newest of its key and no table page. Answers whether it was so. The copy is of the version for
    /// the die.
    ///
    /// The array stays, and so do the sectors that are cached, and their order; no block is erased. No
    /// more sectors are moved afterwards, and a pinned block stays so. Whatever the die does, `false`
    /// means that the page in the page buffer isn't sound, or not the newest of its key by memory or by
    /// the page in the scratch buffer, or need not be renewed.
    ///
    /// # Errors
    ///
    /// Those of `rescue_one`, as there; each stands.
    ///
    /// It takes no memory. (This project.)
    pub fn renew_at(&mut self, row: u32) -> Result<bool, WriteFault>
        requires safe { IsSafe N.view.flash self.old }
        requires row { row < row_count self.old.geometry }
        ensures stands { Stands N.view self.old self.new result }
        ensures beside { OnOk result (LeavesPin (ram self.old) (ram self.new)) }
        ensures pin { (ram self.new).pin ≡ (ram self.old).pin }
        ensures one_more { length self.new.mapping.moved ≤ length self.old.mapping.moved + 1 }
        ensures full { self.old.fault ≡ None → length self.old.mapping.moved ≡ waiting (ram self.old) + self.old.geometry.pages →
            (result ≡ Err EngineFault.Damaged) × (self.new ≡ record self.old { fault = Some EngineFault.Damaged }) }
        ensures goes { Goes (ram self.old) (ram self.new) }
        ensures erases { N.view.erases self.new.nand ≡ N.view.erases self.old.nand }
        ensures keys { KeepsKeys self.old.mapping self.new.mapping }
        ensures cost { self.old.fault ≡ None → RescueCosts (ram self.old) (ram self.new) result }
        ensures unfound { result ≡ Ok false → IsUndue (ram self.old) (page_in_buffer self.new.page) (page_in_buffer self.new.scratch) row }
        ensures truth { N.view.honest self.old.nand ≡ true → self.old.fault ≡ None → truth.IsTrue None (ram self.old) (image_in N.view.flash self.old) →
            length self.old.mapping.moved < waiting (ram self.old) + self.old.geometry.pages →
            MatchResult result
            (IsRenewedAt row (ram self.old) (image_in N.view.flash self.old) (ram self.new) (image_in N.view.flash self.new))
            (Refused (ram self.old) (image_in N.view.flash self.old) (ram self.new) (image_in N.view.flash self.new)) }
        ensures stops { N.view.honest self.old.nand ≡ true → self.old.fault ≡ None → truth.IsTrue None (ram self.old) (image_in N.view.flash self.old) → result ≢ Err EngineFault.Bus →
            StopsSafely N.view self.old self.new }
        ensures cut { N.view.honest self.old.nand ≡ true → self.old.fault ≡ None → truth.IsTrue None (ram self.old) (image_in N.view.flash self.old) → result ≡ Err EngineFault.Bus →
            CutsSafely N.view self.old self.new }
    {
        self.standing()?;
        let answer = self.renew(row);
        self.noted(answer)
    }
}
