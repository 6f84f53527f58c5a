//! Pages that are the newest of their keys.
ghost use Rattle.std.specs.Prelude.{◌≡◌, ◌↔◌, ◌+◌, ◌-◌, ◌*◌, ◌<◌, ◌≤◌, true, IsTrue, slice_get, Some, None, Ok, Err, IfOk, IfErr, OnOk, MatchResult};
ghost use Rattle.std.specs.Option.{ForSome};
ghost use Rattle.page_layout.specs.Geometry.{row_count};
ghost use Rattle.page_layout.specs.Live.{IsKeyOf};
ghost use Rattle.page_layout.specs.Sound.{record_of};
ghost use Rattle.collection.specs.Pages.{newest_row};
ghost use Rattle.collection.specs.Safe.{IsSafe, ram, image_in, page_in_buffer};
ghost use Rattle.collection.specs.Truth as truth;
ghost use Rattle.collection.specs.Live.{PointsTo, StandsInRow, LooksAt, FindsFirst, IsFoundIn, IsUnlive};
ghost use Rattle.collection.specs.Acts.{EngineLooks};

use super::Engine;
use super::operations::read_sound;
use crate::fault::EngineFault;
use onfi_cycles::Nand;
use page_layout::geometry::Geometry;
use page_layout::record::{Key, Record};

// Whether a key is one of the die's.
fn has_key(geometry: &Geometry, key: Key) -> bool
    ensures { IsTrue result ↔ IsKeyOf geometry.now key }
{
    match key {
        Key::Sector(n) => n < geometry.sectors(),
        Key::Translation(t) => t < geometry.translation_pages(),
        Key::Table(u) => u < geometry.table_pages(),
    }
}

impl<N: Nand> Engine<N> {
    // The row of the newest page of a key, by memory or by its translation page.
    fn find_newest(&mut self, key: Key) -> Result<Option<u32>, EngineFault>
        requires safe { IsSafe N.view.flash self.old }
        requires key { IsKeyOf self.old.geometry key }
        ensures looks { EngineLooks N.view self.old self.new result }
        ensures page { self.new.page ≡ self.old.page }
        ensures reads { N.view.reads self.new.nand ≤ N.view.reads self.old.nand + 1 }
        ensures points { IfOk result (PointsTo (ram self.old) (page_in_buffer self.new.scratch) key) }
        ensures truth { N.view.honest self.old.nand ≡ true → truth.IsTrue None (ram self.old) (image_in N.view.flash self.old) →
            MatchResult result
            (λ row. row ≡ newest_row (image_in N.view.flash self.old) key)
            (λ fault. fault ≡ EngineFault.Bus) }
    {
        match key {
            Key::Sector(n) => self.row_of_sector(n),
            Key::Translation(t) => Ok(self.directory.row_of(t)),
            Key::Table(u) => {
                let place = self.geometry.translation_pages() + u;
                Ok(self.directory.row_of(place))
            }
        }
    }

    // Takes the page of a row into the page buffer, and answers its record.
    fn take_page(&mut self, row: u32) -> Result<Option<Record>, EngineFault>
        requires safe { IsSafe N.view.flash self.old }
        requires row { row < row_count self.old.geometry }
        ensures looks { EngineLooks N.view self.old self.new result }
        ensures reads { N.view.reads self.new.nand ≤ N.view.reads self.old.nand + 1 }
        ensures faults { IfErr result (λ fault. fault ≡ EngineFault.Bus) }
        ensures sound { IfOk result (λ found. found ≡ record_of (page_in_buffer self.new.page)) }
        ensures stands { N.view.honest self.old.nand ≡ true → OnOk result (slice_get (image_in N.view.flash self.old) row ≡ Some (page_in_buffer self.new.page)) }
        ensures truth { N.view.honest self.old.nand ≡ true →
            IfOk result (λ found. StandsInRow row found self.new.page.body.items (image_in N.view.flash self.old)) }
    {
        match read_sound(
            &mut self.nand,
            &self.geometry,
            row,
            &mut self.page.body,
            &mut self.page.spare,
        ) {
            Ok(found) => Ok(found),
            Err(_) => Err(EngineFault::Bus),
        }
    }

    // Takes the page of a row into the page buffer, and answers its record where it is the newest of
    // its key. Whatever the die does, the page is sound with that record, and the key's row is this
    // one by memory or by its translation page.
    pub(crate) fn live_record(&mut self, row: u32) -> Result<Option<Record>, EngineFault>
        requires safe { IsSafe N.view.flash self.old }
        requires row { row < row_count self.old.geometry }
        ensures looks { EngineLooks N.view self.old self.new result }
        ensures reads { N.view.reads self.new.nand ≤ N.view.reads self.old.nand + 2 }
        ensures checked { IfOk result (λ found. ForSome found (IsFoundIn (ram self.old) (page_in_buffer self.new.page) (page_in_buffer self.new.scratch) row)) }
        ensures unfound { result ≡ Ok None → IsUnlive (ram self.old) (page_in_buffer self.new.page) (page_in_buffer self.new.scratch) row }
        ensures stands { N.view.honest self.old.nand ≡ true → OnOk result (slice_get (image_in N.view.flash self.old) row ≡ Some (page_in_buffer self.new.page)) }
        ensures truth { N.view.honest self.old.nand ≡ true → truth.IsTrue None (ram self.old) (image_in N.view.flash self.old) →
            MatchResult result
            (LooksAt row self.new.page.body.items (image_in N.view.flash self.old))
            (λ fault. fault ≡ EngineFault.Bus) }
    {
        let taken = self.take_page(row)?;
        let Some(found) = taken else {
            return Ok(None);
        };
        let key = found.key();
        if !has_key(&self.geometry, key) {
            return Ok(None);
        }
        let newest = self.find_newest(key)?;
        if newest == Some(row) {
            Ok(Some(found))
        } else {
            Ok(None)
        }
    }

    // Looks for the first page of a block, from a page on, that is the newest of its key, and takes it
    // into the page buffer.
    pub(crate) fn first_live(
        &mut self,
        block: u32,
        first: u32,
    ) -> Result<Option<(u32, Record)>, EngineFault>
        requires safe { IsSafe N.view.flash self.old }
        requires block { block < self.old.geometry.blocks }
        ensures looks { EngineLooks N.view self.old self.new result }
        ensures reads { N.view.reads self.new.nand ≤ N.view.reads self.old.nand + 2 * (self.old.geometry.pages - first) }
        ensures found_reads { IfOk result (λ found. ForSome found (λ f. N.view.reads self.new.nand ≤ N.view.reads self.old.nand + 2 * (f.0 + 1 - first))) }
        ensures within { IfOk result (λ found. ForSome found (λ f. (first ≤ f.0) × (f.0 < self.old.geometry.pages))) }
        ensures checked { IfOk result (λ found. ForSome found (λ f.
            IsFoundIn (ram self.old) (page_in_buffer self.new.page) (page_in_buffer self.new.scratch) (block * self.old.geometry.pages + f.0) f.1)) }
        ensures truth { N.view.honest self.old.nand ≡ true → truth.IsTrue None (ram self.old) (image_in N.view.flash self.old) →
            MatchResult result
            (FindsFirst self.old.geometry.pages block first self.new.page.body.items (image_in N.view.flash self.old))
            (λ fault. fault ≡ EngineFault.Bus) }
    {
        'candidates: for page in first..self.geometry.pages() {
            let row = self.geometry.row(block, page);
            let live = self.live_record(row)?;
            match live {
                Some(found) => return Ok(Some((page, found))),
                None => continue,
            }
        }
        Ok(None)
    }
}
