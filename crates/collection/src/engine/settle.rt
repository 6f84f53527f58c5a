//! The memory follows a page that was put.
ghost use Rattle.std.specs.Prelude.{◌≡◌, ◌≢◌, ◌<◌, true, Some, None, Ok, IfOk, OnOk, IsSome, MatchResult};
ghost use Rattle.std.specs.Option.{ForSome};
ghost use Rattle.std.specs.Map.{keys_of};
ghost use Rattle.page_layout.specs.Key.{key_from};
ghost use Rattle.page_layout.specs.Geometry.{row_count};
ghost use Rattle.page_layout.specs.Live.{IsKeyOf};
ghost use Rattle.page_layout.specs.declared.record.Key.TheVariants.{Sector};
ghost use Rattle.mapping_cache.specs.Mapping.{IsEntryOf, CanMove, slot_of};
ghost use Rattle.budget.specs.Stream.{stream_of};
ghost use Rattle.collection.specs.Safe.{IsSafe, IsOutside, ram, image_in, page_in_buffer};
ghost use Rattle.collection.specs.Truth.{IsTrue};
ghost use Rattle.collection.specs.Cost.{PutCosts, PageCosts};
ghost use Rattle.collection.specs.Settle.{HasPlace, SetsRow, SetsMapping, SetsDirectory, SettlesRow, HasSettled, HasNoMore};
ghost use Rattle.collection.specs.Results.{MayPut, Goes, KeepsTable, IsReplaced, IsLastPage, IsWritten, Refused};
ghost use Rattle.collection.specs.Acts.{EngineActs, OnlyPrograms};
ghost use Rattle.collection.specs.Stops.{Cuts, IsPutByStop, StopsSafely};

use super::Engine;
use crate::fault::EngineFault;
use mapping_cache::Mapping;
use onfi_cycles::Nand;
use page_layout::record::{Key, Kind};

// Notes the row of a sector's newest page, whether the sector is cached or not.
fn set_row(mapping: &mut Mapping, sector: u32, row: u32)
    requires room { slot_of mapping.old sector ≡ None → CanMove mapping.old sector }
    requires entry { IsEntryOf mapping.old.geometry sector (Some row) }
    ensures { SetsRow sector (Some row) mapping.old mapping.new }
{
    if mapping.is_cached(sector) {
        mapping.set_dirty(sector, Some(row));
    } else {
        mapping.move_entry(sector, row);
    }
}

impl<N: Nand> Engine<N> {
    // Sets the row of a key.
    fn settle(&mut self, kind: Kind, number: u32, row: u32)
        requires safe { IsSafe N.view.flash self.old }
        requires key { IsKeyOf self.old.geometry (key_from kind number) }
        requires place { HasPlace self.old.mapping (key_from kind number) }
        requires row { row < row_count self.old.geometry }
        ensures safe { IsSafe N.view.flash self.new }
        ensures settles { SettlesRow (key_from kind number) row (ram self.old) (ram self.new) }
        ensures nand { self.new.nand ≡ self.old.nand }
        ensures page { self.new.page ≡ self.old.page }
        ensures scratch { self.new.scratch ≡ self.old.scratch }
    {
        match kind {
            Kind::Sector | Kind::Trim => set_row(&mut self.mapping, number, row),
            Kind::Translation => self.directory.set(number, Some(row)),
            Kind::Table => {
                let place = self.geometry.translation_pages() + number;
                self.directory.set(place, Some(row));
            }
        }
    }

    // Programs a page of the key with what is in the page buffer, and sets the key's row.
    pub(crate) fn replace(
        &mut self,
        kind: Kind,
        number: u32,
        old_row: Option<u32>,
    ) -> Result<u32, EngineFault>
        requires safe { IsSafe N.view.flash self.old }
        requires key { IsKeyOf self.old.geometry (key_from kind number) }
        requires place { HasPlace self.old.mapping (key_from kind number) }
        requires old_row { ForSome old_row (λ r. r < row_count self.old.geometry) }
        ensures acts { EngineActs N.view self.old self.new result }
        ensures goes { Goes (ram self.old) (ram self.new) }
        ensures page { self.new.page.body ≡ self.old.page.body }
        ensures scratch { self.new.scratch ≡ self.old.scratch }
        ensures only_programs { OnlyPrograms N.view self.old.nand self.new.nand }
        ensures pin { (ram self.new).pin ≡ (ram self.old).pin }
        ensures row { IfOk result (IsOutside (ram self.old)) }
        ensures table { KeepsTable (ram self.old).blocks (ram self.new).blocks }
        ensures mapping { MatchResult result
            (λ row. SetsMapping (key_from kind number) row self.old.mapping self.new.mapping)
            (λ _. self.new.mapping ≡ self.old.mapping) }
        ensures directory { IfOk result (λ row. SetsDirectory self.old.geometry (key_from kind number) row self.old.directory self.new.directory) }
        ensures programmed { OnOk result (IsLastPage kind number (ram self.new) (page_in_buffer self.new.page)) }
        ensures cost { PutCosts (stream_of kind) (ram self.old) (ram self.new) result }
        ensures truth { N.view.honest self.old.nand ≡ true →
            MayPut kind number old_row self.old.page.body.items (ram self.old) (image_in N.view.flash self.old) →
            MatchResult result
            (λ row. IsReplaced kind number row self.old.page.body.items (ram self.old) (image_in N.view.flash self.old) (ram self.new) (image_in N.view.flash self.new))
            (Refused (ram self.old) (image_in N.view.flash self.old) (ram self.new) (image_in N.view.flash self.new)) }
        ensures stops { N.view.honest self.old.nand ≡ true → MayPut kind number old_row self.old.page.body.items (ram self.old) (image_in N.view.flash self.old) →
            result ≢ Err EngineFault.Bus → StopsSafely N.view self.old self.new }
        ensures cut { N.view.honest self.old.nand ≡ true → MayPut kind number old_row self.old.page.body.items (ram self.old) (image_in N.view.flash self.old) →
            result ≡ Err EngineFault.Bus → Cuts N.view (IsPutByStop kind number self.old.page.body.items (ram self.old) (image_in N.view.flash self.old)) self.old self.new }
    {
        let row = self.put_page(kind, number, old_row)?;
        self.settle(kind, number, row);
        Ok(row)
    }

    // Programs a page of a cached sector with what is in the page buffer, and sets the sector's row.
    pub(crate) fn append(&mut self, kind: Kind, sector: u32) -> Result<(), EngineFault>
        requires safe { IsSafe N.view.flash self.old }
        requires kind { key_from kind sector ≡ Sector sector }
        requires sector { sector < self.old.geometry.sectors }
        requires cached { IsSome (slot_of self.old.mapping sector) }
        ensures acts { EngineActs N.view self.old self.new result }
        ensures goes { Goes (ram self.old) (ram self.new) }
        ensures page { self.new.page.body ≡ self.old.page.body }
        ensures scratch { self.new.scratch ≡ self.old.scratch }
        ensures only_programs { OnlyPrograms N.view self.old.nand self.new.nand }
        ensures pin { (ram self.new).pin ≡ (ram self.old).pin }
        ensures keys { keys_of self.new.mapping.cached ≡ keys_of self.old.mapping.cached }
        ensures no_more { HasNoMore self.old.mapping self.new.mapping }
        ensures moved { self.new.mapping.moved ≡ self.old.mapping.moved }
        ensures settled { OnOk result (HasSettled sector (ram self.old) (ram self.new)) }
        ensures programmed { OnOk result (IsLastPage kind sector (ram self.new) (page_in_buffer self.new.page)) }
        ensures cost { PageCosts (stream_of kind) (ram self.old) (ram self.new) result }
        ensures truth { N.view.honest self.old.nand ≡ true → IsTrue None (ram self.old) (image_in N.view.flash self.old) →
            MatchResult result
            (λ _. IsWritten kind sector self.old.page.body.items (ram self.old) (image_in N.view.flash self.old) (ram self.new) (image_in N.view.flash self.new))
            (Refused (ram self.old) (image_in N.view.flash self.old) (ram self.new) (image_in N.view.flash self.new)) }
        ensures stops { N.view.honest self.old.nand ≡ true → IsTrue None (ram self.old) (image_in N.view.flash self.old) →
            result ≢ Err EngineFault.Bus → StopsSafely N.view self.old self.new }
        ensures cut { N.view.honest self.old.nand ≡ true → IsTrue None (ram self.old) (image_in N.view.flash self.old) →
            result ≡ Err EngineFault.Bus → Cuts N.view (IsPutByStop kind sector self.old.page.body.items (ram self.old) (image_in N.view.flash self.old)) self.old self.new }
    {
        let old_row = self.row_of_key(Key::Sector(sector));
        self.replace(kind, sector, old_row)?;
        Ok(())
    }
}
