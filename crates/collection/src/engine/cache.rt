//! A sector comes into the cached mapping table.
ghost use Rattle.std.specs.Prelude.{◌≡◌, None, IsOk, IsSome, OnOk, OnErr};
ghost use Rattle.page_layout.specs.Page.{Image};
ghost use Rattle.page_layout.specs.declared.record.Key.TheVariants.{Sector};
ghost use Rattle.mapping_cache.specs.Mapping.{IsEntryOf, CanLoad, loaded, slot_of};
ghost use Rattle.collection.specs.Pages.{newest_row};
ghost use Rattle.collection.specs.Safe.{IsSafe, ram};
ghost use Rattle.collection.specs.Truth.{IsTrue};

use super::Engine;
use mapping_cache::LoadFault;
use onfi_cycles::Nand;

impl<N: Nand> Engine<N> {
    /// Caches a sector with the row of its newest page, as the most recently used; a cached one keeps
    /// its row, and a moved one comes with the row that it was moved to, dirty. A full cache drops its
    /// least recently used sector, which is clean. Nothing else changes, and the die is not asked.
    ///
    /// It takes memory.
    ///
    /// # Errors
    ///
    /// `OutOfMemory` where a growth was refused, which never is where the sector is cached. Nothing
    /// has changed, and no fault is noted; one that stands is not answered.
    ///
    /// Source: the cached mapping table of the DFTL paper; the moved sectors are this project's.
    pub fn cache_sector(&mut self, sector: u32, row: Option<u32>) -> Result<(), LoadFault>
        requires safe { IsSafe N.view.flash self.old }
        requires room { CanLoad self.old.mapping sector }
        requires entry { IsEntryOf self.old.geometry sector row }
        ensures safe { IsSafe N.view.flash self.new }
        ensures loaded { OnOk result (self.new ≡ record self.old { mapping = loaded self.old.mapping sector row }) }
        ensures refused { OnErr result (self.new ≡ self.old) }
        ensures cached { IsSome (slot_of self.old.mapping sector) → IsOk result }
        ensures holds { OnOk result (IsSome (slot_of self.new.mapping sector)) }
        ensures truth { (image : Image) → IsTrue None (ram self.old) image → row ≡ newest_row image (Sector sector) →
            IsTrue None (ram self.new) image }
    {
        self.mapping.load(sector, row)
    }
}
