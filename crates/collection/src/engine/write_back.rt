//! Translation pages are brought up to date.
ghost use Rattle.std.specs.Prelude.{◌≡◌, ◌≢◌, ℕ, ◌+◌, ◌/◌, ◌<◌, ◌≤◌, true, slice_get, Option, Some, None, Ok, OnOk, OnErr, MatchResult};
ghost use Rattle.std.specs.Option.{ForSome};
ghost use Rattle.std.specs.Map.{keys_of};
ghost use Rattle.page_layout.specs.Geometry.{row_count, translation_pages};
ghost use Rattle.page_layout.specs.declared.record.Key.TheVariants.{Translation};
ghost use Rattle.mapping_cache.specs.Mapping.{per_page, cleaned};
ghost use Rattle.collection.specs.Pages.{newest_row};
ghost use Rattle.collection.specs.Safe.{IsSafe, ram, image_in, page_in_buffer, is_shut};
ghost use Rattle.collection.specs.Truth.{IsTrue};
ghost use Rattle.budget.specs.declared.stream.Stream.TheVariants.{Meta};
ghost use Rattle.collection.specs.Collect.{IsMovedOut};
ghost use Rattle.collection.specs.Cost.{PageCosts, WriteBackCosts};
ghost use Rattle.collection.specs.Looks.{IsLoaded, HoldsNewest, IsPadded, StartsFrom, IsBroughtUp};
ghost use Rattle.collection.specs.Settle.{Cleans, HasNoMore};
ghost use Rattle.collection.specs.Results.{IsLastPage, IsWrittenBack, Refused, Goes};
ghost use Rattle.collection.specs.Acts.{EngineLooks, EngineActs, OnlyPrograms, Stands};
ghost use Rattle.collection.specs.Stops.{CutsSafely, StopsSafely};

use super::Engine;
use super::entries::{clear_entries, fill_entries};
use super::look::read_of;
use crate::fault::{EngineFault, WriteFault};
use onfi_cycles::Nand;
use page_layout::record::{Key, Kind};

impl<N: Nand> Engine<N> {
    // Takes translation page `t` as it stands on the die into the page buffer.
    fn load_translation(&mut self, t: u32, row: Option<u32>) -> Result<(), EngineFault>
        requires safe { IsSafe N.view.flash self.old }
        requires row { ForSome row (λ r. r < row_count self.old.geometry) }
        ensures looks { EngineLooks N.view self.old self.new result }
        ensures reads { N.view.reads self.new.nand ≤ N.view.reads self.old.nand + 1 }
        ensures checked { OnOk result (StartsFrom t row (page_in_buffer self.new.page)) }
        ensures truth { N.view.honest self.old.nand ≡ true → newest_row (image_in N.view.flash self.old) (Translation t) ≡ row →
            MatchResult result
            (λ _. IsLoaded t self.new.page.body.items self.old.geometry (image_in N.view.flash self.old))
            (λ fault. fault ≡ EngineFault.Bus) }
    {
        match row {
            Some(at) => {
                let key = Key::Translation(t);
                read_of(&mut self.nand, &self.geometry, key, at, &mut self.page)?;
            }
            None => clear_entries(&mut self.page.body),
        }
        Ok(())
    }

    // Writes translation page `t` anew, which is in the page buffer as it stands in its row: with each
    // row that it lacks, and no row in an entry past the last sector's.
    pub(crate) fn write_loaded(&mut self, t: u32, row: Option<u32>) -> Result<(), EngineFault>
        requires safe { IsSafe N.view.flash self.old }
        requires page { t < translation_pages self.old.geometry }
        requires row { ForSome row (λ r. r < row_count self.old.geometry) }
        ensures acts { EngineActs N.view self.old self.new result }
        ensures goes { Goes (ram self.old) (ram self.new) }
        ensures only_programs { OnlyPrograms N.view self.old.nand self.new.nand }
        ensures pin { (ram self.new).pin ≡ (ram self.old).pin }
        ensures cleaned { OnOk result (self.new.mapping ≡ cleaned self.old.mapping t) }
        ensures cleans { OnOk result (Cleans (per_page self.old.mapping) t self.old.mapping self.new.mapping) }
        ensures keys { keys_of self.new.mapping.cached ≡ keys_of self.old.mapping.cached }
        ensures no_more { HasNoMore self.old.mapping self.new.mapping }
        ensures mapping { OnErr result (self.new.mapping ≡ self.old.mapping) }
        ensures padded { OnOk result (IsPadded self.old.geometry t self.new.page.body.items) }
        ensures checked { OnOk result (StartsFrom t row (page_in_buffer self.old.page) →
            IsBroughtUp t row self.old.geometry self.old.mapping self.new.page.body.items) }
        ensures programmed { OnOk result (IsLastPage Kind.Translation t (ram self.new) (page_in_buffer self.new.page)) }
        ensures cost { PageCosts Meta (ram self.old) (ram self.new) result }
        ensures truth { N.view.honest self.old.nand ≡ true → IsTrue None (ram self.old) (image_in N.view.flash self.old) →
            HoldsNewest t row self.old.page.body.items self.old.geometry (image_in N.view.flash self.old) →
            MatchResult result
            (λ _. IsWrittenBack t (ram self.old) (image_in N.view.flash self.old) (ram self.new) (image_in N.view.flash self.new))
            (Refused (ram self.old) (image_in N.view.flash self.old) (ram self.new) (image_in N.view.flash self.new)) }
        ensures moved_out { N.view.honest self.old.nand ≡ true → IsTrue None (ram self.old) (image_in N.view.flash self.old) →
            HoldsNewest t row self.old.page.body.items self.old.geometry (image_in N.view.flash self.old) →
            ForSome row (λ at. is_shut (ram self.old).blocks (at / self.old.geometry.pages) ≡ true →
            OnOk result (IsMovedOut at (ram self.old) (image_in N.view.flash self.old) (ram self.new) (image_in N.view.flash self.new))) }
        ensures stops { N.view.honest self.old.nand ≡ true → IsTrue None (ram self.old) (image_in N.view.flash self.old) →
            HoldsNewest t row self.old.page.body.items self.old.geometry (image_in N.view.flash self.old) →
            result ≢ Err EngineFault.Bus → StopsSafely N.view self.old self.new }
        ensures cut { N.view.honest self.old.nand ≡ true → IsTrue None (ram self.old) (image_in N.view.flash self.old) →
            HoldsNewest t row self.old.page.body.items self.old.geometry (image_in N.view.flash self.old) →
            result ≡ Err EngineFault.Bus → CutsSafely N.view self.old self.new }
    {
        fill_entries(&self.mapping, &self.geometry, t, &mut self.page.body);
        self.replace(Kind::Translation, t, row)?;
        self.mapping.clean(t);
        Ok(())
    }

    // Writes translation page `t` anew, whatever fault stands.
    pub(crate) fn write_page_back(&mut self, t: u32) -> Result<(), EngineFault>
        requires safe { IsSafe N.view.flash self.old }
        requires page { t < translation_pages self.old.geometry }
        ensures acts { EngineActs N.view self.old self.new result }
        ensures goes { Goes (ram self.old) (ram self.new) }
        ensures reads { N.view.reads self.new.nand ≤ N.view.reads self.old.nand + 1 }
        ensures erases { N.view.erases self.new.nand ≡ N.view.erases self.old.nand }
        ensures pin { (ram self.new).pin ≡ (ram self.old).pin }
        ensures cleaned { OnOk result (self.new.mapping ≡ cleaned self.old.mapping t) }
        ensures cleans { OnOk result (Cleans (per_page self.old.mapping) t self.old.mapping self.new.mapping) }
        ensures keys { keys_of self.new.mapping.cached ≡ keys_of self.old.mapping.cached }
        ensures no_more { HasNoMore self.old.mapping self.new.mapping }
        ensures mapping { OnErr result (self.new.mapping ≡ self.old.mapping) }
        ensures padded { OnOk result (IsPadded self.old.geometry t self.new.page.body.items) }
        ensures checked { OnOk result ((row : Option ℕ) → slice_get self.old.directory t ≡ Some row →
            IsBroughtUp t row self.old.geometry self.old.mapping self.new.page.body.items) }
        ensures programmed { OnOk result (IsLastPage Kind.Translation t (ram self.new) (page_in_buffer self.new.page)) }
        ensures cost { WriteBackCosts (ram self.old) (ram self.new) result }
        ensures truth { N.view.honest self.old.nand ≡ true → IsTrue None (ram self.old) (image_in N.view.flash self.old) →
            MatchResult result
            (λ _. IsWrittenBack t (ram self.old) (image_in N.view.flash self.old) (ram self.new) (image_in N.view.flash self.new))
            (Refused (ram self.old) (image_in N.view.flash self.old) (ram self.new) (image_in N.view.flash self.new)) }
        ensures stops { N.view.honest self.old.nand ≡ true → IsTrue None (ram self.old) (image_in N.view.flash self.old) →
            result ≢ Err EngineFault.Bus → StopsSafely N.view self.old self.new }
        ensures cut { N.view.honest self.old.nand ≡ true → IsTrue None (ram self.old) (image_in N.view.flash self.old) →
            result ≡ Err EngineFault.Bus → CutsSafely N.view self.old self.new }
    {
        let row = self.directory.row_of(t);
        self.load_translation(t, row)?;
        self.write_loaded(t, row)
    }

    /// Writes translation page `t` anew: as it stands on the die, or empty where it was never
    /// written, with the row of each of its sectors that is cached dirty or moved. The directory then
    /// has its row, and it lacks none: its cached sectors are clean, and its moved ones are no longer
    /// moved. Entries past the last sector have no row. The array stays, and so do the sectors that
    /// are cached, and their order. Whatever the die does, the page that it changes is sound and of
    /// translation page `t`.
    ///
    /// # Errors
    ///
    /// Each stands: `put`, `write_back`, `make_room`, `write_sector` and `trim_sector` answer it again
    /// from then on, and change nothing.
    ///
    /// - `ReadOnly`, `SequenceSpent` as `put`; the page lacks what it lacked.
    /// - `Damaged` where the page as it stands isn't sound or not of its key; an honest die never
    ///   gives such a page.
    /// - `Bus` where the die answered no page or no outcome, and its count of failures has risen or
    ///   stands at 2^64 - 1. What the die holds is then not known.
    ///
    /// It takes no memory.
    ///
    /// Source: the write-back of an evicted entry of the DFTL paper, with its batch update.
    pub fn write_back(&mut self, t: u32) -> Result<(), WriteFault>
        requires safe { IsSafe N.view.flash self.old }
        requires page { t < translation_pages self.old.geometry }
        ensures stands { Stands N.view self.old self.new result }
        ensures goes { Goes (ram self.old) (ram self.new) }
        ensures reads { N.view.reads self.new.nand ≤ N.view.reads self.old.nand + 1 }
        ensures erases { N.view.erases self.new.nand ≡ N.view.erases self.old.nand }
        ensures pin { (ram self.new).pin ≡ (ram self.old).pin }
        ensures cleaned { OnOk result (self.new.mapping ≡ cleaned self.old.mapping t) }
        ensures cleans { OnOk result (Cleans (per_page self.old.mapping) t self.old.mapping self.new.mapping) }
        ensures keys { keys_of self.new.mapping.cached ≡ keys_of self.old.mapping.cached }
        ensures no_more { HasNoMore self.old.mapping self.new.mapping }
        ensures mapping { OnErr result (self.new.mapping ≡ self.old.mapping) }
        ensures padded { OnOk result (IsPadded self.old.geometry t self.new.page.body.items) }
        ensures checked { OnOk result ((row : Option ℕ) → slice_get self.old.directory t ≡ Some row →
            IsBroughtUp t row self.old.geometry self.old.mapping self.new.page.body.items) }
        ensures programmed { OnOk result (IsLastPage Kind.Translation t (ram self.new) (page_in_buffer self.new.page)) }
        ensures cost { self.old.fault ≡ None → WriteBackCosts (ram self.old) (ram self.new) result }
        ensures truth { N.view.honest self.old.nand ≡ true → self.old.fault ≡ None → IsTrue None (ram self.old) (image_in N.view.flash self.old) →
            MatchResult result
            (λ _. IsWrittenBack t (ram self.old) (image_in N.view.flash self.old) (ram self.new) (image_in N.view.flash self.new))
            (Refused (ram self.old) (image_in N.view.flash self.old) (ram self.new) (image_in N.view.flash self.new)) }
        ensures stops { N.view.honest self.old.nand ≡ true → self.old.fault ≡ None → IsTrue None (ram self.old) (image_in N.view.flash self.old) →
            result ≢ Err EngineFault.Bus → StopsSafely N.view self.old self.new }
        ensures cut { N.view.honest self.old.nand ≡ true → self.old.fault ≡ None → IsTrue None (ram self.old) (image_in N.view.flash self.old) →
            result ≡ Err EngineFault.Bus → CutsSafely N.view self.old self.new }
    {
        self.standing()?;
        let answer = self.write_page_back(t);
        self.noted(answer)
    }
}
