//! Table pages are written.
ghost use Rattle.std.specs.Prelude.{◌≡◌, ◌≢◌, ◌<◌, true, None, OnOk, MatchResult};
ghost use Rattle.page_layout.specs.Geometry.{entries, table_pages};
ghost use Rattle.bad_blocks.specs.TablePage.{table_bytes};
ghost use Rattle.budget.specs.declared.stream.Stream.TheVariants.{Meta};
ghost use Rattle.collection.specs.Safe.{IsSafe, ram, image_in, page_in_buffer};
ghost use Rattle.collection.specs.Truth.{IsTrue};
ghost use Rattle.collection.specs.Cost.{PageCosts};
ghost use Rattle.collection.specs.Results.{IsLastPage, IsTabled, Refused, Goes, KeepsTable};
ghost use Rattle.collection.specs.Acts.{EngineActs, Stands, OnlyPrograms};
ghost use Rattle.collection.specs.Stops.{CutsSafely, StopsSafely};

use super::Engine;
use crate::fault::{EngineFault, WriteFault};
use bad_blocks::write_table_page;
use onfi_cycles::Nand;
use page_layout::record::{Key, Kind};

impl<N: Nand> Engine<N> {
    // Programs table page `u` as the table is now, whatever fault stands.
    fn put_table(&mut self, u: u32) -> Result<(), EngineFault>
        requires safe { IsSafe N.view.flash self.old }
        requires page { u < table_pages self.old.geometry }
        ensures acts { EngineActs N.view self.old self.new result }
        ensures goes { Goes (ram self.old) (ram self.new) }
        ensures table { KeepsTable (ram self.old).blocks (ram self.new).blocks }
        ensures mapping { self.new.mapping ≡ self.old.mapping }
        ensures pin { (ram self.new).pin ≡ (ram self.old).pin }
        ensures only_programs { OnlyPrograms N.view self.old.nand self.new.nand }
        ensures spelled { self.new.page.body.items ≡ table_bytes (entries self.old.geometry) (ram self.old).blocks.table u }
        ensures programmed { OnOk result (IsLastPage Kind.Table u (ram self.new) (page_in_buffer self.new.page)) }
        ensures cost { PageCosts Meta (ram self.old) (ram self.new) result }
        ensures truth { N.view.honest self.old.nand ≡ true → IsTrue None (ram self.old) (image_in N.view.flash self.old) →
            MatchResult result
            (λ _. IsTabled u (ram self.old) (image_in N.view.flash self.old) (ram self.new) (image_in N.view.flash self.new))
            (Refused (ram self.old) (image_in N.view.flash self.old) (ram self.new) (image_in N.view.flash self.new)) }
        ensures stops { N.view.honest self.old.nand ≡ true → IsTrue None (ram self.old) (image_in N.view.flash self.old) →
            result ≢ Err EngineFault.Bus → StopsSafely N.view self.old self.new }
        ensures cut { N.view.honest self.old.nand ≡ true → IsTrue None (ram self.old) (image_in N.view.flash self.old) →
            result ≡ Err EngineFault.Bus → CutsSafely N.view self.old self.new }
    {
        write_table_page(self.blocks.table(), u, &mut self.page.body);
        let old_row = self.row_of_key(Key::Table(u));
        self.replace(Kind::Table, u, old_row)?;
        Ok(())
    }

    /// Writes table page `u`: the class and the erase count of each of its blocks as the table has
    /// them when the call begins. The array stays, and so do the cached and the moved sectors.
    ///
    /// A program that fails makes its block bad, which the page that is then programmed in another
    /// block doesn't tell. The caller sees it by the good blocks, and writes the pages again.
    ///
    /// # Errors
    ///
    /// Those of `put`, as there: after `ReadOnly` and `SequenceSpent` the array is as it was.
    ///
    /// It takes no memory. (This project.)
    pub fn write_table(&mut self, u: u32) -> Result<(), WriteFault>
        requires safe { IsSafe N.view.flash self.old }
        requires page { u < table_pages self.old.geometry }
        ensures stands { Stands N.view self.old self.new result }
        ensures goes { Goes (ram self.old) (ram self.new) }
        ensures table { KeepsTable (ram self.old).blocks (ram self.new).blocks }
        ensures mapping { self.new.mapping ≡ self.old.mapping }
        ensures pin { (ram self.new).pin ≡ (ram self.old).pin }
        ensures only_programs { OnlyPrograms N.view self.old.nand self.new.nand }
        ensures spelled { self.old.fault ≡ None →
            self.new.page.body.items ≡ table_bytes (entries self.old.geometry) (ram self.old).blocks.table u }
        ensures programmed { OnOk result (IsLastPage Kind.Table u (ram self.new) (page_in_buffer self.new.page)) }
        ensures cost { self.old.fault ≡ None → PageCosts Meta (ram self.old) (ram self.new) result }
        ensures truth { N.view.honest self.old.nand ≡ true → self.old.fault ≡ None → IsTrue None (ram self.old) (image_in N.view.flash self.old) →
            MatchResult result
            (λ _. IsTabled u (ram self.old) (image_in N.view.flash self.old) (ram self.new) (image_in N.view.flash self.new))
            (Refused (ram self.old) (image_in N.view.flash self.old) (ram self.new) (image_in N.view.flash self.new)) }
        ensures stops { N.view.honest self.old.nand ≡ true → self.old.fault ≡ None → IsTrue None (ram self.old) (image_in N.view.flash self.old) →
            result ≢ Err EngineFault.Bus → StopsSafely N.view self.old self.new }
        ensures cut { N.view.honest self.old.nand ≡ true → self.old.fault ≡ None → IsTrue None (ram self.old) (image_in N.view.flash self.old) →
            result ≡ Err EngineFault.Bus → CutsSafely N.view self.old self.new }
    {
        self.standing()?;
        let answer = self.put_table(u);
        self.noted(answer)
    }
}
