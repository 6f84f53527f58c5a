//! A cached sector is written or trimmed.
ghost use Rattle.std.specs.Prelude.{◌≡◌, ◌≢◌, ◌<◌, true, length, None, IsSome, OnOk, MatchResult};
ghost use Rattle.std.specs.Map.{keys_of};
ghost use Rattle.page_layout.specs.Array.{zeros};
ghost use Rattle.mapping_cache.specs.Mapping.{slot_of};
ghost use Rattle.budget.specs.declared.stream.Stream.TheVariants.{Data};
ghost use Rattle.collection.specs.Safe.{IsSafe, ram, image_in, page_in_buffer};
ghost use Rattle.collection.specs.Truth.{IsTrue};
ghost use Rattle.collection.specs.Cost.{PageCosts};
ghost use Rattle.collection.specs.Settle.{HasNoMore, HasSettled};
ghost use Rattle.collection.specs.Results.{IsLastPage, IsWritten, Refused, Goes};
ghost use Rattle.collection.specs.Acts.{Stands, OnlyPrograms};
ghost use Rattle.collection.specs.Stops.{Cuts, IsPutByStop, StopsSafely};

use super::Engine;
use super::look::clear;
use crate::fault::{EngineFault, WriteFault};
use onfi_cycles::Nand;
use page_layout::record::Kind;

impl<N: Nand> Engine<N> {
    /// Writes a cached sector: programs a page of it with this data area, and sets its cached row,
    /// dirty. The sector then holds these bytes, and all others hold what they held. The sectors that
    /// are cached stay, and their order.
    ///
    /// # Errors
    ///
    /// Those of `put`, as there: after `ReadOnly` and `SequenceSpent` the array is as it was.
    ///
    /// It takes no memory. (This project.)
    pub fn write_sector(&mut self, sector: u32, body: &[u8]) -> Result<(), WriteFault>
        requires safe { IsSafe N.view.flash self.old }
        requires sector { sector < self.old.geometry.sectors }
        requires cached { IsSome (slot_of self.old.mapping sector) }
        requires body { length body.now ≡ self.old.geometry.data_bytes }
        ensures stands { Stands N.view self.old self.new result }
        ensures goes { Goes (ram self.old) (ram self.new) }
        ensures only_programs { OnlyPrograms N.view self.old.nand self.new.nand }
        ensures pin { (ram self.new).pin ≡ (ram self.old).pin }
        ensures keys { keys_of self.new.mapping.cached ≡ keys_of self.old.mapping.cached }
        ensures no_more { HasNoMore self.old.mapping self.new.mapping }
        ensures moved { self.new.mapping.moved ≡ self.old.mapping.moved }
        ensures settled { OnOk result (HasSettled sector (ram self.old) (ram self.new)) }
        ensures page { self.old.fault ≡ None → self.new.page.body.items ≡ body.now }
        ensures scratch { self.new.scratch ≡ self.old.scratch }
        ensures programmed { OnOk result (IsLastPage Kind.Sector sector (ram self.new) (page_in_buffer self.new.page)) }
        ensures cost { self.old.fault ≡ None → PageCosts Data (ram self.old) (ram self.new) result }
        ensures truth { N.view.honest self.old.nand ≡ true → self.old.fault ≡ None → IsTrue None (ram self.old) (image_in N.view.flash self.old) →
            MatchResult result
            (λ _. IsWritten Kind.Sector sector body.now (ram self.old) (image_in N.view.flash self.old) (ram self.new) (image_in N.view.flash self.new))
            (Refused (ram self.old) (image_in N.view.flash self.old) (ram self.new) (image_in N.view.flash self.new)) }
        ensures stops { N.view.honest self.old.nand ≡ true → self.old.fault ≡ None → IsTrue None (ram self.old) (image_in N.view.flash self.old) →
            result ≢ Err EngineFault.Bus → StopsSafely N.view self.old self.new }
        ensures cut { N.view.honest self.old.nand ≡ true → self.old.fault ≡ None → IsTrue None (ram self.old) (image_in N.view.flash self.old) →
            result ≡ Err EngineFault.Bus → Cuts N.view (IsPutByStop Kind.Sector sector body.now (ram self.old) (image_in N.view.flash self.old)) self.old self.new }
    {
        self.standing()?;
        self.page.body.copy_from_slice(body);
        let answer = self.append(Kind::Sector, sector);
        self.noted(answer)
    }

    /// Trims a cached sector: programs a trim page of it, which has a data area of 00h bytes, and
    /// sets its cached row, dirty. The sector then reads as 00h bytes, and all others hold what they
    /// held. The sectors that are cached stay, and their order.
    ///
    /// # Errors
    ///
    /// Those of `put`, as there: after `ReadOnly` and `SequenceSpent` the array is as it was.
    ///
    /// It takes no memory. (This project.)
    pub fn trim_sector(&mut self, sector: u32) -> Result<(), WriteFault>
        requires safe { IsSafe N.view.flash self.old }
        requires sector { sector < self.old.geometry.sectors }
        requires cached { IsSome (slot_of self.old.mapping sector) }
        ensures stands { Stands N.view self.old self.new result }
        ensures goes { Goes (ram self.old) (ram self.new) }
        ensures only_programs { OnlyPrograms N.view self.old.nand self.new.nand }
        ensures pin { (ram self.new).pin ≡ (ram self.old).pin }
        ensures keys { keys_of self.new.mapping.cached ≡ keys_of self.old.mapping.cached }
        ensures no_more { HasNoMore self.old.mapping self.new.mapping }
        ensures moved { self.new.mapping.moved ≡ self.old.mapping.moved }
        ensures settled { OnOk result (HasSettled sector (ram self.old) (ram self.new)) }
        ensures page { self.old.fault ≡ None → self.new.page.body.items ≡ zeros self.old.geometry }
        ensures scratch { self.new.scratch ≡ self.old.scratch }
        ensures programmed { OnOk result (IsLastPage Kind.Trim sector (ram self.new) (page_in_buffer self.new.page)) }
        ensures cost { self.old.fault ≡ None → PageCosts Data (ram self.old) (ram self.new) result }
        ensures truth { N.view.honest self.old.nand ≡ true → self.old.fault ≡ None → IsTrue None (ram self.old) (image_in N.view.flash self.old) →
            MatchResult result
            (λ _. IsWritten Kind.Trim sector (zeros self.old.geometry) (ram self.old) (image_in N.view.flash self.old) (ram self.new) (image_in N.view.flash self.new))
            (Refused (ram self.old) (image_in N.view.flash self.old) (ram self.new) (image_in N.view.flash self.new)) }
        ensures stops { N.view.honest self.old.nand ≡ true → self.old.fault ≡ None → IsTrue None (ram self.old) (image_in N.view.flash self.old) →
            result ≢ Err EngineFault.Bus → StopsSafely N.view self.old self.new }
        ensures cut { N.view.honest self.old.nand ≡ true → self.old.fault ≡ None → IsTrue None (ram self.old) (image_in N.view.flash self.old) →
            result ≡ Err EngineFault.Bus → Cuts N.view (IsPutByStop Kind.Trim sector (zeros self.old.geometry) (ram self.old) (image_in N.view.flash self.old)) self.old self.new }
    {
        self.standing()?;
        clear(&mut self.page.body);
        let answer = self.append(Kind::Trim, sector);
        self.noted(answer)
    }
}
