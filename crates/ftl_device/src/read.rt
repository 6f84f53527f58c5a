//! Sectors are read.
ghost use Rattle.std.specs.Prelude.{◌≡◌, ◌≢◌, ◌+◌, ◌<◌, ◌≤◌, true, [], length, None, Some, Err, IsSome, IfErr, OnErr};
ghost use Rattle.std.specs.Option.{ForSome};
ghost use Rattle.page_layout.specs.Page.{Image};
ghost use Rattle.page_layout.specs.Counter.{HasRisen};
ghost use Rattle.page_layout.specs.Geometry.{row_count};
ghost use Rattle.page_layout.specs.declared.record.Key.TheVariants.{Sector};
ghost use Rattle.page_layout.specs.OnlyReads.{OnlyReads};
ghost use Rattle.page_layout.specs.Recording.{EndsAt};
ghost use Rattle.page_layout.specs.DieCalls.{AsksOnly};
ghost use Rattle.promises.specs.Step.{ArrayStep, Read};
ghost use Rattle.image_check.specs.Mountable.{IsMountable};
ghost use Rattle.mapping_cache.specs.Mapping.{HasLimitsOf, known};
ghost use Rattle.collection.specs.Safe.{ram, image_in, page_in_buffer};
ghost use Rattle.collection.specs.Truth.{IsTrue};
ghost use Rattle.collection.specs.Pages.{newest_row};
ghost use Rattle.collection.specs.Looks.{FindsDamage, IsReadFault};
ghost use Rattle.collection.specs.Stops.{room_of};
ghost use Rattle.ftl_device.specs.Device.{IsDevice};
ghost use Rattle.ftl_device.specs.Calls.{IsWell, stop_of, state_in, read_reply_of};
ghost use Rattle.ftl_device.specs.Stopped.{SurvivesStops};
ghost use Rattle.ftl_device.specs.Read.{LooksUp, LeavesRead, IsReadRefusal};

use crate::device::Device;
use crate::fault::DeviceFault;
use collection::EngineFault;
use onfi_cycles::Nand;

impl<N: Nand> Device<N> {
    // A sector that was read becomes the most recently used. One that was not cached is cached where
    // it is not moved and no dirty entry has to leave for it; where memory is refused, it isn't.
    fn remember(&mut self, sector: u32, row: Option<u32>)
        requires device { IsDevice N.view.flash self.old }
        requires sector { sector < self.old.engine.geometry.sectors }
        requires row { ForSome row (λ r. r < row_count self.old.engine.geometry) }
        ensures device { IsDevice N.view.flash self.new }
        ensures same { self.new ≡ record self.old { engine = record self.old.engine { mapping = self.new.engine.mapping } } }
        ensures looks_up { LooksUp sector row self.old.engine.mapping self.new.engine.mapping }
        ensures limits { HasLimitsOf self.old.engine.mapping self.new.engine.mapping }
        ensures truth { (image : Image) → IsTrue None (ram self.old.engine) image → row ≡ newest_row image (Sector sector) →
            IsTrue None (ram self.new.engine) image }
        ensures moved { self.new.engine.mapping.moved ≡ self.old.engine.mapping.moved }
    {
        if self.engine.mapping.is_moved(sector) {
            return;
        }
        if self.engine.mapping.can_load(sector) {
            let _ = self.engine.cache_sector(sector, row);
        }
    }

    // The answer to a fault of a read: the die's fault stops the device.
    fn refused_read(&mut self, fault: EngineFault) -> DeviceFault
        requires device { IsDevice N.view.flash self.old }
        requires of_read { IsReadFault fault }
        ensures device { IsDevice N.view.flash self.new }
        ensures damaged { fault ≡ EngineFault.Damaged → (result ≡ DeviceFault.Damaged) × (self.new ≡ self.old) }
        ensures bus { fault ≡ EngineFault.Bus → (result ≡ DeviceFault.BusFault) × (self.new ≡ record self.old { engine = record self.old.engine { fault = Some fault } }) }
        ensures either { IsReadRefusal result }
    {
        if fault == EngineFault::Bus {
            self.engine.fault = Some(fault);
            DeviceFault::BusFault
        } else {
            DeviceFault::Damaged
        }
    }

    /// Reads a sector: `out`, of one data area, gets its bytes, or 00h bytes where it was never
    /// written or was trimmed. It programs and erases nothing, and makes at most two page reads, and
    /// at most one where the sector's row is in memory.
    ///
    /// A cached sector becomes the most recently used. Another is cached where its page isn't one that a
    /// collection under way has moved, the cache isn't full or its least recently used entry is clean,
    /// and memory is there; else it is read all the same.
    ///
    /// Whatever the die does, the sector's row is the one that memory has, or else the one that a sound
    /// page of the sector's translation page gives, and no other row is cached. What it gives is 00h
    /// bytes where there is no row, and else the data area of the page in the page buffer, which is
    /// sound and of the sector, or 00h bytes where that is a trim.
    ///
    /// # Errors
    ///
    /// `out` then stays.
    ///
    /// - `Damaged` or `BusFault` where that fault stopped the device before. Nothing is asked of the
    ///   die.
    /// - `OutOfRange` just where there is no such sector. Nothing has changed.
    /// - `Damaged` where a page that was read isn't sound or not of its key, or names a row that the
    ///   die doesn't have; an honest die never does. Nothing has changed, and the device goes on.
    /// - `BusFault` where the die gave no page. The device is stopped.
    ///
    /// (This project.)
    pub fn read(&mut self, sector: u32, out: &mut [u8]) -> Result<(), DeviceFault>
        requires device { IsDevice N.view.flash self.old }
        requires whole { length out.old ≡ self.old.engine.geometry.data_bytes }
        ensures device { IsDevice N.view.flash self.new }
        ensures stopped { ForSome (stop_of self.old.engine.fault) (λ fault. (result ≡ Err fault) × (self.new ≡ self.old)) }
        ensures past { stop_of self.old.engine.fault ≡ None → self.old.engine.geometry.sectors ≤ sector → (result ≡ Err DeviceFault.OutOfRange) × (self.new ≡ self.old) }
        ensures within { sector < self.old.engine.geometry.sectors → result ≢ Err DeviceFault.OutOfRange }
        ensures faults { IfErr result IsReadRefusal }
        ensures refused { OnErr result (out.new ≡ out.old) }
        ensures limits { HasLimitsOf self.old.engine.mapping self.new.engine.mapping }
        ensures read_only { self.new.read_only ≡ self.old.read_only }
        ensures cursor { self.new.cursor ≡ self.old.cursor }
        ensures only_reads { OnlyReads N.view self.old.engine.nand self.new.engine.nand }
        ensures asked { AsksOnly N.view.called self.old.engine.nand self.new.engine.nand }
        ensures reads { N.view.reads self.new.engine.nand ≤ N.view.reads self.old.engine.nand + 2 }
        ensures hit { IsSome (known self.old.engine.mapping sector) → N.view.reads self.new.engine.nand ≤ N.view.reads self.old.engine.nand + 1 }
        ensures rose { stop_of self.old.engine.fault ≡ None → result ≡ Err DeviceFault.BusFault →
            HasRisen (N.view.failed self.old.engine.nand) (N.view.failed self.new.engine.nand) }

        // Whatever the die does: the row that was found, the pages in the buffers that give it and the sector, and the row that is cached.
        ensures memory { LeavesRead sector result (ram self.old.engine) (ram self.new.engine)
            (page_in_buffer self.new.engine.scratch) (page_in_buffer self.new.engine.page) out.new }

        // Damaged is a page that was read for it, and no other.
        ensures damaged { stop_of self.old.engine.fault ≡ None → result ≡ Err DeviceFault.Damaged →
            FindsDamage (ram self.old.engine) sector (page_in_buffer self.new.engine.scratch) (page_in_buffer self.new.engine.page) }

        // The truth of it, for a die that keeps its promises.
        ensures same { N.view.honest self.old.engine.nand ≡ true → result ≢ Err DeviceFault.BusFault →
            N.view.flash self.new.engine.nand ≡ N.view.flash self.old.engine.nand }
        ensures told { N.view.honest self.old.engine.nand ≡ true → result ≢ Err DeviceFault.BusFault →
            N.view.recorded self.new.engine.nand ≡ N.view.recorded self.old.engine.nand }
        ensures cut { N.view.honest self.old.engine.nand ≡ true → stop_of self.old.engine.fault ≡ None → result ≡ Err DeviceFault.BusFault →
            EndsAt [] (N.view.recorded self.old.engine.nand) (N.view.recorded self.new.engine.nand) }
        ensures survives { N.view.honest self.old.engine.nand ≡ true → IsWell N.view.flash self.old → result ≢ Err DeviceFault.BusFault →
            SurvivesStops self.old.engine.geometry (room_of (ram self.old.engine)) (Read sector) result
            (image_in N.view.flash self.old.engine) (image_in N.view.flash self.new.engine) (N.view.recorded self.new.engine.nand) [] }
        ensures well { N.view.honest self.old.engine.nand ≡ true → IsWell N.view.flash self.old → result ≢ Err DeviceFault.BusFault →
            IsWell N.view.flash self.new }
        ensures step { N.view.honest self.old.engine.nand ≡ true → IsWell N.view.flash self.old → result ≢ Err DeviceFault.BusFault →
            ArrayStep self.old.engine.geometry (state_in N.view.flash self.old) (Read sector) (read_reply_of out.new result) (state_in N.view.flash self.new) }
        ensures mountable { N.view.honest self.old.engine.nand ≡ true → IsWell N.view.flash self.old → result ≢ Err DeviceFault.BusFault →
            room_of (ram self.old.engine) ≤ 65536 →
            IsMountable self.old.engine.geometry (room_of (ram self.old.engine)) (image_in N.view.flash self.new.engine) }
    {
        self.going()?;
        if sector >= self.engine.geometry.sectors() {
            return Err(DeviceFault::OutOfRange);
        }
        match self.engine.read_sector(sector, out) {
            Ok(row) => {
                self.remember(sector, row);
                Ok(())
            }
            Err(fault) => Err(self.refused_read(fault)),
        }
    }
}
