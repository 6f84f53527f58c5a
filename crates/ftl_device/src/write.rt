//! Sectors are written and trimmed.
ghost use Rattle.std.specs.Prelude.{◌≡◌, ◌-◌, ◌<◌, ◌≤◌, ◌^◌, length, Ok, Err, Some, None, IsOk, IfErr, OnOk};
ghost use Rattle.std.specs.Prelude.{MatchOption};
ghost use Rattle.page_layout.specs.Geometry.{need_at};
ghost use Rattle.bad_blocks.specs.Table.{good_count};
ghost use Rattle.allocation.specs.State.{free_count};
ghost use Rattle.promises.specs.Step.{Write, Trim};
ghost use Rattle.collection.specs.Safe.{IsSafe, ram};
ghost use Rattle.collection.specs.Left.{IsCalm};
ghost use Rattle.ftl_device.specs.Device.{IsDevice};
ghost use Rattle.ftl_device.specs.Calls.{stop_of, standing_after, MayChange, MayNot, answer_of};
ghost use Rattle.ftl_device.specs.Changes.{Changes};

use crate::device::Device;
use crate::fault::{CallFault, DeviceFault};
use crate::ready::{trim_ready, write_ready};
use collection::{EngineFault, LEAST_FREE};
use onfi_cycles::Nand;

impl<N: Nand> Device<N> {
    // What a stopped device answers.
    pub(crate) fn going(&self) -> Result<(), DeviceFault>
        ensures { MatchOption (stop_of self.now.engine.fault) (IsOk result) (λ fault. result ≡ Err fault) }
    {
        match self.engine.fault {
            Some(EngineFault::Damaged) => Err(DeviceFault::Damaged),
            Some(EngineFault::Bus) => Err(DeviceFault::BusFault),
            Some(EngineFault::ReadOnly | EngineFault::SequenceSpent) | None => Ok(()),
        }
    }

    // The answer of a device with too few free blocks, where that many were good as the call began.
    pub(crate) fn short_of(&self, good: u32) -> DeviceFault
        requires fewer { good_count (ram self.now.engine).blocks.table ≤ good }
        ensures { result ≡ DeviceFault.ReadOnly (good_count (ram self.now.engine).blocks.table)
            (need_at self.now.engine.geometry self.now.engine.mapping.share) (good - good_count (ram self.now.engine).blocks.table) }
    {
        let left = self.engine.blocks.good();
        DeviceFault::ReadOnly {
            good: left,
            need: self.engine.geometry.need_at(self.engine.mapping.share()),
            failed: good - left,
        }
    }

    // Whether a call may change a sector.
    pub(crate) fn may_change(&self, sector: u32) -> Result<(), DeviceFault>
        requires device { IsDevice N.view.flash self.now }
        ensures may { OnOk result (MayChange (ram self.now.engine) self.now.read_only sector) }
        ensures may_not { IfErr result (MayNot (ram self.now.engine) self.now.read_only sector) }
    {
        self.going()?;
        if sector >= self.engine.geometry.sectors() {
            return Err(DeviceFault::OutOfRange);
        }
        if self.read_only {
            return Err(self.short_of(self.engine.blocks.good()));
        }
        if self.engine.next == u64::MAX {
            return Err(DeviceFault::SequenceSpent);
        }
        Ok(())
    }

    // Ends a call that may have programmed: with too few free blocks the device is read-only.
    pub(crate) fn finish(
        &mut self,
        good: u32,
        answer: Result<(), CallFault>,
    ) -> Result<(), DeviceFault>
        requires safe { IsSafe N.view.flash self.old.engine }
        requires fault { self.old.engine.fault ≡ standing_after answer }
        requires scarce { answer ≡ Err (CallFault.Engine EngineFault.ReadOnly) → free_count (ram self.old.engine).blocks < 5 }
        requires fewer { answer ≡ Err (CallFault.Engine EngineFault.ReadOnly) → good_count (ram self.old.engine).blocks.table ≤ good }
        requires calm { self.old.engine.fault ≡ None → IsCalm (ram self.old.engine) }
        requires spent { answer ≡ Err (CallFault.Engine EngineFault.SequenceSpent) → self.old.engine.next ≡ 2 ^ 64 - 1 }
        ensures engine { self.new.engine ≡ self.old.engine }
        ensures cursor { self.new.cursor ≡ self.old.cursor }
        ensures device { IsDevice N.view.flash self.new }
        ensures answer { result ≡ answer_of (ram self.new.engine) good answer }
    {
        self.read_only = self.engine.blocks.free() < LEAST_FREE;
        match answer {
            Ok(()) => Ok(()),
            Err(CallFault::OutOfMemory) => Err(DeviceFault::OutOfMemory),
            Err(CallFault::Engine(EngineFault::ReadOnly)) => Err(self.short_of(good)),
            Err(CallFault::Engine(EngineFault::SequenceSpent)) => Err(DeviceFault::SequenceSpent),
            Err(CallFault::Engine(EngineFault::Damaged)) => Err(DeviceFault::Damaged),
            Err(CallFault::Engine(EngineFault::Bus)) => Err(DeviceFault::BusFault),
        }
    }

    /// Writes a sector: `body` is one data area. Done, the sector holds these bytes and all others
    /// hold what they held. One data page of the sector is programmed, also for 00h bytes, and before it one translation page,
    /// that of the least recently used sector, just where the sector isn't cached, the cache is full
    /// and that one is dirty; a page whose program fails is programmed again in another block, and the
    /// failed block is grown bad. The sector is then the most recently used; where the cache was full
    /// without it, the least recently used one is no longer cached.
    ///
    /// A call that ends with fewer than five free blocks leaves the device read-only, whatever it
    /// answered.
    ///
    /// Where the power goes inside it, the sector holds the old bytes or these, and all others hold what
    /// they held; where the call is refused, the old ones.
    ///
    /// # Errors
    ///
    /// As the call begins, the first of these that holds; nothing has changed then:
    ///
    /// - `Damaged`, `BusFault` where it was answered before. The die isn't asked.
    /// - `OutOfRange` where there is no such sector.
    /// - `ReadOnly` where the device is read-only.
    /// - `SequenceSpent` where the next sequence is 2^64 - 1.
    ///
    /// Then each as it comes:
    ///
    /// - while a translation page is written back: `Damaged` or `BusFault` as it is read,
    ///   `SequenceSpent`, `ReadOnly` or `BusFault` as it is programmed.
    /// - while the row that the sector has so far is looked up: `Damaged` or `BusFault`.
    /// - `OutOfMemory` where a growth was refused as the sector was to be cached, which never is where
    ///   it is cached, nor, with share 0, where it is stale in the image and no block was pinned as the
    ///   call began.
    ///   Nothing of the sector was programmed.
    /// - while its page is programmed: `SequenceSpent`, `ReadOnly` or `BusFault`.
    ///
    /// What they mean, and what they leave:
    ///
    /// - `ReadOnly`: the device is read-only until it is started anew, or no block is left for a page,
    ///   after which it is so. The array is as it was. `good` counts the good blocks as the call ends,
    ///   `need` is the geometry's at this share, and `failed` counts the blocks that failed in the call.
    /// - `SequenceSpent`: the next page would have no sequence. The array is as it was.
    /// - `OutOfMemory`: the array is as it was, and so is the order of the cached sectors.
    /// - `Damaged`: a translation page isn't sound or not of its key, or names a row that the die
    ///   doesn't have, which never comes of an honest die. The device is stopped.
    /// - `BusFault`: the die answered no page or no outcome, and its count of failures has risen or
    ///   stands at 2^64 - 1. The device is stopped. What an honest die that tells a record may be left with
    ///   has the array from before, or this sector with these bytes; else nothing is known of it.
    ///
    /// Source: the DFTL paper, for the eviction; the rest is this project's.
    pub fn write(&mut self, sector: u32, body: &[u8]) -> Result<(), DeviceFault>
        requires device { IsDevice N.view.flash self.old }
        requires body { length body.now ≡ self.old.engine.geometry.data_bytes }
        ensures device { IsDevice N.view.flash self.new }
        ensures geometry { self.new.engine.geometry ≡ self.old.engine.geometry }
        ensures cursor { self.new.cursor ≡ self.old.cursor }
        ensures changes { Changes N.view sector (Write sector body.now) self.old result self.new }
    {
        self.may_change(sector)?;
        let good = self.engine.blocks.good();
        let answer = write_ready(&mut self.engine, sector, body);
        self.finish(good, answer)
    }

    /// Trims a sector: Done, it reads as 00h bytes and all others hold what they held. A trim page of
    /// it is programmed, as `write` programs its page, also where the sector was never written. What
    /// stays where the power goes inside it is as there.
    ///
    /// # Errors
    ///
    /// Those of `write`, as there.
    ///
    /// Source: the DFTL paper, for the eviction; the rest is this project's.
    pub fn trim(&mut self, sector: u32) -> Result<(), DeviceFault>
        requires device { IsDevice N.view.flash self.old }
        ensures device { IsDevice N.view.flash self.new }
        ensures geometry { self.new.engine.geometry ≡ self.old.engine.geometry }
        ensures cursor { self.new.cursor ≡ self.old.cursor }
        ensures changes { Changes N.view sector (Trim sector) self.old result self.new }
    {
        self.may_change(sector)?;
        let good = self.engine.blocks.good();
        let answer = trim_ready(&mut self.engine, sector);
        self.finish(good, answer)
    }
}
