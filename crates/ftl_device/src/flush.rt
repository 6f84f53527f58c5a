//! What waits in memory is written to the die.
ghost use Rattle.std.specs.Prelude.{◌≡◌, ◌≢◌, ℕ, ◌-◌, ◌^◌, ◌<◌, ◌≤◌, true, None, Ok, Err, IfErr, OnOk, MatchResult};
ghost use Rattle.std.specs.Map.{keys_of};
ghost use Rattle.page_layout.specs.Geometry.{translation_pages, table_pages};
ghost use Rattle.budget.specs.Spending.{IsFunded};
ghost use Rattle.allocation.specs.Counts.{counts_of};
ghost use Rattle.collection.specs.Safe.{IsSafe, ram, image_in};
ghost use Rattle.collection.specs.Left.{IsCalm, LeavesPin};
ghost use Rattle.collection.specs.Results.{KeepsTable, fault_after};
ghost use Rattle.collection.specs.Collect.{RoomCounts};
ghost use Rattle.collection.specs.Room.{wanted};
ghost use Rattle.allocation.specs.State.{free_count};
ghost use Rattle.ftl_device.specs.Calls.{IsWell, Knows, CallRefused};
ghost use Rattle.ftl_device.specs.Renewed.{Finishes};
ghost use Rattle.ftl_device.specs.Flush.{IsClean, KeepsClean, HasNewTables, SpellsAll, KeepsTables, AddsPages, FailsAmong, RunsOut, IsFlushed, WritesTables, MayFlush};
ghost use Rattle.ftl_device.specs.Flush.{MayNotFlush};
ghost use Rattle.ftl_device.specs.FlushSteps.{HasBegunFlush, HasCleared, FlushesPage, FlushesPages, HasRound, WritesRounds, HasFlushed};
ghost use Rattle.ftl_device.specs.Shortage.{HasFunds, SpendsPages, FlushCounts, FlushShort};
ghost use Rattle.promises.specs.Step.{Flush};
ghost use Rattle.ftl_device.specs.Device.{IsDevice};
ghost use Rattle.ftl_device.specs.Changes.{EngineLeaves, EndsKept, FlushesOn, Upkeeps, LeavesUnpinned};

use crate::device::Device;
use crate::fault::{CallFault, DeviceFault};
use crate::ready::make_room;
use collection::{Engine, EngineFault, LEAST_FREE, Reserve};
use onfi_cycles::Nand;

// Sees that five blocks are free. Nothing else is done.
fn require_free<N: Nand>(engine: &mut Engine<N>) -> Result<(), EngineFault>
    requires safe { IsSafe N.view.flash engine.old }
    requires going { engine.old.fault ≡ None }
    ensures leaves { EngineLeaves N.view engine.old result engine.new }
    ensures memory { ram engine.new ≡ record (ram engine.old) { fault = fault_after None result } }
    ensures still { OnOk result ((engine.new ≡ engine.old) × (5 ≤ free_count (ram engine.old).blocks)) }
    ensures scarce { IfErr result (λ fault. (fault ≡ EngineFault.ReadOnly) × (free_count (ram engine.old).blocks < 5)) }
    ensures same { image_in N.view.flash engine.new ≡ image_in N.view.flash engine.old }
{
    if engine.blocks.free() < LEAST_FREE {
        engine.fault = Some(EngineFault::ReadOnly);
        return Err(EngineFault::ReadOnly);
    }
    Ok(())
}

// Sees that there is room for a page. With share 0 blocks are collected for it. Above share 0 none is,
// since room for the whole flush was made: a sector that a collection moves might wait for a translation
// page that was brought up before.
fn make_flush_room<N: Nand>(engine: &mut Engine<N>) -> Result<(), EngineFault>
    requires safe { IsSafe N.view.flash engine.old }
    requires going { engine.old.fault ≡ None }
    requires calm { IsCalm (ram engine.old) }
    ensures flushes { FlushesOn N.view engine.old result engine.new }
    ensures cleans { OnOk result (KeepsClean engine.old.geometry engine.old.mapping engine.new.mapping) }
    ensures cleared { OnOk result (HasCleared N.view engine.old engine.new) }
    ensures spends { 0 < engine.old.mapping.share → SpendsPages 0 (ram engine.old) (ram engine.new) result }
    ensures count { engine.old.mapping.share ≡ 0 → N.view.honest engine.old.nand ≡ true → Knows (ram engine.old) (image_in N.view.flash engine.old) →
        (failures : ℕ) → IsFunded engine.old.geometry.pages failures (counts_of (ram engine.old).blocks) →
        RoomCounts 9 failures (ram engine.old) (ram engine.new) result }
{
    if engine.mapping.share() > 0 {
        return require_free(engine);
    }
    make_room(engine, Reserve::Flush, true)
}

// Writes translation page `t` back where it lacks a row. Whether it does is asked before room is made.
fn flush_translation<N: Nand>(engine: &mut Engine<N>, t: u32) -> Result<(), EngineFault>
    requires safe { IsSafe N.view.flash engine.old }
    requires going { engine.old.fault ≡ None }
    requires calm { IsCalm (ram engine.old) }
    requires page { t < translation_pages engine.old.geometry }
    ensures flushes { FlushesOn N.view engine.old result engine.new }
    ensures clean { OnOk result (IsClean engine.old.geometry t engine.new.mapping) }
    ensures cleans { OnOk result (KeepsClean engine.old.geometry engine.old.mapping engine.new.mapping) }
    ensures page { OnOk result (FlushesPage N.view t engine.old engine.new) }
    ensures spends { 0 < engine.old.mapping.share → SpendsPages 1 (ram engine.old) (ram engine.new) result }
    ensures count { engine.old.mapping.share ≡ 0 → N.view.honest engine.old.nand ≡ true → Knows (ram engine.old) (image_in N.view.flash engine.old) →
        (failures : ℕ) → IsFunded engine.old.geometry.pages failures (counts_of (ram engine.old).blocks) →
        FlushCounts failures (ram engine.old) (ram engine.new) result }
{
    if !engine.mapping.lacks(t) {
        return Ok(());
    }
    make_flush_room(engine)?;
    engine.write_back(t)
}

// Writes back each translation page that lacks a row.
fn flush_translations<N: Nand>(engine: &mut Engine<N>) -> Result<(), EngineFault>
    requires safe { IsSafe N.view.flash engine.old }
    requires going { engine.old.fault ≡ None }
    requires calm { IsCalm (ram engine.old) }
    ensures flushes { FlushesOn N.view engine.old result engine.new }
    ensures clean { OnOk result ((t : ℕ) → t < translation_pages engine.old.geometry → IsClean engine.old.geometry t engine.new.mapping) }
    ensures pages { OnOk result (FlushesPages N.view (translation_pages engine.old.geometry) engine.old engine.new) }
    ensures spends { 0 < engine.old.mapping.share → SpendsPages (translation_pages engine.old.geometry) (ram engine.old) (ram engine.new) result }
    ensures count { engine.old.mapping.share ≡ 0 → N.view.honest engine.old.nand ≡ true → Knows (ram engine.old) (image_in N.view.flash engine.old) →
        (failures : ℕ) → IsFunded engine.old.geometry.pages failures (counts_of (ram engine.old).blocks) →
        FlushCounts failures (ram engine.old) (ram engine.new) result }
{
    'translations: for t in 0..engine.geometry.translation_pages() {
        flush_translation(engine, t)?;
    }
    Ok(())
}

// Writes each table page once. Where no block has failed meanwhile, they tell the table as it is.
fn write_tables_once<N: Nand>(engine: &mut Engine<N>) -> Result<(), EngineFault>
    requires safe { IsSafe N.view.flash engine.old }
    requires going { engine.old.fault ≡ None }
    ensures leaves { EngineLeaves N.view engine.old result engine.new }
    ensures mapping { engine.new.mapping ≡ engine.old.mapping }
    ensures beside { LeavesPin (ram engine.old) (ram engine.new) }
    ensures table { KeepsTable (ram engine.old).blocks (ram engine.new).blocks }
    ensures cost { OnOk result (AddsPages (table_pages engine.old.geometry) (ram engine.old) (ram engine.new)) }
    ensures round { OnOk result (HasRound N.view engine.old engine.new) }
    ensures out { result ≡ Err EngineFault.ReadOnly → FailsAmong (table_pages engine.old.geometry) (ram engine.old) (ram engine.new) }
    ensures truth { N.view.honest engine.old.nand ≡ true → Knows (ram engine.old) (image_in N.view.flash engine.old) →
        MatchResult result
        (λ _. KeepsTables (table_pages engine.old.geometry) (ram engine.old) (image_in N.view.flash engine.old) (ram engine.new) (image_in N.view.flash engine.new))
        (λ fault. CallRefused engine.old.geometry (image_in N.view.flash engine.old) (ram engine.new) (image_in N.view.flash engine.new) (CallFault.Engine fault)) }
{
    'pages: for u in 0..engine.geometry.table_pages() {
        engine.write_table(u)?;
    }
    Ok(())
}

// Writes the table pages, and all of them again as long as a block has failed while they were written.
fn write_tables<N: Nand>(engine: &mut Engine<N>) -> Result<(), EngineFault>
    requires safe { IsSafe N.view.flash engine.old }
    requires going { engine.old.fault ≡ None }
    ensures leaves { EngineLeaves N.view engine.old result engine.new }
    ensures mapping { engine.new.mapping ≡ engine.old.mapping }
    ensures beside { LeavesPin (ram engine.old) (ram engine.new) }
    ensures cost { OnOk result (WritesTables (ram engine.old) (ram engine.new)) }
    ensures rounds { OnOk result (WritesRounds N.view engine.old engine.new) }
    ensures out { result ≡ Err EngineFault.ReadOnly → RunsOut (ram engine.old) (ram engine.new) }
    ensures truth { N.view.honest engine.old.nand ≡ true → Knows (ram engine.old) (image_in N.view.flash engine.old) →
        MatchResult result
        (λ _. SpellsAll engine.old.geometry (image_in N.view.flash engine.old) (ram engine.new) (image_in N.view.flash engine.new))
        (λ fault. CallRefused engine.old.geometry (image_in N.view.flash engine.old) (ram engine.new) (image_in N.view.flash engine.new) (CallFault.Engine fault)) }
{
    let mut good = engine.blocks.good();
    write_tables_once(engine)?;
    'rounds: while engine.blocks.good() < good {
        good = engine.blocks.good();
        write_tables_once(engine)?;
    }
    Ok(())
}

// Above share 0 sees that there is room for a whole flush. With share 0 nothing is done.
fn begin_flush<N: Nand>(engine: &mut Engine<N>) -> Result<(), EngineFault>
    requires safe { IsSafe N.view.flash engine.old }
    requires going { engine.old.fault ≡ None }
    requires calm { IsCalm (ram engine.old) }
    ensures flushes { FlushesOn N.view engine.old result engine.new }
    ensures begins { OnOk result (HasBegunFlush N.view engine.old engine.new) }
    ensures shared { IfErr result (λ fault. 0 < engine.old.mapping.share) }
    ensures count { 0 < engine.old.mapping.share → N.view.honest engine.old.nand ≡ true → Knows (ram engine.old) (image_in N.view.flash engine.old) →
        (failures : ℕ) → IsFunded engine.old.geometry.pages failures (counts_of (ram engine.old).blocks) →
        RoomCounts (wanted Reserve.Flush (ram engine.old)) failures (ram engine.old) (ram engine.new) result }
{
    if engine.mapping.share() == 0 {
        return Ok(());
    }
    make_room(engine, Reserve::Flush, false)
}

// Writes back what waits, and then the table.
pub(crate) fn flush_ready<N: Nand>(engine: &mut Engine<N>) -> Result<(), CallFault>
    requires safe { IsSafe N.view.flash engine.old }
    requires going { engine.old.fault ≡ None }
    requires calm { IsCalm (ram engine.old) }
    ensures kept { EndsKept N.view engine.old result engine.new }
    ensures memory { result ≢ Err CallFault.OutOfMemory }
    ensures pins { OnOk result (engine.old.pinned ≡ None → engine.new.pinned ≡ None) }
    ensures keys { keys_of engine.new.mapping.cached ≡ keys_of engine.old.mapping.cached }
    ensures clean { OnOk result ((t : ℕ) → t < translation_pages engine.old.geometry → IsClean engine.old.geometry t engine.new.mapping) }
    ensures programs { OnOk result (HasFlushed N.view engine.old engine.new) }
    ensures count { HasFunds (N.view.honest engine.old.nand) (ram engine.old) (image_in N.view.flash engine.old) → FlushShort (ram engine.old) (ram engine.new) result }
    ensures flushed { N.view.honest engine.old.nand ≡ true → Knows (ram engine.old) (image_in N.view.flash engine.old) →
        OnOk result (IsFlushed (ram engine.new) (image_in N.view.flash engine.new)) }
    ensures renewed { N.view.honest engine.old.nand ≡ true → Knows (ram engine.old) (image_in N.view.flash engine.old) →
        OnOk result (HasNewTables (table_pages engine.old.geometry) engine.old.geometry (image_in N.view.flash engine.new)) }
{
    begin_flush(engine)?;
    flush_translations(engine)?;
    make_flush_room(engine)?;
    write_tables(engine)?;
    Ok(())
}

impl<N: Nand> Device<N> {
    // Whether a flush may begin.
    pub(crate) fn may_flush(&self) -> Result<(), DeviceFault>
        requires device { IsDevice N.view.flash self.now }
        ensures may { OnOk result (MayFlush (ram self.now.engine) self.now.read_only) }
        ensures may_not { IfErr result (MayNotFlush (ram self.now.engine) self.now.read_only) }
    {
        self.going()?;
        if self.read_only {
            return Err(self.short_of(self.engine.blocks.good()));
        }
        if self.engine.next == u64::MAX {
            return Err(DeviceFault::SequenceSpent);
        }
        Ok(())
    }

    /// Writes to the die what is known in memory alone: each translation page that lacks a row, and
    /// then the table of blocks. Done, the die may be mounted at every capacity, no entry is stale,
    /// and it shows the bad blocks and the erase counts that are known. Where the die has room for version
    /// 2, all newest table pages are then of it: so where no other newest page was of version 1, as after
    /// `migrate_one` answered `false`, none is.
    ///
    /// The translation pages are gone through in rising order: for each that lacks a row, which is asked
    /// first, room is made, and one page is programmed; for each other one nothing is. Room is made
    /// once more, and the table pages are written in rising order, one page each. Above share 0 room for
    /// all of them is made as the flush begins, for which `Geometry::flush_blocks_at` more blocks are
    /// wanted than nine; after that nothing is collected, and five blocks have to be free before each
    /// translation page, and before the table pages. They are written
    /// again, all of them, as long as a program fails meanwhile. A page whose program fails is
    /// programmed again in another block. The sectors that are cached stay, and their order. Where the power goes inside it, each sector holds
    /// what it held.
    ///
    /// # Errors
    ///
    /// As the call begins, the first of these that holds; nothing has changed then:
    ///
    /// - `Damaged`, `BusFault` where it was answered before. The die isn't asked.
    /// - `ReadOnly` where the device is read-only.
    /// - `SequenceSpent` where the next sequence is 2^64 - 1.
    ///
    /// Then each as it comes, with what `write` says of it: `ReadOnly`, `SequenceSpent`, `Damaged`,
    /// `BusFault`. After the first two the array is as it was. `OutOfRange` and `OutOfMemory` never
    /// come.
    ///
    /// Source: this project.
    pub fn flush(&mut self) -> Result<(), DeviceFault>
        requires device { IsDevice N.view.flash self.old }
        ensures device { IsDevice N.view.flash self.new }
        ensures geometry { self.new.engine.geometry ≡ self.old.engine.geometry }
        ensures cursor { self.new.cursor ≡ self.old.cursor }
        ensures upkeeps { Upkeeps N.view Flush self.old result self.new }
        ensures pins { LeavesUnpinned self.old result self.new }
        ensures renewed { N.view.honest self.old.engine.nand ≡ true → IsWell N.view.flash self.old →
            OnOk result (Finishes self.old.engine.geometry (image_in N.view.flash self.old.engine) (image_in N.view.flash self.new.engine)) }
        ensures keys { keys_of self.new.engine.mapping.cached ≡ keys_of self.old.engine.mapping.cached }
        ensures programs { OnOk result (HasFlushed N.view self.old.engine self.new.engine) }
    {
        self.may_flush()?;
        let good = self.engine.blocks.good();
        let answer = flush_ready(&mut self.engine);
        self.finish(good, answer)
    }
}
