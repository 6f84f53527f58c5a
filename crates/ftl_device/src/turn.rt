//! A turn: a page is rescued from a bad block, or a collection goes one step further.
ghost use Rattle.std.specs.Prelude.{◌≡◌, ◌≢◌, ◌⊎◌, ◌-◌, ◌<◌, ◌≤◌, ◌^◌, true, false, Ok, Err, None, IsSome, IsOk, OnOk};
ghost use Rattle.promises.specs.Step.{Turn};
ghost use Rattle.collection.specs.Safe.{IsSafe, ram, image_in};
ghost use Rattle.collection.specs.Room.{wanted};
ghost use Rattle.collection.specs.Left.{IsCalm};
ghost use Rattle.collection.specs.Collect.{HasAiling, HasNoneAiling};
ghost use Rattle.ftl_device.specs.Device.{IsDevice};
ghost use Rattle.ftl_device.specs.Calls.{IsWell, Knows, HasRescued};
ghost use Rattle.ftl_device.specs.Calls.{HasWorked, HasLess, HasFallen, IsQuiet};
ghost use Rattle.ftl_device.specs.Turn.{HasGoneOn, HasNoneToCollect, HasTurned};
ghost use Rattle.ftl_device.specs.Brings.{RescuesLowest, TurnsHonestly};
ghost use Rattle.ftl_device.specs.Changes.{CollectsOn, EndsKept, Upkeeps};
ghost use Rattle.allocation.specs.State.{free_count};
ghost use Rattle.ftl_device.specs.Shortage.{HasFunds, CallShort};

use crate::device::Device;
use crate::fault::{CallFault, DeviceFault};
use crate::ready::make_room;
use collection::{Engine, EngineFault, Reserve};
use onfi_cycles::Nand;

// Takes the collection of the pinned block one step further.
fn step_pinned<N: Nand>(engine: &mut Engine<N>) -> Result<(), EngineFault>
    requires safe { IsSafe N.view.flash engine.old }
    requires going { engine.old.fault ≡ None }
    requires calm { IsCalm (ram engine.old) }
    requires pinned { IsSome engine.old.pinned }
    ensures collects { CollectsOn N.view engine.old result engine.new }
    ensures gone_on { OnOk result (HasGoneOn (ram engine.old) (ram engine.new)) }
    ensures worked { OnOk result (HasWorked (ram engine.old) (ram engine.new) (N.view.erases engine.old.nand) (N.view.erases engine.new.nand)) }
    ensures less { N.view.honest engine.old.nand ≡ true → Knows (ram engine.old) (image_in N.view.flash engine.old) →
        OnOk result (HasLess N.view engine.old engine.new) }
{
    engine.step(false)?;
    Ok(())
}

// Goes on with the collection under way; with none, one begins where fewer blocks are free than a turn
// wants and one is worth it.
fn collect_on<N: Nand>(engine: &mut Engine<N>) -> Result<(), EngineFault>
    requires safe { IsSafe N.view.flash engine.old }
    requires going { engine.old.fault ≡ None }
    requires calm { IsCalm (ram engine.old) }
    ensures collects { CollectsOn N.view engine.old result engine.new }
    ensures gone_on { OnOk result (((ram engine.new ≡ ram engine.old) × HasNoneToCollect (ram engine.old)) ⊎ HasGoneOn (ram engine.old) (ram engine.new)) }
    ensures rests { engine.old.pinned ≡ None → wanted Reserve.Turn (ram engine.old) ≤ free_count (ram engine.old).blocks → IsOk result × (engine.new ≡ engine.old) }
    ensures quiet { N.view.honest engine.old.nand ≡ true → Knows (ram engine.old) (image_in N.view.flash engine.old) →
        OnOk result (IsQuiet N.view.erases engine.old engine.new) }
    ensures falls { N.view.honest engine.old.nand ≡ true → Knows (ram engine.old) (image_in N.view.flash engine.old) →
        OnOk result (HasFallen N.view engine.old engine.new) }
{
    if engine.pinned.is_some() {
        return step_pinned(engine);
    }
    let worth = engine.worth(Reserve::Turn);
    let Some(block) = worth else {
        return Ok(());
    };
    engine.pin(block);
    step_pinned(engine)
}

// Makes room; then copies the page of lowest row that a bad block holds, or, where none holds one,
// collects.
fn turn_ready<N: Nand>(engine: &mut Engine<N>) -> Result<(), CallFault>
    requires safe { IsSafe N.view.flash engine.old }
    requires going { engine.old.fault ≡ None }
    requires calm { IsCalm (ram engine.old) }
    ensures kept { EndsKept N.view engine.old result engine.new }
    ensures memory { result ≢ Err CallFault.OutOfMemory }
    ensures turned { OnOk result (HasTurned (ram engine.old) (ram engine.new)) }
    ensures count { HasFunds (N.view.honest engine.old.nand) (ram engine.old) (image_in N.view.flash engine.old) →
        5 ≤ free_count (ram engine.old).blocks → CallShort (ram engine.old) (ram engine.new) result }
    ensures rests { HasNoneAiling (ram engine.old).blocks → engine.old.pinned ≡ None → wanted Reserve.Turn (ram engine.old) ≤ free_count (ram engine.old).blocks →
        IsOk result × (engine.new ≡ engine.old) }
    ensures honestly { N.view.honest engine.old.nand ≡ true → Knows (ram engine.old) (image_in N.view.flash engine.old) →
        OnOk result (TurnsHonestly N.view engine.old engine.new) }
{
    make_room(engine, Reserve::Call, false)?;
    if engine.needs_rescue() {
        engine.rescue_one()?;
        return Ok(());
    }
    collect_on(engine)?;
    Ok(())
}

impl<N: Nand> Device<N> {
    /// Gives the device an idle moment. Room is made as by `write`. Then, where a bad block holds a
    /// newest page, the one of lowest row is copied out; where its sector is then moved and not cached,
    /// its translation page is written back. Else, where a block is being collected, its collection
    /// goes one step further: one page is copied, or one translation page is written back, or the
    /// block is erased. Else, where fewer blocks are free than a turn wants and the closed block of fewest
    /// newest pages has at most `Geometry::vmax_at`, its collection begins with such a step. Else nothing
    /// is asked of the die: so with as many free blocks, no collection under way and no newest page in a
    /// bad block. A turn wants twelve free blocks, and `Geometry::flush_blocks_at` more above share 0.
    ///
    /// A turn that is done without programming or erasing leaves so many free blocks, where three more
    /// are good than the geometry asks for. Turns without failures in between which all program have
    /// an erase among as many of them as a block has pages. Where the power goes inside one, each sector
    /// holds what it held.
    ///
    /// # Errors
    ///
    /// As the call begins, the first of these that holds; nothing has changed then: `Damaged` or
    /// `BusFault` where it was answered before, `ReadOnly` where the device is read-only,
    /// `SequenceSpent` where the next sequence is 2^64 - 1.
    /// Then each as it comes, with what `write` says of it: `ReadOnly`, `SequenceSpent`, `Damaged`,
    /// `BusFault`. After the first two the array is as it was. (This project.)
    pub fn turn(&mut self) -> Result<(), DeviceFault>
        requires device { IsDevice N.view.flash self.old }
        ensures device { IsDevice N.view.flash self.new }
        ensures geometry { self.new.engine.geometry ≡ self.old.engine.geometry }
        ensures cursor { self.new.cursor ≡ self.old.cursor }
        ensures upkeeps { Upkeeps N.view Turn self.old result self.new }
        ensures turned { OnOk result (HasTurned (ram self.old.engine) (ram self.new.engine)) }
        ensures rests { HasNoneAiling (ram self.old.engine).blocks → self.old.engine.pinned ≡ None → wanted Reserve.Turn (ram self.old.engine) ≤ free_count (ram self.old.engine).blocks →
            OnOk result (self.new.engine ≡ self.old.engine) }
        ensures quiet { N.view.honest self.old.engine.nand ≡ true → IsWell N.view.flash self.old →
            OnOk result (IsQuiet N.view.erases self.old.engine self.new.engine) }
        ensures falls { N.view.honest self.old.engine.nand ≡ true → IsWell N.view.flash self.old → HasNoneAiling (ram self.old.engine).blocks →
            OnOk result (HasFallen N.view self.old.engine self.new.engine) }
        ensures rescued { N.view.honest self.old.engine.nand ≡ true → IsWell N.view.flash self.old →
            OnOk result (HasRescued (ram self.old.engine) (ram self.new.engine)) }
        ensures lowest { N.view.honest self.old.engine.nand ≡ true → IsWell N.view.flash self.old →
            OnOk result (RescuesLowest N.view self.old.engine self.new.engine) }
        ensures worked { N.view.honest self.old.engine.nand ≡ true → IsWell N.view.flash self.old → HasAiling (ram self.old.engine).blocks →
            OnOk result (HasWorked (ram self.old.engine) (ram self.new.engine) (N.view.erases self.old.engine.nand) (N.view.erases self.new.engine.nand)) }
    {
        self.may_flush()?;
        let good = self.engine.blocks.good();
        let answer = turn_ready(&mut self.engine);
        self.finish(good, answer)
    }
}
