//! A sector is made ready: its entry is cached before anything of it is programmed.
ghost use Rattle.std.specs.Prelude.{◌≡◌, ◌≢◌, ℕ, ◌<◌, ◌≤◌, true, [], length, Some, None, Ok, Err, IsOk, IfOk, IfErr, IsSome, OnOk, MatchResult};
ghost use Rattle.std.specs.Option.{ForSome};
ghost use Rattle.std.specs.Map.{keys_of};
ghost use Rattle.page_layout.specs.Counter.{HasRisen};
ghost use Rattle.page_layout.specs.Recording.{EndsAt};
ghost use Rattle.page_layout.specs.DieCalls.{AsksOnly};
ghost use Rattle.page_layout.specs.Geometry.{row_count};
ghost use Rattle.page_layout.specs.declared.record.Key.TheVariants.{Sector};
ghost use Rattle.page_layout.specs.declared.record.Kind.TheVariants as kind;
ghost use Rattle.page_layout.specs.Array.{zeros};
ghost use Rattle.mapping_cache.specs.Mapping.{CanLoad, HasLimitsOf, slot_of};
ghost use Rattle.collection.specs.Pages.{newest_row};
ghost use Rattle.collection.specs.Safe.{IsSafe, ram, image_in, page_in_buffer};
ghost use Rattle.collection.specs.Left.{IsCalm, LeavesPin, PinIsFew};
ghost use Rattle.collection.specs.Acts.{RestsOrErases};
ghost use Rattle.collection.specs.Truth.{IsTrue};
ghost use Rattle.collection.specs.Settle.{HasNoMore};
ghost use Rattle.collection.specs.Looks.{FindsRow, IsReadFault};
ghost use Rattle.collection.specs.Results.{IsSame, Refused, fault_after};
ghost use Rattle.collection.specs.Collect.{KeepsKeys, IsRearranged, RoomRefused, RoomCounts};
ghost use Rattle.collection.specs.Room.{wanted};
ghost use Rattle.ftl_device.specs.Calls.{Knows, FindsNewestRow, CallRefused, HasMadeRoom};
ghost use Rattle.ftl_device.specs.Calls.{HasMadePlace, HasMadeRoomAndPlace};
ghost use Rattle.promises.specs.Step.{Write, Trim};
ghost use Rattle.budget.specs.Spending.{IsFunded};
ghost use Rattle.allocation.specs.State.{free_count};
ghost use Rattle.allocation.specs.Counts.{counts_of};
ghost use Rattle.ftl_device.specs.Flush.{KeepsClean};
ghost use Rattle.ftl_device.specs.Read.{HasWrittenBack, IsPrepared, IsLookedUp};
ghost use Rattle.ftl_device.specs.Shortage.{HasFunds, PlaceCosts, RoomCosts};
ghost use Rattle.ftl_device.specs.Changes.{EngineLeaves, EndsKept, EndsChange, Readies};

use crate::fault::CallFault;
use collection::{Engine, EngineFault, Reserve};
use onfi_cycles::Nand;

// Sees that there are free blocks enough for a call that programs, or for a flush.
pub(crate) fn make_room<N: Nand>(
    engine: &mut Engine<N>,
    reserve: Reserve,
    flushing: bool,
) -> Result<(), EngineFault>
    requires safe { IsSafe N.view.flash engine.old }
    requires flushes { flushing ≡ true → engine.old.mapping.share ≡ 0 }
    requires going { engine.old.fault ≡ None }
    requires calm { IsCalm (ram engine.old) }
    ensures leaves { EngineLeaves N.view engine.old result engine.new }
    ensures made { OnOk result (HasMadeRoom (wanted reserve (ram engine.old)) flushing (ram engine.old) (ram engine.new)) }
    ensures rests { wanted reserve (ram engine.old) ≤ free_count (ram engine.old).blocks → IsOk result × (engine.new ≡ engine.old) }
    ensures erases { OnOk result (RestsOrErases N.view.erases engine.old engine.new) }
    ensures keys { KeepsKeys engine.old.mapping engine.new.mapping }
    ensures cleans { flushing ≡ true → OnOk result (KeepsClean engine.old.geometry engine.old.mapping engine.new.mapping) }
    ensures truth { N.view.honest engine.old.nand ≡ true → Knows (ram engine.old) (image_in N.view.flash engine.old) →
        MatchResult result
        (λ _. IsRearranged (ram engine.old) (image_in N.view.flash engine.old) (ram engine.new) (image_in N.view.flash engine.new))
        (RoomRefused (ram engine.old) (image_in N.view.flash engine.old) (ram engine.new) (image_in N.view.flash engine.new)) }
    ensures pinned { N.view.honest engine.old.nand ≡ true → Knows (ram engine.old) (image_in N.view.flash engine.old) →
        MatchResult result
        (λ _. Knows (ram engine.new) (image_in N.view.flash engine.new))
        (λ fault. fault ≢ EngineFault.Bus → PinIsFew 0 (ram engine.new)) }
    ensures count { N.view.honest engine.old.nand ≡ true → Knows (ram engine.old) (image_in N.view.flash engine.old) →
        (failures : ℕ) → IsFunded engine.old.geometry.pages failures (counts_of (ram engine.old).blocks) →
        RoomCounts (wanted reserve (ram engine.old)) failures (ram engine.old) (ram engine.new) result }
{
    engine.make_room(reserve, flushing)
}

// Writes back the translation page of the least recently used sector, where caching this one would
// drop an entry that its page lacks.
fn make_place<N: Nand>(engine: &mut Engine<N>, sector: u32) -> Result<(), EngineFault>
    requires safe { IsSafe N.view.flash engine.old }
    requires going { engine.old.fault ≡ None }
    ensures leaves { EngineLeaves N.view engine.old result engine.new }
    ensures place { OnOk result (CanLoad engine.new.mapping sector) }
    ensures keys { keys_of engine.new.mapping.cached ≡ keys_of engine.old.mapping.cached }
    ensures beside { LeavesPin (ram engine.old) (ram engine.new) }
    ensures no_more { HasNoMore engine.old.mapping engine.new.mapping }
    ensures cost { OnOk result (HasMadePlace sector (ram engine.old) (ram engine.new)) }
    ensures mapping { OnOk result (HasWrittenBack engine.old.mapping engine.new.mapping) }
    ensures costs { PlaceCosts (ram engine.old) (ram engine.new) result }
    ensures truth { N.view.honest engine.old.nand ≡ true → IsTrue None (ram engine.old) (image_in N.view.flash engine.old) →
        MatchResult result
        (λ _. IsSame (ram engine.old) (image_in N.view.flash engine.old) (ram engine.new) (image_in N.view.flash engine.new))
        (Refused (ram engine.old) (image_in N.view.flash engine.old) (ram engine.new) (image_in N.view.flash engine.new)) }
{
    if engine.mapping.can_load(sector) {
        return Ok(());
    }
    match engine.mapping.least_recent() {
        Some((least, _)) => {
            let page = least / engine.geometry.entries();
            engine.write_back(page)
        }
        None => Ok(()),
    }
}

// The row of a sector's newest page. A fault stops the engine. Whatever the die does, the row is the one that
// memory has, or else the one that a sound translation page gives.
fn find_row<N: Nand>(engine: &mut Engine<N>, sector: u32) -> Result<Option<u32>, EngineFault>
    requires safe { IsSafe N.view.flash engine.old }
    requires going { engine.old.fault ≡ None }
    requires sector { sector < engine.old.geometry.sectors }
    ensures safe { IsSafe N.view.flash engine.new }
    ensures memory { ram engine.new ≡ record (ram engine.old) { fault = fault_after None result } }
    ensures honest { N.view.honest engine.new.nand ≡ N.view.honest engine.old.nand }
    ensures calm { N.view.calm engine.new.nand ≡ N.view.calm engine.old.nand }
    ensures asked { AsksOnly N.view.called engine.old.nand engine.new.nand }
    ensures failed { N.view.failed engine.old.nand ≤ N.view.failed engine.new.nand }
    ensures rose { result ≡ Err EngineFault.Bus → HasRisen (N.view.failed engine.old.nand) (N.view.failed engine.new.nand) }
    ensures faults { IfErr result IsReadFault }
    ensures checked { IfOk result (FindsRow (ram engine.old) sector (page_in_buffer engine.new.scratch)) }
    ensures row { IfOk result (λ row. ForSome row (λ r. r < row_count engine.old.geometry)) }
    ensures same { N.view.honest engine.old.nand ≡ true → result ≢ Err EngineFault.Bus → N.view.flash engine.new.nand ≡ N.view.flash engine.old.nand }
    ensures told { N.view.honest engine.old.nand ≡ true → result ≢ Err EngineFault.Bus → N.view.recorded engine.new.nand ≡ N.view.recorded engine.old.nand }
    ensures cut { N.view.honest engine.old.nand ≡ true → result ≡ Err EngineFault.Bus → EndsAt [] (N.view.recorded engine.old.nand) (N.view.recorded engine.new.nand) }
    ensures truth { N.view.honest engine.old.nand ≡ true → IsTrue None (ram engine.old) (image_in N.view.flash engine.old) →
        MatchResult result
        (λ row. row ≡ newest_row (image_in N.view.flash engine.old) (Sector sector))
        (λ fault. fault ≡ EngineFault.Bus) }
{
    match engine.row_of_sector(sector) {
        Ok(row) => Ok(row),
        Err(fault) => {
            engine.fault = Some(fault);
            Err(fault)
        }
    }
}

// Sees that there is room for the sector's page and a place for its entry, and finds the row that it
// has so far.
fn prepare<N: Nand>(engine: &mut Engine<N>, sector: u32) -> Result<Option<u32>, EngineFault>
    requires safe { IsSafe N.view.flash engine.old }
    requires going { engine.old.fault ≡ None }
    requires calm { IsCalm (ram engine.old) }
    requires sector { sector < engine.old.geometry.sectors }
    ensures leaves { EngineLeaves N.view engine.old result engine.new }
    ensures place { OnOk result (CanLoad engine.new.mapping sector) }
    ensures row { IfOk result (λ row. ForSome row (λ r. r < row_count engine.old.geometry)) }
    ensures checked { IfOk result (FindsRow (ram engine.new) sector (page_in_buffer engine.new.scratch)) }
    ensures prepared { OnOk result (IsPrepared (ram engine.old) engine.new.mapping) }
    ensures keys { keys_of engine.new.mapping.cached ≡ keys_of engine.old.mapping.cached }
    ensures limits { HasLimitsOf engine.old.mapping engine.new.mapping }
    ensures calm { OnOk result (IsCalm (ram engine.new)) }
    ensures pins { OnOk result (engine.old.pinned ≡ None → engine.new.pinned ≡ None) }
    ensures cost { OnOk result (HasMadeRoomAndPlace sector (ram engine.old) (ram engine.new)) }
    ensures costs { RoomCosts (HasFunds (N.view.honest engine.old.nand) (ram engine.old) (image_in N.view.flash engine.old)) 1
        (ram engine.old) (ram engine.new) result }
    ensures truth { N.view.honest engine.old.nand ≡ true → Knows (ram engine.old) (image_in N.view.flash engine.old) →
        MatchResult result
        (λ row. FindsNewestRow sector row engine.old.geometry (image_in N.view.flash engine.old) (ram engine.new) (image_in N.view.flash engine.new))
        (λ fault. CallRefused engine.old.geometry (image_in N.view.flash engine.old) (ram engine.new) (image_in N.view.flash engine.new) (CallFault.Engine fault)) }
{
    make_room(engine, Reserve::Call, false)?;
    make_place(engine, sector)?;
    find_row(engine, sector)
}

// Caches a sector before anything of it is programmed.
fn make_ready<N: Nand>(engine: &mut Engine<N>, sector: u32) -> Result<(), CallFault>
    requires safe { IsSafe N.view.flash engine.old }
    requires going { engine.old.fault ≡ None }
    requires calm { IsCalm (ram engine.old) }
    requires sector { sector < engine.old.geometry.sectors }
    ensures kept { EndsKept N.view engine.old result engine.new }
    ensures readies { Readies N.view sector 1 engine.old result engine.new }
    ensures holds { OnOk result (IsSome (slot_of engine.new.mapping sector)) }
    ensures checked { OnOk result (IsLookedUp sector (ram engine.old) (ram engine.new) (page_in_buffer engine.new.scratch)) }
    ensures cost { OnOk result (HasMadeRoomAndPlace sector (ram engine.old) (ram engine.new)) }
{
    let row = prepare(engine, sector)?;
    engine.cache_sector(sector, row)?;
    Ok(())
}

// Makes a sector ready and programs a page of it with this data area.
pub(crate) fn write_ready<N: Nand>(
    engine: &mut Engine<N>,
    sector: u32,
    body: &[u8],
) -> Result<(), CallFault>
    requires safe { IsSafe N.view.flash engine.old }
    requires going { engine.old.fault ≡ None }
    requires calm { IsCalm (ram engine.old) }
    requires sector { sector < engine.old.geometry.sectors }
    requires body { length body.now ≡ engine.old.geometry.data_bytes }
    ensures changes { EndsChange N.view kind.Sector sector body.now (Write sector body.now) engine.old result engine.new }
{
    make_ready(engine, sector)?;
    engine.write_sector(sector, body)?;
    Ok(())
}

// Makes a sector ready and programs a trim page of it.
pub(crate) fn trim_ready<N: Nand>(engine: &mut Engine<N>, sector: u32) -> Result<(), CallFault>
    requires safe { IsSafe N.view.flash engine.old }
    requires going { engine.old.fault ≡ None }
    requires calm { IsCalm (ram engine.old) }
    requires sector { sector < engine.old.geometry.sectors }
    ensures changes { EndsChange N.view kind.Trim sector (zeros engine.old.geometry) (Trim sector) engine.old result engine.new }
{
    make_ready(engine, sector)?;
    engine.trim_sector(sector)?;
    Ok(())
}
