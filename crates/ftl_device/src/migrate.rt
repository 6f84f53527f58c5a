//! Pages of version 1 are brought forward, one a call.
ghost use Rattle.std.specs.Prelude.{◌≡◌, ◌≢◌, ◌<◌, ◌≤◌, true, false, Ok, Err, None, is_some, IfOk, IfErr, OnOk, MatchResult};
ghost use Rattle.std.specs.Option.{ForSome};
ghost use Rattle.promises.specs.Step.{Turn};
ghost use Rattle.page_layout.specs.Geometry.{row_count};
ghost use Rattle.page_layout.specs.OnlyReads.{OnlyReads};
ghost use Rattle.collection.specs.Safe.{IsSafe, ram, image_in};
ghost use Rattle.collection.specs.Left.{IsCalm};
ghost use Rattle.collection.specs.Looks.{IsReadFault};
ghost use Rattle.allocation.specs.State.{free_count};
ghost use Rattle.ftl_device.specs.Device.{IsDevice};
ghost use Rattle.ftl_device.specs.Calls.{IsWell, Knows};
ghost use Rattle.ftl_device.specs.Changes.{EngineLeaves, EndsKept, Upkeeps};
ghost use Rattle.ftl_device.specs.Shortage.{HasFunds, CallShort};
ghost use Rattle.ftl_device.specs.Migrate.{ended, Renews, Migrates, FindsFrom, HasMovedOn};
ghost use Rattle.ftl_device.specs.Brings.{BringsOne, BringsPage, HasBrought};

use crate::device::Device;
use crate::fault::{CallFault, DeviceFault};
use crate::ready::make_room;
use collection::{Engine, EngineFault, Reserve};
use onfi_cycles::Nand;

// The least spare area that has room for a record of version 2.
const SPARE_FOR_VERSION_2: usize = 40;

// Makes room; then copies the page of a row, where it still has to be renewed.
fn renew_ready<N: Nand>(engine: &mut Engine<N>, row: u32) -> Result<(), CallFault>
    requires safe { IsSafe N.view.flash engine.old }
    requires going { engine.old.fault ≡ None }
    requires calm { IsCalm (ram engine.old) }
    requires row { row < row_count engine.old.geometry }
    ensures kept { EndsKept N.view engine.old result engine.new }
    ensures memory { result ≢ Err CallFault.OutOfMemory }
    ensures count { HasFunds (N.view.honest engine.old.nand) (ram engine.old) (image_in N.view.flash engine.old) →
        5 ≤ free_count (ram engine.old).blocks → CallShort (ram engine.old) (ram engine.new) result }
    ensures renews { N.view.honest engine.old.nand ≡ true → Knows (ram engine.old) (image_in N.view.flash engine.old) →
        OnOk result (Renews row engine.old.geometry (image_in N.view.flash engine.old) (image_in N.view.flash engine.new)) }
    ensures brought { OnOk result (HasBrought (ram engine.old) (ram engine.new)) }
    ensures brings { N.view.honest engine.old.nand ≡ true → Knows (ram engine.old) (image_in N.view.flash engine.old) →
        OnOk result (BringsPage N.view row engine.old engine.new) }
{
    make_room(engine, Reserve::Call, false)?;
    engine.renew_at(row)?;
    Ok(())
}

// The next row, from a cursor on, whose page has to be renewed; where none is left there, the first one of
// all. The die is only read.
fn next_from<N: Nand>(engine: &mut Engine<N>, cursor: u32) -> Result<Option<u32>, EngineFault>
    requires safe { IsSafe N.view.flash engine.old }
    requires going { engine.old.fault ≡ None }
    ensures leaves { EngineLeaves N.view engine.old result engine.new }
    ensures only_reads { OnlyReads N.view engine.old.nand engine.new.nand }
    ensures still { ram engine.new ≡ record (ram engine.old) { fault = engine.new.fault } }
    ensures same { N.view.honest engine.old.nand ≡ true → OnOk result (N.view.flash engine.new.nand ≡ N.view.flash engine.old.nand) }
    ensures faults { IfErr result IsReadFault }
    ensures row { IfOk result (λ found. ForSome found (λ row. row < row_count engine.old.geometry)) }
    ensures truth { N.view.honest engine.old.nand ≡ true → Knows (ram engine.old) (image_in N.view.flash engine.old) →
        MatchResult result
        (FindsFrom cursor (image_in N.view.flash engine.old))
        (λ fault. fault ≡ EngineFault.Bus) }
{
    let ahead = engine.next_old(cursor)?;
    if ahead.is_some() || cursor == 0 {
        return Ok(ahead);
    }
    engine.next_old(0)
}

// Looks on from a cursor for a page that has to be renewed, and renews it. Tells its row, if there was
// one.
fn migrate_ready<N: Nand>(
    engine: &mut Engine<N>,
    cursor: u32,
    found: &mut Option<u32>,
) -> Result<(), CallFault>
    requires safe { IsSafe N.view.flash engine.old }
    requires going { engine.old.fault ≡ None }
    requires calm { IsCalm (ram engine.old) }
    ensures kept { EndsKept N.view engine.old result engine.new }
    ensures memory { result ≢ Err CallFault.OutOfMemory }
    ensures count { HasFunds (N.view.honest engine.old.nand) (ram engine.old) (image_in N.view.flash engine.old) →
        5 ≤ free_count (ram engine.old).blocks → CallShort (ram engine.old) (ram engine.new) result }
    ensures rests { OnOk result (found.new ≡ None →
        OnlyReads N.view engine.old.nand engine.new.nand) }
    ensures migrates { N.view.honest engine.old.nand ≡ true → Knows (ram engine.old) (image_in N.view.flash engine.old) →
        OnOk result (Migrates (is_some found.new) engine.old.geometry (image_in N.view.flash engine.old) (image_in N.view.flash engine.new)) }
    ensures row { OnOk result (ForSome found.new (λ row. row < row_count engine.old.geometry)) }
    ensures brought { OnOk result (ForSome found.new (λ _. HasBrought (ram engine.old) (ram engine.new))) }
    ensures brings { N.view.honest engine.old.nand ≡ true → Knows (ram engine.old) (image_in N.view.flash engine.old) →
        OnOk result (ForSome found.new (λ row. BringsPage N.view row engine.old engine.new)) }
    ensures next { N.view.honest engine.old.nand ≡ true → Knows (ram engine.old) (image_in N.view.flash engine.old) →
        OnOk result (FindsFrom cursor (image_in N.view.flash engine.old) found.new) }
{
    let next = next_from(engine, cursor)?;
    let Some(row) = next else {
        *found = None;
        return Ok(());
    };
    *found = Some(row);
    renew_ready(engine, row)
}

impl<N: Nand> Device<N> {
    /// Brings one page of version 1 forward, where the die has room for records of version 2. It looks for
    /// newest pages of sectors and translation pages that are of version 1, from a cursor on: a start sets
    /// it to row 0. Where none is left from there to the last row, it looks once more, from row 0 on. Room
    /// is made as by `write` for the first page found. Then, where that page still is the newest, it is
    /// copied as a rescue copies one, in version 2; where its sector is then moved and not cached, its
    /// translation page is written back. The answer is whether there was such a page; the cursor then is
    /// the row after it, and else stays. With none nothing is programmed or erased. Table pages are left
    /// to the next flush, which writes all of them anew.
    ///
    /// Where the die is honest and has room for version 2, each `true` leaves fewer newest pages of
    /// version 1, and `false` leaves none but table pages. Where the spare areas have fewer than 40
    /// bytes nothing is looked for, and the answer is `false`.
    ///
    /// # Errors
    ///
    /// Those of `turn`, as there; the cursor stays. (This project.)
    pub fn migrate_one(&mut self) -> Result<bool, DeviceFault>
        requires device { IsDevice N.view.flash self.old }
        ensures device { IsDevice N.view.flash self.new }
        ensures geometry { self.new.engine.geometry ≡ self.old.engine.geometry }
        ensures upkeeps { Upkeeps N.view Turn self.old (ended result) self.new }
        ensures small { self.old.engine.geometry.spare_bytes < 40 → (self.new ≡ self.old) × IfOk result (λ found. found ≡ false) }
        ensures rests { IfOk result (λ found. found ≡ false →
            OnlyReads N.view self.old.engine.nand self.new.engine.nand) }
        ensures migrates { N.view.honest self.old.engine.nand ≡ true → IsWell N.view.flash self.old → 40 ≤ self.old.engine.geometry.spare_bytes →
            IfOk result (λ found. Migrates found self.old.engine.geometry (image_in N.view.flash self.old.engine) (image_in N.view.flash self.new.engine)) }
        ensures brought { result ≡ Ok true → HasBrought (ram self.old.engine) (ram self.new.engine) }
        ensures brings { N.view.honest self.old.engine.nand ≡ true → IsWell N.view.flash self.old → result ≡ Ok true →
            BringsOne N.view self.old self.new }
        ensures stays { result ≢ Ok true → self.new.cursor ≡ self.old.cursor }
        ensures moves_on { N.view.honest self.old.engine.nand ≡ true → IsWell N.view.flash self.old → result ≡ Ok true →
            HasMovedOn self.old.cursor (image_in N.view.flash self.old.engine) self.new.cursor }
    {
        self.may_flush()?;
        if self.engine.geometry.spare_bytes() < SPARE_FOR_VERSION_2 {
            return Ok(false);
        }
        let good = self.engine.blocks.good();
        let mut found = None;
        let answer = migrate_ready(&mut self.engine, self.cursor, &mut found);
        self.finish(good, answer)?;
        let Some(row) = found else {
            return Ok(false);
        };
        self.cursor = row + 1;
        Ok(true)
    }
}
