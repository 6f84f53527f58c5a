//! Laws on what is left of a disk where its server is killed, or the host loses power, in the middle of its calls. They stand in no crate that others rest on, so that a new one
//! has nothing proved again. Each function does nothing: its contract is the law.
#![tactic(auto)]

ghost use Rattle.disk_laws.specs.AskedRuns.{AsksDriverLaw, RunAsksLaw};
ghost use Rattle.disk_laws.specs.Cut.{CutCallLaw, CutCallLeavesLaw, DiskFaultLaw, FaultIsCutLaw, StoreCutLaw, StoreCutLosesLaw, ToldCutLaw};
ghost use Rattle.disk_laws.specs.Lost.{LostAfterEraseLaw, AllGoneLaw, AllThereLaw};
ghost use Rattle.disk_laws.specs.Driven.{DriverLosesLaw, DriverStopsLaw, DriverTellsLaw, StopLosesLaw};
ghost use Rattle.disk_laws.specs.StoreLost.{StoreLosesLaw};
ghost use Rattle.disk_laws.specs.StoreRuns.{StoreRunLaw};
ghost use Rattle.disk_laws.specs.Runs.{CutLeavesLaw, KilledRunLaw, LostRunLaw, OnTheWayLaw, OneCallLaw, SessionLaw};
ghost use Rattle.disk_laws.specs.Served.{ClosedSessionLaw, ServedSessionLaw};
ghost use Rattle.disk_laws.specs.Sessions.{ReopenedSessionLaw, StoreSessionLaw};
ghost use Rattle.disk_laws.specs.Killed.{FoundAsItWasLaw, FoundTornLaw, KilledChangeLaw, KilledFlushLaw, KilledTurnLaw, StoreTellsLaw};
ghost use Rattle.disk_laws.specs.Spared.{AllMarkedLaw, CutSparesLaw, LaterMarkLaw, OpeningSparesLaw, UnmarkedBehindLaw};
ghost use Rattle.disk_laws.specs.Spared.{KilledOpenedLaw, KilledSparesLaw, LostCutLaw, LostOpenedLaw, OwnMarkLaw};

mod device_calls;
mod driver_calls;
mod opened_calls;

pub use device_calls::{migrate_one_of, read_sector_of};
use disk_server::{KeepsLost, Sectors, Syncs};
pub use driver_calls::{erase_stored, program_stored, read_stored, start_stored};
use file_die::{FileDie, Store, TellsFull};
use onfi_cycles::{Driver, Nand};
pub use opened_calls::open_clear;
use page_layout::source::PageSource;

/// What is found of a disk whose server is killed inside a call, or whose die is stopped in it, where the device still holds its array after the whole call: the die's pages at each moment mount, with the bytes
/// from before the call; or, of a change that was done, from after it. A flush and a turn lose nothing. It is said by what the record of the die gained. (This project's.)
pub fn kill_laws<N: Nand>()
    ensures change { KilledChangeLaw N.view }
    ensures flush { KilledFlushLaw N.view }
    ensures turn { KilledTurnLaw N.view }
    ensures as_it_was { FoundAsItWasLaw N.view }
    ensures torn { FoundTornLaw N.view }
{}

/// The die over any store tells a record at each moment, and its pages are the store's: so what `kill_laws` says of a die is said of the pages of a store. (This project's.)
pub fn store_laws<S: Store>()
    ensures { StoreTellsLaw S.held ⟦<Driver<FileDie<S>> as PageSource>⟧.view.recorded }
{}

/// What a loss of power may leave of a die whose erases stand between two syncs, against what a kill may: all that a kill may leave, and more before the first erase; behind an erase nothing that was there as it ended is
/// lost. What lasts of a store whose die goes on by cycles that are done, each program of a row without a record, is what may be left so. (This project.)
pub fn loss_laws()
    ensures there { AllThereLaw }
    ensures erased { LostAfterEraseLaw }
    ensures gone { AllGoneLaw }
    ensures store { StoreLosesLaw }
{}

/// What is found of a disk where calls of its device, one after another, are cut short at any moment: all that a session asks is such calls. Killed, or stopped: it mounts, and each call that had ended is in it, and the one at hand whole or not at all. After a
/// loss of power, since all pages lasted: it is one array, each sector has the bytes that it had then or after one of the calls since (`way`), and it mounts with each cache that has room for what is stale. It is said of a device
/// that holds its array through each call, by what the record of its die gained. And in all of these calls its die is asked by calls of it alone, whatever it does: each says which, one after another. (This project.)
pub fn run_laws<N: Nand>()
    ensures one { OneCallLaw N.view }
    ensures session { SessionLaw N.view }
    ensures killed { KilledRunLaw N.view }
    ensures cut { CutLeavesLaw N.view }
    ensures lost { LostRunLaw N.view }
    ensures way { OnTheWayLaw N.view }
    ensures asks { RunAsksLaw N.view }
{}

/// Of which images a cut spares each newest page, whatever their blocks show: of one all of whose pages are marked; and of none in which a newest page that is not marked stands behind one without a record. What an opening takes
/// away of such an image, whole or as far as it came, however often it is killed: none that counts, and what is left is such an image. (This project.)
pub fn spared_laws()
    ensures marked { AllMarkedLaw }
    ensures later { LaterMarkLaw }
    ensures cut { CutSparesLaw }
    ensures unmarked { UnmarkedBehindLaw }
    ensures opening { OpeningSparesLaw }
{}

/// What a disk is once it is opened again, where calls of its device were cut short: what is torn is cut back or erased again, by a mark that was told as the calls began or earlier. Killed: the pages that are left stand for those
/// that were found, so each call that had ended is in them, and the one at hand whole or not at all, also where openings are killed. After a loss of power, since all pages lasted: they are as `run_laws` says of what was found. It is said of a
/// device that holds its array through each call. (This project.)
pub fn opened_laws<N: Nand>()
    ensures own { OwnMarkLaw N.view }
    ensures spares { KilledSparesLaw N.view }
    ensures killed { KilledOpenedLaw N.view }
    ensures lost_cut { LostCutLaw N.view }
    ensures lost { LostOpenedLaw N.view }
{}

/// What a session asks of the disk in a store, whose lost sectors are guarded, and which is opened anew where its store was full: as long as it was not opened anew and its device is there, that was there from the first, and
/// all that was asked of it is calls one after another, of which `run_laws` speaks. (This project.)
pub fn session_laws<S: Store + TellsFull, K: KeepsLost>()
    ensures reopened { ReopenedSessionLaw S.held S.honest S.full S.failed }
    ensures store { StoreSessionLaw K S.held S.honest S.full S.failed }
{}

/// What a server asks of its device of sectors (`serve_synced`), in a session with one client and as it closes the disk behind that: reads and changes of sectors, flushes and rests, one after another, and nothing else. (This
/// project.)
pub fn served_laws<S: Sectors, Y: Syncs>()
    ensures served { ServedSessionLaw S.contents S.honest S.reads S.changes S.flushes S.rests Y.synced Y.failed Y.marked S.next }
    ensures closed { ClosedSessionLaw S.contents S.honest S.reads S.changes S.flushes S.rests Y.synced Y.failed Y.marked S.next S.takes }
{}

/// What the record of a driver tells of the store of its die, where its programs and erases, one after another, are answered `Ok`, and its reads with any answer, by what its contract says of them: it gains just the operations of these
/// calls; and what lasts of an honest store, since all of its pages did, is what a loss of power may leave by these operations, as long as each page is programmed where none has a record, and no erase fails. A call behind them that the
/// store refused leaves pages that a stop in it may leave, and of what lasts what a loss of power may. All that the die in an honest store is asked, call by call, is such calls of its driver, where nothing
/// is at hand in the record behind them. So where the power goes between two of these, in calls of a device since all pages lasted, what lasts of its store is what `run_laws` says of the disk. (This project.)
pub fn driver_laws<S: Store>()
    ensures tells { DriverTellsLaw S.held S.honest S.failed }
    ensures loses { DriverLosesLaw S.held S.honest S.failed }
    ensures stops { DriverStopsLaw S.held S.honest S.failed }
    ensures stop_loses { StopLosesLaw S.held S.honest S.failed }
    ensures asks { AsksDriverLaw S.held S.honest S.failed }
    ensures run { StoreRunLaw S.held S.honest S.failed }
{}

/// What is found of a disk where a fault of its die ended a call of its device, behind other calls: a write, a trim, a flush, a turn, a migration or a read. What that did, and what it had at hand, the record of the die tells, and that nothing was
/// programmed or erased behind it; whatever the die is left with by this mounts, and each call that had ended is in it, and the one at hand whole or not at all. A read and a migration are such calls by `read_sector_of` and `migrate_one_of`. (This project.)
pub fn cut_laws<N: Nand>()
    ensures disk { DiskFaultLaw N.view }
    ensures fault { FaultIsCutLaw N.view }
    ensures call { CutCallLaw N.view }
    ensures leaves { CutCallLeavesLaw N.view }
{}

/// The same of a disk in a store: what the record tells is just what the driver did and what the file refused it, and behind that the driver only read. So the store's pages, as the device answers with the fault, are such an image: it mounts, and has
/// the array from before the call, or the one after it. What lasts of them, where the power goes then, is what a loss of power may leave by the same operations, as long as each of those programs a page without a record, and no erase fails. Nothing
/// is taken for granted of what the device asked its driver in that call: its contract says it. A device as it was opened is one of these (`open_clear`). (This project.)
pub fn store_cut_laws<S: Store>()
    ensures told { ToldCutLaw S.held S.honest S.failed }
    ensures store { StoreCutLaw S.held S.honest S.failed }
    ensures loses { StoreCutLosesLaw S.held S.honest S.failed }
{}
