//! Laws on what the engine and the device promise of a call: which block is collected and when, what a turn does first, what a read leaves, and
//! what one log says. They stand in no crate that others rest on, so that a new one has nothing proved again.
#![tactic(auto)]

ghost use Rattle.device_laws.specs.Collections.{VictimLaw, PinnedFirstLaw, NoneWaitsLaw, LowestPageLaw, FiveFreeBlocksLaw, AilingLaw, LessLeftLaw};
ghost use Rattle.device_laws.specs.Logs.{NothingLaw, LedLaw, TakesLaw, RisesLaw, LegalCallLaw};
ghost use Rattle.device_laws.specs.Turns.{TurnGoesOnLaw, BeginsLaw, RescueFirstLaw};
ghost use Rattle.device_laws.specs.Reads.{KeepsRowsLaw, RefusedReadLaw, ReadFaultsLaw};
ghost use Rattle.device_laws.specs.Brought.{CountedByLaw, FewProgramsLaw, OneRenewedLaw, RoomLogLaw};
ghost use Rattle.device_laws.specs.FlushOrder.{HighestLastLaw, LastTableLaw, SpelledTableLaw};
ghost use Rattle.device_laws.specs.Flushes.{NoneStaleLaw, NoTableOldLaw, OneFailureLaw, ShownShortLaw, CallFailuresLaw};

use onfi_cycles::Nand;

/// Which block is collected for a call: the pinned one, and else a closed one of the fewest newest pages, with fewer than nine blocks free. As
/// it is erased no sector is on the moved list; translation pages are written lowest first, and only those that have to be; room is five free
/// blocks, and nine where a block is worth collecting. Each step of a collection but its last leaves less to do. (This project.)
pub fn collection_laws()
    ensures victim { VictimLaw }
    ensures pinned { PinnedFirstLaw }
    ensures waits { NoneWaitsLaw }
    ensures lowest { LowestPageLaw }
    ensures room { FiveFreeBlocksLaw }
    ensures ailing { AilingLaw }
    ensures less { LessLeftLaw }
{}

/// What went on in a call is one log: it leads from the flash before it to the flash after it, it is legal, each program takes the next sequence,
/// which its page has, and where it is empty nothing has changed. (This project.)
pub fn log_laws()
    ensures nothing { NothingLaw }
    ensures led { LedLaw }
    ensures takes { TakesLaw }
    ensures rises { RisesLaw }
    ensures legal { LegalCallLaw }
{}

/// What a turn does: it goes on with the pinned block; it begins a collection only with fewer than twelve blocks free, from page 0 of the next
/// victim; and while a bad block holds a newest page it collects none. (This project.)
pub fn turn_laws()
    ensures on { TurnGoesOnLaw }
    ensures begins { BeginsLaw }
    ensures rescue { RescueFirstLaw }
{}

/// What a read leaves: no row is lost that a translation page lacks, and one that is refused leaves memory as it was, unless the die failed. It
/// is refused for its sector's number, for damage or by the die alone. (This project.)
pub fn read_laws()
    ensures rows { KeepsRowsLaw }
    ensures refused { RefusedReadLaw }
    ensures faults { ReadFaultsLaw }
{}

/// What a flush and a shortage are: after a flush that is done no sector is stale, and no table page of version 1 where the die has version 2; one
/// block that failed in it leaves no device read-only; and `ReadOnly` comes in a shortage alone, with the failures of its own call. (This
/// project.)
pub fn flush_laws()
    ensures stale { NoneStaleLaw }
    ensures tables { NoTableOldLaw }
    ensures one { OneFailureLaw }
    ensures short { ShownShortLaw }
    ensures failures { CallFailuresLaw }
{}

/// In which order a flush programs its pages, whatever the die does: of the first translation pages the highest that lacks a row is last, while free
/// blocks are left for each; and the last table page is last of all. A table page spells the table as it is then. (This project.)
pub fn order_laws<N: Nand>()
    ensures highest { HighestLastLaw N.view }
    ensures last { LastTableLaw N.view }
    ensures spelled { SpelledTableLaw N.view }
{}

/// How many calls of `migrate_one` answered `true`, one after another, from one device on, also where room had to be made for them: the image
/// that they leave tells it, with the pages of version 1 that each call's room left where they were. With nine blocks free such a call
/// programs two pages at most, beside those that fail, and renews the page that was found. The log of making room leads from die to die. (This project.)
pub fn brought_laws<N: Nand>()
    ensures counted { CountedByLaw N.view }
    ensures few { FewProgramsLaw }
    ensures renewed { OneRenewedLaw N.view }
    ensures room { RoomLogLaw N.view }
{}
