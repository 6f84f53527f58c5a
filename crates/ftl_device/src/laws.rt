//! What a device begins with, and what it leaves between two calls.
ghost use Rattle.ftl_device.specs.Begin.{BeginLaw, FreeAsShownLaw, GoodByClaimLaw, BegunAccountsLaw};
ghost use Rattle.ftl_device.specs.Calls.{OneKindLaw, WriteOrTrimLaw, StaleLaw, RestartLaw, LeftBelowLaw, TurnsLaw};
ghost use Rattle.ftl_device.specs.FlushSteps.{CleanFlushLaw, FailedFlushLaw, LackingPageLaw};
ghost use Rattle.ftl_device.specs.Counts.{FreeNowLaw, GoodNowLaw, BadNowLaw, ShortOfBlocksLaw};
ghost use Rattle.ftl_device.specs.Shortage.{LeavesFiveLaw, TablesLeaveLaw};
ghost use Rattle.ftl_device.specs.Renewed.{NoneOldLaw, StaysNewLaw, BroughtForwardLaw};
ghost use Rattle.ftl_device.specs.Stopped.{QuietStopLaw, RefusedStopLaw, MountsStopLaw, AnsweredStaysLaw, QuietCutLaw, OtherSectorCutLaw};
ghost use Rattle.ftl_device.specs.Migrate.{OneFoundLaw, GoesOnLaw};
ghost use Rattle.ftl_device.specs.Brings.{CountedLaw, LowestRowLaw};
ghost use Rattle.ftl_device.specs.Flush.{NoEntryStaleLaw, AnywhereLaw, ShownBadLaw, ShownWearLaw};

use onfi_cycles::Nand;

/// An accepted certificate gives a memory that agrees with the image, the good and the free blocks
/// that the image shows, and the accounts with which a log begins. (This project.)
pub fn begin_laws()
    ensures truth { BeginLaw }
    ensures free { FreeAsShownLaw }
    ensures good { GoodByClaimLaw }
    ensures accounts { BegunAccountsLaw }
{}

/// A sector that is stale in the image is cached, where none is moved, so caching it takes no memory;
/// and what a device holds between two calls is an image that it may be started from again. (This
/// project.)
pub fn restart_laws()
    ensures stale { StaleLaw }
    ensures restart { RestartLaw }
{}

/// What is left of the collection under way is less than a block's pages, unless the device is
/// read-only. So of as many turns in a row as a block has pages, each of them what `turn` says of one
/// without a failure, one erases a block or changes nothing. (This project.)
pub fn turn_laws<N: Nand>()
    ensures below { LeftBelowLaw N.view.flash }
    ensures turns { TurnsLaw N.view }
{}

/// At every call: the good and the free blocks of a memory that agrees with the image are those that
/// the image shows, a log leaves bad those that were bad and those that failed in it, and where the
/// memory has fewer than five free blocks, the image and the log have too, with the same counts. (This
/// project.)
pub fn count_laws()
    ensures free { FreeNowLaw }
    ensures good { GoodNowLaw }
    ensures bad { BadNowLaw }
    ensures short { ShortOfBlocksLaw }
{}

/// What an image is worth where no sector waits for its translation page and each newest table page
/// spells the table in memory: no entry is stale, it has a certificate at every capacity, it shows
/// just the blocks as bad that the memory counts as bad, and their erase counts. (This project.)
pub fn flushed_laws()
    ensures fresh { NoEntryStaleLaw }
    ensures anywhere { AnywhereLaw }
    ensures bad { ShownBadLaw }
    ensures wear { ShownWearLaw }
{}

/// What calls program: a write programs no page that a trim might have programmed, and its page has the
/// bytes that were written; and a flush of a device that lacks no row, with as many free blocks as it wants, programs
/// each table page once and nothing else, where no block fails, and twice where one does; and a
/// translation page that lacks a row is programmed once. (This project.)
pub fn program_laws<N: Nand>()
    ensures kind { OneKindLaw }
    ensures apart { WriteOrTrimLaw }
    ensures clean { CleanFlushLaw N.view }
    ensures again { FailedFlushLaw N.view }
    ensures lacking { LackingPageLaw N.view }
{}

/// What a call that begins with nine free blocks leaves: five, unless three blocks fail in it; and the
/// table pages that a flush writes five, unless two fail meanwhile, and four, unless three do. (This
/// project.)
pub fn shortage_laws()
    ensures five { LeavesFiveLaw }
    ensures tables { TablesLeaveLaw }
{}

/// A look for pages of version 1 has one answer: what it finds is said of one row alone, or of none. And it
/// goes on: while such a page stands in a row from the cursor on, the first of these rows is the one that is
/// found. (This project.)
pub fn migrate_laws()
    ensures one { OneFoundLaw }
    ensures goes_on { GoesOnLaw }
{}

/// How many calls of `migrate_one` answered `true`, one after another, from one device on: where nine blocks
/// are free as each begins, the image that they leave tells it. So no two of them are one, and none is two.
/// And a turn rescues the page of lowest row, where a bad block holds a newest page and nine are free. (This project.)
pub fn brought_laws<N: Nand>()
    ensures counted { CountedLaw N.view }
    ensures lowest { LowestRowLaw N.view }
{}

/// What a stop inside a call leaves: a read, a flush and a turn change no sector, nor does a command
/// that is refused; the image mounts for as many stale sectors as a device leaves at most;
/// and what a write was answered Done for stays, where a later write of another sector is stopped. And what
/// a fault of the die leaves that ends a call: a read, a flush and a turn change no sector, and a write none
/// but its own. (This project.)
pub fn stopped_laws()
    ensures quiet { QuietStopLaw }
    ensures refused { RefusedStopLaw }
    ensures mounts { MountsStopLaw }
    ensures stays { AnsweredStaysLaw }
    ensures quiet_cut { QuietCutLaw }
    ensures other_cut { OtherSectorCutLaw }
{}

/// After `migrate_one` answered `false` no newest page is of version 1, but table pages; and after a later
/// flush that was done none is, nor after any call that comes then, whatever calls came in between. None
/// is old just where the count of such pages is 0. (This project.)
pub fn renewed_laws()
    ensures none { NoneOldLaw }
    ensures stays { StaysNewLaw }
    ensures forward { BroughtForwardLaw }
{}
