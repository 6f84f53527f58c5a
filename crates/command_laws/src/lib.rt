//! Laws on what the commands of the program promise: which bytes were looked at, which are stored, and what is told; and on the turns of a run. They
//! stand in no crate that others rest on, so that a new one has nothing proved again.
#![tactic(auto)]

ghost use Rattle.command_laws.specs.Records.{ServedTellsLaw};
ghost use Rattle.command_laws.specs.Rescues.{NoGainLaw, NoneAilsLaw, RescuedEventLaw};
ghost use Rattle.command_laws.specs.Queued.{RefusedBytesLaw, OtherCommandBytesLaw};
ghost use Rattle.command_laws.specs.Loads.{KnownLaw, InputLaw};
ghost use Rattle.command_laws.specs.Images.{HeldCertificateLaw, OtherGeometryLaw, OnlyOtherLaw, AcceptedAsAskedLaw, ClaimSpelledLaw, FormatStoresLaw, ServerStoresLaw};
ghost use Rattle.commands.specs.Serve.{driver_view};
ghost use Rattle.command_laws.specs.Migrations.{CallsCountedLaw, MigratedLaw, FirstBringsLowestLaw, NumberLaw, SettledLaw, EndsShortLaw, MigrateDoneLaw, MigrateStopsLaw};
ghost use Rattle.command_laws.specs.Lines.{ToldLaw, WholeLineLaw, UnprintedLaw, FailedStoreLaw, StoresInOrderLaw, UnstoredLaw};
ghost use Rattle.command_laws.specs.Refusals.{CapacityLaw, InputKeptLaw, RowPastDieLaw, SectorPastLastLaw, StopToldLaw, TooFewGoodLaw, UnreadFileLaw};

use commands::FileStore;

/// Where a store of files tells what its readers give, the bytes of an opened file are known, and a load of its path may answer them; and the
/// bytes that a format reads are what a load of its file answered. (This project.)
pub fn file_laws<F: FileStore>()
    ensures known { KnownLaw F.gives F.tells }
    ensures input { InputLaw F.gives }
{}

/// A certificate that was held against an image agrees with it, and the image is whole; of one of another geometry that alone is told, and of no other; its claim spells the bytes that were read; and what a
/// format or a server stores are the bytes of its die's pages. (This project.)
pub fn image_laws()
    ensures held { HeldCertificateLaw }
    ensures other { OtherGeometryLaw }
    ensures only { OnlyOtherLaw }
    ensures accepted { AcceptedAsAskedLaw }
    ensures spelled { ClaimSpelledLaw }
    ensures formatted { FormatStoresLaw }
    ensures served { ServerStoresLaw }
{}

/// Of the line of a fault a part stands where it could not be written, and the status is the fault's or 3; a line that stands there whole has its fault's
/// status, and none that does is told as unprinted; a store that failed is told as not done, stores stand in their order, and a server that was stopped is
/// not told as done. (This project.)
pub fn line_laws()
    ensures told { ToldLaw }
    ensures whole { WholeLineLaw }
    ensures unprinted { UnprintedLaw }
    ensures failed { FailedStoreLaw }
    ensures order { StoresInOrderLaw }
    ensures stopped { UnstoredLaw }
{}

/// What a migration makes of a die in memory: the array stays, the image mounts, and nothing failed; where no call was refused no newest page is of version 1
/// and none is stale; how it ends short; the number of calls that brought a page forward is no more than the pages of version 1, and the first
/// one brings that of lowest row; and they have one number, where nine blocks are free as each begins. (This project.)
pub fn migration_laws()
    ensures migrated { MigratedLaw }
    ensures settled { SettledLaw }
    ensures short { EndsShortLaw }
    ensures number { NumberLaw }
    ensures first { FirstBringsLowestLaw }
    ensures calls { CallsCountedLaw driver_view }
{}

/// What the command stores: an image with the array of the one that it read, brought forward where the command is done. (This project.)
pub fn migrate_laws<F: FileStore>()
    ensures done { MigrateDoneLaw F.gives }
    ensures stops { MigrateStopsLaw F.gives }
{}

/// What a turn does for bad blocks: none of them gains a newest page, and one that programs and erases nothing found none in them; so of each turn in
/// a run. (This project.)
pub fn rescue_laws()
    ensures gain { NoGainLaw }
    ensures ails { NoneAilsLaw }
    ensures run { RescuedEventLaw }
{}

/// What a call of a queue leaves of the bytes that it was handed: only a read that is done changes them. (This project.)
pub fn queue_laws()
    ensures refused { RefusedBytesLaw }
    ensures other { OtherCommandBytesLaw }
{}

/// The driver of the die that the program serves tells a record of what it did, at each moment. (This project.)
pub fn record_laws()
    ensures served { ServedTellsLaw }
{}

/// What a refusal says of what the command was given: the row or the sector that was asked for is past the last, the good blocks are too few, the
/// capacity is 0 or above 65536, the file may not be read; and what stopped a server is what it tells. (This project.)
pub fn refusal_laws<F: FileStore>()
    ensures row { RowPastDieLaw F.gives }
    ensures sector { SectorPastLastLaw F.gives }
    ensures good { TooFewGoodLaw F.gives }
    ensures capacity { CapacityLaw F.gives }
    ensures unread { UnreadFileLaw F.gives }
    ensures stopped { StopToldLaw F.gives }
{}

/// A run leaves standard input as it was, unless it is one of `serve`. (This project.)
pub fn input_laws<F: FileStore>()
    ensures kept { InputKeptLaw F.gives }
{}
