//! What turns in a row come to, and what a call is told.
ghost use Rattle.command_queue.specs.Turns.{TurnsInARowLaw, QuietTurnLaw, QuietEventLaw};
ghost use Rattle.command_queue.specs.Tells.{ToldProgramsLaw};
ghost use Rattle.command_queue.specs.Asked.{ToldAskedLaw, AskedJoinLaw, AskedRunLaw, AskedForwardLaw};
ghost use Rattle.command_queue.specs.Events.{EventTellsLaw, RunStopsLaw, RunRecordsLaw, StaleMemoryLaw, QuietMemoryLaw};
ghost use Rattle.command_queue.specs.Events.{ReadOnlyEventLaw, SpentEventLaw, LeftEventLaw, FlushEventLaw, ReadEventLaw, PinEventLaw, ImageEventLaw};

use onfi_cycles::Nand;

/// Of as many turns in a row as a block has pages, all done and without a failure, begun while no bad
/// block held a newest page, one erases a block or finds nothing to do. And a turn that is done, programs
/// nothing and erases nothing leaves twelve free blocks, where three more are good than the geometry asks
/// for: by the die's count of erases, and by the log of a run. (This project.)
pub fn turn_run_laws<N: Nand>()
    ensures row { TurnsInARowLaw N.view }
    ensures quiet { QuietTurnLaw N.view }
    ensures event { QuietEventLaw }
{}

/// What a flush, a write and a trim program that are done is told of the call. (This project.)
pub fn told_laws<N: Nand>()
    ensures programs { ToldProgramsLaw N.view }
{}

/// Calls of a device one after another, commands that it was told and calls of `migrate_one` in any order:
/// what `run` was told is such a list, and two of them in a row are one. Where the die is honest and gave
/// every outcome, their answers are one run of the array, their logs are one legal log, and a stop at any
/// moment of a call leaves either array. And where it has room for records of version 2, no newest page is
/// of version 1 once `migrate_one` has answered `false` and a later flush was done. (This project.)
pub fn asked_laws<N: Nand>()
    ensures told { ToldAskedLaw N.view }
    ensures join { AskedJoinLaw N.view }
    ensures run { AskedRunLaw N.view }
    ensures forward { AskedForwardLaw N.view }
{}

/// What the events of a run say of the calls that they are. Each tells the record that its die tells, and that record has gained just their
/// logs, unless it has ended. Where there is one, a stop in a call leaves the array before it or the one after it. And a write or a trim of a
/// sector that is stale, while no block is pinned, is never answered `OutOfMemory`, nor is a read, a flush or a turn. (This project.)
pub fn event_laws<N: Nand>()
    ensures tells { EventTellsLaw N.view }
    ensures stops { RunStopsLaw N.view }
    ensures records { RunRecordsLaw N.view }
    ensures stale { StaleMemoryLaw }
    ensures quiet { QuietMemoryLaw }
{}

/// What is fair of each event of a run, part by part. `ReadOnly` comes in a shortage and has its counts, `SequenceSpent` with the last
/// sequence, `Damaged` never; what is done leaves the device read-only in a shortage alone, or where two blocks failed in a flush. A flush
/// that is done leaves no sector stale, a read leaves all as it was, and only a turn begins a collection that goes on after it. The image
/// has a certificate after each, and no more newest pages of version 1 than before, where the die has version 2. (This project.)
pub fn fair_laws()
    ensures read_only { ReadOnlyEventLaw }
    ensures spent { SpentEventLaw }
    ensures left { LeftEventLaw }
    ensures flush { FlushEventLaw }
    ensures reads { ReadEventLaw }
    ensures pins { PinEventLaw }
    ensures image { ImageEventLaw }
{}
