//! What the clauses of a store and of a die over one come to. Each function does nothing: its contract is the law.
ghost use Rattle.file_die.specs.Bytes.{ReadInterrupted, WriteInterrupted};
ghost use Rattle.file_die.specs.DieLaws.{AddingGoesLaw, AlwaysLaw, CopiesLaw, ImagesLaw, KeepsLaw, LandsLaw, SinceSyncLaw, WipesLaw};
ghost use Rattle.file_die.specs.FaultLaws.{ChangedLaw, EndedLaw, FirstFaultLaw, FullLaw, OwnFaultLaw, PatientLaw, NeverRefusedLaw, RowReadLaw, SyncedLaw, NoWriteFailsLaw, WholeReadLaw, WholeWriteLaw};
ghost use Rattle.file_die.specs.FileLaws.{FailedSyncLaw, OverLaw, PartWriteLaw, RawLaw};
ghost use Rattle.file_die.specs.Laws.{StaysLaw, PutIsLoadedLaw, ClearedLaw, LoadLaw, SyncLaw, WholeLaw};

use crate::bytes::ByteFile;

/// What an honest store holds, over any calls, done or failed: what was put at a row is loaded again until it is put at or cleared, and an erased
/// page where its block was cleared; a load changes nothing; and after a sync each page lasts that no later call changes. (This project's.)
pub fn store_laws()
    ensures stays { StaysLaw }
    ensures read_back { PutIsLoadedLaw }
    ensures cleared { ClearedLaw }
    ensures load { LoadLaw }
    ensures sync { SyncLaw }
    ensures whole { WholeLaw }
{}

/// What the cycles of a die leave in an honest store: a program lands just on its row, and an erase on its block; what was copied out of a block
/// lasts before the block is erased, and none of its old pages lasts after; a row that no program and no erase was due of holds what it held,
/// and that goes on to last; where each program is synced all pages last; images of the die stay such; and while cycles only add pages where none
/// has a record, from a moment on when all pages last, each row would be found as it is if the power went, or without a record where it had none
/// then. (This project's.)
pub fn die_laws()
    ensures lands { LandsLaw }
    ensures wipes { WipesLaw }
    ensures copies { CopiesLaw }
    ensures always { AlwaysLaw }
    ensures keeps { KeepsLaw }
    ensures images { ImagesLaw }
    ensures since_sync { SinceSyncLaw }
    ensures adding { AddingGoesLaw }
{}

/// Bytes over others stand in their place, and before them and behind them stands what stood there; a write may have written the first of its bytes alone, and a
/// sync that failed may have made nothing last, or all; and the rows of a file of pages without codes are the pages of the raw image that its bytes are. (This
/// project's.)
pub fn file_laws()
    ensures over { OverLaw }
    ensures part_write { PartWriteLaw }
    ensures failed_sync { FailedSyncLaw }
    ensures raw { RawLaw }
{}

/// Why the bytes of a file were not read or written. Reads that give all that stands there have ended only where more was wanted, as those of a file in memory
/// do, and so a row that stands there is read; writes that are done and take bytes fail by nothing, as those that take all bytes do, and so rows are changed; a fault that is not `Other` is the
/// file's last answer, and so is want of room, and the first fault that rows remember; and a file whose syncs and tellings of its length never fail is taken,
/// and synced. One that counts its calls that were interrupted is told as interrupted by none, until these are 2^64. (This project's.)
pub fn fault_laws<F: ByteFile>()
    ensures ended { EndedLaw F.gave }
    ensures whole { WholeReadLaw }
    ensures taken { NoWriteFailsLaw F.wrote }
    ensures whole_write { WholeWriteLaw }
    ensures own { OwnFaultLaw F.wrote }
    ensures full { FullLaw F.wrote }
    ensures changed { ChangedLaw F.wrote }
    ensures first { FirstFaultLaw F.wrote }
    ensures read { RowReadLaw F.gave }
    ensures synced { SyncedLaw F.refused }
    ensures refused { NeverRefusedLaw F.refused }
    ensures patient_reads { PatientLaw (ReadInterrupted F.gave) }
    ensures patient_writes { PatientLaw (WriteInterrupted F.wrote) }
{}
