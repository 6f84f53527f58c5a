//! The merge of several readings of one die.
ghost use Rattle.std.specs.Prelude.{◌≡◌, ◌<◌, ◌≤◌, ◌*◌, ℕ, List, [], length, map, vec_capacity, OnOk, IfOk, IfErr, IfSome};
ghost use Rattle.page_layout.specs.Geometry.{page_bytes, row_count};
ghost use Rattle.page_layout.specs.Page.{Page};
ghost use Rattle.lab_dump.specs.Scan.{image_bytes, Tell};
ghost use Rattle.lab_mend.specs.InStep.{AreAt};
ghost use Rattle.lab_mend.specs.Merging.{AreRowsListed, AreTried, MergingStands, ShowsMerge, tried_below, unsound_rows_below};
ghost use Rattle.lab_dump.specs.Rooms.{HasRowRoom};
ghost use Rattle.lab_mend.specs.Tried.{IsTrialRoom};
ghost use Rattle.lab_mend.specs.Merged.{IsMerged, IsOfReading, IsOwnMerge, IsPinned, IsUnmerged, pages_of_row};
ghost use Rattle.lab_mend.specs.Rooms.{IsMergeRoom};

use crate::in_step::{ReadingCut, ReadingFault, expect_ends, read_row};
use crate::merging::{Merging, RowTally, TriedRow};
use crate::trial::{MOST_BITS, TrialRoom};
use lab_dump::{Cut, DumpReader, PageTarget, PassFault, TargetFault};
use page_layout::geometry::Geometry;
use std::alloc::{AllocError, Global};
use thiserror::Error;

/// Why readings were not merged.
#[derive(Clone, Copy, Debug, PartialEq, Eq, Error)]
pub enum MergeFault {
    /// The reading of this number, counted from 0, has not as many bytes as the die's pages have.
    #[error("reading {0} has not as many bytes as the geometry says")]
    WrongLength(usize),
    /// A read of the reading of this number failed, or was interrupted.
    #[error("reading {0} could not be read")]
    Source(usize),
    /// A page could not be written.
    #[error("a page could not be written")]
    Target,
}

impl From<ReadingCut> for MergeFault {
    ghost use Rattle.lab_mend.specs.Merged.{fault_of_cut};

    ghost from_gives = { λ cut fault. fault ≡ fault_of_cut cut.reading cut.cut };

    fn from(cut: ReadingCut) -> MergeFault {
        match cut.cut {
            Cut::Ended => MergeFault::WrongLength(cut.reading),
            Cut::Failed => MergeFault::Source(cut.reading),
        }
    }
}

impl From<ReadingFault> for MergeFault {
    ghost use Rattle.lab_mend.specs.Merged.{fault_of_end};

    ghost from_gives = { λ end fault. fault ≡ fault_of_end end.reading end.fault };

    fn from(end: ReadingFault) -> MergeFault {
        match end.fault {
            PassFault::WrongLength => MergeFault::WrongLength(end.reading),
            PassFault::Source | PassFault::Stopped => MergeFault::Source(end.reading),
        }
    }
}

impl From<TargetFault> for MergeFault {
    ghost use Rattle.std.specs.Prelude.{◌≡◌};
    ghost use Rattle.lab_mend.specs.declared.merge.MergeFault.{MergeFault};

    ghost from_gives = { λ _ fault. fault ≡ MergeFault.Target };

    fn from(_fault: TargetFault) -> MergeFault {
        MergeFault::Target
    }
}

/// Why readings were not merged, and the file as far as it was written.
#[derive(Drop)]
pub struct Unmerged<T> {
    /// Why.
    pub fault: MergeFault,
    /// The file.
    pub target: T,
}

/// What was written, and what is to be told of it.
#[derive(Drop)]
pub struct Merged<T> {
    /// The rows of which two sound pages differ, by rising row.
    pub conflicts: Vec<u32>,
    /// The rows of which no page is sound, nor the majority, none that was tried is taken, and some page is not erased, by rising row.
    pub unsound: Vec<u32>,
    /// The rows of which pages were tried, and what came of them, by rising row.
    pub tried: Vec<TriedRow>,
    /// How many of the other rows there are, by what was written of them.
    pub tally: RowTally,
    /// The file of pages.
    pub target: T,
}

// Reads the rows in step and writes each.
fn merge_rows<R: DumpReader, T: PageTarget>(
    readers: &mut [R],
    geometry: &Geometry,
    pages: &mut [u8],
    merging: &mut Merging<T>,
) -> Result<(), MergeFault>
    requires some { 0 < length readers.old }
    requires whole { length pages.old ≡ length readers.old * page_bytes geometry.now }
    requires stands { MergingStands geometry.now 0 merging.old.conflicts.items merging.old.tally merging.old.scratch.items (T.pieces merging.old.target) }
    requires none { merging.old.unsound.items ≡ [] }
    requires none_tried { merging.old.tried.items ≡ [] }
    requires room { IsTrialRoom geometry.now (length readers.old) merging.old.room }
    requires conflicts_room { HasRowRoom (row_count geometry.now) 0 merging.old.conflicts.items (vec_capacity merging.old.conflicts) }
    requires unsound_room { HasRowRoom (row_count geometry.now) 0 merging.old.unsound.items (vec_capacity merging.old.unsound) }
    requires tried_room { HasRowRoom (row_count geometry.now) 0 merging.old.tried.items (vec_capacity merging.old.tried) }
    requires shows { (rows : ℕ → List Page) → ShowsMerge geometry.now rows 0 merging.old.conflicts.items merging.old.tally (T.pieces merging.old.target) }
    ensures stands { OnOk result (MergingStands geometry.now (row_count geometry.now) merging.new.conflicts.items merging.new.tally merging.new.scratch.items (T.pieces merging.new.target)) }
    ensures shows { OnOk result ((files : List (List ℕ)) → AreAt (map R.remaining readers.old) files 0
        → ShowsMerge geometry.now (pages_of_row geometry.now files) (row_count geometry.now) merging.new.conflicts.items merging.new.tally (T.pieces merging.new.target)) }
    ensures unsound { OnOk result ((files : List (List ℕ)) → AreAt (map R.remaining readers.old) files 0
        → merging.new.unsound.items ≡ unsound_rows_below geometry.now (pages_of_row geometry.now files) (row_count geometry.now)) }
    ensures listed { OnOk result (AreRowsListed (row_count geometry.now) merging.new.unsound.items) }
    ensures tried { OnOk result ((files : List (List ℕ)) → AreAt (map R.remaining readers.old) files 0
        → merging.new.tried.items ≡ tried_below geometry.now (pages_of_row geometry.now files) (row_count geometry.now)) }
    ensures tried_listed { OnOk result (AreTried (row_count geometry.now) merging.new.tried.items) }
    ensures count { OnOk result (length readers.new ≡ length readers.old) }
    ensures read { OnOk result ((files : List (List ℕ)) → AreAt (map R.remaining readers.old) files 0 → AreAt (map R.remaining readers.new) files (image_bytes geometry.now)) }
    ensures reading { IfErr result (IsOfReading (length readers.old)) }
    ensures unmerged { IfErr result (λ fault. (files : List (List ℕ)) → AreAt (map R.remaining readers.old) files 0 → IsUnmerged geometry.now files fault) }
    ensures pinned { IfErr result (IsPinned (map R.failed readers.new) (T.failed merging.new.target)) }
{
    let size = geometry.data_bytes() + geometry.spare_bytes();
    for row in 0..geometry.rows() {
        read_row(readers, size, pages)?;
        merging.take_row(geometry, row, pages, readers.len())?;
    }
    Ok(())
}

// Reads the rows in step, writes each, and sees that no reader has a byte left.
fn merge_all<R: DumpReader, T: PageTarget>(
    readers: &mut [R],
    geometry: &Geometry,
    pages: &mut [u8],
    merging: &mut Merging<T>,
) -> Result<(), MergeFault>
    requires some { 0 < length readers.old }
    requires whole { length pages.old ≡ length readers.old * page_bytes geometry.now }
    requires stands { MergingStands geometry.now 0 merging.old.conflicts.items merging.old.tally merging.old.scratch.items (T.pieces merging.old.target) }
    requires none { merging.old.unsound.items ≡ [] }
    requires none_tried { merging.old.tried.items ≡ [] }
    requires room { IsTrialRoom geometry.now (length readers.old) merging.old.room }
    requires conflicts_room { HasRowRoom (row_count geometry.now) 0 merging.old.conflicts.items (vec_capacity merging.old.conflicts) }
    requires unsound_room { HasRowRoom (row_count geometry.now) 0 merging.old.unsound.items (vec_capacity merging.old.unsound) }
    requires tried_room { HasRowRoom (row_count geometry.now) 0 merging.old.tried.items (vec_capacity merging.old.tried) }
    requires shows { (rows : ℕ → List Page) → ShowsMerge geometry.now rows 0 merging.old.conflicts.items merging.old.tally (T.pieces merging.old.target) }
    ensures ok { OnOk result ((files : List (List ℕ)) → Tell (map R.remaining readers.old) files → IsMerged geometry.now files merging.new.conflicts.items merging.new.unsound.items merging.new.tried.items merging.new.tally (T.pieces merging.new.target)) }
    ensures own { OnOk result (IsOwnMerge geometry.now merging.new.conflicts.items merging.new.unsound.items merging.new.tried.items (T.pieces merging.new.target)) }
    ensures reading { IfErr result (IsOfReading (length readers.old)) }
    ensures err { IfErr result (λ fault. (files : List (List ℕ)) → Tell (map R.remaining readers.old) files → IsUnmerged geometry.now files fault) }
    ensures pinned { IfErr result (IsPinned (map R.failed readers.new) (T.failed merging.new.target)) }
{
    merge_rows(readers, geometry, pages, merging)?;
    expect_ends(readers)?;
    Ok(())
}

/// The memory of a merge of readings of one die. (This project's.)
#[derive(Drop)]
pub struct MergeRoom {
    // a page of each reading, one behind another
    pub(crate) pages: Vec<u8>,
    // the page at hand
    pub(crate) scratch: Vec<u8>,
    // the rows that are named
    pub(crate) conflicts: Vec<u32>,
    pub(crate) unsound: Vec<u32>,
    pub(crate) tried: Vec<TriedRow>,
    // what is tried of a row
    pub(crate) trial: TrialRoom,
}

impl MergeRoom {
    ghost use Rattle.std.specs.Prelude.{IfOk};
    ghost use Rattle.lab_mend.specs.Rooms.{IsMergeRoom};

    /// All the memory that a merge of so many readings of a die of this geometry takes: that of a page of each and two more, and
    /// twenty-four bytes a row.
    ///
    /// # Errors
    ///
    /// Where a growth was refused. (This project's.)
    pub fn new(alloc: Global, geometry: &Geometry, count: usize) -> Result<MergeRoom, AllocError>
        ensures { IfOk result (IsMergeRoom geometry.now count) }
    {
        let size = geometry.data_bytes() + geometry.spare_bytes();
        let Some(all) = size.checked_mul(count) else {
            return Err(AllocError);
        };
        Ok(MergeRoom {
            pages: vec![in alloc; 0; all]?,
            scratch: vec![in alloc; 0; size]?,
            conflicts: Vec::with_capacity(alloc, geometry.rows() as usize)?,
            unsound: Vec::with_capacity(alloc, geometry.rows() as usize)?,
            tried: Vec::with_capacity(alloc, geometry.rows() as usize)?,
            trial: TrialRoom {
                places: Vec::with_capacity(alloc, count)?,
                bits: Vec::with_capacity(alloc, MOST_BITS)?,
                kept: vec![in alloc; 0; size]?,
            },
        })
    }
}

/// Writes one page for each row to a target, made of several readings of one die, in one pass over them in step. Of the row's pages, one of
/// each reading:
///
/// - where some are sound and all the sound ones are one page, that page;
/// - where two sound ones differ, 00h bytes, which are never sound, and the row is named;
/// - where none is sound and there are three or more readings, the page that has each bit set which more than half of them have set, if that is
///   sound;
/// - else, where those pages that are not erased differ in one to sixteen bits, the first of them with as few of these turned as make it sound, if
///   these make one page; a reading that failed may be all FFh;
/// - else the first page that is not erased, as it is, and the row is named;
/// - else an erased page: it is erased in every reading.
///
/// The target has a piece for each row, of as many bytes as a page has. A page with the same bytes as the first reading's is not hashed again. Of a
/// row whose pages are tried at most 2 ^ 16 are hashed. It takes no memory but that of the room.
///
/// For readers that tell their bytes, and a target that tells its pieces, these are those pages of the images that the bytes are, and the rows that
/// are named and counted are those of them. Of any readers each piece has as many bytes as a page, and a row that is named as one in which two sound
/// pages differ has 00h bytes alone.
///
/// # Errors
///
/// Each with the target, when it happens: `WrongLength` where the bytes of the reading of that number ended before the last page or a byte follows
/// it: of several the first that is seen, row by row and in their order. `Source` where a read of the reading of that number failed or was interrupted, `Target` where a write failed.
///
/// (This project's rules.)
pub fn merge_dumps<R: DumpReader, T: PageTarget + Drop>(
    room: MergeRoom,
    readers: &mut [R],
    geometry: &Geometry,
    target: T,
) -> Result<Merged<T>, Unmerged<T>>
    requires some { 0 < length readers.old }
    requires room { IsMergeRoom geometry.now (length readers.old) room }
    requires pieces { IfSome (T.pieces target) (λ ps. length ps ≡ row_count geometry.now) }
    ensures ok { IfOk result (λ told. (files : List (List ℕ)) → Tell (map R.remaining readers.old) files → IsMerged geometry.now files told.conflicts.items told.unsound.items told.tried.items told.tally (T.pieces told.target)) }
    ensures err { IfErr result (λ unmerged. (files : List (List ℕ)) → Tell (map R.remaining readers.old) files → IsUnmerged geometry.now files unmerged.fault) }
    // Whatever the readers and the target do.
    ensures own { IfOk result (λ told. IsOwnMerge geometry.now told.conflicts.items told.unsound.items told.tried.items (T.pieces told.target)) }
    ensures reading { IfErr result (λ unmerged. IsOfReading (length readers.old) unmerged.fault) }
    ensures pinned { IfErr result (λ unmerged. IsPinned (map R.failed readers.new) (T.failed unmerged.target) unmerged.fault) }
{
    let mut pages = room.pages;
    let mut merging = Merging {
        conflicts: room.conflicts,
        unsound: room.unsound,
        tried: room.tried,
        room: room.trial,
        tally: RowTally {
            sound: 0,
            majority: 0,
            turned: 0,
            erased: 0,
            unsound: 0,
        },
        scratch: room.scratch,
        target,
    };
    match merge_all(readers, geometry, &mut pages, &mut merging) {
        Ok(()) => Ok(Merged {
            conflicts: merging.conflicts,
            unsound: merging.unsound,
            tried: merging.tried,
            tally: merging.tally,
            target: merging.target,
        }),
        Err(fault) => Err(Unmerged {
            fault,
            target: merging.target,
        }),
    }
}
