//! The rows as they are written.
ghost use Rattle.std.specs.Prelude.{◌≡◌, ◌<◌, ◌+◌, ◌*◌, ◌^◌, ℕ, List, length, true, vec_capacity, OnOk, OnErr};
ghost use Rattle.page_layout.specs.Geometry.{page_bytes, row_count};
ghost use Rattle.page_layout.specs.Page.{Page};
ghost use Rattle.lab_mend.specs.Pages.{pages_in};
ghost use Rattle.lab_mend.specs.Merging.{AreRowsListed, AreTried, MergingStands, ShowsMerge, with_origin_counted, named, tried_below, tried_row, unsound_rows_below, with_tried, with_unsound};
ghost use Rattle.lab_dump.specs.Rooms.{HasRowRoom};
ghost use Rattle.lab_mend.specs.Tried.{IsTrialRoom};

use crate::choice::{Origin, choose};
use crate::trial::{Trial, TrialRoom};
use lab_dump::{PageTarget, TargetFault};
use page_layout::geometry::Geometry;

/// How many rows there are whose sound pages do not differ, by what was written of them.
#[derive(Clone, Copy, Debug, PartialEq, Eq)]
pub struct RowTally {
    /// The page that is sound in some reading.
    pub sound: u32,
    /// The majority of each bit, which is sound.
    pub majority: u32,
    /// The first page that is not erased with bits turned, which is sound.
    pub turned: u32,
    /// An erased page: every reading's is.
    pub erased: u32,
    /// The first page that is not erased, as it is. It is not sound.
    pub unsound: u32,
}

/// A row of which pages were tried.
#[derive(Clone, Copy, Debug, PartialEq, Eq)]
pub struct TriedRow {
    /// Its number.
    pub row: u32,
    /// What came of them.
    pub trial: Trial,
}

// What was written so far.
#[derive(Drop)]
pub(crate) struct Merging<T> {
    // the rows of which two sound pages differ
    pub(crate) conflicts: Vec<u32>,
    // those of which a page was written as it is that is neither erased nor sound
    pub(crate) unsound: Vec<u32>,
    // those of which pages were tried
    pub(crate) tried: Vec<TriedRow>,
    pub(crate) tally: RowTally,
    pub(crate) room: TrialRoom,
    // the page at hand
    pub(crate) scratch: Vec<u8>,
    pub(crate) target: T,
}

impl RowTally {
    // With one row more.
    fn count(self, origin: Origin) -> RowTally
        requires sound { self.sound + 1 < 2 ^ 32 }
        requires majority { self.majority + 1 < 2 ^ 32 }
        requires turned { self.turned + 1 < 2 ^ 32 }
        requires erased { self.erased + 1 < 2 ^ 32 }
        requires unsound { self.unsound + 1 < 2 ^ 32 }
        ensures { result ≡ with_origin_counted self origin }
    {
        let mut tally = self;
        match origin {
            Origin::Conflict => (),
            Origin::Sound => tally.sound += 1,
            Origin::Majority => tally.majority += 1,
            Origin::Tried(Trial::Taken(_, _)) => tally.turned += 1,
            Origin::Erased => tally.erased += 1,
            Origin::Tried(Trial::Tied(_, _) | Trial::Nothing(_)) | Origin::Unsound => {
                tally.unsound += 1;
            }
        }
        tally
    }
}

// Names a row of which two sound pages differ. The list has room for it.
fn name_conflict(conflicts: &mut Vec<u32>, row: u32, origin: Origin)
    requires { length conflicts.old.items < vec_capacity conflicts.old }
    ensures named { conflicts.new.items ≡ named conflicts.old.items row origin }
    ensures room { vec_capacity conflicts.new ≡ vec_capacity conflicts.old }
{
    match origin {
        Origin::Conflict => conflicts.push_reserved(row),
        Origin::Sound | Origin::Majority | Origin::Tried(_) | Origin::Erased | Origin::Unsound =>
            (),
    }
}

// Names a row of which a page is written as it is that is neither erased nor sound.
fn name_unsound(unsound: &mut Vec<u32>, row: u32, origin: Origin)
    requires { length unsound.old.items < vec_capacity unsound.old }
    ensures named { unsound.new.items ≡ with_unsound unsound.old.items row origin }
    ensures room { vec_capacity unsound.new ≡ vec_capacity unsound.old }
{
    match origin {
        Origin::Tried(Trial::Tied(_, _) | Trial::Nothing(_)) | Origin::Unsound => {
            unsound.push_reserved(row);
        }
        Origin::Sound
        | Origin::Conflict
        | Origin::Majority
        | Origin::Tried(Trial::Taken(_, _))
        | Origin::Erased => (),
    }
}

// Names a row of which pages were tried. The list has room for it.
fn name_tried(tried: &mut Vec<TriedRow>, row: u32, origin: Origin)
    requires { length tried.old.items < vec_capacity tried.old }
    ensures named { tried.new.items ≡ with_tried tried.old.items (tried_row row origin) }
    ensures room { vec_capacity tried.new ≡ vec_capacity tried.old }
{
    match origin {
        Origin::Tried(trial) => tried.push_reserved(TriedRow { row, trial }),
        Origin::Sound | Origin::Conflict | Origin::Majority | Origin::Erased | Origin::Unsound =>
            (),
    }
}

impl<T: PageTarget> Merging<T> {
    // Writes the page that is chosen of a row, whose pages stand one behind another.
    pub(crate) fn take_row(
        &mut self,
        geometry: &Geometry,
        row: u32,
        pages: &[u8],
        count: usize,
    ) -> Result<(), TargetFault>
        requires row_in { row < row_count geometry.now }
        requires some { 0 < count }
        requires whole { length pages.now ≡ count * page_bytes geometry.now }
        requires conflicts_room { HasRowRoom (row_count geometry.now) row self.old.conflicts.items (vec_capacity self.old.conflicts) }
        requires unsound_room { HasRowRoom (row_count geometry.now) row self.old.unsound.items (vec_capacity self.old.unsound) }
        requires tried_room { HasRowRoom (row_count geometry.now) row self.old.tried.items (vec_capacity self.old.tried) }
        requires room { IsTrialRoom geometry.now count self.old.room }
        requires stands { MergingStands geometry.now row self.old.conflicts.items self.old.tally self.old.scratch.items (T.pieces self.old.target) }
        ensures conflicts_room { HasRowRoom (row_count geometry.now) (row + 1) self.new.conflicts.items (vec_capacity self.new.conflicts) }
        ensures unsound_room { HasRowRoom (row_count geometry.now) (row + 1) self.new.unsound.items (vec_capacity self.new.unsound) }
        ensures tried_room { HasRowRoom (row_count geometry.now) (row + 1) self.new.tried.items (vec_capacity self.new.tried) }
        ensures room { IsTrialRoom geometry.now count self.new.room }
        ensures failed { OnErr result (T.failed self.new.target ≡ true) }
        ensures stands { OnOk result (MergingStands geometry.now (row + 1) self.new.conflicts.items self.new.tally self.new.scratch.items (T.pieces self.new.target)) }
        ensures unsound { OnOk result ((rows : ℕ → List Page) → rows row ≡ pages_in geometry.now pages.now count
            → self.old.unsound.items ≡ unsound_rows_below geometry.now rows row → self.new.unsound.items ≡ unsound_rows_below geometry.now rows (row + 1)) }
        ensures listed { OnOk result (AreRowsListed row self.old.unsound.items → AreRowsListed (row + 1) self.new.unsound.items) }
        ensures tried { OnOk result ((rows : ℕ → List Page) → rows row ≡ pages_in geometry.now pages.now count
            → self.old.tried.items ≡ tried_below geometry.now rows row → self.new.tried.items ≡ tried_below geometry.now rows (row + 1)) }
        ensures tried_listed { OnOk result (AreTried row self.old.tried.items → AreTried (row + 1) self.new.tried.items) }
        ensures shows { OnOk result ((rows : ℕ → List Page) → rows row ≡ pages_in geometry.now pages.now count → ShowsMerge geometry.now rows row self.old.conflicts.items self.old.tally (T.pieces self.old.target)
            → ShowsMerge geometry.now rows (row + 1) self.new.conflicts.items self.new.tally (T.pieces self.new.target)) }
    {
        let origin = choose(geometry, pages, count, &mut self.room, &mut self.scratch);
        name_conflict(&mut self.conflicts, row, origin);
        name_unsound(&mut self.unsound, row, origin);
        name_tried(&mut self.tried, row, origin);
        self.tally = self.tally.count(origin);
        match self.target.put_page(row, &self.scratch) {
            Ok(()) => Ok(()),
            Err(fault) => Err(fault),
        }
    }
}
