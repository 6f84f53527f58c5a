//! What takes the pages and writes the sectors, with pages shown that are not sound.
ghost use Rattle.std.specs.Prelude.{◌≡◌, ◌<◌, ◌+◌, ℕ, List, Option, OnOk, OnErr, true, length, get_or, slice_get, None, Some};
ghost use Rattle.page_layout.specs.declared.record.Record.{Record};
ghost use Rattle.page_layout.specs.declared.record.Kind.TheVariants as kinds;
ghost use Rattle.page_layout.specs.Geometry.{row_count};
ghost use Rattle.page_layout.specs.Page.{Image, page};
ghost use Rattle.page_layout.specs.Sound.{record_of, spelled};
ghost use Rattle.page_layout.specs.Array.{content_of_kind, marks, zeros};
ghost use Rattle.page_layout.specs.Block.{is_broken};
ghost use Rattle.lab_dump.specs.Damaged.{DamagedLaw, OtherwiseLaw, SaysSector};
ghost use Rattle.lab_dump.specs.Held.{pieces_after};
ghost use Rattle.lab_dump.specs.Said.{says};
ghost use Rattle.lab_dump.specs.Writing.{WritingStands, ShowsSectorPieces};
ghost use Rattle.lab_dump.specs.Written.{MarkedLaw, UnmarkedLaw};

use crate::held::Change;
use crate::pass::{Areas, Stopped, Taker};
use crate::said::spelled_of_die;
use crate::target::{DamagedTarget, TargetFault};
use crate::until::record_until;
use crate::writing::{Writing, sector_in};
use page_layout::geometry::Geometry;
use page_layout::record::{Kind, Record, is_erased, read_record};

/// With pages shown that are not sound, a sector is shown as such a page has it just where the page says something newer of it than each sound page; of several the newest is
/// shown, and of those the first. Just these sectors are marked so. Every other sector is shown and marked as without them, where none is marked so.
pub fn damaged_laws()
    ensures damaged { DamagedLaw }
    ensures otherwise { OtherwiseLaw }
    ensures marked { MarkedLaw }
    ensures unmarked { UnmarkedLaw }
{}

/// The sectors as they are written, with pages shown that are not sound.
#[derive(Drop)]
pub struct DamagedWriting<T> {
    pub(crate) writing: Writing<T>,
}

// What a page says that is neither erased nor sound.
fn says(geometry: &Geometry, found: Option<Record>, body: &[u8], spare: &[u8]) -> Option<Record>
    requires found { found ≡ record_of (page body.now spare.now) }
    requires spare_whole { length spare.now ≡ geometry.now.spare_bytes }
    ensures { result ≡ says geometry.now (page body.now spare.now) }
{
    if found.is_some() {
        return None;
    }
    if is_erased(body, spare) {
        return None;
    }
    spelled_of_die(geometry, spare)
}

// Writes what a page that is not sound, of this data area and this spare area, does to the bytes of the sector that it says.
fn put_said<T: DamagedTarget>(
    target: &mut T,
    geometry: &Geometry,
    sector: u32,
    kind: Kind,
    change: Change,
    areas: (&[u8], &[u8]),
    blank: &[u8],
) -> Result<(), TargetFault>
    requires blank { blank.now ≡ zeros geometry.now }
    requires says { kind ≡ kinds.Sector → SaysSector sector areas.0.now areas.1.now }
    ensures written { OnOk result (T.pieces target.new ≡ pieces_after change sector (content_of_kind geometry.now kind areas.entry.0.now) (zeros geometry.now) (T.pieces target.old)) }
    ensures failed { OnErr result (T.failed target.new ≡ true) }
{
    match change {
        Change::Stays => Ok(()),
        Change::Newest if kind == Kind::Sector => target.put_damaged(sector, areas.0, areas.1),
        Change::Newest | Change::Tie => target.blank(sector, blank),
    }
}

impl<T: DamagedTarget> Writing<T> {
    // Takes a page that is not sound, which says this, and counts.
    fn take_said(
        &mut self,
        geometry: &Geometry,
        row: u32,
        says: &Record,
        body: &[u8],
        spare: &[u8],
    ) -> Result<(), Stopped>
        requires row_in { row < row_count geometry.now }
        requires broken { is_broken (page body.now spare.now) ≡ true }
        requires spelled { spelled spare.now ≡ Some says.now }
        requires stands { WritingStands geometry.now self.old.held.items self.old.zeros.items (T.pieces self.old.target) }
        ensures stands { OnOk result (WritingStands geometry.now self.new.held.items self.new.zeros.items (T.pieces self.new.target)) }
        ensures shows { OnOk result ((image : Image) (said : List (Option Record)) (reads : ℕ → List ℕ) → ShowsSectorPieces geometry.now row image said reads self.old.held.items (T.pieces self.old.target)
            → get_or (marks image) row None ≡ None → get_or said row None ≡ Some says.now → reads row ≡ content_of_kind geometry.now says.now.kind body.now
            → ShowsSectorPieces geometry.now (row + 1) image said reads self.new.held.items (T.pieces self.new.target)) }
        ensures until { self.new.until ≡ self.old.until }
        ensures doubting { self.new.doubting ≡ self.old.doubting }
        ensures failed { OnErr result (T.failed self.new.target ≡ true) }
    {
        let Some(sector) = sector_in(geometry, says) else {
            return Ok(());
        };
        let (held, change) = self.held[sector as usize].step_said(says.sequence);
        self.held[sector as usize] = held;
        match put_said(
            &mut self.target,
            geometry,
            sector,
            says.kind,
            change,
            (body, spare),
            &self.zeros,
        ) {
            Ok(()) => Ok(()),
            Err(_) => Err(Stopped),
        }
    }
}

impl<T: DamagedTarget> Taker for DamagedWriting<T> {
    ghost use Rattle.std.specs.Prelude.{◌≡◌, ◌<◌, ◌+◌, ℕ, length, slice_get, OnOk, OnErr, Some, true};
    ghost use Rattle.page_layout.specs.Geometry.{row_count};
    ghost use Rattle.page_layout.specs.Page.{Image, page};
    ghost use Rattle.lab_dump.specs.Doubting as doubting;
    ghost use Rattle.lab_dump.specs.Doubting.{IsDoubting};
    ghost use Rattle.lab_dump.specs.Writing.{WritingStands, ShowsDamaged};

    ghost stands = { λ s g rows. WritingStands g s.writing.held.items s.writing.zeros.items (T.pieces s.writing.target) × doubting.DoubtingStands g rows s.writing.doubting };

    ghost fixed = { λ s. s.writing.until };

    ghost shows = { λ s g rows image. ShowsDamaged g rows s.writing.until image s.writing.held.items (T.pieces s.writing.target) × IsDoubting g rows image s.writing.doubting };

    ghost stopped = { λ s. T.failed s.writing.target ≡ true };

    fn take(&mut self, geometry: &Geometry, row: u32, areas: Areas<'_>) -> Result<(), Stopped> {
        let Areas { body, spare } = areas;
        let found = read_record(geometry, body, spare);
        self.writing
            .doubting
            .step(geometry, row, found, body, spare);
        let sound = record_until(self.writing.until, found);
        if let Some(found) = sound {
            return self.writing.take_sound(geometry, row, &found, body, spare);
        }
        let said = says(geometry, found, body, spare);
        match record_until(self.writing.until, said) {
            Some(says) => self.writing.take_said(geometry, row, &says, body, spare),
            None => Ok(()),
        }
    }
}
