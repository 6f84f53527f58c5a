//! What takes the pages and writes the sectors.
ghost use Rattle.std.specs.Prelude.{◌≡◌, ◌<◌, ◌≤◌, ◌+◌, ℕ, List, Option, OnOk, OnErr, true, length, get_or, slice_get, None, Some};
ghost use Rattle.page_layout.specs.declared.record.Record.{Record};
ghost use Rattle.page_layout.specs.Geometry.{row_count};
ghost use Rattle.page_layout.specs.Page.{Page, Image, page};
ghost use Rattle.page_layout.specs.Array.{content_of_kind, zeros};
ghost use Rattle.page_layout.specs.Sound.{record_of};
ghost use Rattle.lab_dump.specs.Held.{pieces_after};
ghost use Rattle.page_layout.specs.declared.record.Kind.TheVariants as kinds;
ghost use Rattle.lab_dump.specs.Writing.{IsPageOfSector, WritingStands, ShowsSectorPieces, sector_in};

use crate::doubting::Doubting;
use crate::held::{Change, Held};
use crate::pass::{Areas, Stopped, Taker};
use crate::target::{Target, TargetFault};
use crate::until::record_until;
use page_layout::geometry::Geometry;
use page_layout::record::{Key, Kind, Record, read_record};

/// The sectors of an image as they are written: what is held of each, and the file that they go to.
#[derive(Drop)]
pub struct Writing<T> {
    // the last sequence that counts, where not all do
    pub(crate) until: Option<u64>,
    pub(crate) held: Vec<Held>,
    // a sector's bytes where it has none
    pub(crate) zeros: Vec<u8>,
    pub(crate) doubting: Doubting,
    pub(crate) target: T,
}

// Writes what a sector's page, of this data area and this spare area, does to its bytes.
fn put_change<T: Target>(
    target: &mut T,
    geometry: &Geometry,
    sector: u32,
    kind: Kind,
    change: Change,
    areas: (&[u8], &[u8]),
    blank: &[u8],
) -> Result<(), TargetFault>
    requires blank { blank.now ≡ zeros geometry.now }
    requires sound { kind ≡ kinds.Sector → IsPageOfSector sector areas.0.now areas.1.now }
    ensures written { OnOk result (T.pieces target.new ≡ pieces_after change sector (content_of_kind geometry.now kind areas.entry.0.now) (zeros geometry.now) (T.pieces target.old)) }
    ensures failed { OnErr result (T.failed target.new ≡ true) }
{
    match change {
        Change::Stays => Ok(()),
        Change::Newest if kind == Kind::Sector => target.put(sector, areas.0, areas.1),
        Change::Newest | Change::Tie => target.blank(sector, blank),
    }
}

// Whether there is such a sector.
pub(crate) fn sector_in(geometry: &Geometry, says: &Record) -> Option<u32>
    ensures { result ≡ sector_in geometry.now says.now }
{
    match says.key() {
        Key::Sector(sector) if sector < geometry.sectors() => Some(sector),
        _ => None,
    }
}

impl<T: Target> Writing<T> {
    // Takes a sound page, which counts.
    pub(crate) fn take_sound(
        &mut self,
        geometry: &Geometry,
        row: u32,
        found: &Record,
        body: &[u8],
        spare: &[u8],
    ) -> Result<(), Stopped>
        requires row_in { row < row_count geometry.now }
        requires looked { record_of (page body.now spare.now) ≡ Some found.now }
        requires stands { WritingStands geometry.now self.old.held.items self.old.zeros.items (T.pieces self.old.target) }
        ensures stands { OnOk result (WritingStands geometry.now self.new.held.items self.new.zeros.items (T.pieces self.new.target)) }
        ensures shows { OnOk result ((image : Image) (said : List (Option Record)) (reads : ℕ → List ℕ) (p : Page) → ShowsSectorPieces geometry.now row image said reads self.old.held.items (T.pieces self.old.target)
            → slice_get image row ≡ Some p → body.now ≡ p.body → record_of p ≡ Some found.now → get_or said row None ≡ None
            → ShowsSectorPieces geometry.now (row + 1) image said reads self.new.held.items (T.pieces self.new.target)) }
        ensures until { self.new.until ≡ self.old.until }
        ensures doubting { self.new.doubting ≡ self.old.doubting }
        ensures failed { OnErr result (T.failed self.new.target ≡ true) }
    {
        let Some(sector) = sector_in(geometry, found) else {
            return Ok(());
        };
        let (held, change) = self.held[sector as usize].step(found.sequence);
        self.held[sector as usize] = held;
        match put_change(
            &mut self.target,
            geometry,
            sector,
            found.kind,
            change,
            (body, spare),
            &self.zeros,
        ) {
            Ok(()) => Ok(()),
            Err(_) => Err(Stopped),
        }
    }
}

impl<T: Target> Taker for Writing<T> {
    ghost use Rattle.std.specs.Prelude.{◌≡◌, ◌<◌, ◌+◌, ℕ, length, slice_get, OnOk, OnErr, Some, true};
    ghost use Rattle.page_layout.specs.Geometry.{row_count};
    ghost use Rattle.page_layout.specs.Page.{Image, page};
    ghost use Rattle.lab_dump.specs.Doubting as doubting;
    ghost use Rattle.lab_dump.specs.Doubting.{IsDoubting};
    ghost use Rattle.lab_dump.specs.Until.{until};
    ghost use Rattle.lab_dump.specs.Writing.{WritingStands, ShowsSound};

    ghost stands = { λ s g rows. WritingStands g s.held.items s.zeros.items (T.pieces s.target) × doubting.DoubtingStands g rows s.doubting };

    ghost fixed = { λ s. s.until };

    ghost shows = { λ s g rows image. ShowsSound g rows (until g s.until image) s.held.items (T.pieces s.target) × IsDoubting g rows image s.doubting };

    ghost stopped = { λ s. T.failed s.target ≡ true };

    fn take(&mut self, geometry: &Geometry, row: u32, areas: Areas<'_>) -> Result<(), Stopped> {
        let Areas { body, spare } = areas;
        let found = read_record(geometry, body, spare);
        self.doubting.step(geometry, row, found, body, spare);
        match record_until(self.until, found) {
            Some(found) => self.take_sound(geometry, row, &found, body, spare),
            None => Ok(()),
        }
    }
}
