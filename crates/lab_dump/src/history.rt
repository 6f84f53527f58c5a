//! The history of a sector: its sound pages that a dump still has, newest first.
ghost use Rattle.std.specs.Prelude.{◌≡◌, ◌<◌, ◌≤◌, ◌+◌, ◌++◌, length, vec_capacity, true, Some, Err, IfOk, IfErr, IfSome};
ghost use Rattle.lab_dump.specs.History.{FirstLaw, HistoryLaw, IsHistoryOf, page_by, told_page, wrote_of};
ghost use Rattle.lab_dump.specs.Rooms.{IsHistoryRoom};
ghost use Rattle.lab_dump.specs.Surveyed.{IsUnsurveyed};

use crate::pass::{Areas, Stopped, Taker, scan};
use crate::survey::SurveyFault;
use image_check::DumpReader;
use page_layout::geometry::Geometry;
use page_layout::record::{Key, Kind, Record, is_erased, read_record};
use std::alloc::{AllocError, Global};
use std::cmp::Reverse;

/// What a page of a sector does.
#[derive(Clone, Copy, Debug, PartialEq, Eq, PartialOrd, Ord)]
pub enum Wrote {
    /// It has the sector's bytes.
    Data,
    /// It trims the sector: that reads as 00h bytes.
    Trim,
}

/// A sound page of a sector. The newest comes first: by the fields in their order.
#[derive(Clone, Copy, Debug, PartialEq, Eq, PartialOrd, Ord)]
pub struct SectorPage {
    /// Its place in the order in which pages were programmed.
    pub sequence: Reverse<u64>,
    /// Its row.
    pub row: u32,
    /// The version of its format, 1 or 2.
    pub version: u8,
    /// What it does.
    pub wrote: Wrote,
}

/// What a dump tells of the history of a sector.
#[derive(Drop)]
pub struct History {
    /// The sector's sound pages, newest first. Of two with one sequence that of the lower row comes first.
    pub pages: Vec<SectorPage>,
    /// How many pages of the dump are neither erased nor sound: each may have been of the sector.
    pub unsound: u32,
}

/// What a history tells is sound pages of the sector, each of them, and its first page is the sector's newest one.
pub fn history_laws()
    ensures history { HistoryLaw }
    ensures first { FirstLaw }
{}

// What a page of a sector does, by its kind.
fn wrote_of(kind: Kind) -> Wrote
    ensures { result ≡ wrote_of kind }
{
    match kind {
        Kind::Sector => Wrote::Data,
        Kind::Trim | Kind::Translation | Kind::Table => Wrote::Trim,
    }
}

// What is told of the page of a row, of which this is the record and the version.
fn told_page(row: u32, version: u8, found: Record) -> SectorPage
    ensures { result ≡ told_page row version found }
{
    SectorPage {
        sequence: Reverse(found.sequence),
        row,
        version,
        wrote: wrote_of(found.kind),
    }
}

// The sound pages of a sector, as far as the pages have passed.
#[derive(Drop)]
struct Recalling {
    sector: u32,
    pages: Vec<SectorPage>,
    // the pages that are neither erased nor sound
    unsound: u32,
}

impl Recalling {
    // Notes the page of a row, with this record, where it is of the sector. The list has room for it.
    fn note(&mut self, row: u32, version: u8, found: Record)
        requires { length self.old.pages.items < vec_capacity self.old.pages }
        ensures noted { self.new.pages.items ≡ self.old.pages.items ++ page_by self.old.sector row version (Some found) }
        ensures few { length self.new.pages.items ≤ length self.old.pages.items + 1 }
        ensures room { vec_capacity self.new.pages ≡ vec_capacity self.old.pages }
        ensures sector { self.new.sector ≡ self.old.sector }
        ensures unsound { self.new.unsound ≡ self.old.unsound }
    {
        if found.key() == Key::Sector(self.sector) {
            self.pages.push_reserved(told_page(row, version, found));
        }
    }
}

impl Taker for Recalling {
    ghost use Rattle.std.specs.Prelude.{◌≡◌, ◌<◌, ◌≤◌, ◌+◌, ℕ, length, slice_get, vec_capacity, OnOk, OnErr, Some};
    ghost use Rattle.page_layout.specs.Geometry.{row_count};
    ghost use Rattle.page_layout.specs.Page.{Image, page};
    ghost use Rattle.lab_dump.specs.History.{ShowsHistory};
    ghost use Rattle.lab_dump.specs.Rooms.{HasRowRoom, IsHistoryRoom};

    ghost fixed = { λ s. Some s.sector };

    ghost stands = { λ s g rows. HasRowRoom (row_count g) rows s.pages.items (vec_capacity s.pages) × (s.unsound ≤ rows) };

    ghost shows = { λ s g rows image. ShowsHistory s.sector rows image s.pages.items s.unsound };

    // it never stops
    ghost stopped = { λ _. ⊥ };

    fn take(&mut self, geometry: &Geometry, row: u32, areas: Areas<'_>) -> Result<(), Stopped> {
        let Areas { body, spare } = areas;
        match read_record(geometry, body, spare) {
            Some(found) => self.note(row, spare[2], found),
            None if is_erased(body, spare) => {}
            None => self.unsound += 1,
        }
        Ok(())
    }
}

/// The memory of a history, for a die of one geometry. (This project's.)
#[derive(Drop)]
pub struct HistoryRoom {
    // the page at hand
    pub(crate) body: Vec<u8>,
    pub(crate) spare: Vec<u8>,
    pub(crate) pages: Vec<SectorPage>,
}

impl HistoryRoom {
    ghost use Rattle.std.specs.Prelude.{IfOk};

    /// All the memory that the history of a sector takes, of a die of this geometry: a page, and 16 bytes a row.
    ///
    /// # Errors
    ///
    /// Where a growth was refused. (This project's.)
    pub fn new(alloc: Global, geometry: &Geometry) -> Result<HistoryRoom, AllocError>
        ensures { IfOk result (IsHistoryRoom geometry.now) }
    {
        Ok(HistoryRoom {
            body: vec![in alloc; 0; geometry.data_bytes()]?,
            spare: vec![in alloc; 0; geometry.spare_bytes()]?,
            pages: Vec::with_capacity(alloc, geometry.rows() as usize)?,
        })
    }
}

/// The history of a sector, in one pass over the dump: its sound pages that the dump still has, newest first, over all blocks, bad ones
/// included. It takes no memory but that of the room.
///
/// # Errors
///
/// Each when it happens: `WrongLength` where the dump's bytes ended before the last page or a byte follows it, `Source` where a read failed or was
/// interrupted. (This project's rules.)
pub fn survey_sector<R: DumpReader>(
    room: HistoryRoom,
    reader: &mut R,
    geometry: &Geometry,
    sector: u32,
) -> Result<History, SurveyFault>
    requires { IsHistoryRoom geometry.now room }
    ensures ok { IfOk result (λ history. IfSome (R.remaining reader.old) (IsHistoryOf geometry.now sector history)) }
    ensures err { IfErr result (λ fault. IfSome (R.remaining reader.old) (IsUnsurveyed geometry.now fault)) }
    ensures source { result ≡ Err SurveyFault.Source → R.failed reader.new ≡ true }
{
    let (mut body, mut spare) = (room.body, room.spare);
    let mut recalling = Recalling {
        sector,
        pages: room.pages,
        unsound: 0,
    };
    scan(reader, geometry, &mut recalling, &mut body, &mut spare)?;
    let (mut pages, unsound) = (recalling.pages, recalling.unsound);
    pages.sort_unstable();
    Ok(History { pages, unsound })
}
