//! A dump is held beside the readings that it was made of, row by row.
ghost use Rattle.std.specs.Prelude.{◌≡◌, ◌<◌, ◌+◌, ◌*◌, ◌^◌, ℕ, Bool, List, Option, Some, None, length, map, get_or, slice_range, IfOk, IfErr, OnOk, OnErr, true, false};
ghost use Rattle.page_layout.specs.declared.record.Record.{Record};
ghost use Rattle.page_layout.specs.Geometry.{page_bytes, row_count};
ghost use Rattle.page_layout.specs.Sound.{record_of};
ghost use Rattle.lab_dump.specs.PageBytes.{page_from_bytes};
ghost use Rattle.lab_dump.specs.Scan.{image_bytes, Tell};
ghost use Rattle.lab_dump.specs.Until.{record_until};
ghost use Rattle.page_layout.specs.Array.{marks};
ghost use Rattle.lab_origin.specs.Origin.{image_of, is_in_a_reading, read_mark};
ghost use Rattle.lab_origin.specs.Tracing.{HasSectorPlaces, IsOriginRoom, ShowsOrigins, have_at};
ghost use Rattle.lab_origin.specs.Traced.{AreReadingsWhole, ArePinned, IsOfSome, IsTraced, IsUntraced};

use crate::mark::read_mark;
use crate::newest::{Change, record_until, sector_in, step};
use crate::readings::{ReadingFault, Unread, expect_whole, have_piece, is_whole};
use crate::room::OriginRoom;
use lab_dump::{Dump, DumpFault, MapMark};
use page_layout::geometry::Geometry;
use page_layout::newest::Latest;
use page_layout::record::{Record, read_record};
use thiserror::Error;

/// Why a dump was not held beside its readings.
#[derive(Clone, Copy, Debug, PartialEq, Eq, Error)]
pub enum OriginFault {
    /// It has not as many bytes as the die's pages have.
    #[error("the dump has not as many bytes as the geometry says")]
    WrongLength,
    /// It could not be read.
    #[error("the dump could not be read")]
    Source,
    /// A reading was not.
    #[error("{0}")]
    Reading(ReadingFault),
}

impl From<DumpFault> for OriginFault {
    ghost use Rattle.std.specs.Prelude.{◌≡◌};
    ghost use Rattle.lab_origin.specs.declared.trace.OriginFault.{OriginFault};

    ghost from_gives = { λ _ fault. fault ≡ OriginFault.Source };

    fn from(_fault: DumpFault) -> OriginFault {
        OriginFault::Source
    }
}

impl From<ReadingFault> for OriginFault {
    ghost use Rattle.std.specs.Prelude.{◌≡◌};
    ghost use Rattle.lab_origin.specs.declared.trace.OriginFault.{OriginFault};

    ghost from_gives = { λ told fault. fault ≡ OriginFault.Reading told };

    fn from(told: ReadingFault) -> OriginFault {
        OriginFault::Reading(told)
    }
}

impl From<Unread> for OriginFault {
    ghost use Rattle.std.specs.Prelude.{◌≡◌};
    ghost use Rattle.lab_origin.specs.declared.readings.ReadingFault.{ReadingFault};
    ghost use Rattle.lab_origin.specs.declared.trace.OriginFault.{OriginFault};

    ghost from_gives = { λ unread fault. fault ≡ OriginFault.Reading (ReadingFault.Source unread.reading) };

    fn from(unread: Unread) -> OriginFault {
        OriginFault::Reading(ReadingFault::Source(unread.reading))
    }
}

// What is held of each sector while the rows pass.
#[derive(Drop)]
struct Tracing {
    // the last sequence that counts, where not all do
    until: Option<u64>,
    latest: Vec<Latest>,
    marks: Vec<MapMark>,
}

// How a sector is marked that is shown from this page, which stands at this place of the dump.
fn mark_of<D: Dump>(
    readings: &mut [D],
    at: u64,
    page: &[u8],
    other: &mut [u8],
) -> Result<MapMark, Unread>
    requires { length other.old ≡ length page.now }
    ensures mark { IfOk result (λ mark. (files : List (List ℕ)) → Tell (map D.bytes readings.old) files → mark ≡ read_mark (have_at at page.now files)) }
    ensures same { map D.bytes readings.new ≡ map D.bytes readings.old }
    ensures size { length other.new ≡ length other.old }
    ensures failed { IfErr result (λ unread. get_or (map D.failed readings.new) unread.reading false ≡ true) }
    ensures reading { IfErr result (λ unread. unread.reading < length readings.old) }
{
    Ok(read_mark(have_piece(readings, at, page, other)?))
}

impl Tracing {
    // Takes the sound page of a row, which counts.
    fn take_found<D: Dump>(
        &mut self,
        readings: &mut [D],
        geometry: &Geometry,
        row: u32,
        found: &Record,
        page: &[u8],
        other: &mut [u8],
    ) -> Result<(), Unread>
        requires row_in { row < row_count geometry.now }
        requires page_whole { length page.now ≡ page_bytes geometry.now }
        requires other_whole { length other.old ≡ page_bytes geometry.now }
        requires sized { HasSectorPlaces geometry.now self.old.latest.items self.old.marks.items }
        ensures sized { OnOk result (HasSectorPlaces geometry.now self.new.latest.items self.new.marks.items) }
        ensures shows { OnOk result ((records : List (Option Record)) (read : ℕ → Bool) (files : List (List ℕ)) → Tell (map D.bytes readings.old) files
            → ShowsOrigins geometry.now records read row self.old.latest.items self.old.marks.items → get_or records row None ≡ Some found.now → read row ≡ have_at (row * page_bytes geometry.now) page.now files
            → ShowsOrigins geometry.now records read (row + 1) self.new.latest.items self.new.marks.items) }
        ensures until { self.new.until ≡ self.old.until }
        ensures same { map D.bytes readings.new ≡ map D.bytes readings.old }
        ensures size { length other.new ≡ length other.old }
        ensures failed { IfErr result (λ unread. get_or (map D.failed readings.new) unread.reading false ≡ true) }
        ensures reading { IfErr result (λ unread. unread.reading < length readings.old) }
    {
        let Some(sector) = sector_in(geometry, found) else {
            return Ok(());
        };
        let place = sector as usize;
        let (latest, change) = step(self.latest[place], row, found.sequence);
        let mark = match change {
            Change::Stays => self.marks[place],
            Change::Newest => mark_of(readings, u64::from(row) * page.len() as u64, page, other)?,
            Change::Tie => MapMark::Bad,
        };
        self.latest[place] = latest;
        self.marks[place] = mark;
        Ok(())
    }

    // Takes the page of a row.
    fn take_row<D: Dump>(
        &mut self,
        readings: &mut [D],
        geometry: &Geometry,
        row: u32,
        page: &[u8],
        other: &mut [u8],
    ) -> Result<(), Unread>
        requires row_in { row < row_count geometry.now }
        requires page_whole { length page.now ≡ page_bytes geometry.now }
        requires other_whole { length other.old ≡ page_bytes geometry.now }
        requires sized { HasSectorPlaces geometry.now self.old.latest.items self.old.marks.items }
        ensures sized { OnOk result (HasSectorPlaces geometry.now self.new.latest.items self.new.marks.items) }
        ensures shows { OnOk result ((records : List (Option Record)) (read : ℕ → Bool) (files : List (List ℕ)) → Tell (map D.bytes readings.old) files
            → ShowsOrigins geometry.now records read row self.old.latest.items self.old.marks.items
            → get_or records row None ≡ record_until self.old.until (record_of (page_from_bytes geometry.now.data_bytes page.now)) → read row ≡ have_at (row * page_bytes geometry.now) page.now files
            → ShowsOrigins geometry.now records read (row + 1) self.new.latest.items self.new.marks.items) }
        ensures until { self.new.until ≡ self.old.until }
        ensures same { map D.bytes readings.new ≡ map D.bytes readings.old }
        ensures size { length other.new ≡ length other.old }
        ensures failed { IfErr result (λ unread. get_or (map D.failed readings.new) unread.reading false ≡ true) }
        ensures reading { IfErr result (λ unread. unread.reading < length readings.old) }
    {
        let (body, spare) = page.split_at(geometry.data_bytes());
        match record_until(self.until, read_record(geometry, body, spare)) {
            Some(found) => self.take_found(readings, geometry, row, &found, page, other),
            None => Ok(()),
        }
    }
}

// Reads the page of a row.
fn read_row<D: Dump>(dump: &mut D, row: u32, page: &mut [u8]) -> Result<(), DumpFault>
    requires { length page.old < 2 ^ 32 }
    ensures read { OnOk result ((all : List ℕ) → D.bytes dump.old ≡ Some all → page.new ≡ slice_range all (row * length page.new) (row * length page.new + length page.new)) }
    ensures size { length page.new ≡ length page.old }
    ensures failed { OnErr result (D.failed dump.new ≡ true) }
    ensures same { D.bytes dump.new ≡ D.bytes dump.old }
{
    dump.read_at(u64::from(row) * page.len() as u64, page)
}

// Takes each row of the dump, by rising row.
fn take_rows<D: Dump>(
    tracing: &mut Tracing,
    dump: &mut D,
    readings: &mut [D],
    geometry: &Geometry,
    page: &mut [u8],
    other: &mut [u8],
) -> Result<(), OriginFault>
    requires page_whole { length page.old ≡ page_bytes geometry.now }
    requires other_whole { length other.old ≡ page_bytes geometry.now }
    requires sized { HasSectorPlaces geometry.now tracing.old.latest.items tracing.old.marks.items }
    requires none { (records : List (Option Record)) (read : ℕ → Bool) → ShowsOrigins geometry.now records read 0 tracing.old.latest.items tracing.old.marks.items }
    ensures sized { OnOk result (HasSectorPlaces geometry.now tracing.new.latest.items tracing.new.marks.items) }
    ensures shows { OnOk result ((all : List ℕ) (files : List (List ℕ)) → D.bytes dump.old ≡ Some all → Tell (map D.bytes readings.old) files
        → ShowsOrigins geometry.now (marks (image_of geometry.now tracing.old.until all)) (is_in_a_reading geometry.now all files) (row_count geometry.now) tracing.new.latest.items tracing.new.marks.items) }
    ensures err { IfErr result (λ fault. IsUntraced geometry.now (D.bytes dump.old) (map D.bytes readings.old) fault) }
    ensures pinned { IfErr result (ArePinned (D.failed dump.new) (map D.failed readings.new)) }
    ensures reading { IfErr result (IsOfSome (length readings.old)) }
{
    for row in 0..geometry.rows() {
        read_row(dump, row, page)?;
        tracing.take_row(readings, geometry, row, page, other)?;
    }
    Ok(())
}

// Sees that the dump and each reading have as many bytes as the die's pages.
fn expect_sizes<D: Dump>(
    dump: &mut D,
    readings: &mut [D],
    geometry: &Geometry,
) -> Result<(), OriginFault>
    ensures whole { OnOk result ((all : List ℕ) → D.bytes dump.old ≡ Some all → length all ≡ image_bytes geometry.now) }
    ensures readings_whole { OnOk result ((files : List (List ℕ)) → Tell (map D.bytes readings.old) files → AreReadingsWhole geometry.now files) }
    ensures dump_same { D.bytes dump.new ≡ D.bytes dump.old }
    ensures same { map D.bytes readings.new ≡ map D.bytes readings.old }
    ensures err { IfErr result (λ fault. IsUntraced geometry.now (D.bytes dump.old) (map D.bytes readings.old) fault) }
    ensures pinned { IfErr result (ArePinned (D.failed dump.new) (map D.failed readings.new)) }
    ensures reading { IfErr result (IsOfSome (length readings.old)) }
{
    if !is_whole(dump, geometry)? {
        return Err(OriginFault::WrongLength);
    }
    expect_whole(readings, geometry)?;
    Ok(())
}

/// Marks each sector of a dump: `Finished` where one of the readings has its newest page just as the dump has it, in the same row, `Mended` where none has: the page was mended, or put
/// together of several. It is `Bad` where two of its pages share its greatest sequence, and `Untried` where it has no sound page. The newest page of a sector is its
/// sound page of greatest sequence; where a sequence `until` is said, just the pages of this sequence or an earlier one count. The dump is read once. A page of
/// a reading is read where the dump's page of that row is newer than what was seen of its sector, and is not hashed. It takes no memory but that of the room.
///
/// # Errors
///
/// The first of this order, before any page is read: `WrongLength` where the dump has not as many bytes as the die's pages, `Reading` with the `WrongLength` of
/// the first reading that has not. Each when it happens: `Source` where the dump could not be read, `Reading` with a `Source` where a reading could not.
///
/// (This project's rules.)
pub fn trace_origins<D: Dump>(
    room: OriginRoom,
    dump: &mut D,
    readings: &mut [D],
    geometry: &Geometry,
    until: Option<u64>,
) -> Result<Vec<MapMark>, OriginFault>
    requires { IsOriginRoom geometry.now room }
    ensures ok { IfOk result (λ marks. (all : List ℕ) (files : List (List ℕ)) → D.bytes dump.old ≡ Some all → Tell (map D.bytes readings.old) files → IsTraced geometry.now until all files marks.items) }
    ensures sized { IfOk result (λ marks. length marks.items ≡ geometry.now.sectors) }
    ensures err { IfErr result (IsUntraced geometry.now (D.bytes dump.old) (map D.bytes readings.old)) }
    // Whatever the dump and the readings do.
    ensures pinned { IfErr result (ArePinned (D.failed dump.new) (map D.failed readings.new)) }
    ensures reading { IfErr result (IsOfSome (length readings.old)) }
{
    expect_sizes(dump, readings, geometry)?;
    let (mut page, mut other) = (room.page, room.other);
    let mut tracing = Tracing {
        until,
        latest: room.latest,
        marks: room.marks,
    };
    take_rows(
        &mut tracing,
        dump,
        readings,
        geometry,
        &mut page,
        &mut other,
    )?;
    Ok(tracing.marks)
}
