//! A dump that is put in order.
ghost use Rattle.std.specs.Prelude.{◌≡◌, ◌+◌, ◌<◌, ◌≤◌, List, ℕ, length, true, Some, IfOk, IfErr, IfSome, OnOk, OnErr};
ghost use Rattle.page_layout.specs.Geometry.{page_bytes, row_count};
ghost use Rattle.lab_arrange.specs.Arranged.{AreSized, IsArranged, IsUnarranged, arranged_piece, pieces_below, spare_at};
ghost use Rattle.lab_arrange.specs.Place.{IsFitting, length_of};
ghost use Rattle.lab_arrange.specs.Rooms.{IsArrangeRoom};

use crate::area::read_area;
use crate::arrangement::Arrangement;
use crate::places::{page_starts, wanted_length};
use lab_dump::{Dump, DumpFault, PageTarget};
use page_layout::geometry::Geometry;
use std::alloc::{AllocError, Global};

/// Why no dump in order was made.
#[derive(Clone, Copy, Debug, PartialEq, Eq)]
pub enum ArrangeFault {
    /// The dump has not as many bytes as the words and the geometry say: how many were wanted, and how many there are.
    WrongLength { wanted: u64, found: u64 },
    /// A read of the dump failed, or its size is not known.
    Source,
    /// A page could not be written.
    Target,
}

/// No dump in order was made: why, and the file of pages.
#[derive(Drop)]
pub struct Unarranged<T> {
    /// Why.
    pub fault: ArrangeFault,
    /// The file of pages, as far as it was written.
    pub target: T,
}

/// The memory of a run, for a die of one geometry. (This project's.)
#[derive(Drop)]
pub struct ArrangeRoom {
    // an area as it was read, with a byte before it and one behind it
    pub(crate) raw: Vec<u8>,
    // the page at hand
    pub(crate) page: Vec<u8>,
}

impl ArrangeRoom {
    ghost use Rattle.std.specs.Prelude.{IfOk};
    ghost use Rattle.lab_arrange.specs.Rooms.{IsArrangeRoom};

    /// All the memory that a run takes: that of two pages.
    ///
    /// # Errors
    ///
    /// Where a growth was refused. (This project's.)
    pub fn new(alloc: Global, geometry: &Geometry) -> Result<ArrangeRoom, AllocError>
        ensures { IfOk result (IsArrangeRoom geometry.now) }
    {
        let page = geometry.data_bytes() + geometry.spare_bytes();
        Ok(ArrangeRoom {
            raw: vec![in alloc; 0; page + 2]?,
            page: vec![in alloc; 0; page]?,
        })
    }
}

/// Reads the page of a row of a dump of this size from where its areas stand. `raw` is scratch, of two bytes more than a page has.
///
/// # Errors
///
/// `DumpFault` where a read of the dump failed. `raw` and `page` then hold anything. (This project's.)
pub fn read_page<D: Dump>(
    dump: &mut D,
    size: u64,
    geometry: &Geometry,
    arrangement: &Arrangement,
    row: u32,
    raw: &mut [u8],
    page: &mut [u8],
) -> Result<(), DumpFault>
    requires fits { IsFitting geometry.now arrangement.now }
    requires row { row < row_count geometry.now }
    requires page_room { length page.old ≡ page_bytes geometry.now }
    requires raw_room { length raw.old ≡ page_bytes geometry.now + 2 }
    ensures read { OnOk result ((all : List ℕ) → D.bytes dump.old ≡ Some all → size ≡ length all → page.new ≡ arranged_piece geometry.now arrangement.now all row) }
    ensures failed { OnErr result (D.failed dump.new ≡ true) }
    ensures same { D.bytes dump.new ≡ D.bytes dump.old }
{
    let starts = page_starts(geometry, arrangement, row);
    let (body, spare) = page.split_at_mut(geometry.data_bytes());
    read_area(dump, size, arrangement, starts.body, raw, body)?;
    read_area(dump, size, arrangement, starts.spare, raw, spare)
}

/// Reads the spare area alone of the page of a row of a dump of this size. `raw` is scratch, of two bytes more than a page has.
///
/// # Errors
///
/// `DumpFault` where a read of the dump failed. `raw` and `spare` then hold anything. (This project's.)
pub fn read_spare<D: Dump>(
    dump: &mut D,
    size: u64,
    geometry: &Geometry,
    arrangement: &Arrangement,
    row: u32,
    raw: &mut [u8],
    spare: &mut [u8],
) -> Result<(), DumpFault>
    requires fits { IsFitting geometry.now arrangement.now }
    requires row { row < row_count geometry.now }
    requires spare_room { length spare.old ≡ geometry.now.spare_bytes }
    requires raw_room { length raw.old ≡ page_bytes geometry.now + 2 }
    ensures read { OnOk result ((all : List ℕ) → D.bytes dump.old ≡ Some all → size ≡ length all → spare.new ≡ spare_at geometry.now arrangement.now all row) }
    ensures failed { OnErr result (D.failed dump.new ≡ true) }
    ensures same { D.bytes dump.new ≡ D.bytes dump.old }
{
    let start = page_starts(geometry, arrangement, row).spare;
    read_area(dump, size, arrangement, start, raw, spare)
}

// What failed of a run.
enum Broken {
    // A read of the dump.
    Source,
    // A write of a page.
    Target,
}

// Reads each page from where its areas stand, and writes it in its place. `raw` and `page` are scratch.
fn write_pages<D: Dump, T: PageTarget>(
    dump: &mut D,
    size: u64,
    geometry: &Geometry,
    arrangement: &Arrangement,
    raw: &mut [u8],
    page: &mut [u8],
    target: &mut T,
) -> Result<(), Broken>
    requires fits { IsFitting geometry.now arrangement.now }
    requires page_room { length page.old ≡ page_bytes geometry.now }
    requires raw_room { length raw.old ≡ page_bytes geometry.now + 2 }
    requires pieces { IfSome (T.pieces target.old) (λ ps. length ps ≡ row_count geometry.now) }
    ensures written { OnOk result ((all : List ℕ) → D.bytes dump.old ≡ Some all → size ≡ length all → IfSome (T.pieces target.new) (λ ps. ps ≡ pieces_below geometry.now arrangement.now all (row_count geometry.now))) }
    ensures sized { OnOk result (IfSome (T.pieces target.new) (AreSized geometry.now)) }
    ensures source { IfErr result (λ broken. broken ≡ Broken.Source → D.failed dump.new ≡ true) }
    ensures target { IfErr result (λ broken. broken ≡ Broken.Target → T.failed target.new ≡ true) }
{
    for row in 0..geometry.rows() {
        match read_page(dump, size, geometry, arrangement, row, raw, page) {
            Ok(()) => {}
            Err(_) => return Err(Broken::Source),
        }
        match target.put_page(row, page) {
            Ok(()) => {}
            Err(_) => return Err(Broken::Target),
        }
    }
    Ok(())
}

/// Writes the pages of a dump in this arrangement to a target, in row order, each its data area and then its spare area. The target has a piece for
/// each row, of as many bytes as a page has. It takes no memory but that of the room.
///
/// For a dump that tells its bytes, and a target that tells its pieces, each byte of the pieces is the byte of the dump at its place, as the die had
/// it; of bytes that were cut off it is 00h. Of any dump there is a whole piece for each row.
///
/// # Errors
///
/// Each with the target: `WrongLength` where the dump has not as many bytes as the arrangement and the geometry say; `Source` where its size is not
/// known or a read of it failed, `Target` where a write failed.
///
/// (This project's.)
pub fn arrange_dump<D: Dump, T: PageTarget + Drop>(
    mut room: ArrangeRoom,
    dump: &mut D,
    geometry: &Geometry,
    arrangement: &Arrangement,
    mut target: T,
) -> Result<T, Unarranged<T>>
    requires fits { IsFitting geometry.now arrangement.now }
    requires room { IsArrangeRoom geometry.now room }
    requires pieces { IfSome (T.pieces target) (λ ps. length ps ≡ row_count geometry.now) }
    ensures ok { IfOk result (λ target. (all : List ℕ) → D.bytes dump.old ≡ Some all → IsArranged geometry.now arrangement.now (T.pieces target) all) }
    ensures err { IfErr result (λ undone. IsUnarranged geometry.now arrangement.now (D.bytes dump.old) undone.fault) }
    // Whatever the dump and the target do.
    ensures sized { IfOk result (λ target. IfSome (T.pieces target) (AreSized geometry.now)) }
    ensures source { IfErr result (λ undone. undone.fault ≡ ArrangeFault.Source → D.failed dump.new ≡ true) }
    ensures target { IfErr result (λ undone. undone.fault ≡ ArrangeFault.Target → T.failed undone.target ≡ true) }
{
    let found = match dump.size() {
        Ok(size) => size,
        Err(_) => {
            let fault = ArrangeFault::Source;
            return Err(Unarranged { fault, target });
        }
    };
    let wanted = wanted_length(geometry, arrangement);
    if found != wanted {
        let fault = ArrangeFault::WrongLength { wanted, found };
        return Err(Unarranged { fault, target });
    }
    let written = write_pages(
        dump,
        found,
        geometry,
        arrangement,
        &mut room.raw,
        &mut room.page,
        &mut target,
    );
    match written {
        Ok(()) => Ok(target),
        Err(Broken::Source) => {
            let fault = ArrangeFault::Source;
            Err(Unarranged { fault, target })
        }
        Err(Broken::Target) => {
            let fault = ArrangeFault::Target;
            Err(Unarranged { fault, target })
        }
    }
}
