//! Whether a geometry that fits a dump as it stands is one of two planes.
ghost use Rattle.std.specs.Prelude.{◌≡◌, ◌+◌, ◌≤◌, List, ℕ, length, IfOk, IfSome, OnErr, Some, true};
ghost use Rattle.page_layout.specs.Geometry.{page_bytes};
ghost use Rattle.lab_arrange.specs.Place.{IsFitting};
ghost use Rattle.lab_dump.specs.Fits.{IsPossible};
ghost use Rattle.lab_shapes.specs.Arranged.{IsPossibleAs};
ghost use Rattle.lab_shapes.specs.Ordered.{in_turn_of, ordered};
ghost use Rattle.lab_shapes.specs.Planes.{IsInTurns, in_planes, IsTurnedOf};
ghost use Rattle.lab_shapes.specs.Rooms.{HasRoomForLargestPage};

use crate::find::{ArrangedFit, ShapeRoom};
use crate::fitting::fit_as;
use crate::looking::look_over;
use lab_arrange::{Arrangement, fit_arrangement, in_order};
use lab_dump::{Dump, DumpFault, Fit};
use page_layout::geometry::Geometry;

// The pages of two planes in turns, and nothing else.
fn in_planes() -> Arrangement
    ensures { result ≡ in_planes }
{
    Arrangement {
        planes: true,
        ..in_order()
    }
}

// How many of the pages that are looked at are in their turn in this arrangement. `raw` and `page` are scratch.
fn turns_in<D: Dump>(
    dump: &mut D,
    size: u64,
    geometry: &Geometry,
    arrangement: &Arrangement,
    raw: &mut [u8],
    page: &mut [u8],
) -> Result<u32, DumpFault>
    requires fits { IsFitting geometry.now arrangement.now }
    requires page_room { 4352 ≤ length page.old }
    requires raw_room { 4354 ≤ length raw.old }
    ensures count { IfOk result (λ count. (all : List ℕ) → D.bytes dump.old ≡ Some all → size ≡ length all → count ≡ in_turn_of geometry.now (ordered geometry.now arrangement.now all)) }
    ensures failed { OnErr result (D.failed dump.new ≡ true) }
    ensures same { D.bytes dump.new ≡ D.bytes dump.old }
{
    let bytes = geometry.data_bytes() + geometry.spare_bytes();
    let (raw, page) = (&mut raw[..bytes + 2], &mut page[..bytes]);
    let over = look_over(dump, size, geometry, arrangement, raw, page)?;
    Ok(over.in_turn)
}

// What the dump tells for this geometry with the pages of two planes in turns, where more of its pages are in their turn so than as it stands.
fn compare_turns<D: Dump>(
    room: &mut ShapeRoom,
    dump: &mut D,
    size: u64,
    geometry: &Geometry,
) -> Result<Option<ArrangedFit>, DumpFault>
    requires room { HasRoomForLargestPage room.old }
    ensures turned { IfOk result (λ turned. (all : List ℕ) → D.bytes dump.old ≡ Some all → size ≡ length all → IsInTurns all geometry.now turned) }
    ensures possible { IfOk result (λ turned. IfSome turned IsPossibleAs) }
    ensures source { OnErr result (D.failed dump.new ≡ true) }
    ensures same { D.bytes dump.new ≡ D.bytes dump.old }
{
    let planes = in_planes();
    if fit_arrangement(geometry, &planes).is_err() {
        return Ok(None);
    }
    let (raw, page) = (&mut room.raw, &mut room.page);
    let standing = turns_in(dump, size, geometry, &in_order(), raw, page)?;
    let turned = turns_in(dump, size, geometry, &planes, raw, page)?;
    if turned <= standing {
        return Ok(None);
    }
    fit_as(
        dump,
        size,
        geometry,
        &planes,
        0,
        &mut room.raw,
        &mut room.page,
    )
}

/// A geometry that fits a dump as it stands, with the pages of two planes in turns, where more of the pages that are looked at are in their turn so than
/// as the dump stands: each page is sound in both, and the array the same. `None` where they are not, or where its blocks are no pairs.
///
/// It takes no memory but that of the room.
///
/// # Errors
///
/// Where the dump's size cannot be known or a read of it fails. (This project's rules.)
pub fn find_planes<D: Dump>(
    mut room: ShapeRoom,
    dump: &mut D,
    fit: &Fit,
) -> Result<Option<ArrangedFit>, DumpFault>
    requires room { HasRoomForLargestPage room }
    ensures turned { IfOk result (λ turned. (all : List ℕ) → D.bytes dump.old ≡ Some all → IsTurnedOf all fit.now turned) }
    ensures possible { IfOk result (λ turned. IfSome turned IsPossibleAs) }
    ensures source { OnErr result (D.failed dump.new ≡ true) }
    ensures same { D.bytes dump.new ≡ D.bytes dump.old }
{
    let found = Geometry::new(fit.data_bytes, fit.spare_bytes, fit.pages, fit.blocks, 1);
    let Ok(geometry) = found else {
        return Ok(None);
    };
    let size = dump.size()?;
    compare_turns(&mut room, dump, size, &geometry)
}
