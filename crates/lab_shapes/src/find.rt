//! The geometry and the arrangement in which a dump fits best.
ghost use Rattle.std.specs.Prelude.{◌≡◌, ◌⊎◌, ◌<◌, ◌≤◌, All, List, ℕ, length, IfOk, IfSome, OnOk, OnErr, Some, true};
ghost use Rattle.page_layout.specs.Limits.{IsDataSize, IsPageCount, IsSpareSize};
ghost use Rattle.lab_arrange.specs.declared.arrangement.Arrangement.{Arrangement};
ghost use Rattle.lab_shapes.specs.declared.find.ArrangedFit.{ArrangedFit};
ghost use Rattle.std.specs.Ordering.{is_lt};
ghost use Rattle.lab_shapes.specs.Arranged.{FitsArranged, IsBest, IsPossibleAs, arranged_rank};
ghost use Rattle.lab_shapes.specs.Better.{Improves, InAreas, InWay, InData, InShape, KeepsPossible, least_turns};
ghost use Rattle.lab_shapes.specs.Rooms.{HasRoomForLargestPage, IsShapeRoom};
ghost use Rattle.lab_shapes.specs.Tried.{IsTriedWay};

use crate::fitting::fit_as;
use crate::shapes::shape_in;
use crate::tried::{WAYS, Way, way_of};
use lab_arrange::Arrangement;
use lab_dump::{Dump, DumpFault, Fit, data_sizes, page_counts};
use std::alloc::{AllocError, Global};
use std::cmp::Reverse;

// The most bytes that a page may have.
const MOST_PAGE: usize = 4352;

/// A geometry that fits a dump in an arrangement, with what the dump says for it. The best comes first: the one with the most pages in their turn, then
/// by what is said for the geometry, then by the arrangement.
#[derive(Clone, Copy, Debug, PartialEq, Eq, PartialOrd, Ord)]
pub struct ArrangedFit {
    /// The pages of those that were looked at that are sound and in their turn: the first one of its block, or behind one that is not
    /// sound nor erased, or has an earlier sequence.
    pub in_turn: Reverse<u32>,
    /// The geometry, and what the dump says for it when it is put in order.
    pub fit: Fit,
    /// How the dump stands.
    pub arrangement: Arrangement,
}

/// The memory of a search for an arrangement. (This project's.)
#[derive(Drop)]
pub struct ShapeRoom {
    // an area as it was read, with a byte before it and one behind it
    pub(crate) raw: Vec<u8>,
    // the page at hand
    pub(crate) page: Vec<u8>,
    // the best so far
    pub(crate) best: Option<ArrangedFit>,
}

impl ShapeRoom {
    ghost use Rattle.std.specs.Prelude.{IfOk};
    ghost use Rattle.lab_shapes.specs.Rooms.{IsShapeRoom};

    /// All the memory that a search takes: room for two pages, of at most 4352 bytes, whatever the dump's size.
    ///
    /// # Errors
    ///
    /// Where a growth was refused. (This project's.)
    pub fn new(alloc: Global) -> Result<ShapeRoom, AllocError>
        ensures { IfOk result IsShapeRoom }
    {
        Ok(ShapeRoom {
            raw: vec![in alloc; 0; MOST_PAGE + 2]?,
            page: vec![in alloc; 0; MOST_PAGE]?,
            best: None,
        })
    }
}

// Whether one comes before another.
fn comes_before(one: &ArrangedFit, other: &ArrangedFit) -> bool
    ensures { result ≡ is_lt (arranged_rank one.now other.now) }
{
    one.cmp(other).is_lt()
}

// The better one of what was best so far and what was found.
fn better(so_far: Option<ArrangedFit>, found: ArrangedFit) -> ArrangedFit
    ensures better { Improves (λ y. y ≡ found) so_far (Some result) }
    ensures possible { IsPossibleAs found → IfSome so_far IsPossibleAs → IsPossibleAs result }
{
    let Some(best) = so_far else {
        return found;
    };
    if comes_before(&found, &best) {
        found
    } else {
        best
    }
}

// The pages in their turn of the best one so far: what has fewer comes behind it.
fn least_turns(best: Option<ArrangedFit>) -> u32
    ensures { result ≡ least_turns best }
{
    match best {
        Some(best) => best.in_turn.0,
        None => 0,
    }
}

// Tries the geometry of such areas and blocks in this way.
fn try_shape<D: Dump>(
    room: &mut ShapeRoom,
    dump: &mut D,
    size: u64,
    way: &Way,
    data_bytes: u32,
    spare_bytes: u32,
    pages: u32,
) -> Result<(), DumpFault>
    requires data_size { IsDataSize data_bytes }
    requires spare_size { IsSpareSize spare_bytes }
    requires page_count { IsPageCount pages }
    requires tried { IsTriedWay way.now }
    requires room { HasRoomForLargestPage room.old }
    ensures better { OnOk result ((all : List ℕ) → D.bytes dump.old ≡ Some all → size ≡ length all → Improves (InShape all way.now data_bytes spare_bytes pages) room.old.best room.new.best) }
    ensures possible { OnOk result (KeepsPossible room.old.best room.new.best) }
    ensures room { HasRoomForLargestPage room.new }
    ensures source { OnErr result (D.failed dump.new ≡ true) }
    ensures same { D.bytes dump.new ≡ D.bytes dump.old }
{
    let Some((geometry, arrangement)) = shape_in(size, way, data_bytes, spare_bytes, pages) else {
        return Ok(());
    };
    let found = fit_as(
        dump,
        size,
        &geometry,
        &arrangement,
        least_turns(room.best),
        &mut room.raw,
        &mut room.page,
    )?;
    if let Some(found) = found {
        room.best = Some(better(room.best, found));
    }
    Ok(())
}

// Tries those of such areas in this way, with each number of pages in a block.
fn try_areas<D: Dump>(
    room: &mut ShapeRoom,
    dump: &mut D,
    size: u64,
    way: &Way,
    data_bytes: u32,
    spare_bytes: u32,
) -> Result<(), DumpFault>
    requires data_size { IsDataSize data_bytes }
    requires spare_size { IsSpareSize spare_bytes }
    requires tried { IsTriedWay way.now }
    requires room { HasRoomForLargestPage room.old }
    ensures better { OnOk result ((all : List ℕ) → D.bytes dump.old ≡ Some all → size ≡ length all → Improves (InAreas all way.now data_bytes spare_bytes) room.old.best room.new.best) }
    ensures possible { OnOk result (KeepsPossible room.old.best room.new.best) }
    ensures room { HasRoomForLargestPage room.new }
    ensures source { OnErr result (D.failed dump.new ≡ true) }
    ensures same { D.bytes dump.new ≡ D.bytes dump.old }
{
    for pages in page_counts() {
        try_shape(room, dump, size, way, data_bytes, spare_bytes, pages)?;
    }
    Ok(())
}

// Tries those with a data area of so many bytes in this way.
fn try_data<D: Dump>(
    room: &mut ShapeRoom,
    dump: &mut D,
    size: u64,
    way: &Way,
    data_bytes: u32,
) -> Result<(), DumpFault>
    requires data_size { IsDataSize data_bytes }
    requires tried { IsTriedWay way.now }
    requires room { HasRoomForLargestPage room.old }
    ensures better { OnOk result ((all : List ℕ) → D.bytes dump.old ≡ Some all → size ≡ length all → Improves (InData all way.now data_bytes) room.old.best room.new.best) }
    ensures possible { OnOk result (KeepsPossible room.old.best room.new.best) }
    ensures room { HasRoomForLargestPage room.new }
    ensures source { OnErr result (D.failed dump.new ≡ true) }
    ensures same { D.bytes dump.new ≡ D.bytes dump.old }
{
    for spare_bytes in 32..257 {
        try_areas(room, dump, size, way, data_bytes, spare_bytes)?;
    }
    Ok(())
}

// Tries all in this way.
fn try_way<D: Dump>(
    room: &mut ShapeRoom,
    dump: &mut D,
    size: u64,
    way: &Way,
) -> Result<(), DumpFault>
    requires tried { IsTriedWay way.now }
    requires room { HasRoomForLargestPage room.old }
    ensures better { OnOk result ((all : List ℕ) → D.bytes dump.old ≡ Some all → size ≡ length all → Improves (InWay all way.now) room.old.best room.new.best) }
    ensures possible { OnOk result (KeepsPossible room.old.best room.new.best) }
    ensures room { HasRoomForLargestPage room.new }
    ensures source { OnErr result (D.failed dump.new ≡ true) }
    ensures same { D.bytes dump.new ≡ D.bytes dump.old }
{
    for data_bytes in data_sizes() {
        try_data(room, dump, size, way, data_bytes)?;
    }
    Ok(())
}

/// The geometry and the arrangement in which the dump fits best, if one fits. Tried is each geometry of a die in each order of the bytes that an
/// arrangement says, with nothing around the pages, or a header or a tail of a power of two from 16 to 65536 bytes, that comes to the dump's bytes; and
/// each in order with a part of its last block cut off. It fits where, of the dump put in order, one of the first 64 pages that `find_geometries` looks at is sound; with a part cut off, where more of these are than neither sound nor erased. The best one has the most pages in their
/// turn, of those that are looked at: so an order in which blocks stand as they were programmed comes before one in which they do not.
///
/// It takes no memory but that of the room.
///
/// # Errors
///
/// Where the dump's size cannot be known or a read of it fails. (This project's rules.)
pub fn find_arranged<D: Dump>(
    mut room: ShapeRoom,
    dump: &mut D,
) -> Result<Option<ArrangedFit>, DumpFault>
    requires { IsShapeRoom room }
    ensures best { IfOk result (λ best. (all : List ℕ) → D.bytes dump.old ≡ Some all → IsBest all best) }
    ensures possible { IfOk result (λ best. IfSome best IsPossibleAs) }
    ensures source { OnErr result (D.failed dump.new ≡ true) }
    ensures same { D.bytes dump.new ≡ D.bytes dump.old }
{
    let size = dump.size()?;
    for number in 0..WAYS {
        try_way(&mut room, dump, size, &way_of(number))?;
    }
    Ok(room.best)
}
