//! The array of a dump.
ghost use Rattle.std.specs.Prelude.{◌≡◌, length, replicate, true, false, IfOk, IfErr, IfSome};
ghost use Rattle.page_layout.specs.Geometry.{row_count};
ghost use Rattle.page_layout.specs.Page.{Image};
ghost use Rattle.page_layout.specs.Array.{zeros};
ghost use Rattle.lab_dump.specs.Doubting.{DoubtingStands, IsDoubting};
ghost use Rattle.lab_dump.specs.Rooms.{IsArrayRoom};
ghost use Rattle.lab_dump.specs.Unmade.{IsUnmade, make_fault_of};
ghost use Rattle.lab_dump.specs.Written.{IsLeftUnsettled, IsArrayWritten, TiedLaw};

use crate::damaged::DamagedWriting;
use crate::doubting::Doubting;
use crate::doubts::Unsettled;
use crate::held::Held;
use crate::make_fault::MakeFault;
use crate::pass::{PassFault, scan};
use crate::target::{DamagedTarget, Target};
use crate::writing::Writing;
use image_check::DumpReader;
use page_layout::geometry::Geometry;
use std::alloc::{AllocError, Global};

/// What was written, and what is to be told of it.
#[derive(Drop)]
pub struct ArrayWritten<T> {
    /// What is held of each sector.
    pub held: Vec<Held>,
    /// What the dump leaves open, over all sequences.
    pub left: Unsettled,
    /// The file.
    pub target: T,
}

/// Why no file was made of a dump, and the file as far as it was written.
#[derive(Drop)]
pub struct Unwritten<T> {
    /// Why.
    pub fault: MakeFault,
    /// The file.
    pub target: T,
}

/// The memory of a run that writes the array of a die of one geometry. (This project's.)
#[derive(Drop)]
pub struct ArrayRoom {
    // the page at hand
    pub(crate) body: Vec<u8>,
    pub(crate) spare: Vec<u8>,
    // what is held of each sector
    pub(crate) held: Vec<Held>,
    // a sector's bytes where it has none
    pub(crate) zeros: Vec<u8>,
    // what is left open
    pub(crate) doubting: Doubting,
}

impl ArrayRoom {
    ghost use Rattle.std.specs.Prelude.{IfOk};
    ghost use Rattle.lab_dump.specs.Rooms.{IsArrayRoom};

    /// All the memory that writing the array of a die of this geometry takes.
    ///
    /// # Errors
    ///
    /// Where a growth was refused. (This project's.)
    pub fn new(alloc: Global, geometry: &Geometry) -> Result<ArrayRoom, AllocError>
        ensures { IfOk result (IsArrayRoom geometry.now) }
    {
        Ok(ArrayRoom {
            body: vec![in alloc; 0; geometry.data_bytes()]?,
            spare: vec![in alloc; 0; geometry.spare_bytes()]?,
            held: vec![in alloc; Held::Never; geometry.sectors() as usize]?,
            zeros: vec![in alloc; 0; geometry.data_bytes()]?,
            doubting: Doubting::new(alloc, geometry)?,
        })
    }
}

/// A sector is tied just where two of its pages share its greatest sequence.
pub fn tied_law()
    ensures { TiedLaw }
{}

// What is to be told once all pages were taken.
fn conclude<T>(geometry: &Geometry, writing: Writing<T>) -> ArrayWritten<T>
    requires { DoubtingStands geometry.now (row_count geometry.now) writing.doubting }
    ensures held { result.held.items ≡ writing.held.items }
    ensures target { result.target ≡ writing.target }
    ensures left { (image : Image) → length image ≡ row_count geometry.now → IsDoubting geometry.now (row_count geometry.now) image writing.doubting → IsLeftUnsettled geometry.now image result.left }
{
    let mut doubting = writing.doubting;
    let doubts = doubting.conclude(geometry);
    let left = Unsettled {
        doubts,
        legible: doubting.legible,
        said: doubting.said,
    };
    ArrayWritten {
        held: writing.held,
        left,
        target: writing.target,
    }
}

// Why no file was made, by why not all pages were taken, and the file as far as it was written.
fn not_written<T>(fault: PassFault, target: T) -> Unwritten<T>
    ensures fault { result.fault ≡ make_fault_of fault }
    ensures target { result.target ≡ target }
{
    Unwritten {
        fault: MakeFault::from(fault),
        target,
    }
}

/// Writes each sector of a dump to a target, in one pass over the dump: the data area of the sector's newest page, or zeros where that page
/// is a trim, the sector has none, or two of its pages share its greatest sequence. The target has a piece of zeros for each sector at
/// first. The newest page of a sector is its sound page of greatest sequence, over all blocks, bad ones included. Where a sequence `until` is said,
/// just the pages of this sequence or an earlier one count. It takes no memory but that of the room.
///
/// For a reader that tells its bytes, and a target that tells its pieces, these are the array of the image that the bytes are, as of that sequence. Whatever the
/// reader does, the target is handed zeros alone, or a page that is sound and holds that sector.
///
/// # Errors
///
/// Each with the target, when it happens: `WrongLength` where the dump's bytes ended before the last page or a byte follows it, `Source` where a read
/// failed or was interrupted, `Target` where a write failed.
///
/// (This project's rules.)
pub fn write_array<R: DumpReader, T: Target + Drop>(
    room: ArrayRoom,
    reader: &mut R,
    geometry: &Geometry,
    until: Option<u64>,
    target: T,
) -> Result<ArrayWritten<T>, Unwritten<T>>
    requires room { IsArrayRoom geometry.now room }
    requires pieces { IfSome (T.pieces target) (λ ps. ps ≡ replicate geometry.now.sectors (zeros geometry.now)) }
    ensures ok { IfOk result (λ written. IfSome (R.remaining reader.old) (IsArrayWritten geometry.now until false (T.pieces written.target) written.held.items written.left)) }
    ensures sized { IfOk result (λ written. length written.held.items ≡ geometry.now.sectors) }
    ensures err { IfErr result (λ unwritten. IfSome (R.remaining reader.old) (IsUnmade geometry.now unwritten.fault)) }
    // Whatever the reader and the target do.
    ensures source { IfErr result (λ unwritten. unwritten.fault ≡ MakeFault.Source → R.failed reader.new ≡ true) }
    ensures target { IfErr result (λ unwritten. unwritten.fault ≡ MakeFault.Target → T.failed unwritten.target ≡ true) }
{
    let (mut body, mut spare) = (room.body, room.spare);
    let mut writing = Writing {
        until,
        held: room.held,
        zeros: room.zeros,
        doubting: room.doubting,
        target,
    };
    match scan(reader, geometry, &mut writing, &mut body, &mut spare) {
        Ok(()) => Ok(conclude(geometry, writing)),
        Err(fault) => Err(not_written(fault, writing.target)),
    }
}

/// The same with pages shown that are not sound: a sector of which such a page says something newer than each sound page is written as that page has it, its data area as it reads where
/// the page says a sector, zeros where it says a trim. Of several the one of the greatest sequence is shown, and of those the first. A page of a later sequence than `until` does not count.
///
/// # Errors
///
/// As of `write_array`.
///
/// (This project's rules.)
pub fn write_damaged<R: DumpReader, T: DamagedTarget + Drop>(
    room: ArrayRoom,
    reader: &mut R,
    geometry: &Geometry,
    until: Option<u64>,
    target: T,
) -> Result<ArrayWritten<T>, Unwritten<T>>
    requires room { IsArrayRoom geometry.now room }
    requires pieces { IfSome (T.pieces target) (λ ps. ps ≡ replicate geometry.now.sectors (zeros geometry.now)) }
    ensures ok { IfOk result (λ written. IfSome (R.remaining reader.old) (IsArrayWritten geometry.now until true (T.pieces written.target) written.held.items written.left)) }
    ensures sized { IfOk result (λ written. length written.held.items ≡ geometry.now.sectors) }
    ensures err { IfErr result (λ unwritten. IfSome (R.remaining reader.old) (IsUnmade geometry.now unwritten.fault)) }
    // Whatever the reader and the target do.
    ensures source { IfErr result (λ unwritten. unwritten.fault ≡ MakeFault.Source → R.failed reader.new ≡ true) }
    ensures target { IfErr result (λ unwritten. unwritten.fault ≡ MakeFault.Target → T.failed unwritten.target ≡ true) }
{
    let (mut body, mut spare) = (room.body, room.spare);
    let writing = Writing {
        until,
        held: room.held,
        zeros: room.zeros,
        doubting: room.doubting,
        target,
    };
    let mut taker = DamagedWriting { writing };
    match scan(reader, geometry, &mut taker, &mut body, &mut spare) {
        Ok(()) => Ok(conclude(geometry, taker.writing)),
        Err(fault) => Err(not_written(fault, taker.writing.target)),
    }
}
