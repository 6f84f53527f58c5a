//! A dump that is put right.
ghost use Rattle.std.specs.Prelude.{◌≡◌, length, true, IfOk, IfErr, IfSome};
ghost use Rattle.page_layout.specs.Geometry.{row_count};
ghost use Rattle.page_code.specs.Chip.{IsChipOf};
ghost use Rattle.lab_dump.specs.Unmade.{IsUnmade};
ghost use Rattle.lab_correct.specs.Corrected.{IsCorrected, IsOwnCorrected};
ghost use Rattle.lab_correct.specs.Rooms.{IsCorrectRoom};

use crate::correcting::{Correcting, Loss};
use lab_dump::{DumpReader, MakeFault, PageTarget, Unwritten, scan};
use page_code::chip::ChipGeometry;
use page_layout::geometry::Geometry;
use std::alloc::{AllocError, Global};

/// What was written, and what is to be told of it.
#[derive(Drop)]
pub struct DumpCorrected<T> {
    /// How many bits were turned back.
    pub turned: u64,
    /// In how many rows.
    pub touched: u32,
    /// The rows with lost chunks, by rising row.
    pub losses: Vec<Loss>,
    /// The file of pages.
    pub target: T,
}

/// The memory of a correction, for a chip of one geometry. (This project's.)
#[derive(Drop)]
pub struct CorrectRoom {
    // the page as it was read
    pub(crate) body: Vec<u8>,
    pub(crate) outer: Vec<u8>,
    // the page as it is written
    pub(crate) scratch: Vec<u8>,
    pub(crate) losses: Vec<Loss>,
}

impl CorrectRoom {
    ghost use Rattle.std.specs.Prelude.{IfOk};
    ghost use Rattle.page_code.specs.Chip.{IsChipOf};
    ghost use Rattle.lab_correct.specs.Rooms.{IsCorrectRoom};

    /// All the memory that a correction of a dump of this chip takes: that of two pages, and eight bytes a row.
    ///
    /// # Errors
    ///
    /// Where a growth was refused. (This project's.)
    pub fn new(
        alloc: Global,
        geometry: &Geometry,
        chip: &ChipGeometry,
    ) -> Result<CorrectRoom, AllocError>
        requires { IsChipOf geometry.now chip.now.raw }
        ensures { IfOk result (IsCorrectRoom geometry.now chip.now.raw) }
    {
        Ok(CorrectRoom {
            body: vec![in alloc; 0; chip.raw().data_bytes()]?,
            outer: vec![in alloc; 0; chip.raw().spare_bytes()]?,
            scratch: vec![in alloc; 0; geometry.data_bytes() + geometry.spare_bytes()]?,
            losses: Vec::with_capacity(alloc, chip.raw().rows() as usize)?,
        })
    }
}

/// Writes each page of a chip's dump to a target without its codes, in one pass over the dump. Of each chunk with its code one wrong bit, wherever it
/// is, is turned back; a chunk that is near to none is lost, and is written as it was read. The target has a piece for each row, of as many bytes as a
/// page without its codes has. It takes no memory but that of the room.
///
/// For a reader that tells its bytes, and a target that tells its pieces, the pieces are those of the pages that the bytes are, each put right, and
/// the counts and the list of losses are theirs. Of any reader they are those of some pages of the chip's sizes, one for each row.
///
/// # Errors
///
/// Each with the target, when it happens: `WrongLength` where the dump's bytes ended before the chip's last page or a byte follows it, `Source` where
/// a read failed or was interrupted, `Target` where a write failed.
///
/// (This project's rules.)
pub fn correct_dump<R: DumpReader, T: PageTarget + Drop>(
    room: CorrectRoom,
    reader: &mut R,
    geometry: &Geometry,
    chip: &ChipGeometry,
    target: T,
) -> Result<DumpCorrected<T>, Unwritten<T>>
    requires chip { IsChipOf geometry.now chip.now.raw }
    requires room { IsCorrectRoom geometry.now chip.now.raw room }
    requires pieces { IfSome (T.pieces target) (λ ps. length ps ≡ row_count geometry.now) }
    ensures ok { IfOk result (λ told. IfSome (R.remaining reader.old) (IsCorrected geometry.now chip.now.raw (T.pieces told.target) told.turned told.touched told.losses.items)) }
    ensures err { IfErr result (λ unwritten. IfSome (R.remaining reader.old) (IsUnmade chip.now.raw unwritten.fault)) }
    // Whatever the reader and the target do.
    ensures own { IfOk result (λ told. IsOwnCorrected geometry.now (T.pieces told.target) told.turned told.touched told.losses.items) }
    ensures source { IfErr result (λ unwritten. unwritten.fault ≡ MakeFault.Source → R.failed reader.new ≡ true) }
    ensures target { IfErr result (λ unwritten. unwritten.fault ≡ MakeFault.Target → T.failed unwritten.target ≡ true) }
{
    let (mut body, mut outer) = (room.body, room.outer);
    let mut correcting = Correcting {
        geometry: *geometry,
        scratch: room.scratch,
        turned: 0,
        touched: 0,
        losses: room.losses,
        target,
    };
    match scan(reader, chip.raw(), &mut correcting, &mut body, &mut outer) {
        Ok(()) => Ok(DumpCorrected {
            turned: correcting.turned,
            touched: correcting.touched,
            losses: correcting.losses,
            target: correcting.target,
        }),
        Err(fault) => Err(Unwritten {
            fault: MakeFault::from(fault),
            target: correcting.target,
        }),
    }
}
