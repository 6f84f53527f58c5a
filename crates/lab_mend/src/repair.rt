//! The repair of a dump.
ghost use Rattle.std.specs.Prelude.{◌≡◌, length, true, IfOk, IfErr, IfSome};
ghost use Rattle.page_layout.specs.Geometry.{row_count};
ghost use Rattle.lab_dump.specs.Unmade.{IsUnmade};
ghost use Rattle.lab_mend.specs.Repaired.{IsOwnRepair, IsRepaired};
ghost use Rattle.lab_mend.specs.Rooms.{IsRepairRoom};

use crate::pairs::Watch;
use crate::repairing::{Mend, RepairAsked, Repairing};
use lab_dump::{DumpReader, MakeFault, PageTarget, Unwritten, scan};
use page_layout::geometry::Geometry;
use std::alloc::{AllocError, Global};

/// What was written, and what is to be told of it.
#[derive(Drop)]
pub struct Repaired<T> {
    /// The rows whose pages were to be mended, by rising row.
    pub mends: Vec<Mend>,
    /// The file of pages.
    pub target: T,
}

/// The memory of a repair, for a die of one geometry. (This project's.)
#[derive(Drop)]
pub struct RepairRoom {
    // the page as it was read
    pub(crate) body: Vec<u8>,
    pub(crate) spare: Vec<u8>,
    // the page as it is written
    pub(crate) scratch: Vec<u8>,
    pub(crate) mends: Vec<Mend>,
}

impl RepairRoom {
    ghost use Rattle.std.specs.Prelude.{IfOk};
    ghost use Rattle.lab_mend.specs.Rooms.{IsRepairRoom};

    /// All the memory that a repair of a dump of this geometry takes: that of two pages, and twenty bytes a row.
    ///
    /// # Errors
    ///
    /// Where a growth was refused. (This project's.)
    pub fn new(alloc: Global, geometry: &Geometry) -> Result<RepairRoom, AllocError>
        ensures { IfOk result (IsRepairRoom geometry.now) }
    {
        Ok(RepairRoom {
            body: vec![in alloc; 0; geometry.data_bytes()]?,
            spare: vec![in alloc; 0; geometry.spare_bytes()]?,
            scratch: vec![in alloc; 0; geometry.data_bytes() + geometry.spare_bytes()]?,
            mends: Vec::with_capacity(alloc, geometry.rows() as usize)?,
        })
    }
}

/// Writes each page of a dump to a target, those of rows asked for mended, in one pass over the dump: a page that is neither erased nor sound with
/// its lowest bit turned whose turning makes it sound, or, where there is none, with the bit turned that leaves it erased, if there is one; where two
/// bits may be turned and one serves neither, with the two bits turned that make it sound, if no other two do; and every other page as it is. Where
/// no rows are named, each is asked for. The seal decides: of such a page each bit of both areas is tried in turn, and then each pair of them. The
/// target has a piece for each row, of as many bytes as a page has. It takes no memory but that of the room.
///
/// For a reader that tells its bytes, and a target that tells its pieces, these are the repaired pages of the image that the bytes are, in rows not
/// asked for its own, and the list says what was turned of each page that was to be mended. Of any reader each piece is the repaired page of one from
/// which it differs in what the list says of the row, and in nothing where it says nothing; only rows asked for are named.
///
/// # Errors
///
/// Each with the target, when it happens: `WrongLength` where the dump's bytes ended before the last page or a byte follows it, `Source` where a read
/// failed or was interrupted, `Target` where a write failed.
///
/// (This project's rules.)
pub fn repair_dump<R: DumpReader, T: PageTarget + Drop, W: Watch + Drop>(
    room: RepairRoom,
    reader: &mut R,
    geometry: &Geometry,
    asked: RepairAsked,
    target: T,
    watch: W,
) -> Result<Repaired<T>, Unwritten<T>>
    requires room { IsRepairRoom geometry.now room }
    requires pieces { IfSome (T.pieces target) (λ ps. length ps ≡ row_count geometry.now) }
    ensures ok { IfOk result (λ told. IfSome (R.remaining reader.old) (IsRepaired geometry.now asked (T.pieces told.target) told.mends.items)) }
    ensures err { IfErr result (λ unwritten. IfSome (R.remaining reader.old) (IsUnmade geometry.now unwritten.fault)) }
    // Whatever the reader and the target do.
    ensures own { IfOk result (λ told. IsOwnRepair geometry.now asked (T.pieces told.target) told.mends.items) }
    ensures source { IfErr result (λ unwritten. unwritten.fault ≡ MakeFault.Source → R.failed reader.new ≡ true) }
    ensures target { IfErr result (λ unwritten. unwritten.fault ≡ MakeFault.Target → T.failed unwritten.target ≡ true) }
{
    let (mut body, mut spare) = (room.body, room.spare);
    let mut repairing = Repairing {
        asked,
        mends: room.mends,
        scratch: room.scratch,
        target,
        watch,
    };
    match scan(reader, geometry, &mut repairing, &mut body, &mut spare) {
        Ok(()) => Ok(Repaired {
            mends: repairing.mends,
            target: repairing.target,
        }),
        Err(fault) => Err(Unwritten {
            fault: MakeFault::from(fault),
            target: repairing.target,
        }),
    }
}
