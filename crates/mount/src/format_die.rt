//! Formatting a fresh die.
ghost use Rattle.std.specs.Prelude.{◌≡◌, ◌⊎◌, ◌<◌, ◌≤◌, ◌+◌, ◌*◌, ◌^◌, true, IsErrOf, OnOk};
ghost use Rattle.page_layout.specs.Counter.{HasRisen};
ghost use Rattle.page_layout.specs.Geometry.{need, need_at, row_count, table_pages};
ghost use Rattle.mount.specs.Formatted.{Answers, Formats, IsScanned};

use crate::format_fault::FormatFault;
use crate::format_survey::survey;
use crate::format_tables::{require_good, write_tables};
use bad_blocks::Class;
use onfi_cycles::Nand;
use page_layout::geometry::Geometry;
use std::alloc::Global;

// What is kept of a block.
const _: () = prove!(size_of::<Class>() == 1);

/// Makes a fresh die ready, and answers its good blocks (this project). A die is fresh where each
/// page of the blocks that the factory didn't mark is erased, and no page of a marked block is sound.
///
/// It reads each page once, and keeps one page and one byte for each block, its class; this memory is
/// taken before the first page is read. Then it writes the table pages, which name the marked blocks,
/// into the first pages of the lowest good block, with sequences from 1 on. Where a program fails,
/// that block is grown bad, and the table is written anew from its first page in the next good block,
/// the sequences going on. It never programs a marked block, and erases nothing.
///
/// `TooFewGood` comes first: where fewer blocks are unmarked than the die needs, and then nothing
/// was programmed, or where the first or second failure leaves fewer. `NotFresh` names the lowest row
/// that keeps the die from being fresh, and leaves it as it was. `WriteFailed` is the third failure,
/// whatever is left. `OutOfMemory` leaves the die untouched. `Bus` comes only where a page read or a
/// program failed, and then nothing is known of the die. Whatever it answers, nothing is programmed
/// before each page was read, nor on an honest die that isn't fresh or has too few good blocks.
pub fn format<N: Nand>(alloc: Global, nand: &mut N, geometry: &Geometry) -> Result<u32, FormatFault>
    requires { (N.view.flash nand.old).geometry ≡ geometry.now }
    ensures formats { N.view.honest nand.old ≡ true → Formats geometry.now (need geometry.now) (N.view.flash nand.old) (N.view.flash nand.new) result }
    ensures answers { Answers geometry.now (need geometry.now) (N.view.programs nand.old) (N.view.programs nand.new) result }
    ensures scanned { (N.view.programs nand.new ≡ N.view.programs nand.old)
        ⊎ IsScanned geometry.now (need geometry.now) (N.view.honest nand.old) (N.view.flash nand.old) (N.view.reads nand.old) (N.view.reads nand.new) }
    ensures bus { IsErrOf result FormatFault.Bus → HasRisen (N.view.failed nand.old) (N.view.failed nand.new) }
    ensures memory { IsErrOf result FormatFault.OutOfMemory → nand.new ≡ nand.old }

    // Each page is read once, and nothing is erased.
    ensures reads { OnOk result (N.view.reads nand.old + row_count geometry.now < 2 ^ 64 →
        N.view.reads nand.new ≡ N.view.reads nand.old + row_count geometry.now) }
    ensures most_reads { N.view.reads nand.new ≤ N.view.reads nand.old + row_count geometry.now }
    ensures most_programs { N.view.programs nand.new ≤ N.view.programs nand.old + 3 * table_pages geometry.now }
    ensures erases { N.view.erases nand.new ≡ N.view.erases nand.old }
    ensures geometry { (N.view.flash nand.new).geometry ≡ (N.view.flash nand.old).geometry }
    ensures honest { N.view.honest nand.new ≡ N.view.honest nand.old }
    ensures calm { N.view.calm nand.new ≡ N.view.calm nand.old }
    ensures failed { N.view.failed nand.old ≤ N.view.failed nand.new }
{
    format_at(alloc, nand, geometry, 0)
}

/// [`format`] for a device of this share (this project): `TooFewGood` is answered by the good blocks
/// that [`Geometry::need_at`] tells.
pub fn format_at<N: Nand>(
    alloc: Global,
    nand: &mut N,
    geometry: &Geometry,
    share: u32,
) -> Result<u32, FormatFault>
    requires { (N.view.flash nand.old).geometry ≡ geometry.now }
    ensures formats { N.view.honest nand.old ≡ true → Formats geometry.now (need_at geometry.now share) (N.view.flash nand.old) (N.view.flash nand.new) result }
    ensures answers { Answers geometry.now (need_at geometry.now share) (N.view.programs nand.old) (N.view.programs nand.new) result }
    ensures scanned { (N.view.programs nand.new ≡ N.view.programs nand.old)
        ⊎ IsScanned geometry.now (need_at geometry.now share) (N.view.honest nand.old) (N.view.flash nand.old) (N.view.reads nand.old) (N.view.reads nand.new) }
    ensures bus { IsErrOf result FormatFault.Bus → HasRisen (N.view.failed nand.old) (N.view.failed nand.new) }
    ensures memory { IsErrOf result FormatFault.OutOfMemory → nand.new ≡ nand.old }

    // Each page is read once, and nothing is erased.
    ensures reads { OnOk result (N.view.reads nand.old + row_count geometry.now < 2 ^ 64 →
        N.view.reads nand.new ≡ N.view.reads nand.old + row_count geometry.now) }
    ensures most_reads { N.view.reads nand.new ≤ N.view.reads nand.old + row_count geometry.now }
    ensures most_programs { N.view.programs nand.new ≤ N.view.programs nand.old + 3 * table_pages geometry.now }
    ensures erases { N.view.erases nand.new ≡ N.view.erases nand.old }
    ensures geometry { (N.view.flash nand.new).geometry ≡ (N.view.flash nand.old).geometry }
    ensures honest { N.view.honest nand.new ≡ N.view.honest nand.old }
    ensures calm { N.view.calm nand.new ≡ N.view.calm nand.old }
    ensures failed { N.view.failed nand.old ≤ N.view.failed nand.new }
{
    let need = geometry.need_at(share);
    let mut classes = vec![in alloc; Class::Good; geometry.blocks() as usize]?;
    let mut body = vec![in alloc; 0; geometry.data_bytes()]?;
    let mut spare = vec![in alloc; 0; geometry.spare_bytes()]?;
    let used = survey(nand, geometry, &mut classes, &mut body, &mut spare)?;
    require_good(&classes, need)?;
    match used {
        Some(row) => Err(FormatFault::NotFresh { row }),
        None => write_tables(nand, geometry, need, &mut classes, &mut body, &mut spare),
    }
}
