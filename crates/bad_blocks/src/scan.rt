//! The factory's marks.
ghost use Rattle.std.specs.Prelude.{◌≡◌, ◌<◌, ◌≤◌, ◌+◌, ◌*◌, ◌^◌, true, length, vec_len, IfOk, IsErrOf, OnOk, OnErr};
ghost use Rattle.page_layout.specs.Counter.{counted, HasRisen};
ghost use Rattle.page_layout.specs.Geometry.{row_count};
ghost use Rattle.page_layout.specs.OnlyReads.{OnlyReads};
ghost use Rattle.bad_blocks.specs.Marks.{has_mark, is_marked, factory_marks};

use page_layout::geometry::Geometry;
use page_layout::lanes::has_zero;
use page_layout::source::{PageSource, SourceFault};
use std::alloc::{AllocError, Global};
use thiserror::Error;

/// Why the marks of a die aren't known (this project).
#[derive(Clone, Copy, Debug, PartialEq, Eq, Error)]
pub enum ScanFault {
    /// A page read failed.
    #[error("Source")]
    Source,
    /// A growth was refused; no page was read.
    #[error("OutOfMemory")]
    OutOfMemory,
}

impl From<SourceFault> for ScanFault {
    ghost use Rattle.bad_blocks.specs.declared.scan.ScanFault.TheVariants.{Source};

    ghost from_gives = { λ _ fault. fault ≡ Source };

    fn from(_fault: SourceFault) -> ScanFault {
        ScanFault::Source
    }
}

impl From<AllocError> for ScanFault {
    ghost use Rattle.bad_blocks.specs.declared.scan.ScanFault.TheVariants.{OutOfMemory};

    ghost from_gives = { λ _ fault. fault ≡ OutOfMemory };

    fn from(_fault: AllocError) -> ScanFault {
        ScanFault::OutOfMemory
    }
}

fn has_mark<S: PageSource>(
    source: &mut S,
    row: u32,
    body: &mut [u8],
    spare: &mut [u8],
) -> Result<bool, SourceFault>
    requires within { row < row_count (S.view.flash source.old).geometry }
    requires body_whole { length body.old ≡ (S.view.flash source.old).geometry.data_bytes }
    requires spare_whole { length spare.old ≡ (S.view.flash source.old).geometry.spare_bytes }
    ensures marked { IfOk result (λ marked. S.view.honest source.old ≡ true → marked ≡ has_mark (S.view.flash source.old).image row) }
    ensures same { OnOk result (S.view.honest source.old ≡ true → S.view.flash source.new ≡ S.view.flash source.old) }
    ensures only_reads { OnlyReads S.view source.old source.new }
    ensures reads { S.view.reads source.new ≡ counted (S.view.reads source.old) }
    ensures rose { OnErr result (HasRisen (S.view.failed source.old) (S.view.failed source.new)) }
{
    source.read_page(row, body, spare)?;
    Ok(has_zero(spare))
}

fn is_marked<S: PageSource>(
    source: &mut S,
    geometry: &Geometry,
    block: u32,
    body: &mut [u8],
    spare: &mut [u8],
) -> Result<bool, SourceFault>
    requires within { block < geometry.now.blocks }
    requires geometry { (S.view.flash source.old).geometry ≡ geometry.now }
    requires body_whole { length body.old ≡ geometry.now.data_bytes }
    requires spare_whole { length spare.old ≡ geometry.now.spare_bytes }
    ensures marked { IfOk result (λ marked. S.view.honest source.old ≡ true → marked ≡ is_marked geometry.now (S.view.flash source.old).image block) }
    ensures same { OnOk result (S.view.honest source.old ≡ true → S.view.flash source.new ≡ S.view.flash source.old) }
    ensures only_reads { OnlyReads S.view source.old source.new }
    ensures reads { OnOk result (S.view.reads source.new ≡ counted (counted (S.view.reads source.old))) }
    ensures most_reads { S.view.reads source.new ≤ S.view.reads source.old + 2 }
    ensures rose { OnErr result (HasRisen (S.view.failed source.old) (S.view.failed source.new)) }
{
    let first_row = geometry.row(block, 0);
    let last_row = geometry.row(block, geometry.pages() - 1);
    let first = has_mark(source, first_row, body, spare)?;
    let last = has_mark(source, last_row, body, spare)?;
    Ok(first || last)
}

// Sets the mark of each block.
fn mark_blocks<S: PageSource>(
    source: &mut S,
    geometry: &Geometry,
    marks: &mut [bool],
    body: &mut [u8],
    spare: &mut [u8],
) -> Result<(), SourceFault>
    requires geometry { (S.view.flash source.old).geometry ≡ geometry.now }
    requires whole { length marks.old ≡ geometry.now.blocks }
    requires body_whole { length body.old ≡ geometry.now.data_bytes }
    requires spare_whole { length spare.old ≡ geometry.now.spare_bytes }
    ensures marks { OnOk result (S.view.honest source.old ≡ true → marks.new ≡ factory_marks geometry.now (S.view.flash source.old).image) }
    ensures same { OnOk result (S.view.honest source.old ≡ true → S.view.flash source.new ≡ S.view.flash source.old) }
    ensures only_reads { OnlyReads S.view source.old source.new }
    ensures reads { OnOk result (S.view.reads source.old + 2 * geometry.now.blocks < 2 ^ 64 →
        S.view.reads source.new ≡ S.view.reads source.old + 2 * geometry.now.blocks) }
    ensures most_reads { S.view.reads source.new ≤ S.view.reads source.old + 2 * geometry.now.blocks }
    ensures rose { OnErr result (HasRisen (S.view.failed source.old) (S.view.failed source.new)) }
{
    for block in 0..geometry.blocks() {
        marks[block as usize] = is_marked(source, geometry, block, body, spare)?;
    }
    Ok(())
}

/// Which blocks the factory marked: those with a spare byte 00h in their first or their last page
/// (this project). It takes its memory before the first page read, and reads two pages a block.
///
/// `Source` comes only where a page read failed, and leaves nothing known of what is read later;
/// `OutOfMemory` leaves the source untouched.
pub fn factory_scan<S: PageSource>(
    alloc: Global,
    source: &mut S,
    geometry: &Geometry,
) -> Result<Vec<bool>, ScanFault>
    requires { (S.view.flash source.old).geometry ≡ geometry.now }
    ensures marks { IfOk result (λ marks. S.view.honest source.old ≡ true → marks.items ≡ factory_marks geometry.now (S.view.flash source.old).image) }
    ensures whole { IfOk result (λ marks. vec_len marks ≡ geometry.now.blocks) }
    ensures source { IsErrOf result ScanFault.Source → HasRisen (S.view.failed source.old) (S.view.failed source.new) }
    ensures memory { IsErrOf result ScanFault.OutOfMemory → source.new ≡ source.old }

    // Nothing but the counts of reads and faults changes.
    ensures same { OnOk result (S.view.honest source.old ≡ true → S.view.flash source.new ≡ S.view.flash source.old) }
    ensures only_reads { OnlyReads S.view source.old source.new }
    ensures reads { OnOk result (S.view.reads source.old + 2 * geometry.now.blocks < 2 ^ 64 →
        S.view.reads source.new ≡ S.view.reads source.old + 2 * geometry.now.blocks) }
    ensures most_reads { S.view.reads source.new ≤ S.view.reads source.old + 2 * geometry.now.blocks }
{
    let mut body = vec![in alloc; 0; geometry.data_bytes()]?;
    let mut spare = vec![in alloc; 0; geometry.spare_bytes()]?;
    let mut marks = vec![in alloc; false; geometry.blocks() as usize]?;
    mark_blocks(source, geometry, &mut marks, &mut body, &mut spare)?;
    Ok(marks)
}
