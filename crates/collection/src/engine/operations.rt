//! Single operations of the die.
ghost use Rattle.std.specs.Prelude.{◌≡◌, ◌≤◌, ◌<◌, true, [], length, slice_get, is_ok, Some, IfOk, OnOk, OnErr};
ghost use Rattle.page_layout.specs.Page.{page, IsImage};
ghost use Rattle.page_layout.specs.Counter.{counted, HasRisen};
ghost use Rattle.page_layout.specs.Geometry.{row_count};
ghost use Rattle.page_layout.specs.Sound.{record_of};
ghost use Rattle.page_layout.specs.Recording.{EndsAt};
ghost use Rattle.page_layout.specs.Change.{ProgramMeans};
ghost use Rattle.onfi_cycles.specs.Outcomes.{is_passed, passed_in};
ghost use Rattle.collection.specs.Results.{CanProgram, IsStep};
ghost use Rattle.page_layout.specs.OnlyReads.{OnlyReads};
ghost use Rattle.page_layout.specs.DieCalls.{ProgramCall, ReadCall};
ghost use Rattle.promises.specs.Stop.{CutShort, LeavesOnly};
ghost use Rattle.collection.specs.Stops.{IsKeptOr, IsKeptOrWritten};

use onfi_cycles::{BusFault, Nand, Outcome};
use page_layout::geometry::Geometry;
use page_layout::record::{Record, read_record, write_record};
use page_layout::source::SourceFault;

/// Programs a page with a record. Its spare area is written into `spare`.
pub(crate) fn program_record<N: Nand>(
    nand: &mut N,
    geometry: &Geometry,
    row: u32,
    written: &Record,
    body: &[u8],
    spare: &mut [u8],
) -> Result<Outcome, BusFault>
    requires row_in { row < row_count geometry.now }
    requires same_geometry { (N.view.flash nand.old).geometry ≡ geometry.now }
    requires body_whole { length body.now ≡ geometry.now.data_bytes }
    requires spare_whole { length spare.old ≡ geometry.now.spare_bytes }
    ensures geometry { (N.view.flash nand.new).geometry ≡ (N.view.flash nand.old).geometry }
    ensures honest { N.view.honest nand.new ≡ N.view.honest nand.old }
    ensures calm { N.view.calm nand.new ≡ N.view.calm nand.old }
    ensures reads { N.view.reads nand.new ≡ N.view.reads nand.old }
    ensures erases { N.view.erases nand.new ≡ N.view.erases nand.old }
    ensures failed { N.view.failed nand.old ≤ N.view.failed nand.new }
    ensures rose { OnErr result (HasRisen (N.view.failed nand.old) (N.view.failed nand.new)) }
    ensures called { N.view.called nand.old (ProgramCall row (page body.now spare.new) (passed_in result)) nand.new }
    ensures spare { record_of (page body.now spare.new) ≡ Some written.now }
    ensures step { N.view.honest nand.old ≡ true →
        IfOk result (λ outcome. IsStep row written.now.sequence outcome (N.view.flash nand.old) (N.view.recorded nand.old) (N.view.flash nand.new) (N.view.recorded nand.new)) }
    ensures image { N.view.honest nand.old ≡ true → OnOk result (IsImage geometry.now (N.view.flash nand.new).image) }
    ensures means { N.view.honest nand.old ≡ true → CanProgram geometry.now row written.now (N.view.flash nand.old).image →
        IfOk result (λ outcome. ProgramMeans geometry.now written.now row body.now (is_passed outcome)
        (N.view.flash nand.old).image (N.view.flash nand.new).image) }
    ensures stops { N.view.honest nand.old ≡ true → CanProgram geometry.now row written.now (N.view.flash nand.old).image →
        IfOk result (λ _. LeavesOnly (N.view.flash nand.old) (N.view.flash nand.new) (N.view.recorded nand.old) (N.view.recorded nand.new)
        (IsKeptOr geometry.now (N.view.flash nand.old).image (N.view.flash nand.new).image)) }
    ensures cut { N.view.honest nand.old ≡ true → CanProgram geometry.now row written.now (N.view.flash nand.old).image →
        OnErr result (CutShort (N.view.flash nand.old) (N.view.recorded nand.old) (N.view.recorded nand.new)
        (IsKeptOrWritten geometry.now written.now row body.now (N.view.flash nand.old).image)) }
{
    write_record(geometry, written, body, spare);
    nand.program(row, body, spare)
}

/// Reads a page, and finds the record with which it is sound.
pub(crate) fn read_sound<N: Nand>(
    nand: &mut N,
    geometry: &Geometry,
    row: u32,
    body: &mut [u8],
    spare: &mut [u8],
) -> Result<Option<Record>, SourceFault>
    requires row_in { row < row_count geometry.now }
    requires same_geometry { (N.view.flash nand.old).geometry ≡ geometry.now }
    requires body_whole { length body.old ≡ geometry.now.data_bytes }
    requires spare_whole { length spare.old ≡ geometry.now.spare_bytes }
    ensures called { N.view.called nand.old (ReadCall row (is_ok result)) nand.new }
    ensures only_reads { OnlyReads N.view nand.old nand.new }
    ensures reads { N.view.reads nand.new ≡ counted (N.view.reads nand.old) }
    ensures rose { OnErr result (HasRisen (N.view.failed nand.old) (N.view.failed nand.new)) }
    ensures same { N.view.honest nand.old ≡ true → OnOk result (N.view.flash nand.new ≡ N.view.flash nand.old) }
    ensures told { N.view.honest nand.old ≡ true → OnOk result (N.view.recorded nand.new ≡ N.view.recorded nand.old) }
    ensures cut { N.view.honest nand.old ≡ true → OnErr result (EndsAt [] (N.view.recorded nand.old) (N.view.recorded nand.new)) }
    ensures record { IfOk result (λ found. found ≡ record_of (page body.new spare.new)) }
    ensures page { N.view.honest nand.old ≡ true →
        OnOk result (slice_get (N.view.flash nand.old).image row ≡ Some (page body.new spare.new)) }
{
    nand.read_page(row, body, spare)?;
    Ok(read_record(geometry, body, spare))
}
