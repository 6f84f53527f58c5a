//! What the pages of a chip are, and what they tell, as `lab_dump` has it of pages without codes.
ghost use Rattle.std.specs.Prelude.{◌≡◌, ◌+◌, ◌≤◌, ◌/◌, List, ℕ, length, IfOk, OnErr, Some, true};
ghost use Rattle.page_layout.specs.Geometry.{page_bytes, row_count};
ghost use Rattle.lab_dump.specs.Sample.{sample_of};
ghost use Rattle.lab_dump.specs.Told.{pages_told_of};
ghost use Rattle.lab_correct.specs.Decoded.{decoded_bytes, raw_size};

use crate::coded_page::read_decoded;
use lab_dump::{Dump, DumpFault, PagesTold, Sample, look_in, looked_row};
use page_layout::geometry::Geometry;

/// What the pages are of the rows that are looked at, each put right.
pub(crate) fn sample_decoded<D: Dump>(
    dump: &mut D,
    geometry: &Geometry,
    raw: &mut [u8],
    page: &mut [u8],
) -> Result<Sample, DumpFault>
    requires raw_whole { length raw.old ≡ raw_size geometry.now.data_bytes geometry.now.spare_bytes }
    requires page_whole { length page.old ≡ page_bytes geometry.now }
    ensures sample { IfOk result (λ sample. (all : List ℕ) → D.bytes dump.old ≡ Some all → row_count geometry.now ≡ length all / raw_size geometry.now.data_bytes geometry.now.spare_bytes
        → sample ≡ sample_of geometry.now.data_bytes geometry.now.spare_bytes (row_count geometry.now) (decoded_bytes geometry.now.data_bytes geometry.now.spare_bytes all)) }
    ensures few { IfOk result (λ sample. sample.sound + sample.unsound ≤ sample.looked) }
    ensures failed { OnErr result (D.failed dump.new ≡ true) }
    ensures same { D.bytes dump.new ≡ D.bytes dump.old }
{
    let mut sample = Sample::none(geometry);
    for place in 0..sample.looked {
        let row = looked_row(geometry.rows(), place);
        read_decoded(dump, geometry, row, raw, page)?;
        sample = sample.noted(look_in(geometry, page));
    }
    Ok(sample)
}

/// What all pages tell together, each put right.
pub(crate) fn told_decoded<D: Dump>(
    dump: &mut D,
    geometry: &Geometry,
    raw: &mut [u8],
    page: &mut [u8],
) -> Result<PagesTold, DumpFault>
    requires raw_whole { length raw.old ≡ raw_size geometry.now.data_bytes geometry.now.spare_bytes }
    requires page_whole { length page.old ≡ page_bytes geometry.now }
    ensures told { IfOk result (λ told. (all : List ℕ) → D.bytes dump.old ≡ Some all → row_count geometry.now ≡ length all / raw_size geometry.now.data_bytes geometry.now.spare_bytes
        → told ≡ pages_told_of geometry.now.data_bytes geometry.now.spare_bytes (row_count geometry.now) (decoded_bytes geometry.now.data_bytes geometry.now.spare_bytes all)) }
    ensures failed { OnErr result (D.failed dump.new ≡ true) }
    ensures same { D.bytes dump.new ≡ D.bytes dump.old }
{
    let mut told = PagesTold {
        blocks: 0,
        sectors: 0,
    };
    for row in 0..geometry.rows() {
        read_decoded(dump, geometry, row, raw, page)?;
        told = told.noted(geometry, page);
    }
    Ok(told)
}
