//! What the pages of some rows are, spread over the dump.
ghost use Rattle.std.specs.Prelude.{◌≡◌, ◌+◌, ◌*◌, ◌<◌, ◌≤◌, List, ℕ, length, IfOk, Some, OnErr, true};
ghost use Rattle.page_layout.specs.Geometry.{page_bytes, row_count};
ghost use Rattle.lab_dump.specs.Sample.{looked_count, looked_row, none_looked, sample_with_page, sample_of};

use crate::dump::Dump;
use crate::row_page::look_at_row;
use image_check::DumpFault;
use page_layout::geometry::Geometry;
use page_layout::look::PageLook;

// At most so many rows are looked at,
const MOST_LOOKED: u32 = 4096;

// so many side by side.
const RUN: u32 = 16;

/// What the pages are that were looked at.
#[derive(Clone, Copy, Debug, PartialEq, Eq)]
pub struct Sample {
    /// How many were looked at.
    pub looked: u32,
    /// How many of these are sound.
    pub sound: u32,
    /// How many are neither sound nor erased.
    pub unsound: u32,
}

impl Sample {
    /// The sample before a page is looked at.
    pub fn none(geometry: &Geometry) -> Sample
        ensures is { result ≡ none_looked (row_count geometry.now) }
        ensures looked { result.looked ≡ looked_count (row_count geometry.now) }
        ensures few { result.looked ≤ 4096 }
    {
        Sample {
            looked: looked_count(geometry.rows()),
            sound: 0,
            unsound: 0,
        }
    }

    /// The sample with one page more.
    pub fn noted(self, look: PageLook) -> Sample
        requires { self.sound + self.unsound < 4096 }
        ensures { result ≡ sample_with_page self look }
    {
        match look {
            PageLook::Sound(_) => Sample {
                sound: self.sound + 1,
                ..self
            },
            PageLook::Unsound => Sample {
                unsound: self.unsound + 1,
                ..self
            },
            PageLook::Erased => self,
        }
    }
}

/// How many of so many rows are looked at.
pub fn looked_count(rows: u32) -> u32
    ensures is { result ≡ looked_count rows }
    ensures few { result ≤ 4096 }
{
    rows.min(MOST_LOOKED)
}

/// The row that is looked at in this place.
pub fn looked_row(rows: u32, place: u32) -> u32
    requires most { rows ≤ 1048576 }
    requires few { place < 4096 }
    ensures { result ≡ looked_row rows place }
{
    let stride = (rows / (MOST_LOOKED / RUN)).max(RUN);
    place / RUN * stride + place % RUN
}

/// What the pages are of the rows that are looked at.
pub(crate) fn take_sample<D: Dump>(
    dump: &mut D,
    geometry: &Geometry,
    page: &mut [u8],
) -> Result<Sample, DumpFault>
    requires { length page.old ≡ page_bytes geometry.now }
    ensures sample { IfOk result (λ sample. (all : List ℕ) → D.bytes dump.old ≡ Some all → sample ≡ sample_of geometry.now.data_bytes geometry.now.spare_bytes (row_count geometry.now) all) }
    ensures few { IfOk result (λ sample. sample.sound + sample.unsound ≤ sample.looked) }
    ensures failed { OnErr result (D.failed dump.new ≡ true) }
    ensures same { D.bytes dump.new ≡ D.bytes dump.old }
{
    let mut sample = Sample::none(geometry);
    for place in 0..sample.looked {
        let look = look_at_row(dump, geometry, looked_row(geometry.rows(), place), page)?;
        sample = sample.noted(look);
    }
    Ok(sample)
}
