//! A geometry, with what a dump says for it.
ghost use Rattle.std.specs.Prelude.{◌≡◌, ◌≤◌};
ghost use Rattle.lab_dump.specs.Fits.{fit_of, missing_pages, table_says, sectors_from};

use crate::sample::Sample;
use crate::told::PagesTold;
use page_layout::geometry::Geometry;
use std::cmp::Reverse;

/// What the table of blocks says of a number of blocks. The best comes first.
#[derive(Clone, Copy, Debug, PartialEq, Eq, PartialOrd, Ord)]
pub enum TableSays {
    /// It has words for as many blocks.
    Agrees,
    /// It has words for more blocks: the dump is cut, or this is not its geometry.
    Short,
    /// There is no sound table page.
    Silent,
    /// It has words for fewer blocks.
    Differs,
}

/// A geometry that fits a dump, with what the dump says for it. The best comes first: by the fields in their order, so the one with the most
/// sound pages, then the one that the table of blocks agrees to, then, where the table has words for more blocks, the one with the fewest missing
/// pages, then the one with the fewest bytes in unsound pages.
#[derive(Clone, Copy, Debug, PartialEq, Eq, PartialOrd, Ord)]
pub struct Fit {
    /// The sound pages of those that were looked at.
    pub sound: Reverse<u32>,
    /// What the table of blocks says of the number of blocks.
    pub table: TableSays,
    /// The pages that the dump lacks, where the table of blocks has words for more blocks, of which a die has at most 4096; else 0.
    pub missing: u64,
    /// The bytes of the pages that were looked at and are neither sound nor erased.
    pub unsound_bytes: u64,
    /// The bytes of a page's data area.
    pub data_bytes: u32,
    /// The bytes of a page's spare area.
    pub spare_bytes: u32,
    /// The pages of a block.
    pub pages: u32,
    /// The blocks of the die.
    pub blocks: u32,
    /// The least sectors that the die has, by the greatest sector and translation page of all pages: 1 to 1048576.
    pub sectors: u32,
    /// How many pages were looked at.
    pub looked: u32,
    /// How many of these are neither sound nor erased.
    pub unsound: u32,
    /// The blocks that the table of blocks has words for, or 0 where there is no sound table page.
    pub blocks_told: u64,
    /// The sectors that the pages tell of, which may be none, or more than a die may have.
    pub sectors_told: u64,
}

// What the table of blocks says of so many blocks, where it has words for as many as are told.
fn table_says(blocks: u32, told: u64) -> TableSays
    ensures { result ≡ table_says blocks told }
{
    if told == 0 {
        TableSays::Silent
    } else if told == u64::from(blocks) {
        TableSays::Agrees
    } else if told > u64::from(blocks) {
        TableSays::Short
    } else {
        TableSays::Differs
    }
}

// The pages that a dump of so many blocks of so many pages lacks, where so many blocks are told: of a die at most 4096.
fn missing_pages(blocks: u32, pages: u32, told: u64) -> u64
    requires { pages ≤ 256 }
    ensures { result ≡ missing_pages blocks pages told }
{
    told.min(4096).saturating_sub(u64::from(blocks)) * u64::from(pages)
}

// The sectors of a geometry of which at least so many are told.
fn sectors_from(told: u64) -> u32
    ensures { result ≡ sectors_from told }
{
    told.max(1).min(1_048_576) as u32
}

/// A geometry, with what the dump says for it by a sample of its pages and by what all of them tell. Its sectors are the fewest that are told. (This project's.)
pub fn fit_of(geometry: &Geometry, sample: Sample, told: PagesTold) -> Fit
    ensures { result ≡ fit_of geometry.now.data_bytes geometry.now.spare_bytes geometry.now.pages geometry.now.blocks sample told }
{
    let data_bytes = geometry.data_bytes() as u32;
    let spare_bytes = geometry.spare_bytes() as u32;
    Fit {
        sound: Reverse(sample.sound),
        table: table_says(geometry.blocks(), told.blocks),
        missing: missing_pages(geometry.blocks(), geometry.pages(), told.blocks),
        unsound_bytes: u64::from(sample.unsound) * u64::from(data_bytes + spare_bytes),
        data_bytes,
        spare_bytes,
        pages: geometry.pages(),
        blocks: geometry.blocks(),
        sectors: sectors_from(told.sectors),
        looked: sample.looked,
        unsound: sample.unsound,
        blocks_told: told.blocks,
        sectors_told: told.sectors,
    }
}
