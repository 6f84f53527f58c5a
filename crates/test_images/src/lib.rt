//! What several crates of tests build: raw images and certificates of a small die, of 32 blocks of 8 pages with data areas of 64
//! bytes, and of 32 sectors; the marks of such a die, sources of its pages and readers that are not to be relied on, and what a run of a program wrote.
//! It holds no test, and no crate but one of tests stands on it.
#![tactic(auto)]

mod pieces;
mod ran;
mod source;

use nand_die::Mark;
use page_layout::geometry::Geometry;
use page_layout::record::{write_record, write_record_v1};
pub use page_layout::record::{Kind, Record};
pub use pieces::Pieces;
pub use ran::{Closed, Ran, TestCase, hold_cases, hold_same};
pub use source::{FaultySource, SourceTrouble};
use std::alloc::{AllocError, Global};

/// A page that was written.
#[derive(Clone, Copy, Debug)]
pub struct Written {
    /// Its row.
    pub row: u32,
    /// Its record.
    pub record: Record,
    /// The byte that fills its data area.
    pub fill: u8,
}

/// A page that was written, as `page!(8, Sector 5, sequence 3, fill 0x11)`: its row, the kind and the number of its record, its
/// sequence, the byte that fills its data area. An erase count that is not 0 stands before the last, as `wear 7`.
#[macro_export]
macro_rules! page {
    ($row:expr, $kind:ident $number:expr, sequence $sequence:expr, fill $fill:expr) => {
        $crate::page!($row, $kind $number, sequence $sequence, wear 0, fill $fill)
    };
    ($row:expr, $kind:ident $number:expr, sequence $sequence:expr, wear $wear:expr, fill $fill:expr) => {
        $crate::Written {
            row: $row,
            record: $crate::Record {
                kind: $crate::Kind::$kind,
                number: $number,
                sequence: $sequence,
                wear: $wear,
            },
            fill: $fill,
        }
    };
}

/// The two table pages of a formatted die without marks.
pub const TABLE_0: Written = page!(0, Table 0, sequence 1, fill 0);

pub const TABLE_1: Written = page!(1, Table 1, sequence 2, fill 0);

/// A formatted die of which three sectors were written, and no translation page.
pub const THREE_SECTORS: [Written; 5] = [
    TABLE_0,
    TABLE_1,
    page!(8, Sector 0, sequence 3, fill 1),
    page!(9, Sector 1, sequence 4, fill 1),
    page!(10, Sector 2, sequence 5, fill 1),
];

/// A table page whose record is sound, and whose bytes no table has.
pub const DAMAGED_TABLE: Written = page!(0, Table 0, sequence 1, fill 3);

/// The factory marks of two bad blocks: in the first page of one, in the last page of the other.
pub const TWO_MARKS: [Mark; 2] = [
    Mark {
        block: 3,
        last: false,
    },
    Mark {
        block: 9,
        last: true,
    },
];

/// Which pages of a die are of version 1 although there is room for version 2.
#[derive(Clone, Copy, Debug)]
pub enum Old {
    /// None is.
    Never,
    /// Those of odd rows are.
    Odd,
    /// All are.
    All,
}

/// How the pages of a die are laid out.
#[derive(Clone, Copy, Debug)]
pub struct Layout {
    /// The length of its spare areas, in bytes, at least 32.
    pub spare_bytes: u32,
    /// The pages of version 1.
    pub old: Old,
}

/// Version 1 alone, version 2 alone, both, and both in the longest spare areas. No check, mount or format tells them apart.
pub const LAYOUTS: [Layout; 4] = [
    Layout {
        spare_bytes: 32,
        old: Old::Never,
    },
    Layout {
        spare_bytes: 40,
        old: Old::Never,
    },
    Layout {
        spare_bytes: 40,
        old: Old::Odd,
    },
    Layout {
        spare_bytes: 256,
        old: Old::Odd,
    },
];

// Whether the page of a row is one of those.
fn is_old(old: Old, row: u32) -> bool {
    match old {
        Old::Never => false,
        Old::Odd => row % 2 == 1,
        Old::All => true,
    }
}

// Writes the spare area of a page with this record, where both areas are as long as the geometry says.
fn write_spare(geometry: &Geometry, record: &Record, old: bool, body: &[u8], spare: &mut [u8]) {
    if geometry.data_bytes() != body.len() || geometry.spare_bytes() != spare.len() {
        return;
    }
    if old {
        write_record_v1(geometry, record, body, spare);
    } else {
        write_record(geometry, record, body, spare);
    }
}

// The bytes of a page are put at the end.
fn push_page(
    alloc: Global,
    geometry: &Geometry,
    page: &Written,
    old: bool,
    bytes: &mut Vec<u8>,
) -> Result<(), AllocError> {
    let body = [page.fill; 64];
    let mut spare = vec![in alloc; 0u8; geometry.spare_bytes()]?;
    write_spare(geometry, &page.record, old, &body, &mut spare);
    bytes.extend_from_slice(&body)?;
    bytes.extend_from_slice(&spare)
}

// The page of a row is put at the end: the first of these, or an erased one.
fn push_row(
    alloc: Global,
    geometry: &Geometry,
    old: Old,
    pages: &[Written],
    row: u32,
    bytes: &mut Vec<u8>,
) -> Result<(), AllocError> {
    match pages.iter().find(|page| page.row == row) {
        Some(page) => push_page(alloc, geometry, page, is_old(old, row), bytes),
        None => bytes.resize(bytes.len() + 64 + geometry.spare_bytes(), 0xFF),
    }
}

fn push_rows(
    alloc: Global,
    geometry: &Geometry,
    old: Old,
    pages: &[Written],
) -> Result<Vec<u8>, AllocError> {
    let mut bytes = Vec::new(alloc);
    for row in 0..256 {
        push_row(alloc, geometry, old, pages, row, &mut bytes)?;
    }
    Ok(bytes)
}

/// The image of a die that is erased but for these pages.
pub fn image_of(
    alloc: Global,
    geometry: &Geometry,
    pages: &[Written],
) -> Result<Vec<u8>, AllocError> {
    push_rows(alloc, geometry, Old::Never, pages)
}

/// The same of a die of this layout, whose geometry it is.
pub fn laid_out(
    alloc: Global,
    geometry: &Geometry,
    layout: Layout,
    pages: &[Written],
) -> Result<Vec<u8>, AllocError> {
    push_rows(alloc, geometry, layout.old, pages)
}

/// What a certificate says of a block: its number, class, write pointer, live pages and erase count.
pub type Said = (u32, u8, u8, u8, u8);

/// What the certificate of a formatted die without marks says of block 0, with the two pages of its tables.
pub const META: Said = (0, 2, 2, 2, 0);

/// What a certificate says. Blocks that are not named are free and were never erased, and sectors that are not have no row.
#[derive(Clone, Copy)]
pub struct Claim {
    /// The length of the spare areas.
    pub spare_bytes: u32,
    /// The capacity of the cache, in entries.
    pub capacity: u32,
    /// The next sequence.
    pub next: u64,
    /// Some of the blocks.
    pub blocks: &'static [Said],
    /// The rows of the translation pages and of the table pages.
    pub directory: [Option<u8>; 4],
    /// Sectors and their rows.
    pub sectors: &'static [(u32, u32)],
}

/// What the certificate of a formatted die without marks says, for a cache of 4 entries.
pub const FORMATTED: Claim = Claim {
    spare_bytes: 32,
    capacity: 4,
    next: 3,
    blocks: &[META],
    directory: [None, None, Some(0), Some(1)],
    sectors: &[],
};

// The row of what has no page.
const NO_ROW: u32 = 0xFFFF_FFFF;

fn push_numbers(bytes: &mut Vec<u8>, numbers: &[u32]) -> Result<(), AllocError> {
    for number in numbers {
        bytes.extend_from_slice(&number.to_le_bytes())?;
    }
    Ok(())
}

// The nine bytes of a block.
fn block_bytes(blocks: &[Said], block: u32) -> [u8; 9] {
    match blocks.iter().find(|said| said.0 == block) {
        Some((_, class, pointer, live, wear)) => [*class, *pointer, 0, *live, 0, *wear, 0, 0, 0],
        None => [0; 9],
    }
}

fn push_blocks(bytes: &mut Vec<u8>, blocks: &[Said]) -> Result<(), AllocError> {
    for block in 0..32 {
        bytes.extend_from_slice(&block_bytes(blocks, block))?;
    }
    Ok(())
}

fn push_directory(bytes: &mut Vec<u8>, directory: &[Option<u8>; 4]) -> Result<(), AllocError> {
    for row in directory {
        push_numbers(bytes, &[row.map_or(NO_ROW, u32::from)])?;
    }
    Ok(())
}

fn push_sectors(bytes: &mut Vec<u8>, sectors: &[(u32, u32)]) -> Result<(), AllocError> {
    for sector in 0..32 {
        let found = sectors.iter().find(|said| said.0 == sector);
        push_numbers(bytes, &[found.map_or(NO_ROW, |said| said.1)])?;
    }
    Ok(())
}

/// The bytes of a certificate.
pub fn certificate_bytes(alloc: Global, claim: &Claim) -> Result<Vec<u8>, AllocError> {
    let mut bytes = Vec::from_slice(alloc, b"DFTLCRT1")?;
    push_numbers(
        &mut bytes,
        &[64, claim.spare_bytes, 8, 32, 32, claim.capacity],
    )?;
    bytes.extend_from_slice(&claim.next.to_le_bytes())?;
    push_blocks(&mut bytes, claim.blocks)?;
    push_directory(&mut bytes, &claim.directory)?;
    push_sectors(&mut bytes, claim.sectors)?;
    Ok(bytes)
}
