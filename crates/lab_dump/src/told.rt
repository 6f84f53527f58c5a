//! What all pages tell of the blocks and the sectors.
ghost use Rattle.std.specs.Prelude.{◌≡◌, ◌+◌, ◌*◌, ◌/◌, ◌<◌, ◌≤◌, ◌^◌, List, ℕ, length, take, IfOk, Some, OnErr, true, false};
ghost use Rattle.page_layout.specs.Geometry.{page_bytes, row_count};
ghost use Rattle.page_layout.specs.Page.{page};
ghost use Rattle.page_layout.specs.PageLook.{look_of};
ghost use Rattle.lab_dump.specs.PageBytes.{page_from_bytes};
ghost use Rattle.lab_dump.specs.Told.{words_used, blocks_by, sectors_by, may_raise, most_by, most_in, told_with_page, pages_told_of};

use crate::dump::Dump;
use crate::row_page::read_row;
use byteorder::{ByteOrder, LittleEndian};
use image_check::DumpFault;
use page_layout::geometry::Geometry;
use page_layout::look::{PageLook, look_at};
use page_layout::record::{Kind, Record};
use page_layout::word::read_word;

// The classes of blocks are below this.
const CLASSES: u32 = 3;

/// What all sound pages of a dump tell together.
#[derive(Clone, Copy, Debug, PartialEq, Eq)]
pub struct PagesTold {
    /// The blocks that the table of blocks has words for, or 0 where there is no sound table page.
    pub blocks: u64,
    /// At least so many sectors the die has.
    pub sectors: u64,
}

// How many words of a data area may be of blocks: their low byte is a class.
fn words_used(body: &[u8]) -> u32
    requires { length body.now ≤ 4096 }
    ensures is { result ≡ words_used body.now }
    ensures few { result ≤ 1024 }
{
    let entries = body.len() as u32 / 4;
    let mut used = 0;
    for i in 0..entries {
        if read_word(body, i) % 256 < CLASSES {
            used += 1;
        }
    }
    used
}

// How many blocks a page tells of.
fn blocks_by(look: PageLook, body: &[u8]) -> u64
    requires { length body.now ≤ 4096 }
    ensures { result ≡ blocks_by look body.now }
{
    let PageLook::Sound(
        Record {
            kind: Kind::Table,
            number,
            ..
        },
    ) = look
    else {
        return 0;
    };
    u64::from(number) * (body.len() as u64 / 4) + u64::from(words_used(body))
}

// How many sectors a page tells of, which has so many entries if it is a translation page.
fn sectors_by(look: PageLook, entries: u32) -> u64
    requires { entries ≤ 1024 }
    ensures { result ≡ sectors_by look entries }
{
    let PageLook::Sound(found) = look else {
        return 0;
    };
    match found.kind {
        Kind::Sector | Kind::Trim => u64::from(found.number) + 1,
        Kind::Translation => u64::from(found.number) * u64::from(entries) + 1,
        Kind::Table => 0,
    }
}

// The most that a page can tell whose spare bytes name a kind by this code, and this number.
fn most_by(code: u8, number: u32, entries: u32) -> PagesTold
    requires { entries ≤ 1024 }
    ensures { result ≡ most_by code number entries }
{
    let (number, entries) = (u64::from(number), u64::from(entries));
    let (blocks, sectors) = match code {
        4 => ((number + 1) * entries, 0),
        3 => (0, number * entries + 1),
        1 | 2 => (0, number + 1),
        _ => (0, 0),
    };
    PagesTold { blocks, sectors }
}

// Whether that is more than what is told.
fn may_raise(told: PagesTold, most: PagesTold) -> bool
    ensures { result ≡ may_raise told most }
{
    told.blocks < most.blocks || told.sectors < most.sectors
}

impl PagesTold {
    // What is told with one page more.
    fn raised(self, look: PageLook, body: &[u8]) -> PagesTold
        requires { length body.now ≤ 4096 }
        ensures { result ≡ told_with_page self look body.now }
    {
        let entries = body.len() as u32 / 4;
        PagesTold {
            blocks: self.blocks.max(blocks_by(look, body)),
            sectors: self.sectors.max(sectors_by(look, entries)),
        }
    }

    /// Whether a page with this spare area could tell more, if it were sound. One that could not tells no more, whatever its data area is.
    pub fn may_rise(self, geometry: &Geometry, spare: &[u8]) -> bool
        requires { length spare.now ≡ geometry.now.spare_bytes }
        ensures is { result ≡ may_raise self (most_in geometry.now.data_bytes spare.now) }
        ensures same { result ≡ false → (body : List ℕ) → length body ≡ geometry.now.data_bytes → self ≡ told_with_page self (look_of (page body spare.now)) body }
    {
        let number = LittleEndian::read_u32(&spare[4..8]);
        let most = most_by(spare[3], number, geometry.entries());
        may_raise(self, most)
    }

    /// What is told with one page more, by its bytes. A page is not hashed that could not tell more if it were sound.
    pub fn noted(self, geometry: &Geometry, page: &[u8]) -> PagesTold
        requires { length page.now ≡ page_bytes geometry.now }
        ensures { result ≡ told_with_page self (look_of (page_from_bytes geometry.now.data_bytes page.now)) (take geometry.now.data_bytes page.now) }
    {
        let (body, spare) = page.split_at(geometry.data_bytes());
        if !self.may_rise(geometry, spare) {
            return self;
        }
        self.raised(look_at(geometry, body, spare), body)
    }
}

/// What all pages tell together.
pub(crate) fn read_told<D: Dump>(
    dump: &mut D,
    geometry: &Geometry,
    page: &mut [u8],
) -> Result<PagesTold, DumpFault>
    requires { length page.old ≡ page_bytes geometry.now }
    ensures told { IfOk result (λ told. (all : List ℕ) → D.bytes dump.old ≡ Some all → told ≡ pages_told_of geometry.now.data_bytes geometry.now.spare_bytes (row_count geometry.now) all) }
    ensures failed { OnErr result (D.failed dump.new ≡ true) }
    ensures same { D.bytes dump.new ≡ D.bytes dump.old }
{
    let mut told = PagesTold {
        blocks: 0,
        sectors: 0,
    };
    for row in 0..geometry.rows() {
        read_row(dump, row, page)?;
        told = told.noted(geometry, page);
    }
    Ok(told)
}
