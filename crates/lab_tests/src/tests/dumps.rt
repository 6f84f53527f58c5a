//! Dumps, certificates and disk images of a small die: pages of 64 data bytes and 32 spare bytes, 8 pages a block, 32 blocks, 32 sectors.
use super::arranged::{Stands, arranged};
use page_code::{encode_page, outer_bytes};
use page_layout::geometry::Geometry;
use std::alloc::{AllocError, Global};
use std::test::Fail;
use test_images::{Claim, FORMATTED, Said, Written, certificate_bytes, image_of};

// The bytes of a page.
const PAGE: usize = 96;

// Those of a sector.
const SECTOR: usize = 64;

// What a file is of bytes that are changed: a place and the byte there.
type Changes = &'static [(usize, u8)];

/// What a certificate says of a formatted die: the next sequence, blocks, and the rows of sectors.
pub type Claimed = (u64, &'static [Said], &'static [(u32, u32)]);

/// What bytes are made of.
pub enum Made {
    /// These bytes.
    Text(&'static str),
    /// A dump of erased pages, but for these.
    Dump(&'static [Written]),
    /// The same with other bytes in these places.
    Changed(&'static [Written], Changes),
    /// The same, each page with its codes, as it stands on a chip.
    Coded(&'static [Written], Changes),
    /// The same, with the page of this row of 00h bytes.
    Zeroed(&'static [Written], usize, Changes),
    /// The dump of these pages in another arrangement.
    Arranged(&'static [Written], Stands),
    /// The dump of these pages cut, or made longer by 00h bytes, to so many bytes.
    Cut(&'static [Written], usize),
    /// The disk image of 32 sectors of zeros, but for these, each filled with one byte.
    Disk(&'static [(usize, u8)]),
    /// The same with other bytes in these places.
    Spoiled(&'static [(usize, u8)], Changes),
    /// A certificate.
    Certificate(Claimed),
}

/// Sets so many bytes from a place on, as far as there are any.
pub fn set(bytes: &mut [u8], first: usize, count: usize, byte: u8) {
    for place in first..first.saturating_add(count) {
        if let Some(found) = bytes.get_mut(place) {
            *found = byte;
        }
    }
}

/// A dump of these pages, with other bytes in these places.
pub fn changed(
    alloc: Global,
    geometry: &Geometry,
    pages: &[Written],
    changes: &[(usize, u8)],
) -> Result<Vec<u8>, Fail> {
    let mut bytes = image_of(alloc, geometry, pages)?;
    for (at, byte) in changes {
        *bytes.get_mut(*at).ok_or("no such byte")? = *byte;
    }
    Ok(bytes)
}

// A page as it stands on a chip.
fn code_page(geometry: &Geometry, page: &[u8], outer: &mut [u8]) -> Result<(), Fail> {
    let body = page.get(..SECTOR).ok_or("no data area")?;
    let spare = page.get(SECTOR..).ok_or("no spare area")?;
    if body.len() != geometry.data_bytes() || spare.len() != geometry.spare_bytes() {
        return Err(Fail::from("other areas"));
    }
    if outer.len() != outer_bytes(geometry) {
        return Err(Fail::from("another room"));
    }
    encode_page(geometry, body, spare, outer);
    Ok(())
}

fn coded(
    alloc: Global,
    geometry: &Geometry,
    pages: &[Written],
    changes: Changes,
) -> Result<Vec<u8>, Fail> {
    let plain = image_of(alloc, geometry, pages)?;
    let mut outer = [0; 38];
    let mut bytes = Vec::new(alloc);
    for page in plain.chunks(PAGE) {
        code_page(geometry, page, &mut outer)?;
        bytes.extend_from_slice(page.get(..SECTOR).ok_or("no data area")?)?;
        bytes.extend_from_slice(&outer)?;
    }
    for (at, byte) in changes {
        *bytes.get_mut(*at).ok_or("no such byte")? = *byte;
    }
    Ok(bytes)
}

fn zeroed(
    alloc: Global,
    geometry: &Geometry,
    pages: &[Written],
    row: usize,
    changes: Changes,
) -> Result<Vec<u8>, Fail> {
    let mut bytes = changed(alloc, geometry, pages, changes)?;
    set(&mut bytes, row.saturating_mul(PAGE), PAGE, 0);
    Ok(bytes)
}

fn cut(
    alloc: Global,
    geometry: &Geometry,
    pages: &[Written],
    length: usize,
) -> Result<Vec<u8>, Fail> {
    let mut bytes = image_of(alloc, geometry, pages)?;
    bytes.resize(length, 0)?;
    Ok(bytes)
}

fn disk(alloc: Global, sectors: &[(usize, u8)]) -> Result<Vec<u8>, AllocError> {
    let mut bytes = Vec::new(alloc);
    bytes.resize(32 * SECTOR, 0)?;
    for (number, fill) in sectors {
        set(&mut bytes, number.saturating_mul(SECTOR), SECTOR, *fill);
    }
    Ok(bytes)
}

fn spoiled(alloc: Global, sectors: &[(usize, u8)], changes: Changes) -> Result<Vec<u8>, Fail> {
    let mut bytes = disk(alloc, sectors)?;
    for (at, byte) in changes {
        *bytes.get_mut(*at).ok_or("no such byte")? = *byte;
    }
    Ok(bytes)
}

fn certificate(alloc: Global, claimed: &Claimed) -> Result<Vec<u8>, AllocError> {
    let (next, blocks, sectors) = *claimed;
    let claim = Claim {
        next,
        blocks,
        sectors,
        ..FORMATTED
    };
    certificate_bytes(alloc, &claim)
}

/// The bytes of a file.
pub fn bytes_of(alloc: Global, made: &Made) -> Result<Vec<u8>, Fail> {
    let geometry = Geometry::new(64, 32, 8, 32, 32)?;
    Ok(match made {
        Made::Text(text) => Vec::from_slice(alloc, text.as_bytes())?,
        Made::Dump(pages) => image_of(alloc, &geometry, pages)?,
        Made::Changed(pages, changes) => changed(alloc, &geometry, pages, changes)?,
        Made::Coded(pages, changes) => coded(alloc, &geometry, pages, changes)?,
        Made::Zeroed(pages, row, changes) => zeroed(alloc, &geometry, pages, *row, changes)?,
        Made::Arranged(pages, stands) => {
            let plain = image_of(alloc, &geometry, pages)?;
            arranged(alloc, &plain, stands)?
        }
        Made::Cut(pages, length) => cut(alloc, &geometry, pages, *length)?,
        Made::Disk(sectors) => disk(alloc, sectors)?,
        Made::Spoiled(sectors, changes) => spoiled(alloc, sectors, changes)?,
        Made::Certificate(claimed) => certificate(alloc, claimed)?,
    })
}
