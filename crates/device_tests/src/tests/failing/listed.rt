//! The sectors of an image, by a pass over its pages, and a list of sectors.
use super::script::Script;
use page_layout::record::{Kind, Record, read_record};
use page_layout::source::ImageSlice;
use std::test::Fail;

// The greatest sequence of a sector's pages so far, and the byte that the sector has throughout by it.
#[derive(Clone, Copy)]
pub struct Newest {
    sequence: u64,
    byte: u8,
}

// The most sectors of a die of these tests.
const MOST: usize = 48;

const NEVER: Newest = Newest {
    sequence: 0,
    byte: 0,
};

// The byte that a page has throughout, or a trim stands for.
fn byte_of(kind: Kind, body: &[u8]) -> Result<u8, Fail> {
    let first = body.first().copied().unwrap_or(0);
    if body.iter().any(|byte| *byte != first) {
        return Err(Fail::new("a page of several bytes"));
    }
    Ok(if kind == Kind::Trim { 0 } else { first })
}

// Takes a page into account.
fn see(newest: &mut [Newest; MOST], record: Record, body: &[u8]) -> Result<(), Fail> {
    if record.kind != Kind::Sector && record.kind != Kind::Trim {
        return Ok(());
    }
    let byte = byte_of(record.kind, body)?;
    let seen = newest
        .get_mut(record.number as usize)
        .ok_or("no such sector")?;
    if record.sequence == seen.sequence {
        return Err(Fail::new("a sequence came twice"));
    }
    if record.sequence > seen.sequence {
        seen.sequence = record.sequence;
        seen.byte = byte;
    }
    Ok(())
}

// Takes the page of a row into account, if it is sound.
fn see_row(newest: &mut [Newest; MOST], image: &ImageSlice<'_>, row: u32) -> Result<(), Fail> {
    let geometry = image.geometry();
    if !geometry.has_row(row) {
        return Err(Fail::new("no such row"));
    }
    let (body, spare) = image.page(row);
    match read_record(&geometry, body, spare) {
        Some(record) => see(newest, record, body),
        None => Ok(()),
    }
}

/// The sectors of an image.
///
/// # Errors
///
/// A page names a sector past the last, or has several bytes, or two pages of a sector have one sequence.
pub fn scanned(image: &ImageSlice<'_>) -> Result<[Newest; MOST], Fail> {
    let mut newest = [NEVER; MOST];
    for row in 0..image.geometry().rows() {
        see_row(&mut newest, image, row)?;
    }
    Ok(newest)
}

/// Each sector is as the list has it.
pub fn is_listed(newest: &[Newest; MOST], script: &Script) -> bool {
    for sector in 0..MOST as u32 {
        if newest[sector as usize].byte != script.byte(sector) {
            return false;
        }
    }
    true
}
