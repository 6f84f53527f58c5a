//! Dumps of the small die in other arrangements, made of those in order.
use std::alloc::{AllocError, Global};

// The bytes of a page, of a data area, and the pages of a block.
const PAGE: usize = 96;

const DATA: usize = 64;

const PAGES: usize = 8;

/// How a dump stands.
#[derive(Clone, Copy)]
pub struct Stands {
    /// So many 5Ah bytes before the pages, and behind them.
    pub header: usize,
    pub tail: usize,
    /// So many bytes cut off.
    pub cut: usize,
    /// So many pages have their areas of one sort together.
    pub run: usize,
    pub spare_first: bool,
    pub swapped: bool,
    pub inverted: bool,
    pub planes: bool,
}

/// In order.
pub const PLAIN: Stands = Stands {
    header: 0,
    tail: 0,
    cut: 0,
    run: 1,
    spare_first: false,
    swapped: false,
    inverted: false,
    planes: false,
};

// The pages of two planes in turns.
fn in_turns(alloc: Global, plain: &[u8]) -> Result<Vec<u8>, AllocError> {
    let mut bytes = Vec::new(alloc);
    for pair in plain.chunks(2 * PAGES * PAGE) {
        let (even, odd) = pair.split_at(pair.len() / 2);
        for (first, second) in even.chunks(PAGE).zip(odd.chunks(PAGE)) {
            bytes.extend_from_slice(first)?;
            bytes.extend_from_slice(second)?;
        }
    }
    Ok(bytes)
}

// Adds the data areas of some pages, or their spare areas.
fn add_areas(bytes: &mut Vec<u8>, pages: &[u8], spare: bool) -> Result<(), AllocError> {
    for page in pages.chunks(PAGE) {
        let (body, rest) = page.split_at(page.len().min(DATA));
        bytes.extend_from_slice(if spare { rest } else { body })?;
    }
    Ok(())
}

// The areas of each sort of so many pages together.
fn stacked(alloc: Global, plain: &[u8], stands: &Stands) -> Result<Vec<u8>, AllocError> {
    let mut bytes = Vec::new(alloc);
    for run in plain.chunks(stands.run.max(1).saturating_mul(PAGE).max(1)) {
        add_areas(&mut bytes, run, stands.spare_first)?;
        add_areas(&mut bytes, run, !stands.spare_first)?;
    }
    Ok(bytes)
}

// The bytes of each pair, the second one first.
fn swapped(alloc: Global, plain: &[u8]) -> Result<Vec<u8>, AllocError> {
    let mut bytes = Vec::new(alloc);
    for pair in plain.chunks(2) {
        for byte in pair.iter().rev() {
            bytes.push(*byte)?;
        }
    }
    Ok(bytes)
}

/// These bytes, in order, as they stand.
pub fn arranged(alloc: Global, plain: &[u8], stands: &Stands) -> Result<Vec<u8>, AllocError> {
    let turned = if stands.planes {
        in_turns(alloc, plain)?
    } else {
        Vec::from_slice(alloc, plain)?
    };
    let mut made = stacked(alloc, &turned, stands)?;
    if stands.swapped {
        made = swapped(alloc, &made)?;
    }
    made.truncate(made.len().saturating_sub(stands.cut));
    let mut bytes = Vec::new(alloc);
    bytes.resize(stands.header, 0x5A)?;
    for byte in &made {
        bytes.push(if stands.inverted { !*byte } else { *byte })?;
    }
    bytes.resize(bytes.len().saturating_add(stands.tail), 0x5A)?;
    Ok(bytes)
}
