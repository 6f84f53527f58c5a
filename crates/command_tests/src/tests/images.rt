//! Raw images and certificates of a small die: pages of 64 data bytes and 32 spare bytes, 8 pages a block, 32 blocks, 32 sectors.
use page_layout::geometry::Geometry;
use std::alloc::{AllocError, Global};
use std::process::Abort;
use std::test::Fail;
use test_images::{
    Claim, FORMATTED, Layout, META, Said, TABLE_0, TABLE_1, Written, certificate_bytes, image_of,
    laid_out,
};

/// The bytes of a page.
pub const PAGE_BYTES: usize = 96;

/// The bytes of an image.
pub const IMAGE_BYTES: usize = 24576;

// An image of erased pages, but for these.
fn image(alloc: Global, pages: &[Written]) -> Result<Vec<u8>, Fail> {
    let geometry = Geometry::new(64, 32, 8, 32, 32)?;
    Ok(image_of(alloc, &geometry, pages)?)
}

// The same of a die of another layout.
fn image_in(alloc: Global, layout: Layout, pages: &[Written]) -> Result<Vec<u8>, Fail> {
    let geometry = Geometry::new(64, layout.spare_bytes, 8, 32, 32)?;
    Ok(laid_out(alloc, &geometry, layout, pages)?)
}

// The same, in which other bytes stand at these places.
fn image_with(
    rt: &impl Abort,
    alloc: Global,
    layout: Layout,
    pages: &[Written],
    pieces: &[(usize, &[u8])],
) -> Result<Vec<u8>, Fail> {
    let mut bytes = image_in(alloc, layout, pages)?;
    for (at, piece) in pieces {
        set_bytes(rt, &mut bytes, *at, piece);
    }
    Ok(bytes)
}

// The image of a formatted die without marks, with these pages besides its two table pages.
fn formatted(alloc: Global, pages: &[Written]) -> Result<Vec<u8>, Fail> {
    let mut all = Vec::from_slice(alloc, &[TABLE_0, TABLE_1])?;
    all.extend_from_slice(pages)?;
    image(alloc, &all)
}

// So many bytes FFh.
fn erased(alloc: Global, length: usize) -> Result<Vec<u8>, AllocError> {
    vec![in alloc; 0xFF; length]
}

// Sets a byte of an image.
fn set_byte(rt: &impl Abort, bytes: &mut Vec<u8>, at: usize, value: u8) {
    assert!(rt; at < bytes.len());
    bytes[at] = value;
}

// Sets some bytes of an image.
fn set_bytes(rt: &impl Abort, bytes: &mut Vec<u8>, at: usize, piece: &[u8]) {
    assert!(rt; at <= bytes.len());
    assert!(rt; piece.len() <= bytes.len() - at);
    bytes[at..at + piece.len()].copy_from_slice(piece);
}

// An image of erased pages, but for spare byte 0 of these rows, which is 00h.
fn marked(rt: &impl Abort, alloc: Global, rows: &[usize]) -> Result<Vec<u8>, AllocError> {
    let mut bytes = erased(alloc, IMAGE_BYTES)?;
    for row in rows {
        assert!(rt; *row < 256);
        set_byte(rt, &mut bytes, *row * PAGE_BYTES + 64, 0);
    }
    Ok(bytes)
}

// An image of erased pages, but for these, in which one byte is another.
fn image_but(
    rt: &impl Abort,
    alloc: Global,
    pages: &[Written],
    at: usize,
    value: u8,
) -> Result<Vec<u8>, Fail> {
    let mut bytes = image(alloc, pages)?;
    set_byte(rt, &mut bytes, at, value);
    Ok(bytes)
}

/// What a certificate says: a cache's capacity in entries, the next sequence, blocks, and the rows of sectors. Blocks that are not
/// named are free and were never erased, and sectors that are not named have no page; there are no translation pages, and the
/// table pages stand in the rows 0 and 1.
pub type Claimed = (u32, u64, &'static [Said], &'static [(u32, u32)]);

// What a certificate says.
fn claim_of(claimed: &Claimed) -> Claim {
    let (capacity, next, blocks, sectors) = *claimed;
    Claim {
        capacity,
        next,
        blocks,
        sectors,
        ..FORMATTED
    }
}

// The bytes of a certificate, 472, cut or made longer to so many.
fn cut(
    rt: &impl Abort,
    alloc: Global,
    claimed: &Claimed,
    length: usize,
) -> Result<Vec<u8>, AllocError> {
    let mut bytes = certificate_bytes(alloc, &claim_of(claimed))?;
    assert_eq!(rt; bytes.len(), 472);
    bytes.resize(length, 0)?;
    Ok(bytes)
}

/// What bytes are made of.
pub enum Made {
    /// These bytes.
    Bytes(&'static [u8]),
    /// So many bytes FFh.
    Erased(usize),
    /// An image of erased pages, but for spare byte 0 of these rows, which is 00h.
    Marked(&'static [usize]),
    /// An image of erased pages, but for these.
    Image(&'static [Written]),
    /// The same of a die of another layout.
    LaidOut(Layout, &'static [Written]),
    /// Such an image in which other bytes stand at these places.
    LaidOutBut(Layout, &'static [Written], &'static [(usize, &'static [u8])]),
    /// Such an image in which the byte at this place is another.
    ImageBut(&'static [Written], usize, u8),
    /// The image of a formatted die without marks, with these pages besides its two table pages.
    Formatted(&'static [Written]),
    /// The bytes of a certificate, 472.
    Certificate(Claimed),
    /// These bytes cut or made longer, by bytes 00h, to so many.
    Cut(Claimed, usize),
}

/// A formatted die, its certificate, and a file for what is made of them.
pub const FORMATTED_FILES: &[(&str, Made)] = &[
    ("image.bin", Made::Formatted(&[])),
    ("cert.bin", Made::Certificate((4, 3, &[META], &[]))),
    ("out.bin", Made::Formatted(&[])),
];

/// The same with a certificate whose next sequence was used.
pub const DISAGREEING_FILES: &[(&str, Made)] = &[
    ("image.bin", Made::Formatted(&[])),
    ("cert.bin", Made::Certificate((4, 2, &[META], &[]))),
    ("out.bin", Made::Formatted(&[])),
];

/// The bytes of a file.
pub fn bytes_of(rt: &impl Abort, alloc: Global, bytes: &Made) -> Result<Vec<u8>, Fail> {
    match bytes {
        Made::Bytes(bytes) => Ok(Vec::from_slice(alloc, bytes)?),
        Made::Erased(length) => Ok(erased(alloc, *length)?),
        Made::Marked(rows) => Ok(marked(rt, alloc, rows)?),
        Made::Image(pages) => image(alloc, pages),
        Made::LaidOut(layout, pages) => image_in(alloc, *layout, pages),
        Made::LaidOutBut(layout, pages, pieces) => image_with(rt, alloc, *layout, pages, pieces),
        Made::ImageBut(pages, at, value) => image_but(rt, alloc, pages, *at, *value),
        Made::Formatted(pages) => formatted(alloc, pages),
        Made::Certificate(claimed) => Ok(cut(rt, alloc, claimed, 472)?),
        Made::Cut(claimed, length) => Ok(cut(rt, alloc, claimed, *length)?),
    }
}
