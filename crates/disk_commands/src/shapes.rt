//! The shape of a disk, and the one for a size.
ghost use Rattle.std.specs.Prelude.{◌≡◌, ◌↔◌, ◌+◌, ◌*◌, ◌^◌, ◌<◌, ◌≤◌, IfOk, IfErr, IfSome, IsTrue, None, ℕ};
ghost use Rattle.std.specs.Int.{div_ceil};
ghost use Rattle.page_layout.specs.Geometry.{need_at, waiting_at};
ghost use Rattle.disk_commands.specs.Shapes.{HasBlocksForFormat, HasNoDie, HasNoSpared, IsDie, IsDieForSectors, IsDieOfSectors, IsGreatestDie, AreFewestBlocks};
ghost use Rattle.disk_commands.specs.Shapes.{IsNewShare, IsNoSize, IsPages, IsShapeFor, IsShareFor, IsSparedDie, cache_of};

use page_layout::geometry::{Geometry, GeometryFault};
use std::error::Error;
use std::fmt;

const DATA_BYTES: u32 = 4096;

const SPARE_BYTES: u32 = 128;

// The fewest and the most entries of a cache that is picked, and the most where a disk has more sectors than any cache has entries.
const LEAST_CACHED: u32 = 64;

const MOST_CACHED: u32 = 65_280;

const MOST_PACED: u32 = 57_344;

/// The most entries that any cache has.
pub(crate) const MOST_ENTRIES: u32 = 65_536;

// The most blocks of any die, and the most pages of a block.
const MOST_BLOCKS: u32 = 4096;

const MOST_PAGES: u32 = 256;

// The share of a new disk, where none is named, and the most that is taken for one that has room at no smaller one. At a greater share less is left of a cache for those
// that are cached than the fewest entries of one.
pub(crate) const SHARE: u32 = 15;

const MOST_SHARE: u32 = 64;

/// The code that the pages of a disk have in its file. (This project's.)
#[derive(Clone, Copy, Debug, PartialEq, Eq)]
pub enum Code {
    /// None: a page is its data area and its spare area.
    Plain,
    /// Three bytes for each 256 of the data area and for the spare area, which turn back one wrong bit of each (`page_code`).
    Hamming,
}

/// What a disk in a file is: the geometry of its die without codes, the entries of its device's cache, from 1 to 65,536, how many moved sectors may wait for each
/// translation page in the mean, and the code of its pages.
#[derive(Clone, Copy, Debug, PartialEq, Eq)]
pub struct DiskShape {
    pub geometry: Geometry,
    pub cache: u32,
    pub share: u32,
    pub code: Code,
}

/// Why there is no shape for a size. (This project's.)
#[derive(Clone, Copy, Debug, PartialEq, Eq)]
pub enum SizeFault {
    /// The size is no byte.
    Zero,
    /// No die that a shape is for has room for so many sectors, where so many of them may wait.
    TooLarge,
}

impl Error for SizeFault {}

impl fmt::Display for SizeFault {
    ghost use Rattle.std.specs.Prelude.{Some};
    ghost use Rattle.disk_commands.specs.Text.{size_words};

    ghost output = { λ fault. Some (size_words fault) };

    fn fmt<W: fmt::Write>(&self, f: &mut fmt::Formatter<W>) -> fmt::Result {
        match *self {
            SizeFault::Zero => f.write_str("a disk has at least one byte"),
            SizeFault::TooLarge => {
                f.write_str("no die has room for so many bytes with this share")
            }
        }
    }
}

/// All sectors that may wait for their translation pages on a die of this geometry, at any share.
pub(crate) fn waiting(geometry: &Geometry, share: u32) -> u64
    ensures is { result ≡ waiting_at geometry.now share }
    ensures most { result ≤ 2 ^ 52 }
{
    u64::from(share) * u64::from(geometry.translation_pages())
}

/// The entries of the cache of a device on a die of this geometry, in which so many moved sectors may wait for each translation page in the mean: one for each of its
/// sectors, so that one that was met once stays in the cache, but at least 64 and at most 65,280. A die of share 0 that was stopped mounts with as many entries more as a
/// block has pages, and these are within the 65,536 that a cache may have. Of a disk with more sectors than that the cache has 57,344, less by all that may wait, but at
/// least 64: the rest is room for what is changed between two syncs of its file.
///
/// (This project's rule.)
pub fn cache_for(geometry: &Geometry, share: u32) -> u32
    ensures is { result ≡ cache_of geometry.now share }
    ensures least { 1 ≤ result }
    ensures most { result + geometry.now.pages ≤ 65536 }
{
    if geometry.sectors() <= MOST_ENTRIES {
        return geometry.sectors().min(MOST_CACHED).max(LEAST_CACHED);
    }
    let entries = u64::from(MOST_PACED).saturating_sub(waiting(geometry, share));
    (entries as u32).max(LEAST_CACHED)
}

/// Whether so many moved sectors may wait for each translation page, in the mean, on a disk of this geometry with so many entries in its cache: some cache has room for
/// all that may be stale when it is stopped. With share 0 it has as ever; a disk of at most 65,536 sectors has room for each of them.
pub(crate) fn is_share_for(geometry: &Geometry, cache: u32, share: u32) -> bool
    ensures { IsTrue result ↔ IsShareFor geometry.now cache share }
{
    if !geometry.is_share(share) {
        return false;
    }
    if share == 0 || geometry.sectors() <= MOST_ENTRIES {
        return true;
    }
    u64::from(cache) + waiting(geometry, share) + u64::from(geometry.pages())
        <= u64::from(MOST_ENTRIES)
}

fn die(pages: u32, blocks: u32, sectors: u32) -> Result<Geometry, GeometryFault>
    ensures ok { IfOk result (IsDie pages blocks sectors) }
    ensures err { IfErr result (λ _. (g : Geometry) → ¬ IsDie pages blocks sectors g) }
{
    Geometry::new(DATA_BYTES, SPARE_BYTES, pages, blocks, sectors)
}

// Whether a format of so many blocks at this share, all of them good, is not refused for too few.
fn formats(pages: u32, share: u32, sectors: u32, blocks: u32) -> bool
    ensures { IsTrue result ↔ HasBlocksForFormat pages share sectors blocks }
{
    match die(pages, blocks, sectors) {
        Ok(geometry) => geometry.need_at(share) <= blocks,
        Err(_) => false,
    }
}

// The fewest blocks that a format of so many sectors at this share needs, where there is a die of so many.
fn least_blocks(pages: u32, share: u32, sectors: u32) -> Option<u32>
    ensures some { IfSome result (AreFewestBlocks pages share sectors) }
    ensures none { result ≡ None → (blocks : ℕ) → blocks ≤ 4096 → ¬ HasBlocksForFormat pages share sectors blocks }
{
    for blocks in 0..=MOST_BLOCKS {
        if formats(pages, share, sectors, blocks) {
            return Some(blocks);
        }
    }
    None
}

// The spare blocks beside so many that a format needs.
fn spare_of(share: u32, needed: u32) -> u32
    ensures { result ≡ Rattle.disk_commands.specs.Shapes.spare_of share needed }
{
    if share == 0 {
        needed.div_ceil(20)
    } else {
        needed.div_ceil(40)
    }
}

// The die of so many pages a block for so many sectors at this share, with spare blocks.
fn die_of(pages: u32, share: u32, sectors: u32) -> Option<Geometry>
    ensures some { IfSome result (IsDieForSectors pages share sectors) }
    ensures none { result ≡ None → (g : Geometry) → ¬ IsDieForSectors pages share sectors g }
{
    let Some(needed) = least_blocks(pages, share, sectors) else {
        return None;
    };
    match die(pages, needed + spare_of(share, needed), sectors) {
        Ok(geometry) => Some(geometry),
        Err(_) => None,
    }
}

// That of the fewest pages a block, of 64, 128 and 256, of which there is one.
fn spared_die(share: u32, sectors: u32) -> Option<Geometry>
    ensures some { IfSome result (IsSparedDie share sectors) }
    ensures none { result ≡ None → HasNoSpared share sectors }
{
    if let Some(geometry) = die_of(64, share, sectors) {
        return Some(geometry);
    }
    if let Some(geometry) = die_of(128, share, sectors) {
        return Some(geometry);
    }
    die_of(256, share, sectors)
}

// The greatest die, where sectors may wait and a format needs no more blocks than it has.
fn greatest_die(share: u32, sectors: u32) -> Option<Geometry>
    ensures some { IfSome result (IsGreatestDie share sectors) }
    ensures none { result ≡ None → (g : Geometry) → ¬ IsGreatestDie share sectors g }
{
    if share == 0 {
        return None;
    }
    let geometry = match die(MOST_PAGES, MOST_BLOCKS, sectors) {
        Ok(geometry) => geometry,
        Err(_) => return None,
    };
    if geometry.need_at(share) <= MOST_BLOCKS {
        Some(geometry)
    } else {
        None
    }
}

// The die of a disk of so many sectors at this share.
fn die_of_sectors(share: u32, sectors: u32) -> Option<Geometry>
    ensures some { IfSome result (IsDieOfSectors share sectors) }
    ensures none { result ≡ None → HasNoDie share sectors }
{
    match spared_die(share, sectors) {
        Some(geometry) => Some(geometry),
        None => greatest_die(share, sectors),
    }
}

/// The shape of a disk of so many bytes, in whole sectors of 4,096 bytes, in which so many moved sectors may wait for each translation page in the mean: pages of 4,096 and
/// 128 bytes; as many blocks as a format of that many sectors needs at this share, and spare ones, a twentieth of them at share 0 and a fortieth at others, rounded up; the
/// fewest pages a block, of 64, 128 and 256, of which there is such a die; the cache of [`cache_for`]; and no code. At shares above 0, where there is no such die, it is the
/// greatest, of 4,096 blocks with 256 pages, where a format needs no more.
///
/// # Errors
///
/// `Zero` for no byte. `TooLarge` where there is no such die: past 497,429 sectors at share 0, past 982,315 at share 15.
///
/// (This project's rule.)
pub fn shape_for(bytes: u64, share: u32) -> Result<DiskShape, SizeFault>
    ensures ok { IfOk result (IsShapeFor bytes share) }
    ensures fault { IfErr result (IsNoSize bytes share) }

    // For a size that is refused there is no such die.
    ensures none { IfErr result (λ _. HasNoDie share (div_ceil bytes 4096)) }

    // The disk has at least these bytes, and less than a sector more.
    ensures enough { IfOk result (λ s. bytes ≤ s.geometry.sectors * 4096) }
    ensures tight { IfOk result (λ s. s.geometry.sectors * 4096 < bytes + 4096) }

    // The pages of a block: 64, 128 or 256.
    ensures pages { IfOk result (λ s. IsPages s.geometry.pages) }

    // A format has the blocks that it needs.
    ensures formats { IfOk result (λ s. need_at s.geometry share ≤ s.geometry.blocks) }
{
    if bytes == 0 {
        return Err(SizeFault::Zero);
    }
    let Ok(sectors) = u32::try_from(bytes.div_ceil(u64::from(DATA_BYTES))) else {
        return Err(SizeFault::TooLarge);
    };
    let Some(geometry) = die_of_sectors(share, sectors) else {
        return Err(SizeFault::TooLarge);
    };
    Ok(DiskShape {
        geometry,
        cache: cache_for(&geometry, share),
        share,
        code: Code::Plain,
    })
}

/// The share of a new disk of so many bytes, where none is named: 15, or where no die has room for so many at 15, the least greater one at which one has, up to 64. Where at
/// none of them one has it is 15 too.
///
/// (This project's rule.)
pub fn share_for(bytes: u64) -> u32
    ensures { IsNewShare (div_ceil bytes 4096) result }
{
    for share in SHARE..=MOST_SHARE {
        if let Ok(_) = shape_for(bytes, share) {
            return share;
        }
    }
    SHARE
}
