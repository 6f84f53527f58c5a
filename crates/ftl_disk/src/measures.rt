//! What follows from a shape: how large a disk is, and how much memory it takes.
ghost use Rattle.std.specs.Prelude.{◌≡◌, ◌≤◌, min};
ghost use Rattle.page_layout.specs.Geometry.{key_count};
ghost use Rattle.ftl_disk.specs.Measures.{Measures, TellsSizes, certificate_length, chip_spare, device_bytes, error_bytes, memory_bytes, scan_bytes};

use crate::number::DONE;
use crate::plan::Plan;
use crate::shape::Shape;
use page_code::chip::ChipGeometry;
use page_layout::geometry::Geometry;

/// What follows from a shape, as C gets it. (This project's.)
#[repr(C)]
#[derive(Clone, Copy)]
pub struct Sizes {
    /// The bytes of a sector.
    pub sector_bytes: u32,
    /// The sectors.
    pub sectors: u32,
    /// The good blocks below which it may become read-only.
    pub need: u32,
    /// The bytes of a certificate.
    pub certificate_bytes: u32,
    /// The most bytes of memory that are asked for at once.
    pub memory_bytes: u32,
    /// The most pieces that these are asked for in.
    pub memory_blocks: u32,
    /// The bytes that stand beside the data of a page on the chip: the spare area, with its codes where it has them.
    pub chip_spare_bytes: u32,
}

// The sectors, translation pages and table pages.
fn key_count(geometry: &Geometry) -> u64
    ensures is { result ≡ key_count geometry.now }
    ensures most { result ≤ 12884901885 }
{
    let meta = u64::from(geometry.translation_pages()) + u64::from(geometry.table_pages());
    u64::from(geometry.sectors()) + meta
}

/// The bytes of a certificate.
pub(crate) fn certificate_length(geometry: &Geometry) -> u64
    ensures { result ≡ certificate_length geometry.now }
{
    40 + 9 * u64::from(geometry.blocks()) + 4 * key_count(geometry)
}

// The bytes that a look at all pages takes.
fn scan_bytes(geometry: &Geometry) -> u64
    ensures is { result ≡ scan_bytes geometry.now }
    ensures most { result ≤ 1099511627776 }
{
    16 * u64::from(geometry.rows())
        + 12 * key_count(geometry)
        + 44 * u64::from(geometry.blocks())
        + u64::from(geometry.data_bytes() as u32)
}

// The bytes that a device takes.
fn device_bytes(geometry: &Geometry, entries: u64) -> u64
    requires { entries ≤ 8589934592 }
    ensures is { result ≡ device_bytes geometry.now entries }
    ensures most { result ≤ 1099511627776 }
{
    72 * entries
        + 8 * u64::from(geometry.pages())
        + 48 * u64::from(geometry.blocks())
        + 9 * key_count(geometry)
        + 2 * (u64::from(geometry.data_bytes() as u32) + u64::from(geometry.spare_bytes() as u32))
}

// What a chip with codes takes beside.
fn error_bytes(geometry: &Geometry, chip: Option<ChipGeometry>) -> u64
    ensures is { result ≡ error_bytes geometry.now chip }
    ensures most { result ≤ 1099511627776 }
{
    match chip {
        Some(_) => 16 * u64::from(geometry.blocks()),
        None => 0,
    }
}

// The bytes of memory.
fn memory_bytes(plan: &Plan) -> u64
    ensures { result ≡ memory_bytes plan.now.geometry plan.now.cache plan.now.chip }
{
    let geometry = &plan.geometry;
    let look = scan_bytes(geometry);
    let device = device_bytes(
        geometry,
        u64::from(plan.cache) + u64::from(geometry.pages()),
    );
    1024 + 12 * u64::from(geometry.blocks())
        + 9 * key_count(geometry)
        + (u64::from(geometry.data_bytes() as u32) + u64::from(geometry.spare_bytes() as u32))
        + look.max(device)
        + error_bytes(geometry, plan.chip)
}

// What stands beside the data of a page on the chip.
fn chip_spare(geometry: &Geometry, chip: Option<ChipGeometry>) -> u32
    ensures { result ≡ chip_spare geometry.now chip }
{
    match chip {
        Some(chip) => chip.raw().spare_bytes() as u32,
        None => geometry.spare_bytes() as u32,
    }
}

// A number as one of 32 bits, which it is for every die.
fn told(number: u64) -> u32
    ensures { result ≡ min number 4294967295 }
{
    number.min(4_294_967_295) as u32
}

// The sizes of a disk.
fn measure(plan: &Plan) -> Sizes
    ensures { Measures plan.now result }
{
    let geometry = &plan.geometry;
    Sizes {
        sector_bytes: geometry.data_bytes() as u32,
        sectors: geometry.sectors(),
        need: geometry.need(),
        certificate_bytes: told(certificate_length(geometry)),
        memory_bytes: told(memory_bytes(plan)),
        memory_blocks: 34 + plan.cache + geometry.pages(),
        chip_spare_bytes: chip_spare(geometry, plan.chip),
    }
}

/// Sets `sizes` to what follows from a shape. Else its number comes, and `sizes` stays.
pub fn tell(shape: &Shape, sizes: &mut Sizes) -> u32
    ensures { TellsSizes shape.now result sizes.old sizes.new }
{
    match shape.plan() {
        Ok(plan) => {
            *sizes = measure(&plan);
            DONE
        }
        Err(number) => number,
    }
}
