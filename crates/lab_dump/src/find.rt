//! All geometries that fit a dump.
ghost use Rattle.std.specs.Prelude.{◌≡◌, ◌++◌, ◌+◌, ◌<◌, ◌≤◌, List, ℕ, All, length, vec_capacity, IfOk, OnOk, OnErr, Some, IsPermutation, true};
ghost use Rattle.std.specs.List.{flat_map};
ghost use Rattle.std.specs.List.Sorted.{IsSorted};
ghost use Rattle.page_layout.specs.Limits.{IsDataSize, IsSpareSize, IsPageCount};
ghost use Rattle.lab_dump.specs.Shape.{page_counts};
ghost use Rattle.lab_dump.specs.Fits.{shape_fits, area_fits, data_fits, fits_of, AddsFits, IsPossible, rank};
ghost use Rattle.lab_dump.specs.Rooms.{IsFitRoom};

use crate::dump::Dump;
use crate::fit::{Fit, fit_of};
use crate::sample::{Sample, take_sample};
use crate::shape::{data_sizes, first_shape, page_counts, shape};
use crate::told::{PagesTold, read_told};
use image_check::DumpFault;
use std::alloc::{AllocError, Global};

// The most bytes that a page may have.
const MOST_PAGE: usize = 4352;

// The most geometries that may fit: of seven data areas, 225 spare areas, and seven numbers of pages in a block.
const MOST_FITS: usize = 11025;

/// The memory of a search for geometries. (This project's.)
#[derive(Drop)]
pub struct FitRoom {
    // the page at hand
    pub(crate) page: Vec<u8>,
    pub(crate) fits: Vec<Fit>,
}

impl FitRoom {
    ghost use Rattle.std.specs.Prelude.{IfOk};
    ghost use Rattle.lab_dump.specs.Rooms.{IsFitRoom};

    /// All the memory that a search takes: room for one page, of at most 4352 bytes, and for 11025 geometries, whatever the dump's size.
    ///
    /// # Errors
    ///
    /// Where a growth was refused. (This project's.)
    pub fn new(alloc: Global) -> Result<FitRoom, AllocError>
        ensures { IfOk result IsFitRoom }
    {
        Ok(FitRoom {
            page: vec![in alloc; 0; MOST_PAGE]?,
            fits: Vec::with_capacity(alloc, MOST_FITS)?,
        })
    }
}

// The geometry with so many pages in a block, if the dump's bytes are whole blocks of it. The list has room for it.
fn add_shape(
    fits: &mut Vec<Fit>,
    size: u64,
    data_bytes: u32,
    spare_bytes: u32,
    pages: u32,
    sample: Sample,
    told: PagesTold,
)
    requires data_size { IsDataSize data_bytes }
    requires spare_size { IsSpareSize spare_bytes }
    requires page_count { IsPageCount pages }
    requires some_sound { 0 < sample.sound }
    requires looked { sample.sound + sample.unsound ≤ sample.looked }
    requires place { length fits.old.items < vec_capacity fits.old }
    ensures added { fits.new.items ≡ fits.old.items ++ shape_fits size data_bytes spare_bytes sample told pages }
    ensures any { AddsFits 1 fits.old.items fits.new.items }
    ensures places { vec_capacity fits.new ≡ vec_capacity fits.old }
{
    let Some(geometry) = shape(size, data_bytes, spare_bytes, pages) else {
        return;
    };
    fits.push_reserved(fit_of(&geometry, sample, told));
}

/// Adds to a list the geometries with such areas and each number of pages in a block that so many bytes are whole blocks of. The list has room
/// for them.
pub fn add_shapes(
    fits: &mut Vec<Fit>,
    size: u64,
    data_bytes: u32,
    spare_bytes: u32,
    sample: Sample,
    told: PagesTold,
)
    requires data_size { IsDataSize data_bytes }
    requires spare_size { IsSpareSize spare_bytes }
    requires some_sound { 0 < sample.sound }
    requires looked { sample.sound + sample.unsound ≤ sample.looked }
    requires place { length fits.old.items + 7 ≤ vec_capacity fits.old }
    ensures added { fits.new.items ≡ fits.old.items ++ flat_map (shape_fits size data_bytes spare_bytes sample told) page_counts }
    ensures any { AddsFits 7 fits.old.items fits.new.items }
    ensures places { vec_capacity fits.new ≡ vec_capacity fits.old }
{
    for pages in page_counts() {
        add_shape(fits, size, data_bytes, spare_bytes, pages, sample, told);
    }
}

// Those with such areas, of a dump of so many bytes. `page` is scratch. The list has room for them.
fn add_areas<D: Dump>(
    fits: &mut Vec<Fit>,
    dump: &mut D,
    size: u64,
    data_bytes: u32,
    spare_bytes: u32,
    page: &mut [u8],
) -> Result<(), DumpFault>
    requires data_size { IsDataSize data_bytes }
    requires spare_size { IsSpareSize spare_bytes }
    requires room { 4352 ≤ length page.old }
    requires place { length fits.old.items + 7 ≤ vec_capacity fits.old }
    ensures added { OnOk result ((all : List ℕ) → D.bytes dump.old ≡ Some all → size ≡ length all → fits.new.items ≡ fits.old.items ++ area_fits all data_bytes spare_bytes) }
    ensures any { OnOk result (AddsFits 7 fits.old.items fits.new.items) }
    ensures places { OnOk result (vec_capacity fits.new ≡ vec_capacity fits.old) }
    ensures source { OnErr result (D.failed dump.new ≡ true) }
    ensures same { D.bytes dump.new ≡ D.bytes dump.old }
{
    let Some(geometry) = first_shape(size, data_bytes, spare_bytes) else {
        return Ok(());
    };
    let page = &mut page[..(data_bytes + spare_bytes) as usize];
    let sample = take_sample(dump, &geometry, page)?;
    if sample.sound == 0 {
        return Ok(());
    }
    let told = read_told(dump, &geometry, page)?;
    add_shapes(fits, size, data_bytes, spare_bytes, sample, told);
    Ok(())
}

// Those with a data area of so many bytes. The list has room for them.
fn add_data<D: Dump>(
    fits: &mut Vec<Fit>,
    dump: &mut D,
    size: u64,
    data_bytes: u32,
    page: &mut [u8],
) -> Result<(), DumpFault>
    requires data_size { IsDataSize data_bytes }
    requires room { 4352 ≤ length page.old }
    requires place { length fits.old.items + 1575 ≤ vec_capacity fits.old }
    ensures added { OnOk result ((all : List ℕ) → D.bytes dump.old ≡ Some all → size ≡ length all → fits.new.items ≡ fits.old.items ++ data_fits all data_bytes) }
    ensures any { OnOk result (AddsFits 1575 fits.old.items fits.new.items) }
    ensures places { OnOk result (vec_capacity fits.new ≡ vec_capacity fits.old) }
    ensures source { OnErr result (D.failed dump.new ≡ true) }
    ensures same { D.bytes dump.new ≡ D.bytes dump.old }
{
    for spare_bytes in 32..257 {
        add_areas(fits, dump, size, data_bytes, spare_bytes, page)?;
    }
    Ok(())
}

// Those with each data area. The list has room for them.
fn add_all<D: Dump>(
    fits: &mut Vec<Fit>,
    dump: &mut D,
    size: u64,
    page: &mut [u8],
) -> Result<(), DumpFault>
    requires room { 4352 ≤ length page.old }
    requires place { length fits.old.items + 11025 ≤ vec_capacity fits.old }
    ensures added { OnOk result ((all : List ℕ) → D.bytes dump.old ≡ Some all → size ≡ length all → fits.new.items ≡ fits.old.items ++ fits_of all) }
    ensures any { OnOk result (AddsFits 11025 fits.old.items fits.new.items) }
    ensures source { OnErr result (D.failed dump.new ≡ true) }
    ensures same { D.bytes dump.new ≡ D.bytes dump.old }
{
    for data_bytes in data_sizes() {
        add_data(fits, dump, size, data_bytes, page)?;
    }
    Ok(())
}

/// The geometries that fit a dump, best first, each with what the dump says for it. Looked at are, for each data area and each spare area
/// that a die may have and whose sum divides the dump's bytes, the pages of at most 4096 rows. Where one of them is sound all pages are
/// read, for what they tell of the blocks and the sectors, and each number of pages in a block that gives whole blocks is one geometry. Its
/// sectors are the fewest that the pages tell of. A dump that none fits gives an empty list.
///
/// It takes no memory but that of the room.
///
/// # Errors
///
/// Where the dump's size cannot be known or a read of it fails. (This project's rules.)
pub fn find_geometries<D: Dump>(room: FitRoom, dump: &mut D) -> Result<Vec<Fit>, DumpFault>
    requires { IsFitRoom room }
    ensures found { IfOk result (λ fits. (all : List ℕ) → D.bytes dump.old ≡ Some all → IsPermutation (fits_of all) fits.items) }
    ensures ranked { IfOk result (λ fits. IsSorted rank fits.items) }
    ensures possible { IfOk result (λ fits. All IsPossible fits.items) }
    ensures few { IfOk result (λ fits. length fits.items ≤ 11025) }
    ensures source { OnErr result (D.failed dump.new ≡ true) }
    ensures same { D.bytes dump.new ≡ D.bytes dump.old }
{
    let (mut page, mut fits) = (room.page, room.fits);
    let size = dump.size()?;
    add_all(&mut fits, dump, size, &mut page)?;
    fits.sort_unstable();
    Ok(fits)
}
