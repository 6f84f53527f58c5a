//! The geometries that fit a dump whose pages stand with their codes.
ghost use Rattle.std.specs.Prelude.{◌≡◌, ◌++◌, ◌+◌, ◌*◌, ◌/◌, ◌≤◌, List, ℕ, length, vec_capacity, IfSome, IfNone, OnOk, OnErr, Some, false, true};
ghost use Rattle.page_layout.specs.Limits.{IsDataSize, IsSpareSize};
ghost use Rattle.lab_dump.specs.Fits.{AddsFits};
ghost use Rattle.page_code.specs.Layout.{outer_size};
ghost use Rattle.lab_correct.specs.Decoded.{raw_size};
ghost use Rattle.lab_correct.specs.Coded.{are_coded_pages, coded_area_fits, coded_data_fits, coded_fits};

use crate::coded_look::{sample_decoded, told_decoded};
use crate::coded_page::raw_size;
use lab_dump::{Dump, DumpFault, Fit, add_shapes, data_sizes, first_shape};

// How many bytes a dump of so many has without its codes, where these are whole pages of such areas with their codes.
fn plain_size(size: u64, data_bytes: u32, spare_bytes: u32) -> Option<u64>
    requires data_size { IsDataSize data_bytes }
    requires spare_size { IsSpareSize spare_bytes }
    ensures some { IfSome result (λ plain. are_coded_pages size data_bytes spare_bytes ≡ true) }
    ensures plain { IfSome result (λ plain. plain ≡ size / raw_size data_bytes spare_bytes * (data_bytes + spare_bytes)) }
    ensures fits { IfSome result (λ plain. outer_size data_bytes spare_bytes ≤ 256) }
    ensures none { IfNone result (are_coded_pages size data_bytes spare_bytes ≡ false) }
{
    let raw = raw_size(data_bytes as usize, spare_bytes as usize);
    if raw <= data_bytes as usize + 256 && size % raw as u64 == 0 {
        Some(size / raw as u64 * u64::from(data_bytes + spare_bytes))
    } else {
        None
    }
}

// Those with such areas without the codes, of a dump of so many bytes. `raw` and `page` are scratch. The list has room for them.
fn add_coded_areas<D: Dump>(
    fits: &mut Vec<Fit>,
    dump: &mut D,
    size: u64,
    data_bytes: u32,
    spare_bytes: u32,
    raw: &mut [u8],
    page: &mut [u8],
) -> Result<(), DumpFault>
    requires data_size { IsDataSize data_bytes }
    requires spare_size { IsSpareSize spare_bytes }
    requires raw_room { 4352 ≤ length raw.old }
    requires page_room { 4352 ≤ length page.old }
    requires place { length fits.old.items + 7 ≤ vec_capacity fits.old }
    ensures added { OnOk result ((all : List ℕ) → D.bytes dump.old ≡ Some all → size ≡ length all → fits.new.items ≡ fits.old.items ++ coded_area_fits all data_bytes spare_bytes) }
    ensures any { OnOk result (AddsFits 7 fits.old.items fits.new.items) }
    ensures places { OnOk result (vec_capacity fits.new ≡ vec_capacity fits.old) }
    ensures source { OnErr result (D.failed dump.new ≡ true) }
    ensures same { D.bytes dump.new ≡ D.bytes dump.old }
{
    let Some(plain) = plain_size(size, data_bytes, spare_bytes) else {
        return Ok(());
    };
    let Some(geometry) = first_shape(plain, data_bytes, spare_bytes) else {
        return Ok(());
    };
    let raw = &mut raw[..raw_size(data_bytes as usize, spare_bytes as usize)];
    let page = &mut page[..(data_bytes + spare_bytes) as usize];
    let sample = sample_decoded(dump, &geometry, raw, page)?;
    if sample.sound == 0 {
        return Ok(());
    }
    let told = told_decoded(dump, &geometry, raw, page)?;
    add_shapes(fits, plain, data_bytes, spare_bytes, sample, told);
    Ok(())
}

// Those with a data area of so many bytes. The list has room for them.
fn add_coded_data<D: Dump>(
    fits: &mut Vec<Fit>,
    dump: &mut D,
    size: u64,
    data_bytes: u32,
    raw: &mut [u8],
    page: &mut [u8],
) -> Result<(), DumpFault>
    requires data_size { IsDataSize data_bytes }
    requires raw_room { 4352 ≤ length raw.old }
    requires page_room { 4352 ≤ length page.old }
    requires place { length fits.old.items + 1575 ≤ vec_capacity fits.old }
    ensures added { OnOk result ((all : List ℕ) → D.bytes dump.old ≡ Some all → size ≡ length all → fits.new.items ≡ fits.old.items ++ coded_data_fits all data_bytes) }
    ensures any { OnOk result (AddsFits 1575 fits.old.items fits.new.items) }
    ensures places { OnOk result (vec_capacity fits.new ≡ vec_capacity fits.old) }
    ensures source { OnErr result (D.failed dump.new ≡ true) }
    ensures same { D.bytes dump.new ≡ D.bytes dump.old }
{
    for spare_bytes in 32..257 {
        add_coded_areas(fits, dump, size, data_bytes, spare_bytes, raw, page)?;
    }
    Ok(())
}

/// Those with each data area. The list has room for them; `raw` and `page` are scratch.
pub(crate) fn add_coded<D: Dump>(
    fits: &mut Vec<Fit>,
    dump: &mut D,
    size: u64,
    raw: &mut [u8],
    page: &mut [u8],
) -> Result<(), DumpFault>
    requires raw_room { 4352 ≤ length raw.old }
    requires page_room { 4352 ≤ length page.old }
    requires place { length fits.old.items + 11025 ≤ vec_capacity fits.old }
    ensures added { OnOk result ((all : List ℕ) → D.bytes dump.old ≡ Some all → size ≡ length all → fits.new.items ≡ fits.old.items ++ coded_fits all) }
    ensures any { OnOk result (AddsFits 11025 fits.old.items fits.new.items) }
    ensures source { OnErr result (D.failed dump.new ≡ true) }
    ensures same { D.bytes dump.new ≡ D.bytes dump.old }
{
    for data_bytes in data_sizes() {
        add_coded_data(fits, dump, size, data_bytes, raw, page)?;
    }
    Ok(())
}
