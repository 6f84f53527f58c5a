//! An area of a page, read from where it stands.
ghost use Rattle.std.specs.Prelude.{◌≡◌, ◌+◌, ◌-◌, ◌<◌, ◌≤◌, ◌^◌, List, ℕ, length, map, min, replicate, OnOk, OnErr, Some, true};
ghost use Rattle.lab_arrange.specs.Place.{header_length, value_of};
ghost use Rattle.lab_arrange.specs.Reading.{area_from, bytes_from, taken_from};

use crate::arrangement::Arrangement;
use crate::places::swapped_place;
use lab_dump::{Dump, DumpFault};

// Turns all bits of bytes back, where they are inverted.
fn turn_back(bytes: &mut [u8], inverted: bool)
    ensures { bytes.new ≡ map (value_of inverted) bytes.old }
{
    if !inverted {
        return;
    }
    for i in 0..bytes.len() {
        bytes[i] = 255 - bytes[i];
    }
}

// Bytes 00h.
fn clear(bytes: &mut [u8])
    ensures { bytes.new ≡ replicate (length bytes.old) 0 }
{
    bytes.fill(0);
}

// How many of so many bytes from a place on a dump of this size has.
fn there_of(size: u64, at: u64, count: usize) -> usize
    ensures { result ≡ min (size - at) count }
{
    size.saturating_sub(at).min(count as u64) as usize
}

// Reads bytes of a dump of this size from a place on, as the die had them. Past its end they are 00h.
fn read_bytes<D: Dump>(
    dump: &mut D,
    size: u64,
    inverted: bool,
    at: u64,
    bytes: &mut [u8],
) -> Result<(), DumpFault>
    ensures read { OnOk result ((all : List ℕ) → D.bytes dump.old ≡ Some all → size ≡ length all → bytes.new ≡ bytes_from inverted all at (length bytes.old)) }
    ensures failed { OnErr result (D.failed dump.new ≡ true) }
    ensures same { D.bytes dump.new ≡ D.bytes dump.old }
{
    let there = there_of(size, at, bytes.len());
    let (found, missing) = bytes.split_at_mut(there);
    clear(missing);
    if there == 0 {
        return Ok(());
    }
    dump.read_at(at, found)?;
    turn_back(found, inverted);
    Ok(())
}

// Takes the bytes of an area out of those that were read. It begins `lead` bytes behind the first of these, which is the first one of its pair.
fn take_area(raw: &[u8], swapped: bool, lead: usize, area: &mut [u8])
    requires few { length raw.now ≤ 65536 }
    requires room { lead + length area.old < length raw.now }
    ensures { area.new ≡ taken_from swapped raw.now lead (length area.old) }
{
    for i in 0..area.len() {
        area[i] = raw[swapped_place(swapped, lead + i)];
    }
}

/// Reads the bytes of an area of a dump of this size, which begins at this place among the pages, as if no bytes were swapped. `raw` is scratch, with
/// room for two bytes more.
pub(crate) fn read_area<D: Dump>(
    dump: &mut D,
    size: u64,
    arrangement: &Arrangement,
    at: u64,
    raw: &mut [u8],
    area: &mut [u8],
) -> Result<(), DumpFault>
    requires place { at < 2 ^ 33 }
    requires few { length raw.old ≤ 65536 }
    requires room { length area.old + 2 ≤ length raw.old }
    ensures read { OnOk result ((all : List ℕ) → D.bytes dump.old ≡ Some all → size ≡ length all
        → area.new ≡ area_from (header_length arrangement.now) arrangement.now.swapped arrangement.now.inverted all at (length area.old)) }
    ensures failed { OnErr result (D.failed dump.new ≡ true) }
    ensures same { D.bytes dump.new ≡ D.bytes dump.old }
{
    let lead = (at % 2) as usize;
    let first = u64::from(arrangement.header.unwrap_or(0)) + (at - at % 2);
    let raw = &mut raw[..lead + area.len() + 1];
    read_bytes(dump, size, arrangement.inverted, first, raw)?;
    take_area(raw, arrangement.swapped, lead, area);
    Ok(())
}
