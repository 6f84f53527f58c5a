//! What can be read of a dump that nothing fits: records that stand in its bytes, at whatever place.
ghost use Rattle.std.specs.Prelude.{◌≡◌, ◌+◌, ◌-◌, ◌<◌, ◌≤◌, true, false, List, ℕ, length, drop, min, IfOk, OnErr, Some, None};
ghost use Rattle.lab_dump.specs.Nearest.{HasBehind, LegibleLaw, NearestLaw, NoneLegibleLaw, is_settled, is_table, legible, nearer, nearest_below, nearest_of, legible_at};
ghost use Rattle.lab_dump.specs.Rooms.{IsNearestRoom};

use crate::dump::Dump;
use crate::said::{seal_size, spelled};
use image_check::DumpFault;
use page_layout::record::{Kind, Record};
use std::alloc::{AllocError, Global};

// So many bytes of the dump are looked at between two reads.
const STRIDE: usize = 65536;

// A spare area has at most so many bytes behind its first one up to the end of its seal.
const BEHIND: usize = 39;

/// A record that can be read in a dump, whatever its seal. (This project's.)
#[derive(Clone, Copy, Debug, PartialEq, Eq)]
pub struct Legible {
    /// The byte of the dump at which its spare area begins, counted from 0.
    pub at: u64,
    /// What it says.
    pub says: Record,
}

/// The memory of a search for a record. (This project's.)
#[derive(Drop)]
pub struct NearestRoom {
    // the bytes at hand, and those behind them that a spare area may have
    pub(crate) bytes: Vec<u8>,
}

impl NearestRoom {
    ghost use Rattle.std.specs.Prelude.{IfOk};
    ghost use Rattle.lab_dump.specs.Rooms.{IsNearestRoom};

    /// All the memory that a search takes: 65575 bytes, whatever the dump's size.
    ///
    /// # Errors
    ///
    /// Where the growth was refused. (This project's.)
    pub fn new(alloc: Global) -> Result<NearestRoom, AllocError>
        ensures { IfOk result IsNearestRoom }
    {
        Ok(NearestRoom {
            bytes: vec![in alloc; 0; STRIDE + BEHIND]?,
        })
    }
}

/// What a record in the bytes of a dump is: what stands behind a spare area changes nothing of what can be read at its first byte; the nearest one
/// can be read, and no other that can comes before it; and there is none just where none can be read.
pub fn nearest_laws()
    ensures legible { LegibleLaw }
    ensures nearest { NearestLaw }
    ensures none { NoneLegibleLaw }
{}

// Whether a record may begin at a place: a version stands where that of its spare area would.
fn names_version(bytes: &[u8], place: usize) -> bool
    requires { place < length bytes.now }
    ensures { result ≡ false → legible (drop place bytes.now) ≡ None }
{
    let Some(version) = bytes.get(place + 2) else {
        return false;
    };
    *version == 1 || *version == 2
}

// The record that the bytes spell as a spare area that ends with its seal.
fn front_record(bytes: &[u8]) -> Option<Record>
    ensures { result ≡ legible bytes.now }
{
    if bytes.len() < 32 {
        return None;
    }
    let end = 24 + seal_size(bytes[2]);
    if bytes.len() < end {
        return None;
    }
    spelled(&bytes[..end])
}

// Whether it is that of a table page.
fn is_table(found: &Legible) -> bool
    ensures { result ≡ is_table found.now }
{
    matches!(found.says.kind, Kind::Table)
}

// Whether no later one comes before the nearest one so far.
fn is_settled(nearest: &Option<Legible>) -> bool
    ensures { result ≡ is_settled nearest.now }
{
    match nearest {
        Some(best) => is_table(best),
        None => false,
    }
}

// Of the nearest one so far and one at a later byte the nearer one.
fn nearer(nearest: Option<Legible>, next: Legible) -> Legible
    ensures { Some result ≡ nearer nearest (Some next) }
{
    let Some(best) = nearest else {
        return next;
    };
    if is_table(&next) && !is_table(&best) {
        next
    } else {
        best
    }
}

// The nearest one, with what can be read at a place of bytes that begin at a byte of the dump.
fn look(bytes: &[u8], first: u64, place: usize, nearest: Option<Legible>) -> Option<Legible>
    requires within { place < length bytes.now }
    requires fits { first + place < 18446744073709551616 }
    ensures { result ≡ nearer nearest (legible_at (first + place) (legible (drop place bytes.now))) }
{
    match front_record(&bytes[place..]) {
        Some(says) => Some(nearer(
            nearest,
            Legible {
                at: first + place as u64,
                says,
            },
        )),
        None => nearest,
    }
}

// The nearest one, with those that can be read at the first places of bytes that begin at a byte of the dump: the dump ends with them, or a whole spare
// area stands behind the last place.
fn look_through(
    bytes: &[u8],
    first: u64,
    places: usize,
    mut nearest: Option<Legible>,
) -> Option<Legible>
    requires within { places ≤ length bytes.now }
    requires fits { first + places ≤ 18446744073709551615 }
    ensures { (all : List ℕ) → HasBehind all first places bytes.now → nearest ≡ nearest_below all first → result ≡ nearest_below all (first + places) }
{
    for place in 0..places {
        if names_version(bytes, place) {
            nearest = look(bytes, first, place, nearest);
        }
    }
    nearest
}

// The nearest one, with those that can be read at the next bytes of a dump of this size. `bytes` is scratch.
fn look_on<D: Dump>(
    dump: &mut D,
    size: u64,
    first: u64,
    nearest: Option<Legible>,
    bytes: &mut [u8],
) -> Result<Option<Legible>, DumpFault>
    requires before { first < size }
    requires room { length bytes.old ≡ 65575 }
    ensures nearest { IfOk result (λ next. (all : List ℕ) → D.bytes dump.old ≡ Some all → size ≡ length all → nearest ≡ nearest_below all first → next ≡ nearest_below all (first + min (size - first) 65536)) }
    ensures source { OnErr result (D.failed dump.new ≡ true) }
    ensures room { length bytes.new ≡ 65575 }
    ensures same { D.bytes dump.new ≡ D.bytes dump.old }
{
    let left = size - first;
    let window = &mut bytes[..left.min((STRIDE + BEHIND) as u64) as usize];
    dump.read_at(first, window)?;
    let places = window.len().min(STRIDE);
    Ok(look_through(window, first, places, nearest))
}

/// The nearest record that can be read in a dump: of those of table pages the first one, or else the first one at all; none where none can be read. It
/// takes no memory but that of the room. The dump is read in pieces of 65536 bytes, each with the 39 bytes behind it, up to that of the first table page.
///
/// # Errors
///
/// Where the dump's size cannot be known or a read of it fails. (This project's rules.)
pub fn find_nearest<D: Dump>(
    mut room: NearestRoom,
    dump: &mut D,
) -> Result<Option<Legible>, DumpFault>
    requires { IsNearestRoom room }
    ensures nearest { IfOk result (λ nearest. (all : List ℕ) → D.bytes dump.old ≡ Some all → nearest ≡ nearest_of all) }
    ensures source { OnErr result (D.failed dump.new ≡ true) }
    ensures same { D.bytes dump.new ≡ D.bytes dump.old }
{
    let size = dump.size()?;
    let mut nearest = None;
    for stride in 0..size.div_ceil(STRIDE as u64) {
        let first = stride * STRIDE as u64;
        nearest = look_on(dump, size, first, nearest, &mut room.bytes)?;
        if is_settled(&nearest) {
            return Ok(nearest);
        }
    }
    Ok(nearest)
}
