//! The readings that a dump was made of, which are read at whatever place.
ghost use Rattle.std.specs.Prelude.{◌≡◌, ◌↔◌, ◌<◌, ℕ, List, Some, true, false, length, get_or, map, IfOk, IfErr, OnOk, OnErr};
ghost use Rattle.lab_dump.specs.Scan.{image_bytes, Tell};
ghost use Rattle.lab_origin.specs.Origin.{has_at};
ghost use Rattle.lab_origin.specs.Tracing.{have_at};
ghost use Rattle.lab_origin.specs.Traced.{NamesOneOfReadings, IsOtherSize, SaysReadingFailed, AreReadingsWhole};

use lab_dump::{Dump, DumpFault};
use page_layout::geometry::Geometry;
use thiserror::Error;

/// Why a reading was not held beside the dump: its number, counted from 0.
#[derive(Clone, Copy, Debug, PartialEq, Eq, Error)]
pub enum ReadingFault {
    /// It has not as many bytes as the die's pages have.
    #[error("reading {0} has not as many bytes as the geometry says")]
    WrongLength(usize),
    /// It could not be read.
    #[error("reading {0} could not be read")]
    Source(usize),
}

// The reading of this number could not be read.
#[derive(Clone, Copy)]
pub(crate) struct Unread {
    pub(crate) reading: usize,
}

// Whether a reading has these bytes from this place on.
fn has_piece<D: Dump>(
    reading: &mut D,
    at: u64,
    piece: &[u8],
    other: &mut [u8],
) -> Result<bool, DumpFault>
    requires { length other.old ≡ length piece.now }
    ensures found { IfOk result (λ found. (all : List ℕ) → D.bytes reading.old ≡ Some all → found ≡ has_at at piece.now all) }
    ensures failed { OnErr result (D.failed reading.new ≡ true) }
    ensures same { D.bytes reading.new ≡ D.bytes reading.old }
    ensures size { length other.new ≡ length other.old }
{
    reading.read_at(at, other)?;
    Ok(*other == *piece)
}

// Whether one of the readings has these bytes from this place on. They are asked in their order, up to the first that has.
pub(crate) fn have_piece<D: Dump>(
    readings: &mut [D],
    at: u64,
    piece: &[u8],
    other: &mut [u8],
) -> Result<bool, Unread>
    requires { length other.old ≡ length piece.now }
    ensures found { IfOk result (λ found. (files : List (List ℕ)) → Tell (map D.bytes readings.old) files → found ≡ have_at at piece.now files) }
    ensures same { map D.bytes readings.new ≡ map D.bytes readings.old }
    ensures size { length other.new ≡ length other.old }
    ensures failed { IfErr result (λ unread. get_or (map D.failed readings.new) unread.reading false ≡ true) }
    ensures reading { IfErr result (λ unread. unread.reading < length readings.old) }
{
    for place in 0..readings.len() {
        match has_piece(&mut readings[place], at, piece, other) {
            Ok(true) => return Ok(true),
            Ok(false) => (),
            Err(_) => return Err(Unread { reading: place }),
        }
    }
    Ok(false)
}

// Whether a dump has as many bytes as the die's pages.
pub(crate) fn is_whole<D: Dump>(dump: &mut D, geometry: &Geometry) -> Result<bool, DumpFault>
    ensures whole { IfOk result (λ whole. (all : List ℕ) → D.bytes dump.old ≡ Some all → (whole ≡ true) ↔ (length all ≡ image_bytes geometry.now)) }
    ensures failed { OnErr result (D.failed dump.new ≡ true) }
    ensures same { D.bytes dump.new ≡ D.bytes dump.old }
{
    let size = u64::from(geometry.rows()) * (geometry.data_bytes() + geometry.spare_bytes()) as u64;
    Ok(dump.size()? == size)
}

// Sees that each reading has.
pub(crate) fn expect_whole<D: Dump>(
    readings: &mut [D],
    geometry: &Geometry,
) -> Result<(), ReadingFault>
    ensures whole { OnOk result ((files : List (List ℕ)) → Tell (map D.bytes readings.old) files → AreReadingsWhole geometry.now files) }
    ensures other { IfErr result (IsOtherSize geometry.now (map D.bytes readings.old)) }
    ensures same { map D.bytes readings.new ≡ map D.bytes readings.old }
    ensures fault { IfErr result (SaysReadingFailed (map D.failed readings.new)) }
    ensures reading { IfErr result (NamesOneOfReadings (length readings.old)) }
{
    for place in 0..readings.len() {
        match is_whole(&mut readings[place], geometry) {
            Ok(true) => (),
            Ok(false) => return Err(ReadingFault::WrongLength(place)),
            Err(_) => return Err(ReadingFault::Source(place)),
        }
    }
    Ok(())
}
