//! Numbers that a command is given: a sequence, and a sector.
ghost use Rattle.std.specs.Prelude.{◌≡◌, IfOk, IfErr};
ghost use Rattle.lab_commands.specs.Numbers.{IsNoLast, IsNoSector, IsLastAt, IsSectorAt, sequence_of_word};

use crate::text::LabFault;
use page_layout::geometry::Geometry;
use program_words::number;

// The number so far with one more digit.
fn next_value(value: u64, digit: u8) -> Option<u64>
    ensures { result ≡ Rattle.lab_commands.specs.Numbers.sequence_with_digit value digit }
{
    if !digit.is_ascii_digit() {
        return None;
    }
    value.checked_mul(10)?.checked_add(u64::from(digit - b'0'))
}

// The sequence that a word writes: at least one digit, digits alone, below 2^64.
fn sequence_of(word: &str) -> Option<u64>
    ensures { result ≡ sequence_of_word word.now }
{
    let digits = word.as_bytes();
    if digits.is_empty() {
        return None;
    }
    let mut value: u64 = 0;
    for digit in digits {
        value = next_value(value, *digit)?;
    }
    Some(value)
}

/// The last sequence that counts, where a word says one.
pub(crate) fn last_at<'a>(word: Option<&'a str>) -> Result<Option<u64>, LabFault<'a>>
    ensures ok { IfOk result (IsLastAt word.entry) }
    ensures fault { IfErr result (IsNoLast word.entry) }
{
    let Some(word) = word else {
        return Ok(None);
    };
    match sequence_of(word) {
        Some(last) => Ok(Some(last)),
        None => Err(LabFault::BadNumber(word)),
    }
}

/// The sector that a word says, of a die of this geometry.
pub(crate) fn sector_at<'a>(word: &'a str, geometry: &Geometry) -> Result<u32, LabFault<'a>>
    ensures ok { IfOk result (IsSectorAt word.now geometry.now) }
    ensures fault { IfErr result (IsNoSector word.now geometry.now) }
{
    let Some(sector) = number(word) else {
        return Err(LabFault::BadNumber(word));
    };
    if sector < geometry.sectors() {
        Ok(sector)
    } else {
        Err(LabFault::SectorRange)
    }
}
