//! How many bits of a page a repair may turn.
ghost use Rattle.std.specs.Prelude.{IfOk, IfErr};
ghost use Rattle.lab_commands.specs.Bits.{AreBitsAt, AreNoBits};

use crate::text::LabFault;
use page_layout::geometry::Geometry;
use program_words::number;

// The bytes of a page of which each two bits are tried.
const MOST_BYTES: usize = 600;

/// How many bits of a page may be turned by a word: one where there is none.
pub(crate) fn bits_at<'a>(word: Option<&'a str>, geometry: &Geometry) -> Result<u32, LabFault<'a>>
    ensures ok { IfOk result (AreBitsAt word.entry geometry.now) }
    ensures fault { IfErr result (AreNoBits word.entry geometry.now) }
{
    let Some(word) = word else {
        return Ok(1);
    };
    let Some(bits) = number(word) else {
        return Err(LabFault::BadNumber(word));
    };
    if bits < 1 || bits > 2 {
        return Err(LabFault::BitRange);
    }
    if bits == 2 && geometry.data_bytes() + geometry.spare_bytes() > MOST_BYTES {
        return Err(LabFault::PageSize);
    }
    Ok(bits)
}
