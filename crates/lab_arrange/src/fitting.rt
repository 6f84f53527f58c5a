//! Whether a die can stand in an arrangement.
ghost use Rattle.std.specs.Prelude.{OnOk, IfErr};
ghost use Rattle.lab_arrange.specs.Place.{IsFitting, IsUnfit};

use crate::arrangement::Arrangement;
use crate::places::image_bytes;
use page_layout::geometry::Geometry;

/// Why no die of a geometry stands in an arrangement.
#[derive(Clone, Copy, Debug, PartialEq, Eq)]
pub enum UnfitFault {
    /// The pages of two planes stand in turns, and the die has an odd number of blocks.
    OddBlocks,
    /// More bytes were cut off than its pages have.
    CutRange,
}

/// Whether a die of this geometry can stand in this arrangement.
///
/// # Errors
///
/// `OddBlocks` where it has two planes and an odd number of blocks; else `CutRange` where more bytes were cut off than its pages have.
///
/// (This project's rules.)
pub fn fit_arrangement(geometry: &Geometry, arrangement: &Arrangement) -> Result<(), UnfitFault>
    ensures ok { OnOk result (IsFitting geometry.now arrangement.now) }
    ensures err { IfErr result (IsUnfit geometry.now arrangement.now) }
{
    if arrangement.planes && geometry.blocks() % 2 == 1 {
        return Err(UnfitFault::OddBlocks);
    }
    if u64::from(arrangement.cut.unwrap_or(0)) > image_bytes(geometry) {
        return Err(UnfitFault::CutRange);
    }
    Ok(())
}
