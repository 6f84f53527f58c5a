//! Dies over chips whose reads have wrong bits: each read turns no bit or one of each chunk with its code.
ghost use Rattle.std.specs.Prelude.{◌≡◌, IfOk};

use corrected_nand::{Corrected, ReadErrors};
use noisy_chip::NoisyChip;
use onfi_cycles::Nand;
use page_code::outer_bytes;
use page_layout::geometry::Geometry;
use std::alloc::Global;
use std::test::Fail;

/// The die over a chip over this die.
///
/// # Errors
///
/// A growth was refused, or the spare areas have no room for codes.
pub fn noisy<N: Nand + Drop>(
    alloc: Global,
    nand: N,
    geometry: &Geometry,
) -> Result<Corrected<NoisyChip<N>>, Fail>
    requires { (N.view.flash nand).geometry ≡ geometry.now }
    ensures { IfOk result (λ die. (N.view.flash die.nand.nand).geometry ≡ geometry.now) }
{
    if outer_bytes(geometry) > 256 {
        return Err(Fail::new("no room for codes"));
    }
    let errors = ReadErrors::new(alloc, geometry.blocks())?;
    let chip = NoisyChip::new(nand, *geometry);
    Ok(Corrected::new(chip, *geometry, errors))
}

// Bits were turned back, and the blocks with the most are told just where there are some.
fn is_counted(errors: &ReadErrors) -> bool {
    let lost = errors.lost() > 0;
    errors.turned() > 0 && errors.most_turned().is_some() && errors.most_lost().is_some() == lost
}

/// The die below, of whose pages wrong bits were turned back.
///
/// # Errors
///
/// No bit was turned back, or the counts of blocks are not those of the die.
pub fn quiet<N: Nand + Drop>(die: Corrected<NoisyChip<N>>) -> Result<N, Fail>
    ensures { IfOk result (λ nand. nand ≡ die.nand.nand) }
{
    let (chip, errors) = die.into_parts();
    if !is_counted(&errors) {
        return Err(Fail::new("wrong bits that were not counted"));
    }
    Ok(chip.into_nand())
}
