//! The bus of a board whose chip has wrong bits in its reads.
ghost use Rattle.std.specs.Prelude.{◌≡◌, true, false, refl, IfOk};
ghost use Rattle.page_code.specs.Chip.{IsChipOf};

use crate::board::Board;
use crate::failure::Failure;
use corrected_nand::{ChipBus, ChipDriver, Corrected, ReadErrors, die_on_chip};
use nand_die::Die;
use onfi_cycles::{Bus, BusFault};
use page_code::chip::ChipGeometry;
use page_layout::geometry::Geometry;
use std::alloc::Global;

// The least bytes of an area of a page. Fewer bytes are a status, which is right.
const AREA: usize = 35;

/// A board whose chip holds pages with their codes, and puts out each area of a page with one wrong bit.
#[derive(Drop)]
pub struct NoisyBoard {
    board: Board,
    outs: u32,
}

impl Bus for NoisyBoard {
    ghost die = { λ noisy. noisy.board.die.state };

    // What it puts out is not what the protocol says.
    ghost honest = { λ _. false };

    ghost failed = { λ noisy. noisy.board.die.failures };

    fn command(&mut self, code: u8) -> Result<(), BusFault> {
        self.board.command(code)
    }

    fn address(&mut self, byte: u8) -> Result<(), BusFault> {
        self.board.address(byte)
    }

    fn data_in(&mut self, bytes: &[u8]) -> Result<(), BusFault> {
        self.board.data_in(bytes)
    }

    fn data_out(&mut self, bytes: &mut [u8]) -> Result<(), BusFault> {
        let answer = self.board.data_out(bytes);
        if bytes.len() >= AREA {
            let place = self.outs as usize % AREA;
            bytes[place] ^= 1 << (self.outs / 8 % 8);
            self.outs = self
                .outs
                .wrapping_mul(1_664_525)
                .wrapping_add(1_013_904_223);
        }
        answer
    }

    fn failures(&self) -> u64 {
        self.board.failures()
    }
}

impl ChipBus for NoisyBoard {
    ghost use Rattle.firmware.specs.Chip.{no_law};

    // The pages of the chip as they are, and nothing is claimed of them.
    ghost chip = { λ noisy. noisy.board.die.state.flash };

    ghost keeps = { λ _. false };

    ghost steady = { λ _ _ _ _ _ _. (refl, no_law) };

    ghost read = { λ _ _ _ _ kept. no_law kept };

    ghost programmed = { λ _ _ _ _ _ _ kept. no_law kept };

    ghost erased = { λ _ _ _ _ _ kept. no_law kept };
}

// The geometry of the chip.
fn chip_of(geometry: &Geometry) -> Result<ChipGeometry, Failure>
    ensures { IfOk result (λ chip. IsChipOf geometry.now chip.raw) }
{
    match ChipGeometry::of(geometry) {
        Some(chip) => Ok(chip),
        None => Err(Failure::Codes),
    }
}

/// A board with a new chip, whose pages without their codes have this geometry.
///
/// # Errors
///
/// A spare area has no room for codes, or a growth was refused.
pub fn noisy_board(alloc: Global, geometry: &Geometry) -> Result<NoisyBoard, Failure> {
    let chip = chip_of(geometry)?;
    let die = Die::new(alloc, *chip.raw(), &[])?;
    Ok(NoisyBoard {
        board: Board { die },
        outs: 0,
    })
}

/// Sends Reset. What `reset` is for a chip that reads as it was programmed.
///
/// # Errors
///
/// Those of `noisy_board`, or the bus answers no Reset.
pub fn reset_chip<B: ChipBus + Drop>(
    alloc: Global,
    bus: B,
    geometry: Geometry,
) -> Result<Corrected<ChipDriver<B>>, Failure>
    requires raw { B.honest bus ≡ false }
    requires plain { B.keeps bus ≡ false }
    ensures { IfOk result (λ die. die.nand.geometry ≡ geometry) }
{
    let chip = chip_of(&geometry)?;
    let errors = ReadErrors::new(alloc, geometry.blocks())?;
    match die_on_chip(bus, geometry, &chip, errors) {
        Ok(die) => Ok(die),
        Err((_, _, fault)) => Err(Failure::Reset(fault)),
    }
}
