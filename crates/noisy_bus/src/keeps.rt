//! The bus keeps the law of a chip's bus.
use crate::bus::NoisyBus;
use corrected_nand::{ChipBus, NoisyNand};

impl<N: NoisyNand> ChipBus for NoisyBus<N> {
    ghost use Rattle.noisy_bus.specs.Keeps.{keeps_steady, keeps_read, keeps_programmed, keeps_erased};

    // Its chip, without the codes.
    ghost chip = { λ b. N.flash b.nand };

    // It keeps the law where its chip does.
    ghost keeps = { λ b. N.honest b.nand };

    ghost steady = { keeps_steady N.flash N.honest N.failed };

    ghost read = { keeps_read N.flash N.honest N.failed };

    ghost programmed = { keeps_programmed N.flash N.honest N.failed };

    ghost erased = { keeps_erased N.flash N.honest N.failed };
}
