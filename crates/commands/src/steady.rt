//! A die in memory that is not to stop.
ghost use Rattle.std.specs.Prelude.{◌≡◌, true};
ghost use Rattle.commands.specs.Steady.{is_flawless, is_steady};

use nand_die::Die;
use onfi_cycles::{Bus, BusFault};

/// A die in memory on which no stop and no fault is set, as a bus: its device never fails, and no operation that is due does.
#[derive(Drop)]
pub(crate) struct SteadyDie {
    pub(crate) die: Die,
    ghost steady: { is_steady die ≡ true },
}

impl Bus for SteadyDie {
    ghost die = { λ d. d.die.state };

    ghost honest = { λ _. true };

    ghost failed = { λ _. 0 };

    ghost recorded = { λ d. d.die.recorded };

    // What no call changes: whether it is flawless, so that no operation that is due fails.
    ghost calm = { λ d. is_flawless d.die };

    fn command(&mut self, code: u8) -> Result<(), BusFault> {
        self.die.command(code)
    }

    fn address(&mut self, byte: u8) -> Result<(), BusFault> {
        self.die.address(byte)
    }

    fn data_in(&mut self, bytes: &[u8]) -> Result<(), BusFault> {
        self.die.data_in(bytes)
    }

    fn data_out(&mut self, bytes: &mut [u8]) -> Result<(), BusFault> {
        self.die.data_out(bytes)
    }

    /// None: the device does not fail.
    fn failures(&self) -> u64 {
        0
    }
}
