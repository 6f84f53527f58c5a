//! A die of one of two kinds.
ghost use Rattle.ftl_disk.specs.Either.{either_view};

use corrected_nand::{ChipDriver, Corrected};
use onfi_cycles::{BusFault, Driver, Nand, Outcome};
use page_layout::source::{PageSource, SourceFault};
use stream_bus::{ChipLink, StreamBus};

/// A die behind a link whose pages read back as they were programmed, or one over a chip there whose reads have wrong bits. It is what the one that
/// it holds is, and honest where that is. (This project's.)
#[derive(Drop)]
pub enum EitherDie<L: ChipLink> {
    /// The first kind.
    Plain(Driver<StreamBus<L>>),
    /// The second.
    Coded(Corrected<ChipDriver<StreamBus<L>>>),
}

impl<L: ChipLink> PageSource for EitherDie<L> {
    ghost view = { either_view L.die L.chip L.honest L.keeps L.called };

    fn read_page(
        &mut self,
        row: u32,
        body: &mut [u8],
        spare: &mut [u8],
    ) -> Result<(), SourceFault> {
        match self {
            EitherDie::Plain(die) => die.read_page(row, body, spare),
            EitherDie::Coded(die) => die.read_page(row, body, spare),
        }
    }

    fn failures(&self) -> u64 {
        match self {
            EitherDie::Plain(die) => die.failures(),
            EitherDie::Coded(die) => die.failures(),
        }
    }
}

impl<L: ChipLink> Nand for EitherDie<L> {
    fn program(&mut self, row: u32, body: &[u8], spare: &[u8]) -> Result<Outcome, BusFault> {
        match self {
            EitherDie::Plain(die) => die.program(row, body, spare),
            EitherDie::Coded(die) => die.program(row, body, spare),
        }
    }

    fn erase(&mut self, block: u32) -> Result<Outcome, BusFault> {
        match self {
            EitherDie::Plain(die) => die.erase(block),
            EitherDie::Coded(die) => die.erase(block),
        }
    }
}
