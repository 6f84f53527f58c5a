//! Why no file was made of a dump.
ghost use Rattle.std.specs.Prelude.{◌≡◌};

use crate::pass::PassFault;
use thiserror::Error;

/// Why no file of sectors or of pages was made of a dump.
#[derive(Clone, Copy, Debug, PartialEq, Eq, Error)]
pub enum MakeFault {
    /// The dump has not as many bytes as the die's pages have.
    #[error("the dump has not as many bytes as the geometry says")]
    WrongLength,
    /// A read of the dump failed, or was interrupted.
    #[error("the dump could not be read")]
    Source,
    /// A sector or a page could not be written.
    #[error("a sector or a page could not be written")]
    Target,
}

impl From<PassFault> for MakeFault {
    ghost use Rattle.lab_dump.specs.Unmade.{make_fault_of};

    ghost from_gives = { λ scan fault. fault ≡ make_fault_of scan };

    fn from(fault: PassFault) -> MakeFault {
        match fault {
            PassFault::WrongLength => MakeFault::WrongLength,
            PassFault::Source => MakeFault::Source,
            PassFault::Stopped => MakeFault::Target,
        }
    }
}
