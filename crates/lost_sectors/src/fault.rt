//! Why it was not found which sectors are lost.
ghost use Rattle.std.specs.Prelude.{◌≡◌};

use file_die::StoreFault;
use std::alloc::AllocError;
use thiserror::Error;

/// Why it was not found which sectors are lost. (This project's.)
#[derive(Clone, Copy, Debug, PartialEq, Eq, Error)]
pub enum LostFault {
    /// A growth was refused; the store was not asked.
    #[error("OutOfMemory")]
    OutOfMemory,
    /// A load of the store failed.
    #[error("Store")]
    Store,
}

impl From<StoreFault> for LostFault {
    ghost use Rattle.lost_sectors.specs.declared.fault.LostFault.TheVariants.{Store};

    ghost from_gives = { λ _ fault. fault ≡ Store };

    fn from(_fault: StoreFault) -> LostFault {
        LostFault::Store
    }
}

impl From<AllocError> for LostFault {
    ghost use Rattle.lost_sectors.specs.declared.fault.LostFault.TheVariants.{OutOfMemory};

    ghost from_gives = { λ _ fault. fault ≡ OutOfMemory };

    fn from(_fault: AllocError) -> LostFault {
        LostFault::OutOfMemory
    }
}
