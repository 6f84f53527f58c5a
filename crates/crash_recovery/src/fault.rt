//! Why nothing was taken away, or not all.
ghost use Rattle.std.specs.Prelude.{◌≡◌};

use file_die::StoreFault;
use std::alloc::AllocError;
use thiserror::Error;

/// Why the blocks of a store were not cut back, or not all of them. (This project's.)
#[derive(Clone, Copy, Debug, PartialEq, Eq, Error)]
pub enum RecoveryFault {
    /// A growth was refused; the store's pages are as they were.
    #[error("OutOfMemory")]
    OutOfMemory,
    /// A load, a put, a clear or a sync of the store failed.
    #[error("Store")]
    Store,
}

impl From<StoreFault> for RecoveryFault {
    ghost use Rattle.crash_recovery.specs.declared.fault.RecoveryFault.TheVariants.{Store};

    ghost from_gives = { λ _ fault. fault ≡ Store };

    fn from(_fault: StoreFault) -> RecoveryFault {
        RecoveryFault::Store
    }
}

impl From<AllocError> for RecoveryFault {
    ghost use Rattle.crash_recovery.specs.declared.fault.RecoveryFault.TheVariants.{OutOfMemory};

    ghost from_gives = { λ _ fault. fault ≡ OutOfMemory };

    fn from(_fault: AllocError) -> RecoveryFault {
        RecoveryFault::OutOfMemory
    }
}
