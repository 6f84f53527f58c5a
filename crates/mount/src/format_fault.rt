//! Why a die is not formatted.
use onfi_cycles::BusFault;
use page_layout::source::SourceFault;
use std::alloc::AllocError;
use thiserror::Error;

/// Why a die wasn't formatted (this project).
#[derive(Clone, Copy, Debug, PartialEq, Eq, Error)]
pub enum FormatFault {
    /// The die has fewer good blocks than it needs.
    #[error("TooFewGood good {good} need {need}")]
    TooFewGood { good: u32, need: u32 },
    /// A page read or a program got no answer.
    #[error("Bus")]
    Bus,
    /// A growth was refused. Nothing was done.
    #[error("OutOfMemory")]
    OutOfMemory,
    /// Three programs failed.
    #[error("WriteFailed")]
    WriteFailed,
    /// The lowest row that keeps the die from being fresh.
    #[error("NotFresh row {row}")]
    NotFresh { row: u32 },
}

impl From<SourceFault> for FormatFault {
    ghost use Rattle.std.specs.Prelude.{◌≡◌};
    ghost use Rattle.mount.specs.declared.format_fault.FormatFault.TheVariants.{Bus};

    ghost from_gives = { λ _ fault. fault ≡ Bus };

    fn from(_fault: SourceFault) -> FormatFault {
        FormatFault::Bus
    }
}

impl From<BusFault> for FormatFault {
    ghost use Rattle.std.specs.Prelude.{◌≡◌};
    ghost use Rattle.mount.specs.declared.format_fault.FormatFault.TheVariants.{Bus};

    ghost from_gives = { λ _ fault. fault ≡ Bus };

    fn from(_fault: BusFault) -> FormatFault {
        FormatFault::Bus
    }
}

impl From<AllocError> for FormatFault {
    ghost use Rattle.std.specs.Prelude.{◌≡◌};
    ghost use Rattle.mount.specs.declared.format_fault.FormatFault.TheVariants.{OutOfMemory};

    ghost from_gives = { λ _ fault. fault ≡ OutOfMemory };

    fn from(_fault: AllocError) -> FormatFault {
        FormatFault::OutOfMemory
    }
}
