//! Why bytes are no certificate, or why one was not written.
ghost use Rattle.std.specs.Prelude.{◌≡◌};
ghost use Rattle.certificate.specs.declared.fault.CertFault.TheVariants.{OutOfMemory};

use std::alloc::AllocError;
use thiserror::Error;

/// Why bytes are no certificate, or why one was not written. Source: this project.
#[derive(Clone, Copy, Debug, PartialEq, Eq, Error)]
pub enum CertFault {
    /// The first eight bytes are not `DFTLCRT1`.
    #[error("Magic")]
    Magic,
    /// The bytes end within the first eight, within the head of forty, or before all that the head promises.
    #[error("Short")]
    Short,
    /// Bytes follow all that the head promises.
    #[error("Long")]
    Long,
    /// The head's numbers are no geometry, or the capacity is not from 1 to 65536.
    #[error("Limit")]
    Limit,
    /// A row is neither a row of the die nor FFFFFFFFh.
    #[error("RowRange")]
    RowRange,
    /// A block has a class above 5.
    #[error("ClassRange")]
    ClassRange,
    /// There was no memory for the result.
    #[error("OutOfMemory")]
    OutOfMemory,
}

impl CertFault {
    ghost use Rattle.std.specs.Prelude.{◌≡◌};
    ghost use Rattle.certificate.specs.Faults.{certificate_words};

    /// The fault's number and its name, as a program's line says them. (This project's.)
    pub fn words(self) -> &'static str
        ensures { result.now ≡ certificate_words self }
    {
        match self {
            CertFault::Magic => "1 Magic",
            CertFault::Short => "2 Short",
            CertFault::Long => "3 Long",
            CertFault::Limit => "4 Limit",
            CertFault::RowRange => "5 RowRange",
            CertFault::ClassRange => "6 ClassRange",
            CertFault::OutOfMemory => "7 OutOfMemory",
        }
    }
}

impl From<AllocError> for CertFault {
    ghost from_gives = { λ _ fault. fault ≡ OutOfMemory };

    fn from(_error: AllocError) -> CertFault {
        CertFault::OutOfMemory
    }
}
