//! Why a disk did not do what it was asked.
ghost use Rattle.std.specs.Prelude.{◌≡◌};
ghost use Rattle.nbd_stream.specs.Disk.{error_for};

use crate::reply::RequestError;
use thiserror::Error;

/// Why a disk did not do what it was asked. (This project's.)
#[derive(Clone, Copy, Debug, PartialEq, Eq, Error)]
pub enum DiskFault {
    /// A change is no longer taken, and reads go on. The client is told `EPERM`.
    #[error("ReadOnly")]
    ReadOnly,
    /// The disk failed. The client is told `EIO`.
    #[error("Failed")]
    Failed,
    /// A change has no room: on the disk, or in memory. The client is told `ENOSPC`.
    #[error("NoSpace")]
    NoSpace,
}

// What a client is told.
pub(crate) fn error_for(fault: DiskFault) -> RequestError
    ensures { result ≡ error_for fault }
{
    match fault {
        DiskFault::ReadOnly => RequestError::NotPermitted,
        DiskFault::Failed => RequestError::InputOutput,
        DiskFault::NoSpace => RequestError::NoSpace,
    }
}
