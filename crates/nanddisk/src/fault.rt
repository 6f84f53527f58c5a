//! What an error of the system comes to, or a fault of a part.
ghost use Rattle.std.specs.Prelude.{◌≡◌, ◌≢◌};
ghost use Rattle.std.specs.IoError.{error_kind};

use disk_commands::DiskFileFault;
use part_files::{PartFault, System};
use std::io::{Error, ErrorKind};

/// Why a file was not read, by the system's error, which is noted.
pub fn unread<R>(system: &System<'_, R>, error: Error) -> DiskFileFault
    ensures memory { error_kind error ≡ ErrorKind.OutOfMemory → result ≡ DiskFileFault.OutOfMemory }
    ensures other { error_kind error ≢ ErrorKind.OutOfMemory → result ≡ DiskFileFault.Read }
{
    system.first.note(&error);
    if error.kind() == ErrorKind::OutOfMemory {
        DiskFileFault::OutOfMemory
    } else {
        DiskFileFault::Read
    }
}

/// Why a file was not written.
pub fn unwritten<R>(system: &System<'_, R>, error: Error) -> DiskFileFault
    ensures memory { error_kind error ≡ ErrorKind.OutOfMemory → result ≡ DiskFileFault.OutOfMemory }
    ensures other { error_kind error ≢ ErrorKind.OutOfMemory → result ≡ DiskFileFault.Write }
{
    system.first.note(&error);
    if error.kind() == ErrorKind::OutOfMemory {
        DiskFileFault::OutOfMemory
    } else {
        DiskFileFault::Write
    }
}

/// Why a part was not made or named.
pub fn unmade(fault: PartFault) -> DiskFileFault
    ensures in_use { fault ≡ PartFault.InUse → result ≡ DiskFileFault.InUse }
    ensures exists { fault ≡ PartFault.Exists → result ≡ DiskFileFault.Exists }
    ensures memory { fault ≡ PartFault.OutOfMemory → result ≡ DiskFileFault.OutOfMemory }
    ensures other { fault ≡ PartFault.Failed → result ≡ DiskFileFault.Write }
{
    match fault {
        PartFault::InUse => DiskFileFault::InUse,
        PartFault::Exists => DiskFileFault::Exists,
        PartFault::OutOfMemory => DiskFileFault::OutOfMemory,
        PartFault::Failed => DiskFileFault::Write,
    }
}

/// Why it was not seen what stands at a path.
pub fn unseen(fault: PartFault) -> DiskFileFault
    ensures memory { fault ≡ PartFault.OutOfMemory → result ≡ DiskFileFault.OutOfMemory }
    ensures other { fault ≢ PartFault.OutOfMemory → result ≡ DiskFileFault.Read }
{
    match fault {
        PartFault::OutOfMemory => DiskFileFault::OutOfMemory,
        PartFault::InUse | PartFault::Exists | PartFault::Failed => DiskFileFault::Read,
    }
}
