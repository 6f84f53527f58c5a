//! What a disk answers where the device gave this answer.
ghost use Rattle.std.specs.Prelude.{◌≡◌};
ghost use Rattle.disk_server.specs.Disk.{change_answer, flush_answer, read_answer, rest_answer};

use ftl_device::DeviceFault;
use nbd_stream::DiskFault;

// A read.
pub(crate) fn read_answer(answer: Result<(), DeviceFault>) -> Result<(), DiskFault>
    ensures { result ≡ read_answer answer }
{
    match answer {
        Ok(()) => Ok(()),
        Err(_) => Err(DiskFault::Failed),
    }
}

// A write or a trim.
pub(crate) fn change_answer(answer: Result<(), DeviceFault>) -> Result<(), DiskFault>
    ensures { result ≡ change_answer answer }
{
    match answer {
        Ok(()) => Ok(()),
        Err(DeviceFault::ReadOnly { .. } | DeviceFault::SequenceSpent) => Err(DiskFault::ReadOnly),
        Err(DeviceFault::OutOfMemory) => Err(DiskFault::NoSpace),
        Err(DeviceFault::OutOfRange | DeviceFault::Damaged | DeviceFault::BusFault) => {
            Err(DiskFault::Failed)
        }
    }
}

// A flush: what was answered before stands on the die, where no change is taken any more too.
pub(crate) fn flush_answer(answer: Result<(), DeviceFault>) -> Result<(), DiskFault>
    ensures { result ≡ flush_answer answer }
{
    match answer {
        Ok(()) | Err(DeviceFault::ReadOnly { .. } | DeviceFault::SequenceSpent) => Ok(()),
        Err(
            DeviceFault::OutOfRange
            | DeviceFault::OutOfMemory
            | DeviceFault::Damaged
            | DeviceFault::BusFault,
        ) => Err(DiskFault::Failed),
    }
}

// A rest: a turn that the device refuses and is not stopped by is nothing that failed.
pub(crate) fn rest_answer(answer: Result<(), DeviceFault>) -> Result<(), DiskFault>
    ensures { result ≡ rest_answer answer }
{
    match answer {
        Ok(())
        | Err(
            DeviceFault::ReadOnly { .. }
            | DeviceFault::SequenceSpent
            | DeviceFault::OutOfRange
            | DeviceFault::OutOfMemory,
        ) => Ok(()),
        Err(DeviceFault::Damaged | DeviceFault::BusFault) => Err(DiskFault::Failed),
    }
}
