//! The numbers that calls from C are answered with.
ghost use Rattle.std.specs.Prelude.{◌≡◌};
ghost use Rattle.ftl_disk.specs.Numbers.{of_call, of_certificate, of_format, of_geometry, of_power, of_refusal};

use certificate::CertFault;
use device_slot::{CallFault, PowerFault};
use image_check::Refusal;
use mount::FormatFault;
use page_layout::geometry::GeometryFault;

/// Done. 1 to 6 are the faults of the device by their numbers. (This project's, as all these.)
pub(crate) const DONE: u32 = 0;

/// A growth was refused.
pub(crate) const OUT_OF_MEMORY: u32 = 4;

/// The die, or the link to it, failed.
pub(crate) const BUS_FAULT: u32 = 6;

/// The disk has no device.
pub(crate) const NOT_STARTED: u32 = 16;

/// The disk has one.
pub(crate) const STARTED: u32 = 17;

/// The bytes are not as many as they have to be.
pub(crate) const WRONG_SIZE: u32 = 18;

/// The cache has no entry, or more than 65536.
pub(crate) const CACHE: u32 = 37;

/// Whether the pages have codes is said by neither 0 nor 1, or a spare area has no room for codes.
pub(crate) const CODES: u32 = 38;

/// What a call of the device answered.
pub(crate) fn of_call(answer: Result<(), CallFault>) -> u32
    ensures { result ≡ of_call answer }
{
    match answer {
        Ok(()) => DONE,
        Err(CallFault::NotStarted) => NOT_STARTED,
        Err(CallFault::WrongSize) => WRONG_SIZE,
        Err(CallFault::Device(fault)) => fault.number() as u32,
    }
}

/// Which limit the numbers of a die break.
pub(crate) fn of_geometry(fault: GeometryFault) -> u32
    ensures { result ≡ of_geometry fault }
{
    match fault {
        GeometryFault::DataSize => 32,
        GeometryFault::SpareSize => 33,
        GeometryFault::PagesPerBlock => 34,
        GeometryFault::Blocks => 35,
        GeometryFault::Sectors => 36,
    }
}

/// Why a die was not formatted.
pub(crate) fn of_format(fault: FormatFault) -> u32
    ensures { result ≡ of_format fault }
{
    match fault {
        FormatFault::TooFewGood { .. } => 48,
        FormatFault::Bus => BUS_FAULT,
        FormatFault::OutOfMemory => OUT_OF_MEMORY,
        FormatFault::WriteFailed => 49,
        FormatFault::NotFresh { .. } => 50,
    }
}

/// Why the pages of a die, or a certificate of them, were refused.
pub(crate) fn of_refusal(refusal: &Refusal) -> u32
    ensures { result ≡ of_refusal refusal.now }
{
    match refusal {
        Refusal::Source => BUS_FAULT,
        Refusal::OutOfMemory => OUT_OF_MEMORY,
        Refusal::SequenceRepeated { .. } => 64,
        Refusal::NumberRange { .. } => 65,
        Refusal::NotFormatted => 66,
        Refusal::TableDamaged { .. } => 67,
        Refusal::TooStale { .. } => 68,
        Refusal::NextSequence => 69,
        Refusal::GeometryDiffers => 70,
        Refusal::NotNewest { .. } => 71,
        Refusal::NoSuchRecord { .. } => 72,
        Refusal::DirectoryWrong { .. } => 73,
        Refusal::BlockState { .. } => 74,
        Refusal::BadSetWrong { .. } => 75,
        Refusal::LiveWrong { .. } => 76,
        Refusal::WearWrong { .. } => 77,
        Refusal::WrongLength => 78,
    }
}

/// Why a die has no device.
pub(crate) fn of_power<N>(fault: &PowerFault<N>) -> u32
    ensures { result ≡ of_power fault.now }
{
    match fault {
        PowerFault::Refused { refusal, .. } => of_refusal(refusal),
        PowerFault::Start { .. } => OUT_OF_MEMORY,
        PowerFault::Flush { fault, .. } => fault.number() as u32,
    }
}

/// Why bytes are no certificate.
pub(crate) fn of_certificate(fault: CertFault) -> u32
    ensures { result ≡ of_certificate fault }
{
    match fault {
        CertFault::Magic => 80,
        CertFault::Short => 81,
        CertFault::Long => 82,
        CertFault::Limit => 83,
        CertFault::RowRange => 84,
        CertFault::ClassRange => 85,
        CertFault::OutOfMemory => OUT_OF_MEMORY,
    }
}
