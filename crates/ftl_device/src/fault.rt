//! Why a call of the device was refused.
ghost use Rattle.std.specs.Prelude.{◌≡◌};
ghost use Rattle.ftl_device.specs.Calls.{device_fault_number};

use collection::EngineFault;
use image_check::Accepted;
use mapping_cache::LoadFault;
use std::alloc::AllocError;
use thiserror::Error;

/// Why a device was not started. What was handed in comes back, as it was (this project).
#[derive(Drop, Error)]
pub enum StartFault<'a, N> {
    /// A growth was refused.
    #[error("OutOfMemory")]
    OutOfMemory {
        /// The die, of which nothing was asked.
        nand: N,
        /// The accepted certificate.
        accepted: Accepted<'a>,
    },
}

impl<N> StartFault<'_, N> {
    /// The fault's number. (This project.)
    pub fn number(&self) -> u8
        ensures { result ≡ 1 }
    {
        match self {
            StartFault::OutOfMemory { .. } => 1,
        }
    }
}

/// A growth was refused.
#[derive(Clone, Copy, Debug, PartialEq, Eq)]
pub(crate) struct NoMemory;

impl From<AllocError> for NoMemory {
    fn from(_fault: AllocError) -> NoMemory {
        NoMemory
    }
}

impl From<LoadFault> for NoMemory {
    fn from(_fault: LoadFault) -> NoMemory {
        NoMemory
    }
}

/// Why a device refused a command (this project).
#[derive(Clone, Copy, Debug, PartialEq, Eq, Error)]
pub enum DeviceFault {
    /// There is no such sector.
    #[error("OutOfRange")]
    OutOfRange,
    /// Fewer than five blocks are free: good blocks that there are, that the geometry asks for, and
    /// that failed in the call.
    #[error("ReadOnly good {good} need {need} failed {failed}")]
    ReadOnly { good: u32, need: u32, failed: u32 },
    /// The next sequence is 2^64 - 1, the one that no page has.
    #[error("SequenceSpent")]
    SequenceSpent,
    /// A growth was refused.
    #[error("OutOfMemory")]
    OutOfMemory,
    /// A page that was read isn't sound, or not of its key, or names a row that the die doesn't have.
    #[error("Damaged")]
    Damaged,
    /// The die gave no page or no outcome. What it holds is then not known.
    #[error("BusFault")]
    BusFault,
}

impl DeviceFault {
    /// The fault's number, which replies carry. (This project.)
    pub fn number(&self) -> u8
        ensures { result ≡ device_fault_number self.now }
    {
        match self {
            DeviceFault::OutOfRange => 1,
            DeviceFault::ReadOnly { .. } => 2,
            DeviceFault::SequenceSpent => 3,
            DeviceFault::OutOfMemory => 4,
            DeviceFault::Damaged => 5,
            DeviceFault::BusFault => 6,
        }
    }
}

// Why a call that changes a sector stopped short.
#[derive(Clone, Copy, Debug, PartialEq, Eq)]
pub(crate) enum CallFault {
    // The engine's fault.
    Engine(EngineFault),
    // A growth was refused.
    OutOfMemory,
}

impl From<EngineFault> for CallFault {
    ghost use Rattle.std.specs.Prelude.{◌≡◌};
    ghost use Rattle.ftl_device.specs.declared.fault.CallFault.TheVariants.{Engine};

    ghost from_gives = { λ fault its. its ≡ Engine fault };

    fn from(fault: EngineFault) -> CallFault {
        CallFault::Engine(fault)
    }
}

impl From<LoadFault> for CallFault {
    ghost use Rattle.std.specs.Prelude.{◌≡◌};
    ghost use Rattle.ftl_device.specs.declared.fault.CallFault.TheVariants.{OutOfMemory};

    ghost from_gives = { λ _ fault. fault ≡ OutOfMemory };

    fn from(_fault: LoadFault) -> CallFault {
        CallFault::OutOfMemory
    }
}
