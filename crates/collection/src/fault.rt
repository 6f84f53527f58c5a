//! Why a call of the engine was refused.
ghost use Rattle.std.specs.Prelude.{◌≡◌};
ghost use Rattle.collection.specs.Faults.{engine_fault_number};

use thiserror::Error;

/// Why an operation on the die, or a call of the engine that asks for some, was refused. The first fault of a `put`, `write_back`, `collect`,
/// `step`, `make_room`, `rescue_one`, `next_old`, `renew_at`, `write_sector`, `trim_sector` or `write_table` stands: each of these
/// answers it again from then on, and asks nothing of the die. `row_of_sector`, `read_sector` and
/// `cache_sector` neither note a fault nor heed the one that stands. (This project.)
#[derive(Clone, Copy, Debug, PartialEq, Eq, Error)]
pub enum EngineFault {
    /// There are too few free blocks.
    #[error("ReadOnly")]
    ReadOnly = 2,
    /// The next sequence is 2^64 - 1, the one that no page has.
    #[error("SequenceSpent")]
    SequenceSpent = 3,
    /// A page that was read isn't sound, or not of its key, or names a row that the die doesn't have.
    /// This never comes of an honest die.
    #[error("Damaged")]
    Damaged = 5,
    /// The die answered no outcome. What it holds is then not known.
    #[error("BusFault")]
    Bus = 6,
}

impl EngineFault {
    /// The fault's number among those of a device. (This project.)
    pub fn number(self) -> u8
        ensures { result ≡ engine_fault_number self }
    {
        self as u8
    }
}

/// The name of the fault for the calls that program or erase.
pub type WriteFault = EngineFault;
