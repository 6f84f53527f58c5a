//! The status register.
ghost use Rattle.std.specs.Prelude.{⊤, ◌≡◌, ◌==◌, [], ◌∷◌, codes, IsOk, IsErrOf, ◌≢◌};
ghost use Rattle.std.specs.Int.RustNames.{bit_and};

use crate::{BusFault, Outcome};
use bitflags::{Flag, Flags, bitflag_items};

/// The status byte of a die, bit by bit: not write protected (80h), ready (40h), array ready (20h), the operation before the last
/// one failed (02h), the last one failed (01h). (ONFI 1.0, status register.)
#[derive(Clone, Copy, PartialEq, Eq, Debug)]
pub struct Status(u8);

bitflag_items! {
    impl Status: u8 {
        const WP_OFF = 0x80;
        const READY = 0x40;
        const ARRAY_READY = 0x20;
        const FAILC = 0x02;
        const FAIL = 0x01;
    }
}

impl Flags for Status {
    type Bits = u8;

    ghost exact = { ⊤ };

    ghost table = { (codes "WP_OFF", 0x80) ∷ (codes "READY", 0x40) ∷ (codes "ARRAY_READY", 0x20) ∷ (codes "FAILC", 0x02) ∷ (codes "FAIL", 0x01) ∷ [] };

    ghost set_of = { λ s. s.0 };

    fn flags<'a>() -> &'a [Flag<Status>] {
        Status::FLAGS
    }

    fn bits(&self) -> u8 {
        self.0
    }

    fn from_bits_retain(bits: u8) -> Status {
        Status(bits)
    }
}

impl Outcome {
    ghost use Rattle.onfi_cycles.specs.Outcomes.{outcome_of};

    /// What a status byte says of the last program or erase: `Failed` where FAIL is set, else `Passed`. A byte in which WP_OFF,
    /// READY or ARRAY_READY is 0 is no status of a die that has done an operation, and is answered `Device`, whatever its other
    /// bits. FAILC and the other bits are ignored. (ONFI 1.0, status register; the rule on the upper bits is this project's.)
    pub fn of_status(byte: u8) -> Result<Outcome, BusFault>
        ensures { result ≡ outcome_of byte }
    {
        let status = Status::from_bits_retain(byte);
        let done = Status::WP_OFF
            .union(Status::READY)
            .union(Status::ARRAY_READY);
        if !status.contains(done) {
            return Err(BusFault::Device);
        }
        if status.contains(Status::FAIL) {
            Ok(Outcome::Failed)
        } else {
            Ok(Outcome::Passed)
        }
    }
}
