//! A dump that can be read at whatever place.
use image_check::DumpFault;

/// The bytes of a dump, which can be read at whatever place.
pub trait Dump {
    ghost use Rattle.std.specs.Prelude.{◌≡◌, ◌+◌, ℕ, Bool, true, List, length, slice_range, IfOk, OnOk, OnErr, Option, Some};

    /// Its bytes, if it tells them. The system's files tell none.
    ghost bytes: { Self → Option (List ℕ) };

    /// Whether it has failed so far. Of the system's files it may be anything.
    ghost failed: { Self → Bool };

    /// How many bytes it has.
    ///
    /// # Errors
    ///
    /// `DumpFault` where that cannot be known.
    fn size(&mut self) -> Result<u64, DumpFault>
        ensures size { IfOk result (λ size. (all : List ℕ) → bytes self.old ≡ Some all → size ≡ length all) }
        ensures failed { OnErr result (failed self.new ≡ true) }
        ensures same { bytes self.new ≡ bytes self.old };

    /// Fills the buffer with the bytes from a place on, counted from 0.
    ///
    /// # Errors
    ///
    /// `DumpFault` where they were not read, as past the last byte. The buffer then holds anything.
    fn read_at(&mut self, at: u64, buffer: &mut [u8]) -> Result<(), DumpFault>
        ensures read { OnOk result ((all : List ℕ) → bytes self.old ≡ Some all → buffer.new ≡ slice_range all at (at + length buffer.new)) }
        ensures failed { OnErr result (failed self.new ≡ true) }
        ensures same { bytes self.new ≡ bytes self.old };
}
