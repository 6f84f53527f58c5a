//! A dump that is read from its first byte on.
use std::io::Read;
use thiserror::Error;

/// A dump was not read.
#[derive(Clone, Copy, Debug, PartialEq, Eq, Error)]
#[error("the dump could not be read")]
pub struct DumpFault;

/// The bytes of a dump, from the first one on.
pub trait DumpReader {
    ghost use Rattle.std.specs.Prelude.{◌≡◌, ℕ, Bool, true, List, OnErr, Option};
    ghost use Rattle.std.specs.Io.{ReadsAtMost};
    ghost use Rattle.std.specs.Io.KnownBytes.{ReadConsumes};

    /// The bytes that reads will give from here on, where they are known. Of the system's files they aren't.
    ghost remaining: { Self → Option (List ℕ) };

    /// Whether it has failed so far. Of the system's files it may be anything.
    ghost failed: { Self → Bool };

    /// Reads some of the next bytes to the front of the buffer, and answers how many: of a buffer that is not empty none only where no byte is
    /// left.
    ///
    /// # Errors
    ///
    /// `DumpFault` where a read failed or was interrupted. No byte was taken then, and the buffer holds anything.
    fn read(&mut self, buffer: &mut [u8]) -> Result<usize, DumpFault>
        ensures bound { ReadsAtMost result buffer.new }
        ensures bytes { ReadConsumes (remaining self.old) (remaining self.new) result buffer.new }
        ensures failed { OnErr result (failed self.new ≡ true) };
}

/// Whatever the standard library reads from. It does not tell whether it has failed.
impl<R: Read> DumpReader for R {
    ghost use Rattle.std.specs.Prelude.{true};

    ghost remaining = { R.Read.remaining };

    ghost failed = { λ _. true };

    fn read(&mut self, buffer: &mut [u8]) -> Result<usize, DumpFault> {
        Read::read(self, buffer).map_err(|_| DumpFault)
    }
}
