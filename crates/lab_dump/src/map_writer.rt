//! What a map is printed to.
use std::fmt::Display;
use std::io::Write;
use thiserror::Error;

/// A line was not printed.
#[derive(Clone, Copy, Debug, PartialEq, Eq, Error)]
#[error("a line of the map could not be printed")]
pub struct LineFault;

/// What a map is printed to, line by line. (This project's.)
pub trait MapWriter {
    ghost use Rattle.std.specs.Prelude.{◌≡◌, ℕ, Bool, true, List, Option, IfSome, OnOk, OnErr};
    ghost use Rattle.std.specs.Fmt.{with_newline};
    ghost use Rattle.std.specs.Io.KnownBytes.{Appends};

    /// The bytes that it holds, where they are known.
    ghost contents: { Self → Option (List ℕ) };

    /// Whether a line was not printed to it so far.
    ghost failed: { Self → Bool };

    /// Prints a line, and a line feed behind it.
    ///
    /// # Errors
    ///
    /// `LineFault` where it could not be printed: a beginning of it may stand there. (This project's.)
    fn line<D: Display + Drop>(&mut self, line: D) -> Result<(), LineFault>
        ensures printed { OnOk result (IfSome (with_newline (D.output line)) (Appends (contents self.old) (contents self.new))) }
        ensures failed { OnErr result (failed self.new ≡ true) };
}

/// Bytes in memory, of which a line fails for want of memory alone.
impl MapWriter for Vec<u8> {
    ghost use Rattle.std.specs.Prelude.{Some, true};

    ghost contents = { λ bytes. Some bytes.items };

    ghost failed = { λ _. true };

    fn line<D: Display + Drop>(&mut self, line: D) -> Result<(), LineFault> {
        match writeln!(self, "{line}") {
            Ok(()) => Ok(()),
            Err(_) => Err(LineFault),
        }
    }
}
