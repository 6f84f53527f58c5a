//! What lines are written to.
use request_stream::send;
use std::io::Write;
use thiserror::Error;

/// A write failed, was interrupted or took nothing. (This project's.)
#[derive(Clone, Copy, Debug, PartialEq, Eq, Error)]
#[error("a line could not be written")]
pub struct OutputFault;

/// What lines are written to: standard output, standard error, or bytes in memory. (This project's.)
pub trait Output {
    ghost use Rattle.std.specs.Prelude.{◌≡◌, ℕ, List, Option, Bool, true, OnErr};
    ghost use Rattle.lab_commands.specs.Output.{AppendsAllOrPart};

    /// The bytes that it holds, where they are known.
    ghost contents: { Self → Option (List ℕ) };

    /// Whether a write to it has failed so far. Of the system's it may be anything.
    ghost failed: { Self → Bool };

    /// Writes bytes, all of them.
    fn put(&mut self, bytes: &[u8]) -> Result<(), OutputFault>
        ensures bytes { AppendsAllOrPart (contents self.old) (contents self.new) bytes.now result }
        ensures failed { OnErr result (failed self.new ≡ true) };
}

/// A writer of the standard library, of whose failures nothing is known.
#[derive(Drop)]
pub struct OutputStream<W> {
    writer: W,
}

impl<W: Write> OutputStream<W> {
    ghost use Rattle.std.specs.Prelude.{◌≡◌};

    /// One of this writer.
    pub fn new(writer: W) -> OutputStream<W>
        ensures { result.writer ≡ writer }
    {
        OutputStream { writer }
    }
}

impl<W: Write> Output for OutputStream<W> {
    ghost use Rattle.std.specs.Prelude.{true};

    ghost contents = { λ stream. W.contents stream.writer };

    ghost failed = { λ _. true };

    fn put(&mut self, bytes: &[u8]) -> Result<(), OutputFault> {
        match send(&mut self.writer, bytes) {
            Ok(()) => Ok(()),
            Err(_) => Err(OutputFault),
        }
    }
}

/// Bytes in memory, of which a write fails for want of memory alone.
impl Output for Vec<u8> {
    ghost use Rattle.std.specs.Prelude.{Some, true};

    ghost contents = { λ bytes. Some bytes.items };

    ghost failed = { λ _. true };

    fn put(&mut self, bytes: &[u8]) -> Result<(), OutputFault> {
        match send(self, bytes) {
            Ok(()) => Ok(()),
            Err(_) => Err(OutputFault),
        }
    }
}
