//! The two streams of a client. Std's readers and writers have no word for a call that failed, nor for what was handed on: here they have.
//! Each reader and each writer of std is one.
use crate::reply::ServeFault;
use crate::transfer::{Filled, fill, send};
use std::io::{Read, Write};

/// What a client sends.
pub trait Incoming: Read {
    ghost use Rattle.std.specs.Prelude.{◌≡◌, ◌≤◌, ◌<◌, true, false, length, take};
    ghost use Rattle.std.specs.Io.KnownBytes.{Consumes, IsAtEnd};

    /// What a fill that failed is: of the reader before, and after.
    ghost fails: { Self → Self → Type 0 };

    /// Fills the buffer, and reads no further. Fewer bytes come where the stream ends or a read fails. (This project's.)
    fn receive(&mut self, buffer: &mut [u8]) -> Filled
        ensures within { result.count ≤ length buffer.new }
        ensures read { Consumes (Self.remaining self.old) (Self.remaining self.new) (take result.count buffer.new) }
        ensures end { result.count < length buffer.new → result.failed ≡ false → IsAtEnd (Self.remaining self.new) }
        ensures failed { result.failed ≡ true → result.count < length buffer.new }
        ensures fails { result.failed ≡ true → fails self.old self.new };
}

impl<R: Read> Incoming for R {
    ghost use Rattle.std.specs.Prelude.{ℕ, List};
    ghost use Rattle.std.specs.Io.KnownBytes.{Consumes};

    ghost fails = { λ old new. (bytes : List ℕ) × Consumes (R.remaining old) (R.remaining new) bytes };

    fn receive(&mut self, buffer: &mut [u8]) -> Filled {
        fill(self, buffer)
    }
}

/// What a client is sent.
pub trait Outgoing: Write {
    ghost use Rattle.std.specs.Prelude.{[], OnErr, OnOk};
    ghost use Rattle.request_stream.specs.Frames.{SendsBytes, SendsLine};

    /// What a call that failed is: of the writer before, and after.
    ghost fails: { Self → Self → Type 0 };

    /// What it is that all was handed on: of the writer before, and after.
    ghost hands: { Self → Self → Type 0 };

    /// Writes the bytes, all of them. They may be held back.
    ///
    /// # Errors
    ///
    /// `Write` where a write failed, was interrupted or took nothing: a beginning of the bytes is out, and never all of them. (This project's.)
    fn put(&mut self, bytes: &[u8]) -> Result<(), ServeFault>
        ensures sends { SendsLine (Self.contents self.old) (Self.contents self.new) bytes.now result }
        ensures fails { OnErr result (fails self.old self.new) };

    /// Hands on what was held back.
    ///
    /// # Errors
    ///
    /// `Write` where that failed. (This project's.)
    fn hand_on(&mut self) -> Result<(), ServeFault>
        ensures sends { SendsBytes (Self.contents self.old) (Self.contents self.new) [] result }
        ensures fails { OnErr result (fails self.old self.new) }
        ensures hands { OnOk result (hands self.old self.new) };
}

impl<W: Write> Outgoing for W {
    ghost use Rattle.std.specs.Prelude.{ℕ, List};
    ghost use Rattle.std.specs.Io.KnownBytes.{Appends, Keeps};

    ghost fails = { λ old new. (bytes : List ℕ) × Appends (W.contents old) (W.contents new) bytes };

    ghost hands = { λ old new. Keeps (W.contents old) (W.contents new) };

    fn put(&mut self, bytes: &[u8]) -> Result<(), ServeFault> {
        send(self, bytes)
    }

    fn hand_on(&mut self) -> Result<(), ServeFault> {
        match self.flush() {
            Ok(()) => Ok(()),
            Err(_) => Err(ServeFault::Write),
        }
    }
}
