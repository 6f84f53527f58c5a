//! A file of bytes.
ghost use Rattle.std.specs.Prelude.{◌≡◌};
ghost use Rattle.std.specs.IoError.{error_kind};
ghost use Rattle.file_die.specs.Bytes.{fault_of};

use std::fs::File;
use std::io;
use std::os::unix::fs::FileExt;
use thiserror::Error;

/// Why a call of a file failed. (This project's.)
#[derive(Clone, Copy, Debug, PartialEq, Eq, Error)]
pub enum ByteFault {
    /// The call was interrupted, and may be made again.
    #[error("Interrupted")]
    Interrupted,
    /// There is no room for what was to be written.
    #[error("NoSpace")]
    NoSpace,
    /// Anything else.
    #[error("Other")]
    Other,
}

// What an error of the system comes to.
fn byte_fault(error: io::Error) -> ByteFault
    ensures { result ≡ fault_of (error_kind error) }
{
    match error.kind() {
        io::ErrorKind::Interrupted => ByteFault::Interrupted,
        io::ErrorKind::StorageFull | io::ErrorKind::QuotaExceeded => ByteFault::NoSpace,
        _ => ByteFault::Other,
    }
}

impl From<io::Error> for ByteFault {
    fn from(error: io::Error) -> ByteFault {
        byte_fault(error)
    }
}

/// A file of bytes, and what these would be if the power went now. (This project's.)
///
/// **What a file has to keep** is said of an honest one, for good or not at all. It gives back what was written; a write that fails leaves each byte as it
/// was or as it was to be, and changes no other; and a sync holds, where none before it failed. Of one that is not honest nothing is known.
///
/// No contract can name what a file of the system holds: `File` is not honest, and its four bodies are all that is believed of it.
pub trait ByteFile {
    ghost use Rattle.std.specs.Prelude.{◌≡◌, ◌≤◌, ℕ, Bool, true, List, length, Result, IfErr, IfOk, is_ok};
    ghost use Rattle.page_layout.specs.Page.{Page};
    ghost use Rattle.file_die.specs.declared.bytes.ByteFault.{ByteFault};
    ghost use Rattle.file_die.specs.Bytes.{Bytes, HoldsOnlyBytes, ReadsBytes, WritesBytes, SyncsBytes, KeepsTold, over, given_by};

    /// What it holds.
    ghost held: { Self → Bytes };

    /// Whether it keeps what it is given.
    ghost honest: { Self → Bool };

    /// Whether a row that was torn tells itself, where rows have so many bytes and are read so: that a checksum tells it is believed of the bytes that a
    /// loss of power leaves, and no file can say it.
    ghost tells: { Self → ℕ → (List ℕ → Page) → Bool };

    /// That one read, in this state, from this place on and with room for so many bytes, was answered so and left that state: it gave these bytes, or failed.
    /// A file says here of its reads what it likes; what is proved of a store over any file, it does by these very reads.
    ghost gave: { Self → ℕ → ℕ → Result (List ℕ) ByteFault → Self → Type 0 };

    /// That one write, in this state and of these bytes from this place on, was answered so and left that state. A file says here of its writes what it likes.
    ghost wrote: { Self → ℕ → List ℕ → Result ℕ ByteFault → Self → Type 0 };

    /// That a sync in this state, or the telling of its length, failed so and left that state. A file says here of these what it likes.
    ghost refused: { Self → ByteFault → Self → Type 0 };

    /// Reads bytes from a place on, and says how many: as many as there is room for, or fewer.
    ///
    /// # Errors
    ///
    /// The file's own: the buffer holds anything.
    fn read_at(&mut self, to: &mut [u8], at: u64) -> Result<usize, ByteFault>
        ensures bound { IfOk result (λ n. n ≤ length to.new) }
        ensures gave { gave self.old at (length to.old) (given_by result to.new) self.new }
        ensures reads { honest self.old ≡ true → ReadsBytes (held self.old) at result to.new (held self.new) }
        ensures honest { honest self.new ≡ honest self.old }
        ensures tells { (size : ℕ) (reads : List ℕ → Page) → tells self.new size reads ≡ tells self.old size reads };

    /// Writes bytes from a place on that is not past the end, and says how many: all, or only the first of them.
    ///
    /// # Errors
    ///
    /// The file's own: each byte is as it was or as it was to be.
    fn write_at(&mut self, bytes: &[u8], at: u64) -> Result<usize, ByteFault>
        ensures bound { IfOk result (λ n. n ≤ length bytes.now) }
        ensures wrote { wrote self.old at bytes.now result self.new }
        ensures writes { honest self.old ≡ true → at ≤ length (held self.old).bytes → WritesBytes (held self.old) at bytes.now result (held self.new) }
        ensures told { honest self.old ≡ true → at ≤ length (held self.old).bytes → (size : ℕ) (reads : List ℕ → Page) → tells self.old size reads ≡ true →
            KeepsTold size reads (over at bytes.now (held self.old).bytes) (held self.old) (held self.new) }
        ensures honest { honest self.new ≡ honest self.old }
        ensures tells { (size : ℕ) (reads : List ℕ → Page) → tells self.new size reads ≡ tells self.old size reads };

    /// Makes all bytes last.
    ///
    /// # Errors
    ///
    /// The file's own: the bytes are as they were, and may not all last, whatever a later sync says.
    fn sync(&mut self) -> Result<(), ByteFault>
        ensures refused { IfErr result (λ why. refused self.old why self.new) }
        ensures settles { honest self.old ≡ true → SyncsBytes (held self.old) (is_ok result) (held self.new) }
        ensures told { honest self.old ≡ true → (size : ℕ) (reads : List ℕ → Page) → tells self.old size reads ≡ true →
            KeepsTold size reads (held self.old).bytes (held self.old) (held self.new) }
        ensures honest { honest self.new ≡ honest self.old }
        ensures tells { (size : ℕ) (reads : List ℕ → Page) → tells self.new size reads ≡ tells self.old size reads };

    /// How many bytes it has.
    ///
    /// # Errors
    ///
    /// The file's own.
    fn length(&mut self) -> Result<u64, ByteFault>
        ensures refused { IfErr result (λ why. refused self.old why self.new) }
        ensures length { honest self.old ≡ true → IfOk result (λ n. n ≡ length (held self.old).bytes) }
        ensures bytes { honest self.old ≡ true → HoldsOnlyBytes (held self.old) }
        ensures same { honest self.old ≡ true → held self.new ≡ held self.old }
        ensures honest { honest self.new ≡ honest self.old }
        ensures tells { (size : ℕ) (reads : List ℕ → Page) → tells self.new size reads ≡ tells self.old size reads };
}

impl ByteFile for File {
    ghost use Rattle.std.specs.Prelude.{false, [], ⊤};
    ghost use Rattle.file_die.specs.Bytes.{Bytes};

    ghost held = { λ _. record { bytes = []; durable = []; failed_syncs = 0 } };

    ghost honest = { λ _. false };

    ghost tells = { λ _ _ _. false };

    ghost gave = { λ _ _ _ _ _. ⊤ };

    ghost wrote = { λ _ _ _ _ _. ⊤ };

    ghost refused = { λ _ _ _. ⊤ };

    fn read_at(&mut self, to: &mut [u8], at: u64) -> Result<usize, ByteFault> {
        Ok(FileExt::read_at(self, to, at)?)
    }

    fn write_at(&mut self, bytes: &[u8], at: u64) -> Result<usize, ByteFault> {
        Ok(FileExt::write_at(self, bytes, at)?)
    }

    fn sync(&mut self) -> Result<(), ByteFault> {
        Ok(self.sync_data()?)
    }

    fn length(&mut self) -> Result<u64, ByteFault> {
        Ok(self.metadata()?.len())
    }
}
