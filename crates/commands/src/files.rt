//! Where a command's files come from, and where they are stored.
use std::io::Read;
use thiserror::Error;

/// Why a file was not read or written. (This project's.)
#[derive(Clone, Copy, Debug, PartialEq, Eq, Error)]
pub enum FileFault {
    /// The file could not be read or written. Of one that was being written nothing is promised.
    #[error("a file could not be read or written")]
    Failed,
    /// A growth was refused: of a file that was read, or before any byte was written.
    #[error("out of memory")]
    OutOfMemory,
}

/// The files that the words name, by their paths as written: those of the system, or some in memory. (This project's.)
pub trait FileStore {
    ghost use Rattle.std.specs.Prelude.{◌≡◌, [], ◌∷◌, Bool, List, ℕ, Option, Result, Ok, Err, IfOk, IfErr};
    ghost use Rattle.commands.specs.declared.files.FileFault.{FileFault};
    ghost use Rattle.commands.specs.Files.{IsOpened, Stored, TakenFile, loaded_file, opened_file, stores_after, with_taken};

    /// What reads a file piece by piece.
    type Reader: Read + Drop;

    /// What a load of a path may answer, and what its reader may give: the file's bytes, or a fault. Of the
    /// system's files nothing is known, so there it is anything.
    ghost gives: { Self → List ℕ → Result (List ℕ) FileFault → Type 0 };

    /// Whether each reader that it opens tells its bytes: those of the system's files don't, those of files in memory do.
    ghost tells: { Self → Bool };

    /// The files that it was asked to store so far, in order. Of the system's files it isn't known.
    ghost stores: { Self → Option (List Stored) };

    /// The files that it was asked for so far, in order, whether they could be read or not: to be loaded whole, or to be read piece by
    /// piece. Of the system's files it isn't known.
    ghost taken: { Self → Option (List TakenFile) };

    /// The bytes of a file, whole.
    ///
    /// # Errors
    ///
    /// `Failed` where the file cannot be read, `OutOfMemory` where a growth was refused. Every file is as
    /// it was.
    fn load(&mut self, path: &str) -> Result<Vec<u8>, FileFault>
        ensures bytes { IfOk result (λ found. gives self.old path.now (Ok found.items)) }
        ensures fault { IfErr result (λ fault. gives self.old path.now (Err fault)) }
        ensures same { (at : List ℕ) (answer : Result (List ℕ) FileFault) → gives self.new at answer → gives self.old at answer }
        ensures stores { stores self.new ≡ stores self.old }
        ensures taken { taken self.new ≡ with_taken (taken self.old) (loaded_file path.now ∷ []) };

    /// A reader of a file, from its first byte on. Where it tells its bytes they are the file's, and where the store
    /// `tells` it tells them.
    ///
    /// # Errors
    ///
    /// `Failed` where the file cannot be read, `OutOfMemory` where a growth was refused. Every file is as
    /// it was.
    fn open(&mut self, path: &str) -> Result<Self::Reader, FileFault>
        ensures bytes { IfOk result (λ reader. IsOpened (gives self.old) (tells self.old) path.now (Self.Reader.remaining reader)) }
        ensures fault { IfErr result (λ fault. gives self.old path.now (Err fault)) }
        ensures same { (at : List ℕ) (answer : Result (List ℕ) FileFault) → gives self.new at answer → gives self.old at answer }
        ensures stores { stores self.new ≡ stores self.old }
        ensures taken { taken self.new ≡ with_taken (taken self.old) (opened_file path.now ∷ []) };

    /// Writes a file, whole.
    ///
    /// # Errors
    ///
    /// `Failed` where the file cannot be written, and then nothing is promised of it. `OutOfMemory` where
    /// a growth was refused before any byte was written.
    fn store(&mut self, path: &str, bytes: &[u8]) -> Result<(), FileFault>
        ensures stores { stores self.new ≡ stores_after (stores self.old) path.now bytes.now result }
        ensures taken { taken self.new ≡ taken self.old };
}
