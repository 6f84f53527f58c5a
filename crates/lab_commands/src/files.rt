//! Where a dump comes from, and where a file of sectors or pages is put.
use lab_dump::{DamagedTarget, Dump, DumpReader, LineFault, MapWriter, PageTarget, Pieces};
use lab_mend::Watch;
use thiserror::Error;

/// A file was not read, asked about, written or put in its place.
#[derive(Clone, Copy, Debug, PartialEq, Eq, Error)]
pub enum LabFileFault {
    /// The system refused it.
    #[error("a file could not be read or written")]
    Failed,
    /// A growth was refused.
    #[error("out of memory")]
    OutOfMemory,
}

/// A file was not put in its place.
#[derive(Clone, Copy, Debug, PartialEq, Eq, Error)]
pub enum KeepFault {
    /// Another program gave the name to a file meanwhile, which is not to be replaced.
    #[error("there is such a file meanwhile")]
    Taken,
    /// A call failed.
    #[error("a file could not be put in its place")]
    Fails(LabFileFault),
}

/// What stands at a path.
#[derive(Clone, Copy, Debug, PartialEq, Eq)]
pub enum Standing {
    /// Nothing.
    Nothing,
    /// A file, or a link to one.
    File,
    /// A folder, a device, a pipe, a link to one of these or to nothing.
    Other,
}

/// Whether a file shows how far it was read. (This project's.)
#[derive(Clone, Copy, Debug, PartialEq, Eq)]
pub enum Progress {
    /// It does not.
    Hidden,
    /// It does where somebody looks.
    IfWatched,
    /// It does.
    Shown,
}

/// A map that is to be stored: it is printed line by line, and never held. (This project's.)
pub trait MapText {
    ghost use Rattle.std.specs.Prelude.{◌≡◌, ℕ, List, true, OnOk, OnErr};
    ghost use Rattle.std.specs.Io.KnownBytes.{Appends};

    /// Its bytes.
    ghost text: { Self → List ℕ };

    /// What it takes to print it.
    ghost whole: { Self → Type 0 };

    /// Prints it.
    ///
    /// # Errors
    ///
    /// `LineFault` where a line could not be printed: a beginning of the map may stand there. (This project's.)
    fn print<W: MapWriter>(&self, out: &mut W) -> Result<(), LineFault>
        requires { whole self.now }
        ensures printed { OnOk result (Appends (W.contents out.old) (W.contents out.new) (text self.now)) }
        ensures failed { OnErr result (W.failed out.new ≡ true) };
}

/// The files that the words name, by their paths as written: those of the system, or some in memory.
pub trait LabFiles {
    ghost use Rattle.std.specs.Prelude.{◌≡◌, List, [], ◌∷◌, ℕ, suc, Option, Some, true, Result, IfOk, IfErr, IfSome, option_map, replicate};
    ghost use Rattle.lab_commands.specs.Files.{AnswersNoMore, IsAsPut, IsFileOpened, IsFrontOfFile, IsFileUnkept, Store, StoreAnswers, files_kept_after, made_after, without_part};

    /// What reads a file piece by piece.
    type Reader: DumpReader + Drop;

    /// A dump that can be read at whatever place.
    type Dump: Dump + Drop;

    /// A file of sectors or of pages that is being written.
    type Target: DamagedTarget + PageTarget + Drop;

    /// What is told while the pairs of bits of a page are tried.
    type Watch: Watch + Drop;

    /// What it may answer. Of the system's files it may be anything.
    ghost answers: { Self → StoreAnswers };

    /// The files that were put in their places so far, in order, and how many more that were made stand beside theirs. Of the system's files it
    /// isn't known.
    ghost kept: { Self → Option Store };

    /// How many times it was asked to open a file to be read so far. Of the system's files it isn't known.
    ghost opened: { Self → Option ℕ };

    /// What stands at this path.
    fn standing(&mut self, path: &str) -> Result<Standing, LabFileFault>
        ensures said { IfOk result ((answers self.old).says path.now) }
        ensures failed { IfErr result ((answers self.old).fails path.now) }
        ensures same { self.new ≡ self.old };

    /// Whether two paths name one file, which need not be there.
    fn is_same(&mut self, first: &str, second: &str) -> Result<bool, LabFileFault>
        ensures said { IfOk result ((answers self.old).says_same first.now second.now) }
        ensures failed { IfErr result ((answers self.old).fails first.now) }
        ensures same { self.new ≡ self.old };

    /// A reader of a file, from its first byte on: of one that was put in its place, of what was put there last. No file is changed.
    fn open(&mut self, path: &str, progress: Progress) -> Result<Self::Reader, LabFileFault>
        ensures bytes { IfOk result (λ reader. IsFileOpened (answers self.old) path.now (Self.Reader.remaining reader)) }
        ensures as_put { IfOk result (λ reader. IsAsPut (kept self.old) path.now (Self.Reader.remaining reader)) }
        ensures fails { (reader : Self.Reader) → Self.Reader.failed reader ≡ true → (answers self.old).reads_fail }
        ensures failed { IfErr result ((answers self.old).fails path.now) }
        ensures no_more { AnswersNoMore (answers self.old) (answers self.new) }
        ensures kept { kept self.new ≡ kept self.old }
        ensures opened { opened self.new ≡ option_map suc (opened self.old) };

    /// The first bytes of a file, at most so many. No file is changed.
    fn load(&mut self, path: &str, most: u64) -> Result<Vec<u8>, LabFileFault>
        ensures bytes { IfOk result (λ bytes. IsFrontOfFile (answers self.old) path.now most bytes.items) }
        ensures failed { IfErr result ((answers self.old).fails path.now) }
        ensures no_more { AnswersNoMore (answers self.old) (answers self.new) }
        ensures kept { kept self.new ≡ kept self.old }
        ensures opened { opened self.new ≡ option_map suc (opened self.old) };

    /// A dump of a file, to be read at whatever place. No file is changed.
    fn open_dump(&mut self, path: &str, progress: Progress) -> Result<Self::Dump, LabFileFault>
        ensures bytes { IfOk result (λ dump. IsFileOpened (answers self.old) path.now (Self.Dump.bytes dump)) }
        ensures fails { (dump : Self.Dump) → Self.Dump.failed dump ≡ true → (answers self.old).reads_fail }
        ensures failed { IfErr result ((answers self.old).fails path.now) }
        ensures no_more { AnswersNoMore (answers self.old) (answers self.new) }
        ensures kept { kept self.new ≡ kept self.old }
        ensures opened { opened self.new ≡ option_map suc (opened self.old) };

    /// What shows how many pairs of bits of a page were tried.
    fn watch(&mut self, progress: Progress) -> Self::Watch
        ensures no_more { AnswersNoMore (answers self.old) (answers self.new) }
        ensures kept { kept self.new ≡ kept self.old }
        ensures opened { opened self.new ≡ opened self.old };

    /// A new file beside that of this path, of so many pieces of so many zeros. Where that fails none stands there.
    fn create(&mut self, path: &str, count: u32, size: usize) -> Result<Self::Target, LabFileFault>
        ensures fails { (target : Self.Target) → Self.Target.failed target ≡ true → (answers self.old).writes_fail }
        ensures blank { IfOk result (λ target. IfSome (Self.Target.pieces target) (λ ps. ps ≡ replicate count (replicate size 0))) }
        ensures failed { IfErr result ((answers self.old).fails path.now) }
        ensures no_more { AnswersNoMore (answers self.old) (answers self.new) }
        ensures kept { kept self.new ≡ made_after (kept self.old) result }
        ensures opened { opened self.new ≡ opened self.old };

    /// Puts a file that was made in the place of this path, once all of it is stored. Where that fails what stood there still does, and the file
    /// that was made is removed. Only where it may stand over another one does it replace what has the name.
    fn keep(&mut self, path: &str, target: Self::Target, over: bool) -> Result<(), KeepFault>
        ensures done { kept self.new ≡ files_kept_after (without_part (kept self.old)) path.now (Self.Target.pieces target) over result }
        ensures failed { IfErr result (IsFileUnkept (answers self.old) path.now over) }
        ensures no_more { AnswersNoMore (answers self.old) (answers self.new) }
        ensures opened { opened self.new ≡ opened self.old };

    /// Puts a file of this map's bytes in the place of this path, once all of it is stored. Where that fails what stood there still does. Only where
    /// it may stand over another one does it replace what has the name.
    fn store<M: MapText>(&mut self, path: &str, map: &M, over: bool) -> Result<(), KeepFault>
        requires { M.whole map.now }
        ensures done { kept self.new ≡ files_kept_after (kept self.old) path.now (Some (M.text map.now ∷ [])) over result }
        ensures failed { IfErr result (IsFileUnkept (answers self.old) path.now over) }
        ensures opened { opened self.new ≡ opened self.old };

    /// Removes a file that was made.
    fn discard(&mut self, target: Self::Target)
        ensures no_more { AnswersNoMore (answers self.old) (answers self.new) }
        ensures kept { kept self.new ≡ without_part (kept self.old) }
        ensures opened { opened self.new ≡ opened self.old };
}
