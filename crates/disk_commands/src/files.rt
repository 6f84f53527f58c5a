//! The files that disks are: of each the die, the one beside it that tells its shape, and its mark.
ghost use Rattle.std.specs.Prelude.{◌≡◌};
ghost use Rattle.disk_commands.specs.Files.{to_look};

use crate::mark::FoundMark;
use crate::shapes::DiskShape;
use coded_store::TellsMended;
use disk_server::{KeepsLost, Syncs};
use file_die::{Store, TellsFull};
use std::alloc::Global;
use thiserror::Error;

/// Why a file of a disk was not opened, made, read or put in its place. (This project's.)
#[derive(Clone, Copy, Debug, PartialEq, Eq, Error)]
pub enum DiskFileFault {
    /// It could not be opened or read.
    #[error("a file could not be read")]
    Read,
    /// It could not be made or written.
    #[error("a file could not be written")]
    Write,
    /// Another program serves it, or makes it.
    #[error("a file is in use")]
    InUse,
    /// Something stands at its path.
    #[error("there is such a file already")]
    Exists,
    /// It has so many bytes, and not as many as a die of the shape.
    #[error("a file has {0} bytes")]
    Length(u64),
    /// A growth was refused.
    #[error("out of memory")]
    OutOfMemory,
}

/// How the die of a disk is opened. (This project's.)
#[derive(Clone, Copy, Debug, PartialEq, Eq)]
pub struct Access {
    /// To be written, and then by this program alone. Else for reading alone, beside others that do no more.
    pub writes: bool,
    /// Seconds to wait for those who hold it otherwise.
    pub wait: u32,
}

/// A look at a disk: for reading alone, and at once or not at all.
pub(crate) fn to_look() -> Access
    ensures { result ≡ to_look }
{
    Access {
        writes: false,
        wait: 0,
    }
}

/// The file of a die that is open and locked. (This project's.)
pub trait LockedDie {
    ghost use Rattle.std.specs.Prelude.{Bool};

    /// Whether it was opened to be written, and is held by this program alone. Else it was opened for reading alone, and others that do no more may hold it too.
    ghost writes: { Self → Bool };
}

/// A place beside a disk where the list of its lost sectors is kept. (This project's.)
pub trait ListPlace {
    ghost use Rattle.std.specs.Prelude.{List, ℕ};

    /// The bytes that the file which tells the disk's shape has, once the first list that is kept here stands.
    ghost says: { Self → List ℕ };
}

/// The files that the words name, by their paths as written: those of the system, or some in memory. (This project's.)
pub trait DiskFiles {
    ghost use Rattle.std.specs.Prelude.{◌≡◌, true, Bool, List, [], Option, option_map, IfOk, IfErr, OnOk, OnErr};
    ghost use Rattle.file_die.specs.Store.{blank};
    ghost use Rattle.disk_commands.specs.Files.{DiskFilesAnswerNoMore, DiskFileAnswers, FailsCopy, FailsNoMore, Kept, Opened, SaysNoMore, kept_after, no_part, with_mark_opened, with_opened, made_part};

    /// The file of a die, open and locked: while it is there no other program writes or makes the disk, nor opens it, where this one is to write it.
    type Locked: LockedDie + Drop;

    /// The pages of a die in a file that is locked.
    type Store: Store + TellsFull + TellsMended + Drop;

    /// A second handle of such a file.
    type Syncs: Syncs + Drop;

    /// A place beside a disk where the list of its lost sectors is kept.
    type Lists: KeepsLost + ListPlace + Drop;

    /// What they may answer. Of the system's files it may be anything.
    ghost answers: { Self → DiskFileAnswers };

    /// The disks that were put in their places so far, in order. Of the system's files it isn't known.
    ghost kept: { Self → Option (List Kept) };

    /// Whether a die that was made beside a path stands there yet. Of the system's files it isn't known.
    ghost part: { Self → Option Bool };

    /// The dies that were to be opened so far, and the marks that were to be written, in order. Of the system's files it isn't known.
    ghost opened: { Self → Option (List Opened) };

    /// Whether something stands at the path of a disk, or beside it where its shape is told or its mark is kept.
    ///
    /// # Errors
    ///
    /// One that these files may answer of the path, where that could not be asked. They are as they were.
    fn has(&mut self, path: &str) -> Result<bool, DiskFileFault>
        ensures said { IfOk result ((answers self.old).says_there path.now) }
        ensures failed { IfErr result ((answers self.old).fails path.now) }
        ensures same { self.new ≡ self.old };

    /// Opens the file of the die at a path, and locks it.
    ///
    /// # Errors
    ///
    /// One that these files may answer of the path: `InUse` where others hold it otherwise until the wait is over. The disks in their places are as they were.
    fn lock(&mut self, path: &str, access: Access) -> Result<Self::Locked, DiskFileFault>
        ensures writes { IfOk result (λ locked. Self.Locked.writes locked ≡ access.writes) }
        ensures failed { IfErr result ((answers self.old).fails path.now) }
        ensures no_more { DiskFilesAnswerNoMore (answers self.old) (answers self.new) }
        ensures opened { opened self.new ≡ with_opened (opened self.old) path.now access }
        ensures kept { kept self.new ≡ kept self.old };

    /// The bytes of the file that tells the shape of the disk at a path, whose die is locked, or the first 65,536 of them.
    ///
    /// # Errors
    ///
    /// One that these files may answer of the path, where there is no such file or it could not be read. They are as they were.
    fn shape_text(
        &mut self,
        alloc: Global,
        path: &str,
        locked: &Self::Locked,
    ) -> Result<Vec<u8>, DiskFileFault>
        ensures bytes { IfOk result (λ text. (answers self.old).tells path.now text.items) }
        ensures failed { IfErr result ((answers self.old).fails path.now) }
        ensures same { self.new ≡ self.old };

    /// The bytes of the file of the mark of the disk at a path, or the first 65,536 of them; none where there is no such file.
    ///
    /// # Errors
    ///
    /// One that these files may answer of the path, where it could not be read. They are as they were.
    fn mark_text(&mut self, alloc: Global, path: &str) -> Result<Option<Vec<u8>>, DiskFileFault>
        ensures bytes { IfOk result (λ text. (answers self.old).marks path.now (option_map (λ v. v.items) text)) }
        ensures failed { IfErr result ((answers self.old).fails path.now) }
        ensures same { self.new ≡ self.old };

    /// The store of the die at a path, which is locked, and a second handle of its file: a file of as many bytes as the shape's pages have, with their codes where it has a code.
    ///
    /// # Errors
    ///
    /// One that these files may answer of the path: `Length` where it has another number of bytes. The disks in their places are as they were.
    fn open(
        &mut self,
        alloc: Global,
        path: &str,
        locked: Self::Locked,
        shape: &DiskShape,
    ) -> Result<(Self::Store, Self::Syncs), DiskFileFault>
        ensures held { IfOk result (λ opened. (answers self.old).holds path.now (Self.Store.held opened.0)) }
        ensures geometry { IfOk result (λ opened. (Self.Store.held opened.0).geometry ≡ shape.now.geometry) }
        ensures honest { IfOk result (λ opened. Self.Store.honest opened.0 ≡ (answers self.old).honest) }
        ensures failed { IfErr result ((answers self.old).fails path.now) }
        ensures opened { opened self.new ≡ opened self.old }
        ensures no_more { SaysNoMore (answers self.old) (answers self.new) }
        ensures kept { kept self.new ≡ kept self.old };

    /// Has the second handle of the die at a path keep its mark from now on, of which this was found: with each sync that is done it is written, after that sync. The first one is made to
    /// last, in the slot that this was not found in, before it is answered; the later ones are written over the other slot, and nothing syncs them. A file of another length than a mark's is left
    /// as it is, and no mark is kept. Where there is none, one is made, whose slots hold no mark.
    ///
    /// # Errors
    ///
    /// One that these files may answer of the path, where that file could not be opened or made. The disks in their places are as they were.
    fn keep_mark(
        &mut self,
        alloc: Global,
        path: &str,
        syncs: Self::Syncs,
        found: FoundMark,
    ) -> Result<Self::Syncs, DiskFileFault>
        ensures marked { IfOk result (λ keeps. Self.Syncs.marked keeps ≡ found.mark) }
        ensures failed { IfErr result ((answers self.old).fails path.now) }
        ensures opened { opened self.new ≡ with_mark_opened (opened self.old) path.now found }
        ensures kept { kept self.new ≡ kept self.old };

    /// The store of a die to be made beside a path, of erased pages that last, with their codes where the shape has a code.
    ///
    /// # Errors
    ///
    /// One that these files may answer of the path, where it could not be made. The disks in their places are as they were.
    fn create(
        &mut self,
        alloc: Global,
        path: &str,
        shape: &DiskShape,
    ) -> Result<Self::Store, DiskFileFault>
        ensures geometry { IfOk result (λ store. (Self.Store.held store).geometry ≡ shape.now.geometry) }
        ensures erased { IfOk result (λ store. Self.Store.honest store ≡ true → Self.Store.held store ≡ blank shape.now.geometry) }
        ensures honest { IfOk result (λ store. Self.Store.honest store ≡ (answers self.old).honest) }
        ensures failed { IfErr result ((answers self.old).fails path.now) }
        ensures no_more { FailsNoMore (answers self.old) (answers self.new) }
        ensures opened { opened self.new ≡ opened self.old }
        ensures part { OnOk result (part self.new ≡ made_part (part self.old)) }
        ensures unmade { OnErr result (part self.new ≡ part self.old) }
        ensures kept { kept self.new ≡ kept self.old };

    /// The store of a die to be made beside a path, with the pages of a raw dump without codes, which last.
    ///
    /// # Errors
    ///
    /// One that these files may answer: of the dump where it is `Read` or `Length`, else of what is made. The disks in their places are as they were.
    fn copy(
        &mut self,
        alloc: Global,
        path: &str,
        shape: &DiskShape,
        dump: &str,
    ) -> Result<Self::Store, DiskFileFault>
        ensures held { IfOk result (λ store. (answers self.old).holds dump.now (Self.Store.held store)) }
        ensures geometry { IfOk result (λ store. (Self.Store.held store).geometry ≡ shape.now.geometry) }
        ensures honest { IfOk result (λ store. Self.Store.honest store ≡ (answers self.old).honest) }
        ensures failed { IfErr result (FailsCopy (answers self.old) path.now dump.now) }
        ensures no_more { FailsNoMore (answers self.old) (answers self.new) }
        ensures opened { opened self.new ≡ opened self.old }
        ensures part { OnOk result (part self.new ≡ made_part (part self.old)) }
        ensures unmade { OnErr result (part self.new ≡ part self.old) }
        ensures kept { kept self.new ≡ kept self.old };

    /// Puts the die that was made beside a path in its place, with a file of this text beside it, once all is stored. What stands there is never replaced.
    ///
    /// # Errors
    ///
    /// One that these files may answer of the path: `Exists` where something stands there. The disks in their places are as they were.
    fn keep(&mut self, path: &str, store: Self::Store, text: &[u8]) -> Result<(), DiskFileFault>
        ensures part { OnOk result (part self.new ≡ no_part (part self.old)) }
        ensures left { OnErr result (part self.new ≡ part self.old) }
        ensures done { kept self.new ≡ kept_after (kept self.old) (record { path = path.now; held = Self.Store.held store; text = text.now }) result }
        ensures failed { IfErr result ((answers self.old).fails path.now) }
        ensures opened { opened self.new ≡ opened self.old };

    /// Removes what was made beside a path.
    fn discard(&mut self, path: &str)
        ensures part { part self.new ≡ no_part (part self.old) }
        ensures opened { opened self.new ≡ opened self.old }
        ensures kept { kept self.new ≡ kept self.old };

    /// The bytes of the file of the list of lost sectors of the disk at a path, or the first `most` of them.
    ///
    /// # Errors
    ///
    /// One that these files may answer of the path, where there is no such file or it could not be read. They are as they were.
    fn lost_text(&mut self, alloc: Global, path: &str, most: u64) -> Result<Vec<u8>, DiskFileFault>
        ensures bytes { IfOk result (λ text. (answers self.old).lists path.now most text.items) }
        ensures failed { IfErr result ((answers self.old).fails path.now) }
        ensures same { self.new ≡ self.old };

    /// The place beside the disk at a path where the list of its lost sectors is kept, each list whole, in place of the one before. The first that is kept there is followed by `beside`, in
    /// place of the file that tells the shape: so that file says that a list stands there just where one does. Nothing is opened or made before.
    ///
    /// # Errors
    ///
    /// One that these files may answer of the path, where a growth was refused or the die has no further handle. They are as they were.
    fn lists(
        &mut self,
        alloc: Global,
        path: &str,
        syncs: &Self::Syncs,
        beside: &[u8],
    ) -> Result<Self::Lists, DiskFileFault>
        ensures none_kept { IfOk result (λ place. Self.Lists.kept place ≡ []) }
        ensures says { IfOk result (λ place. Self.Lists.says place ≡ beside.now) }
        ensures failed { IfErr result ((answers self.old).fails path.now) }
        ensures same { self.new ≡ self.old };
}
