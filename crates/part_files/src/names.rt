//! What is asked of the names of files.
use thiserror::Error;

/// Why a file was not made or named. (This project's.)
#[derive(Clone, Copy, Debug, PartialEq, Eq, Error)]
pub enum PartFault {
    /// Another run makes the same file.
    #[error("a file is in use")]
    InUse,
    /// Something has the name.
    #[error("there is such a file already")]
    Exists,
    /// A growth was refused.
    #[error("out of memory")]
    OutOfMemory,
    /// The system refused it otherwise.
    #[error("a file could not be made")]
    Failed,
}

/// The names of files, and what was asked of them. It is believed of a system that a call that is not done changes none of them, but that `make` may leave a new file. (This project's.)
pub trait Names {
    ghost use Rattle.std.specs.Prelude.{◌≡◌, List, Option};
    ghost use Rattle.part_files.specs.Names.{AskedOfNames, and_one, call_came, look_came};
    ghost use Rattle.part_files.specs.Names.NameCall.{Make, Claim, Remove, Link, Rename, SyncFolder, LetGo, IsThere, IsOneFile, HasOneName};
    ghost use Rattle.part_files.specs.Names.Came.{Done};

    /// A file that is open for reading and writing, and locked as long as it is.
    type File: Drop;

    /// What was asked so far, in order, and what each call came to. Of the system's names it isn't known.
    ghost asked: { Self → Option (List AskedOfNames) };

    /// A new file of a name that no file has, locked, and seen to have that name still.
    ///
    /// # Errors
    ///
    /// `Exists` where something has the name, which is not opened; `InUse` where another run has claimed the new file before it was locked, which is left to it; else as the system refused it: a new file that
    /// could not be locked is removed again, where the system does that.
    fn make(&mut self, name: &str) -> Result<Self::File, PartFault>
        ensures { asked self.new ≡ and_one (asked self.old) (Make name.now) (call_came result) };

    /// The file that has a name, locked, once it is seen to have that name still. It is neither made nor cut.
    ///
    /// # Errors
    ///
    /// `InUse` where another run has it locked, or has removed it meanwhile; else as the system refused it, also where what has the name is no regular file.
    fn claim(&mut self, name: &str) -> Result<Self::File, PartFault>
        ensures { asked self.new ≡ and_one (asked self.old) (Claim name.now) (call_came result) };

    /// Removes a name. A file that has another one, or is open, stays.
    ///
    /// # Errors
    ///
    /// As the system refused it.
    fn remove(&mut self, name: &str) -> Result<(), PartFault>
        ensures { asked self.new ≡ and_one (asked self.old) (Remove name.now) (call_came result) };

    /// Gives the file of a name one more, which no file has.
    ///
    /// # Errors
    ///
    /// `Exists` where something has that name; else as the system refused it, also where its files have one name each.
    fn link(&mut self, from: &str, to: &str) -> Result<(), PartFault>
        ensures { asked self.new ≡ and_one (asked self.old) (Link from.now to.now) (call_came result) };

    /// Gives the file of a name another one in place of it. A file that had that one loses it.
    ///
    /// # Errors
    ///
    /// As the system refused it.
    fn rename(&mut self, from: &str, to: &str) -> Result<(), PartFault>
        ensures { asked self.new ≡ and_one (asked self.old) (Rename from.now to.now) (call_came result) };

    /// Syncs the folder of a name, so that the names in it outlive a loss of power.
    ///
    /// # Errors
    ///
    /// As the system refused it: some cannot sync a folder.
    fn sync_folder(&mut self, name: &str) -> Result<(), PartFault>
        ensures { asked self.new ≡ and_one (asked self.old) (SyncFolder name.now) (call_came result) };

    /// Lets a file go, and its lock with it.
    fn let_go(&mut self, file: Self::File)
        ensures { asked self.new ≡ and_one (asked self.old) LetGo Done };

    /// Whether something has a name, a link too.
    ///
    /// # Errors
    ///
    /// As the system refused to tell.
    fn is_there(&mut self, name: &str) -> Result<bool, PartFault>
        ensures { asked self.new ≡ and_one (asked self.old) (IsThere name.now) (look_came result) };

    /// Whether two names are those of one file.
    ///
    /// # Errors
    ///
    /// As the system refused to tell.
    fn is_one_file(&mut self, first: &str, second: &str) -> Result<bool, PartFault>
        ensures { asked self.new ≡ and_one (asked self.old) (IsOneFile first.now second.now) (look_came result) };

    /// Whether a file has a name, and has no other one.
    ///
    /// # Errors
    ///
    /// As the system refused to tell.
    fn has_one_name(&mut self, name: &str) -> Result<bool, PartFault>
        ensures { asked self.new ≡ and_one (asked self.old) (HasOneName name.now) (look_came result) };
}
