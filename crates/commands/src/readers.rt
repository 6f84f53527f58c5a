//! Files that are read piece by piece.
ghost use Rattle.std.specs.Prelude.{◌≡◌, [], ◌∷◌, ℕ, List, Result, IfOk, IfErr};
ghost use Rattle.commands.specs.declared.files.FileFault.{FileFault};
ghost use Rattle.commands.specs.Files.{IsOpened, opened_file, with_taken};
ghost use Rattle.commands.specs.Inputs.{TellsUnread};

use crate::files::{FileFault, FileStore};
use crate::text::CommandFault;

/// A reader of a file, from its first byte on; it tells its bytes where the store does.
///
/// # Errors
///
/// `Read` where the file cannot be read, `OutOfMemory` where a growth was refused.
pub fn open<'a, F: FileStore>(files: &mut F, path: &'a str) -> Result<F::Reader, CommandFault<'a>>
    ensures ok { IfOk result (λ reader. IsOpened (F.gives files.old) (F.tells files.old) path.now (F.Reader.remaining reader)) }
    ensures fault { IfErr result (TellsUnread (F.gives files.old) path.now) }
    ensures same { (at : List ℕ) (answer : Result (List ℕ) FileFault) → F.gives files.new at answer → F.gives files.old at answer }
    ensures stores { F.stores files.new ≡ F.stores files.old }
    ensures taken { F.taken files.new ≡ with_taken (F.taken files.old) (opened_file path.now ∷ []) }
{
    match files.open(path) {
        Ok(reader) => Ok(reader),
        Err(FileFault::Failed) => Err(CommandFault::Read(path)),
        Err(FileFault::OutOfMemory) => Err(CommandFault::OutOfMemory),
    }
}
