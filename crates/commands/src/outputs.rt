//! What the commands leave in files.
ghost use Rattle.std.specs.Prelude.{◌≡◌, OnOk, IfErr};
ghost use Rattle.commands.specs.Files.{IsUnstored, with_store, written_file};

use crate::files::{FileFault, FileStore};
use crate::text::CommandFault;

/// Writes a file, whole.
///
/// # Errors
///
/// `Write` where the file cannot be written, and then nothing is promised of it. `OutOfMemory` where a
/// growth was refused before any byte was written.
pub fn store<'a, F: FileStore>(
    files: &mut F,
    path: &'a str,
    bytes: &[u8],
) -> Result<(), CommandFault<'a>>
    ensures ok { OnOk result (F.stores files.new ≡ with_store (F.stores files.old) (written_file path.now bytes.now)) }
    ensures fault { IfErr result (IsUnstored path.now bytes.now (F.stores files.old) (F.stores files.new)) }
    ensures taken { F.taken files.new ≡ F.taken files.old }
{
    match files.store(path, bytes) {
        Ok(()) => Ok(()),
        Err(FileFault::Failed) => Err(CommandFault::Write(path)),
        Err(FileFault::OutOfMemory) => Err(CommandFault::OutOfMemory),
    }
}
