//! The file of a disk's mark, as marks are written into it.
ghost use Rattle.std.specs.Prelude.{◌≡◌, true, false, is_ok, not, IfOk, IfErr, OnOk};
ghost use Rattle.file_die.specs.Bytes.{WritesFailBy};
ghost use Rattle.disk_commands.specs.MarkFile.{BeginsMark, BlankFails, FailsLast, HasPutBlank, IsMarkBytes, KeepsIn, WritesSlot, blank_file};

use crate::files::DiskFileFault;
use crate::mark::{MARK_BYTES, SECOND_AT, slot_at, slot_bytes};
use disk_server::SyncMark;
use file_die::{ByteFault, ByteFile, write_all};
use std::alloc::{AllocError, Global};

/// The file of a mark that is kept, and the slot that is written next. (This project's.)
#[derive(Drop)]
pub struct MarkFile<F> {
    file: F,
    second: bool,
    // no mark was made to last since it was opened
    fresh: bool,
}

impl<F: ByteFile> MarkFile<F> {
    /// With this file, whose mark was found in the second slot, or in the first. The other one is written first.
    pub fn new(file: F, in_second: bool) -> MarkFile<F>
        ensures { result ≡ record { file = file; second = not in_second; fresh = true } }
    {
        MarkFile {
            file,
            second: !in_second,
            fresh: true,
        }
    }

    // Writes a mark into the slot that is next.
    fn put(&mut self, mark: SyncMark) -> Result<(), ByteFault>
        ensures writes { F.honest self.old.file ≡ true → IsMarkBytes (F.held self.old.file) → WritesSlot (F.held self.old.file) self.old.second mark (is_ok result) (F.held self.new.file) × IsMarkBytes (F.held self.new.file) }
        ensures honest { F.honest self.new.file ≡ F.honest self.old.file }
        ensures second { self.new.second ≡ self.old.second }
        ensures fresh { self.new.fresh ≡ self.old.fresh }
        ensures fails { IfErr result (λ why. WritesFailBy F.wrote why self.new.file) }
    {
        write_all(&mut self.file, &slot_bytes(mark), slot_at(self.second))
    }

    // Writes the first mark, and makes it last. From then on the other slot is written.
    fn begin(&mut self, mark: SyncMark) -> Result<(), ByteFault>
        ensures begins { F.honest self.old.file ≡ true → IsMarkBytes (F.held self.old.file) → BeginsMark (F.held self.old.file) self.old.second mark (is_ok result) (F.held self.new.file) × IsMarkBytes (F.held self.new.file) }
        ensures honest { F.honest self.new.file ≡ F.honest self.old.file }
        ensures second { OnOk result (self.new.second ≡ not self.old.second) }
        ensures fresh { OnOk result (self.new.fresh ≡ false) }
        ensures fails { IfErr result (λ why. FailsLast F.wrote F.refused why self.new.file) }
    {
        self.put(mark)?;
        self.file.sync()?;
        self.second = !self.second;
        self.fresh = false;
        Ok(())
    }

    /// Keeps a mark. The first one is made to last before it is answered; a later one is written, and nothing syncs it.
    ///
    /// # Errors
    ///
    /// That of the file's last call. Of the slot that was to be written each byte is as it was or as it was to be; the other one is as it was.
    pub fn keep(&mut self, mark: SyncMark) -> Result<(), ByteFault>
        ensures keeps { KeepsIn F.held F.honest self.old mark (is_ok result) self.new }
        ensures fails { IfErr result (λ why. FailsLast F.wrote F.refused why self.new.file) }
    {
        if self.fresh {
            self.begin(mark)?;
        }
        self.put(mark)
    }

    /// The file.
    pub fn into_file(self) -> F
        ensures { result ≡ self.file }
    {
        let MarkFile { file, .. } = self;
        file
    }

    /// Whether no mark was made to last since it was opened.
    pub fn is_fresh(&self) -> bool
        ensures { result ≡ self.now.fresh }
    {
        self.fresh
    }
}

// The bytes of a file whose slots hold no mark.
fn blank_bytes(alloc: Global) -> Result<Vec<u8>, AllocError>
    ensures { IfOk result (λ bytes. bytes.items ≡ blank_file) }
{
    let mut bytes = vec![in alloc; 0u8; MARK_BYTES]?;
    // a number stands twice in a slot: these two are not the same
    bytes[0] = 1;
    bytes[SECOND_AT] = 1;
    Ok(bytes)
}

/// Writes the bytes of a file whose slots hold no mark, and has them last.
///
/// # Errors
///
/// `OutOfMemory` where a growth was refused, and the file is as it was; `Write` where the last call of the file failed. (This project's.)
pub fn put_blank<F: ByteFile>(alloc: Global, file: &mut F) -> Result<(), DiskFileFault>
    ensures put { OnOk result (F.honest file.old ≡ true → HasPutBlank (F.held file.old) (F.held file.new)) }
    ensures fails { IfErr result (λ fault. BlankFails F.wrote F.refused file.old fault file.new) }
{
    let Ok(bytes) = blank_bytes(alloc) else {
        return Err(DiskFileFault::OutOfMemory);
    };
    if write_all(file, &bytes, 0).is_err() || file.sync().is_err() {
        return Err(DiskFileFault::Write);
    }
    Ok(())
}
