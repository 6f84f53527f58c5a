//! The list of a disk's lost sectors, in a file beside the disk.
ghost use Rattle.std.specs.Prelude.{◌≡◌, []};

use crate::names::FileNames;
use crate::part::put_all;
use disk_commands::ListPlace;
use disk_damage::write_list;
use disk_server::KeepsLost;
use nbd_stream::DiskFault;
use part_files::{System, discard, new_part, publish_over};
use std::alloc::Global;
use std::fs::File;
use std::rt::Files;

/// The names of the file of a list and of the one that tells the disk's shape.
#[derive(Drop)]
pub struct ListNames {
    pub list: FileNames,
    pub beside: FileNames,
}

/// The place of a list: a handle of the die, whose file is synced before the list is kept, and what the file beside the disk is to say from the first list on.
#[derive(Drop)]
pub struct FileLists<'a, R> {
    system: System<'a, R>,
    alloc: Global,
    die: File,
    names: ListNames,
    // empty where the file says so already
    beside: Vec<u8>,
    kept: Vec<bool>,
    failed: u64,
}

impl<'a, R: Files<File = File>> FileLists<'a, R> {
    /// With these. Nothing is opened or made.
    pub fn new(
        system: System<'a, R>,
        alloc: Global,
        die: File,
        names: ListNames,
        beside: Vec<u8>,
    ) -> FileLists<'a, R>
        ensures kept { result.kept.items ≡ [] }
        ensures beside { result.beside ≡ beside }
    {
        FileLists {
            system,
            alloc,
            die,
            names,
            beside,
            kept: Vec::new(alloc),
            failed: 0,
        }
    }

    // Stores a list, and the first time that there is one, and answers whether that was done.
    fn store(&mut self, text: &[u8]) -> bool
        ensures kept { self.new.kept ≡ self.old.kept }
        ensures failed { self.new.failed ≡ self.old.failed }
    {
        if self.system.first.noting(self.die.sync_data()).is_err()
            || !replaced(&self.system, &self.names.list, text)
        {
            return false;
        }
        if self.beside.is_empty() {
            return true;
        }
        let told = replaced(&self.system, &self.names.beside, &self.beside);
        if told {
            self.beside = Vec::new(self.alloc);
        }
        told
    }
}

// Writes bytes to a part, has them stored, and puts the part in the place of a file. Answers whether that was done: else the file is as it was.
fn replaced<R: Files<File = File>>(
    system: &System<'_, R>,
    names: &FileNames,
    bytes: &[u8],
) -> bool {
    let part = names.part.as_str();
    let mut folder = system.names();
    let Ok(mut file) = new_part(&mut folder, part) else {
        return false;
    };
    let stored = system.first.noting(put_all(&mut file, bytes)).is_ok();
    if stored && publish_over(&mut folder, part, names.file.as_str()).is_ok() {
        return true;
    }
    discard(&mut folder, part);
    false
}

impl<R> ListPlace for FileLists<'_, R> {
    ghost says = { λ l. l.beside.items };
}

impl<R: Files<File = File>> KeepsLost for FileLists<'_, R> {
    ghost kept = { λ k. k.kept.items };

    ghost failed = { λ k. k.failed };

    fn keep(&mut self, lost: &[bool]) -> Result<(), DiskFault> {
        let (Ok(text), Ok(copy)) = (write_list(self.alloc, lost), lost.to_vec(self.alloc)) else {
            self.failed = self.failed.saturating_add(1);
            return Err(DiskFault::Failed);
        };
        if self.store(&text) {
            self.kept = copy;
            Ok(())
        } else {
            self.failed = self.failed.saturating_add(1);
            Err(DiskFault::Failed)
        }
    }
}
