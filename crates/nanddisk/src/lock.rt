//! The lock on the file of a die.
ghost use Rattle.std.specs.Prelude.{◌≡◌, IfOk};
ghost use Rattle.std.specs.Fs.{asks_write};
ghost use Rattle.nanddisk.specs.Locks.{IsFileHeld, options_for};

use crate::fault::unread;
use disk_commands::{Access, DiskFileFault, LockedDie};
use part_files::System;
use std::fs::{File, OpenOptions, TryLockError};
use std::rt::{Clock, Files};
use std::thread;
use std::time::Duration;

// How often in a second a file that others hold is asked for again.
const TRIES: u64 = 20;

const PAUSE_MILLIS: u64 = 50;

/// The file of a die that is open and locked, with how it was opened, and whether this program holds it alone.
#[derive(Drop)]
pub struct LockedFile {
    file: File,
    options: OpenOptions,
    alone: bool,
}

impl LockedDie for LockedFile {
    ghost writes = { λ l. l.alone };
}

impl LockedFile {
    /// The file, which stays locked.
    pub fn into_file(self) -> File {
        self.file
    }
}

// How a file is opened: for reading, and to be written or not.
fn options_for(writes: bool) -> OpenOptions
    ensures { result ≡ options_for writes }
{
    let mut options = OpenOptions::new();
    options.read(true).write(writes);
    options
}

// Locks a file, alone or with others, at once or not at all.
fn taken<R: Files<File = File>>(
    system: &System<'_, R>,
    file: &File,
    alone: bool,
) -> Result<(), DiskFileFault> {
    let done = if alone {
        file.try_lock()
    } else {
        file.try_lock_shared()
    };
    match done {
        Ok(()) => Ok(()),
        Err(TryLockError::WouldBlock) => Err(DiskFileFault::InUse),
        Err(TryLockError::Error(error)) => Err(unread(system, error)),
    }
}

// Opens a file so, and locks it: alone where it is to be written.
fn locked<R: Files<File = File>>(
    system: &System<'_, R>,
    path: &str,
    options: OpenOptions,
) -> Result<LockedFile, DiskFileFault>
    ensures options { IfOk result (λ l. l.options ≡ options) }
    ensures alone { IfOk result (λ l. l.alone ≡ asks_write options) }
{
    let file = match options.open(system.rt, path) {
        Ok(file) => file,
        Err(error) => return Err(unread(system, error)),
    };
    let alone = options.asks_write();
    match taken(system, &file, alone) {
        Ok(()) => Ok(LockedFile {
            file,
            options,
            alone,
        }),
        Err(fault) => Err(fault),
    }
}

/// The file of the die at a path, open and locked. Where others hold it, it is opened anew and asked for again, until the wait is over.
///
/// # Errors
///
/// `InUse` where others hold it then; `Read` where it could not be opened or locked; `OutOfMemory`.
pub fn lock_die<R: Files<File = File> + Clock>(
    system: &System<'_, R>,
    path: &str,
    access: Access,
) -> Result<LockedFile, DiskFileFault>
    ensures { IfOk result (IsFileHeld access.writes) }
{
    for _ in 0..u64::from(access.wait) * TRIES {
        match locked(system, path, options_for(access.writes)) {
            Err(DiskFileFault::InUse) => thread::sleep(
                system.rt,
                Duration::from_millis(PAUSE_MILLIS),
            ),
            done => return done,
        }
    }
    locked(system, path, options_for(access.writes))
}
