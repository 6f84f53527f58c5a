//! The names of the system's files.
ghost use Rattle.std.specs.Prelude.{◌≡◌, ◌≢◌};
ghost use Rattle.std.specs.IoError.{error_kind};
ghost use Rattle.part_files.specs.Names.{anew, as_it_is};

use crate::first_error::FirstError;
use crate::names::{Names, PartFault};
use std::fs::{self, File, Metadata, OpenOptions, TryLockError};
use std::io::{self, Error, ErrorKind};
use std::os::unix::fs::MetadataExt;
use std::rt::Files;

/// The names of the system's files. (This project's.)
#[derive(Drop)]
pub struct SystemNames<'a, R> {
    rt: &'a R,
    // where an error is noted that a fault comes of
    first: Option<&'a FirstError>,
}

impl<'a, R: Files<File = File>> SystemNames<'a, R> {
    /// The names that the program's handle `rt` reaches. Nothing is asked.
    pub fn new(rt: &'a R) -> SystemNames<'a, R> {
        SystemNames { rt, first: None }
    }

    /// The same. The first error of the system is noted, but for that of a name that something has.
    pub fn noting(rt: &'a R, first: &'a FirstError) -> SystemNames<'a, R> {
        SystemNames {
            rt,
            first: Some(first),
        }
    }

    // What an error of the system comes to, which is noted.
    fn fault_of(&self, error: Error) -> PartFault {
        if let Some(first) = self.first
            && error.kind() != ErrorKind::AlreadyExists
        {
            first.note(&error);
        }
        part_fault(error)
    }

    // What a call of the system comes to.
    fn settled<T>(&self, answer: io::Result<T>) -> Result<T, PartFault> {
        match answer {
            Ok(done) => Ok(done),
            Err(error) => Err(self.fault_of(error)),
        }
    }

    // Locks a file, if nobody else has it locked.
    fn lock(&self, file: &File) -> Result<(), PartFault> {
        match file.try_lock() {
            Ok(()) => Ok(()),
            Err(TryLockError::WouldBlock) => Err(PartFault::InUse),
            Err(TryLockError::Error(error)) => Err(self.fault_of(error)),
        }
    }

    // What the system tells of what has a name, if anything has.
    fn found(&self, name: &str) -> Result<Option<Metadata>, PartFault> {
        match fs::symlink_metadata(self.rt, name) {
            Ok(found) => Ok(Some(found)),
            Err(error) if error.kind() == ErrorKind::NotFound => Ok(None),
            Err(error) => Err(self.fault_of(error)),
        }
    }

    // Sees that a name is still that of a file: one that has another file by now is in use.
    fn want_named(&self, name: &str, file: &File) -> Result<(), PartFault> {
        let Some(standing) = self.found(name)? else {
            return Err(PartFault::InUse);
        };
        let own = self.settled(file.metadata())?;
        if !standing.is_file() {
            Err(PartFault::Failed)
        } else if is_one(&standing, &own) {
            Ok(())
        } else {
            Err(PartFault::InUse)
        }
    }

    // Locks a file that was opened, and sees that its name still is its own.
    fn hold(&self, name: &str, file: &File) -> Result<(), PartFault> {
        self.lock(file)?;
        self.want_named(name, file)
    }

    // Removes a new file that could not be locked, if it has its name still. One that another run has locked is left to that run.
    fn take_back(&self, name: &str, file: &File, fault: PartFault) {
        if fault != PartFault::InUse && self.want_named(name, file).is_ok() {
            let _ = fs::remove_file(self.rt, name);
        }
    }
}

/// What an error of the system comes to. (This project's.)
pub fn part_fault(error: Error) -> PartFault
    ensures exists { error_kind error ≡ ErrorKind.AlreadyExists → result ≡ PartFault.Exists }
    ensures memory { error_kind error ≡ ErrorKind.OutOfMemory → result ≡ PartFault.OutOfMemory }
    ensures other { error_kind error ≢ ErrorKind.AlreadyExists → error_kind error ≢ ErrorKind.OutOfMemory → result ≡ PartFault.Failed }
{
    match error.kind() {
        ErrorKind::AlreadyExists => PartFault::Exists,
        ErrorKind::OutOfMemory => PartFault::OutOfMemory,
        _ => PartFault::Failed,
    }
}

// How a file that is to be new is opened.
fn options_anew() -> OpenOptions
    ensures { result ≡ anew }
{
    let mut options = OpenOptions::new();
    options.read(true).write(true).create_new(true);
    options
}

// How a file that is there is opened.
fn options_as_it_is() -> OpenOptions
    ensures { result ≡ as_it_is }
{
    let mut options = OpenOptions::new();
    options.read(true).write(true);
    options
}

// Whether two files are one.
fn is_one(first: &Metadata, second: &Metadata) -> bool {
    first.dev() == second.dev() && first.ino() == second.ino()
}

// The folder of a path.
fn folder_of(path: &str) -> &str {
    match path.rsplit_once('/') {
        Some(("", _)) => "/",
        Some((folder, _)) => folder,
        None => ".",
    }
}

// Syncs the folder of a path.
fn sync_folder_of<R: Files<File = File>>(rt: &R, path: &str) -> io::Result<()> {
    fs::open(rt, folder_of(path))?.sync_all()
}

impl<R: Files<File = File>> Names for SystemNames<'_, R> {
    ghost use Rattle.std.specs.Prelude.{None};

    type File = File;

    ghost asked = { λ _. None };

    fn make(&mut self, name: &str) -> Result<File, PartFault> {
        let file = self.settled(options_anew().open(self.rt, name))?;
        match self.hold(name, &file) {
            Ok(()) => Ok(file),
            Err(fault) => {
                self.take_back(name, &file, fault);
                Err(fault)
            }
        }
    }

    fn claim(&mut self, name: &str) -> Result<File, PartFault> {
        match options_as_it_is().open(self.rt, name) {
            Err(error) if error.kind() == ErrorKind::NotFound => Err(PartFault::InUse),
            opened => {
                let file = self.settled(opened)?;
                self.hold(name, &file)?;
                Ok(file)
            }
        }
    }

    fn remove(&mut self, name: &str) -> Result<(), PartFault> {
        self.settled(fs::remove_file(self.rt, name))
    }

    fn link(&mut self, from: &str, to: &str) -> Result<(), PartFault> {
        // what has no link is named otherwise: this is no error that a fault comes of
        fs::hard_link(self.rt, from, to).map_err(part_fault)
    }

    fn rename(&mut self, from: &str, to: &str) -> Result<(), PartFault> {
        self.settled(fs::rename(self.rt, from, to))
    }

    fn sync_folder(&mut self, name: &str) -> Result<(), PartFault> {
        // nor is this one: some systems sync no folder
        sync_folder_of(self.rt, name).map_err(part_fault)
    }

    fn let_go(&mut self, file: File) {
        drop(file);
    }

    fn is_there(&mut self, name: &str) -> Result<bool, PartFault> {
        match self.found(name) {
            Ok(found) => Ok(found.is_some()),
            Err(fault) => Err(fault),
        }
    }

    fn is_one_file(&mut self, first: &str, second: &str) -> Result<bool, PartFault> {
        let Some(first) = self.found(first)? else {
            return Ok(false);
        };
        let Some(second) = self.found(second)? else {
            return Ok(false);
        };
        Ok(is_one(&first, &second))
    }

    fn has_one_name(&mut self, name: &str) -> Result<bool, PartFault> {
        match self.found(name) {
            Ok(Some(found)) => Ok(found.is_file() && found.nlink() == 1),
            Ok(None) => Ok(false),
            Err(fault) => Err(fault),
        }
    }
}
