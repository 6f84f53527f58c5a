//! A die that is made beside its place.
ghost use Rattle.std.specs.Prelude.{IfOk};
ghost use Rattle.nanddisk.specs.Stores.{IsStoreOf};

use crate::die::DieStore;
use crate::fault::{unmade, unread, unseen, unwritten};
use disk_commands::DiskFileFault;
use file_die::Store;
use page_layout::geometry::Geometry;
use part_files::{Names, Pair, System, clear_begun, discard, is_begun, new_part, publish_pair};
use std::alloc::Global;
use std::fs::{self, File, TryLockError};
use std::io::{self, BufReader, Error, ErrorKind, Read, Seek, SeekFrom, Write};
use std::rt::Files;

// The bytes of a file, which is left at its first one.
fn length_of(file: &mut File) -> io::Result<u64> {
    let found = file.seek(SeekFrom::End(0))?;
    file.seek(SeekFrom::Start(0))?;
    Ok(found)
}

// Why a dump is not copied: it is a folder, or is being written, by a server. Where the file system has no locks that is not known.
fn want_still(file: &File) -> io::Result<()> {
    if file.metadata()?.is_dir() {
        return Err(Error::from(ErrorKind::IsADirectory));
    }
    match file.try_lock_shared() {
        Err(TryLockError::WouldBlock) => Err(Error::from(ErrorKind::WouldBlock)),
        _ => Ok(()),
    }
}

/// A dump of just so many bytes, to be read from its first one. It is held with whoever else reads it, where the file system has locks: so it is not taken for a part that an
/// earlier run has left, and removed.
pub fn open_dump<R: Files<File = File>>(
    system: &System<'_, R>,
    dump: &str,
    wanted: u64,
) -> Result<File, DiskFileFault> {
    let mut from = match fs::open(system.rt, dump) {
        Ok(from) => from,
        Err(error) => return Err(unread(system, error)),
    };
    if let Err(error) = want_still(&from) {
        return Err(unread(system, error));
    }
    match length_of(&mut from) {
        Ok(found) if found == wanted => Ok(from),
        Ok(found) => Err(DiskFileFault::Length(found)),
        Err(error) => Err(unread(system, error)),
    }
}

/// Copies a file into another one, and has it stored.
pub fn copy_file(from: &mut File, file: &File) -> io::Result<()> {
    let mut to = file;
    io::copy(from, &mut to)?;
    file.sync_all()
}

/// Puts the pages of a dump into a store, and has them last.
pub fn put_dump<'a, R: Files<File = File>>(
    system: &System<'a, R>,
    alloc: Global,
    geometry: &Geometry,
    from: File,
    store: DieStore<'a>,
) -> Result<DieStore<'a>, DiskFileFault>
    requires { IsStoreOf geometry.now store }
    ensures { IfOk result (IsStoreOf geometry.now) }
{
    let mut store = store;
    let length = geometry.data_bytes() + geometry.spare_bytes();
    let (Ok(mut page), Ok(mut reader)) = (vec![in alloc; 0u8; length], BufReader::new(alloc, from))
    else {
        return Err(DiskFileFault::OutOfMemory);
    };
    for row in 0..geometry.rows() {
        if let Err(error) = reader.read_exact(&mut page) {
            return Err(unread(system, error));
        }
        if store.put(row, &page).is_err() {
            return Err(DiskFileFault::Write);
        }
    }
    match store.sync() {
        Ok(()) => Ok(store),
        Err(_) => Err(DiskFileFault::Write),
    }
}

/// Writes bytes, and has them stored.
pub fn put_all(file: &mut File, bytes: &[u8]) -> io::Result<()> {
    file.write_all(bytes)?;
    file.sync_all()
}

// Writes the part of the file beside a die, and names both.
fn put_both<R: Files<File = File>>(
    system: &System<'_, R>,
    pair: &Pair<'_>,
    file: &mut File,
    text: &[u8],
) -> Result<(), DiskFileFault> {
    if let Err(error) = put_all(file, text) {
        return Err(unwritten(system, error));
    }
    match publish_pair(&mut system.names(), pair) {
        Ok(()) => Ok(()),
        Err(fault) => Err(unmade(fault)),
    }
}

/// Gives a finished die its name, with the file beside it that tells its shape, so that both names outlive a loss of power where the folder can be synced. The part of that
/// file is gone then.
pub fn publish<R: Files<File = File>>(
    system: &System<'_, R>,
    pair: &Pair<'_>,
    text: &[u8],
) -> Result<(), DiskFileFault> {
    let mut file = match new_part(&mut system.names(), pair.beside_part) {
        Ok(file) => file,
        Err(fault) => return Err(unmade(fault)),
    };
    let done = put_both(system, pair, &mut file, text);
    if done.is_err() {
        discard(&mut system.names(), pair.beside_part);
    }
    done
}

/// The part of a die, empty, open and locked. What a run that was killed has begun here is taken back first.
pub fn new_die<R: Files<File = File>>(
    system: &System<'_, R>,
    pair: &Pair<'_>,
) -> Result<File, DiskFileFault> {
    let mut names = system.names();
    match clear_begun(&mut names, pair) {
        Ok(()) => {}
        Err(fault) => return Err(unmade(fault)),
    }
    match new_part(&mut names, pair.part) {
        Ok(file) => Ok(file),
        Err(fault) => Err(unmade(fault)),
    }
}

/// Whether something stands at the path of a die, or beside it. What a run that was killed has begun is nothing.
pub fn is_taken<R: Files<File = File>>(
    system: &System<'_, R>,
    pair: &Pair<'_>,
) -> Result<bool, DiskFileFault> {
    let mut names = system.names();
    let taken = match names.is_there(pair.path) {
        Ok(true) => Ok(true),
        Ok(false) => names.is_there(pair.beside),
        Err(fault) => Err(fault),
    };
    match taken {
        Ok(true) => match is_begun(&mut names, pair) {
            Ok(begun) => Ok(!begun),
            Err(fault) => Err(unseen(fault)),
        },
        Ok(false) => Ok(false),
        Err(fault) => Err(unseen(fault)),
    }
}
