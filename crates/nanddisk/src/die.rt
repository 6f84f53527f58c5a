//! The die of a disk, a file that is opened.
ghost use Rattle.std.specs.Prelude.{◌≡◌, ℕ, IfOk};
ghost use Rattle.nanddisk.specs.Stores.{IsStoreOf};

use crate::fault::{unread, unwritten};
use crate::noted_file::NotedFile;
use coded_store::{CodedStore, MaybeCoded};
use disk_commands::{Code, DiskFileFault, DiskShape, die_bytes};
use file_die::{ByteFault, DieFile, RowFault};
use page_layout::geometry::Geometry;
use part_files::System;
use std::alloc::Global;
use std::fs::File;
use std::rt::Files;

/// The pages of a die in a file of the system: with their codes, or without.
pub type DieStore<'a> = MaybeCoded<NotedFile<'a>>;

/// The same file, if it is as long as a shape says.
pub fn as_long<R: Files<File = File>>(
    system: &System<'_, R>,
    file: File,
    shape: &DiskShape,
) -> Result<File, DiskFileFault> {
    let found = match file.metadata() {
        Ok(metadata) => metadata.len(),
        Err(error) => return Err(unread(system, error)),
    };
    if found == die_bytes(shape) {
        Ok(file)
    } else {
        Err(DiskFileFault::Length(found))
    }
}

/// A second handle of a file, which holds the lock too.
pub fn second_handle<R: Files<File = File>>(
    system: &System<'_, R>,
    file: &File,
) -> Result<File, DiskFileFault> {
    match file.try_clone() {
        Ok(own) => Ok(own),
        Err(error) => Err(unread(system, error)),
    }
}

// Why a file was not taken for the pages of a die. Its length was told before, or given: so it is its first sync that failed.
fn untaken(fault: RowFault) -> DiskFileFault
    ensures memory { fault ≡ RowFault.OutOfMemory → result ≡ DiskFileFault.OutOfMemory }
    ensures length { (n : ℕ) → fault ≡ RowFault.Length n → result ≡ DiskFileFault.Length n }
    ensures other { (why : ByteFault) → fault ≡ RowFault.File why → result ≡ DiskFileFault.Write }
{
    match fault {
        RowFault::OutOfMemory => DiskFileFault::OutOfMemory,
        RowFault::Length(found) => DiskFileFault::Length(found),
        RowFault::File(_) => DiskFileFault::Write,
    }
}

// A store of pages without codes.
fn plain_store<'a>(
    alloc: Global,
    geometry: &Geometry,
    file: NotedFile<'a>,
) -> Result<DieStore<'a>, DiskFileFault>
    ensures { IfOk result (IsStoreOf geometry.now) }
{
    match DieFile::new(alloc, *geometry, file) {
        Ok(store) => Ok(MaybeCoded::Plain(store)),
        Err(fault) => Err(untaken(fault)),
    }
}

// A store of pages with their codes.
fn coded_store<'a>(
    alloc: Global,
    geometry: &Geometry,
    file: NotedFile<'a>,
) -> Result<DieStore<'a>, DiskFileFault>
    ensures { IfOk result (IsStoreOf geometry.now) }
{
    match CodedStore::new(alloc, *geometry, file) {
        Ok(store) => Ok(MaybeCoded::Coded(store)),
        Err(fault) => Err(untaken(fault)),
    }
}

/// The store over a file, of the pages of a shape, in which what stands is made to last first.
pub fn store_over<'a>(
    alloc: Global,
    shape: &DiskShape,
    file: NotedFile<'a>,
) -> Result<DieStore<'a>, DiskFileFault>
    ensures { IfOk result (IsStoreOf shape.now.geometry) }
{
    match shape.code {
        Code::Plain => plain_store(alloc, &shape.geometry, file),
        Code::Hamming => coded_store(alloc, &shape.geometry, file),
    }
}

/// The store over an empty file, which is made as long as the pages of a shape are.
pub fn store_in<'a, R: Files<File = File>>(
    system: &System<'a, R>,
    alloc: Global,
    shape: &DiskShape,
    file: File,
) -> Result<DieStore<'a>, DiskFileFault>
    ensures { IfOk result (IsStoreOf shape.now.geometry) }
{
    match file.set_len(die_bytes(shape)) {
        Ok(()) => store_over(alloc, shape, NotedFile::new(file, system.first)),
        Err(error) => Err(unwritten(system, error)),
    }
}
