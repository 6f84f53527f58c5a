//! The files of the system.
ghost use Rattle.disk_commands.specs.Files.{unknown_disk_files};
ghost use Rattle.nanddisk.specs.Marks.{BeginsBeside};
ghost use Rattle.nanddisk.specs.Stores.{IsStoreOf};
ghost use Rattle.std.specs.Prelude.{◌≡◌, IfErr, IfOk, Ok};

use crate::die::{DieStore, as_long, second_handle, store_in, store_over};
use crate::fault::{unmade, unread, unseen, unwritten};
use crate::lists::{FileLists, ListNames};
use crate::lock::{LockedFile, lock_die};
use crate::names::{DieNames, FileNames, LIST, MARK, SHAPE, die_names, name_beside, names_beside};
use crate::noted_file::NotedFile;
use crate::part::{copy_file, is_taken, new_die, open_dump, publish, put_dump};
use disk_commands::{
    Access, Code, DiskFileFault, DiskFiles, DiskShape, FileSyncs, FoundMark, MARK_BYTES, MarkFile,
    dump_bytes, put_blank,
};
use file_die::erase_all;
use part_files::{FirstError, Names, System, discard, new_part, publish_new};
use std::alloc::Global;
use std::fs::{self, File, OpenOptions};
use std::io::{self, ErrorKind, Read};
use std::rt::{Clock, Files};

// The most bytes of the file that tells a shape.
const MOST_BYTES: u64 = 65_536;

/// The system's files, by their paths. A disk is made as its part beside PATH, its shape is told in PATH.json, and its mark is kept in PATH.mark.
#[derive(Drop)]
pub struct DiskSystem<'a, R> {
    system: System<'a, R>,
    // the part that is being made, which is locked as long as it is here
    part: Option<File>,
}

impl<'a, R: Files<File = File> + AllocGlobal> DiskSystem<'a, R> {
    /// The files that the program's handle `rt` reaches. Nothing is opened. The system's first error that a fault comes of is noted.
    pub fn new(rt: &'a R, first: &'a FirstError) -> DiskSystem<'a, R> {
        DiskSystem {
            system: System { rt, first },
            part: None,
        }
    }

    // Keeps the lock of a part, where a die was made in it, and removes the part where none was.
    fn keep_part(
        &mut self,
        part: &str,
        own: Result<File, DiskFileFault>,
        made: Result<DieStore<'a>, DiskFileFault>,
    ) -> Result<DieStore<'a>, DiskFileFault>
        ensures { IfOk result (λ store. made.entry ≡ Ok store) }
    {
        match (own, made) {
            (Ok(own), Ok(store)) => {
                self.part = Some(own);
                Ok(store)
            }
            (Err(fault), _) | (_, Err(fault)) => {
                discard(&mut self.system.names(), part);
                Err(fault)
            }
        }
    }
}

// The first bytes of a file.
fn read_front<R: Files>(rt: &R, alloc: Global, name: &str, most: u64) -> io::Result<Vec<u8>> {
    let mut bytes = Vec::new(alloc);
    fs::open(rt, name)?.take(most).read_to_end(&mut bytes)?;
    Ok(bytes)
}

// The first bytes of the file beside a path with this behind it.
fn read_beside<R: Files<File = File>>(
    system: &System<'_, R>,
    alloc: Global,
    path: &str,
    behind: &str,
    most: u64,
) -> Result<Vec<u8>, DiskFileFault> {
    let name = name_beside(alloc, path, behind)?;
    match read_front(system.rt, alloc, name.as_str(), most) {
        Ok(bytes) => Ok(bytes),
        Err(error) => Err(unread(system, error)),
    }
}

// The bytes of a small file, or none where there is no such file.
fn read_if_there<R: Files<File = File>>(
    system: &System<'_, R>,
    alloc: Global,
    name: &str,
) -> Result<Option<Vec<u8>>, DiskFileFault> {
    match read_front(system.rt, alloc, name, MOST_BYTES) {
        Ok(bytes) => Ok(Some(bytes)),
        Err(error) if error.kind() == ErrorKind::NotFound => Ok(None),
        Err(error) => Err(unread(system, error)),
    }
}

// The path beside which the mark of a disk and the list of its lost sectors stand: its own, or, where the file that tells its shape is a link, that of the disk whose file it leads to. So a
// disk that has links has one mark.
fn home_of<R: Files<File = File> + AllocGlobal>(
    system: &System<'_, R>,
    alloc: Global,
    path: &str,
) -> Result<String, DiskFileFault> {
    let shape = name_beside(alloc, path, SHAPE)?;
    match fs::symlink_metadata(system.rt, shape.as_str()) {
        Ok(found) if found.is_symlink() => {}
        _ => return name_beside(alloc, path, ""),
    }
    let real = match fs::canonicalize(system.rt, shape.as_str()) {
        Ok(real) => real,
        Err(error) => return Err(unread(system, error)),
    };
    name_beside(alloc, real.as_str().strip_suffix(SHAPE).unwrap_or(path), "")
}

// The names that go with the list of lost sectors of a disk.
fn list_names(alloc: Global, path: &str) -> Result<ListNames, DiskFileFault> {
    let list = names_beside(alloc, path, LIST)?;
    let beside = names_beside(alloc, path, SHAPE)?;
    Ok(ListNames { list, beside })
}

// Whether a file stands there.
fn is_there<R: Files<File = File>>(
    system: &System<'_, R>,
    name: &str,
) -> Result<bool, DiskFileFault> {
    match system.names().is_there(name) {
        Ok(there) => Ok(there),
        Err(fault) => Err(unseen(fault)),
    }
}

// Gives the part of a mark its name, once it holds none.
fn fill_mark<R: Files<File = File> + AllocGlobal>(
    system: &System<'_, R>,
    names: &FileNames,
    file: File,
) -> Result<(), DiskFileFault> {
    let mut file = NotedFile::new(file, system.first);
    put_blank(system.rt.alloc(), &mut file)?;
    match publish_new(
        &mut system.names(),
        names.part.as_str(),
        names.file.as_str(),
    ) {
        Ok(()) => Ok(()),
        Err(fault) => Err(unmade(fault)),
    }
}

// Makes the file of a mark, which holds none yet, beside its place, and gives it its name.
fn make_mark<R: Files<File = File> + AllocGlobal>(
    system: &System<'_, R>,
    names: &FileNames,
) -> Result<(), DiskFileFault> {
    let part = names.part.as_str();
    let file = match new_part(&mut system.names(), part) {
        Ok(file) => file,
        Err(fault) => return Err(unmade(fault)),
    };
    let done = fill_mark(system, names, file);
    if done.is_err() {
        discard(&mut system.names(), part);
    }
    done
}

// A file, to be written.
fn open_to_write<R: Files<File = File>>(
    system: &System<'_, R>,
    name: &str,
) -> Result<File, DiskFileFault> {
    match OpenOptions::new()
        .read(true)
        .write(true)
        .open(system.rt, name)
    {
        Ok(file) => Ok(file),
        Err(error) => Err(unwritten(system, error)),
    }
}

// The file of a mark, to be written; none where it has another length than such a file. It is made where there is none.
fn open_mark<R: Files<File = File> + AllocGlobal>(
    system: &System<'_, R>,
    names: &FileNames,
) -> Result<Option<File>, DiskFileFault> {
    if !is_there(system, names.file.as_str())? {
        make_mark(system, names)?;
    }
    let file = open_to_write(system, names.file.as_str())?;
    match file.metadata() {
        Ok(metadata) if metadata.len() == MARK_BYTES as u64 => Ok(Some(file)),
        Ok(_) => Ok(None),
        Err(error) => Err(unread(system, error)),
    }
}

// The same as it is kept, where its mark was found in the second slot, or in the first.
fn mark_file<'a, R: Files<File = File> + AllocGlobal>(
    system: &System<'a, R>,
    alloc: Global,
    path: &str,
    in_second: bool,
) -> Result<Option<MarkFile<NotedFile<'a>>>, DiskFileFault>
    ensures { IfOk result (BeginsBeside in_second) }
{
    let names = names_beside(alloc, path, MARK)?;
    match open_mark(system, &names)? {
        Some(file) => Ok(Some(MarkFile::new(NotedFile::new(file, system.first), in_second))),
        None => Ok(None),
    }
}

// The names of a die, and its part, empty, open and locked.
fn begun_die<R: Files<File = File>>(
    system: &System<'_, R>,
    alloc: Global,
    path: &str,
) -> Result<(DieNames, File), DiskFileFault> {
    let names = die_names(alloc, path)?;
    let file = new_die(system, &names.pair(path))?;
    Ok((names, file))
}

// A store of erased pages over an empty file.
fn new_store<'a, R: Files<File = File>>(
    system: &System<'a, R>,
    alloc: Global,
    shape: &DiskShape,
    file: File,
) -> Result<DieStore<'a>, DiskFileFault>
    ensures { IfOk result (IsStoreOf shape.now.geometry) }
{
    let mut store = store_in(system, alloc, shape, file)?;
    match erase_all(&mut store) {
        Ok(()) => Ok(store),
        Err(_) => Err(DiskFileFault::Write),
    }
}

// A store over an empty file, with the pages of a dump.
fn copied<'a, R: Files<File = File>>(
    system: &System<'a, R>,
    alloc: Global,
    shape: &DiskShape,
    mut from: File,
    file: File,
) -> Result<DieStore<'a>, DiskFileFault>
    ensures { IfOk result (IsStoreOf shape.now.geometry) }
{
    match shape.code {
        Code::Plain => match copy_file(&mut from, &file) {
            Ok(()) => store_over(alloc, shape, NotedFile::new(file, system.first)),
            Err(error) => Err(unwritten(system, error)),
        },
        Code::Hamming => match store_in(system, alloc, shape, file) {
            Ok(store) => put_dump(system, alloc, &shape.geometry, from, store),
            Err(fault) => Err(fault),
        },
    }
}

impl<'a, R: Files<File = File> + AllocGlobal + Clock> DiskFiles for DiskSystem<'a, R> {
    ghost use Rattle.std.specs.Prelude.{None};
    ghost use Rattle.disk_commands.specs.Files.{unknown_disk_files};

    type Locked = LockedFile;

    type Store = DieStore<'a>;

    type Syncs = FileSyncs<NotedFile<'a>>;

    type Lists = FileLists<'a, R>;

    ghost answers = { λ _. unknown_disk_files };

    ghost kept = { λ _. None };

    ghost part = { λ _. None };

    ghost opened = { λ _. None };

    fn has(&mut self, path: &str) -> Result<bool, DiskFileFault> {
        let alloc = self.system.rt.alloc();
        let names = die_names(alloc, path)?;
        if is_taken(&self.system, &names.pair(path))? {
            return Ok(true);
        }
        let mark = name_beside(alloc, path, MARK)?;
        if is_there(&self.system, mark.as_str())? {
            return Ok(true);
        }
        let list = name_beside(alloc, path, LIST)?;
        is_there(&self.system, list.as_str())
    }

    fn lock(&mut self, path: &str, access: Access) -> Result<LockedFile, DiskFileFault> {
        lock_die(&self.system, path, access)
    }

    fn shape_text(
        &mut self,
        alloc: Global,
        path: &str,
        _locked: &LockedFile,
    ) -> Result<Vec<u8>, DiskFileFault> {
        read_beside(&self.system, alloc, path, SHAPE, MOST_BYTES)
    }

    fn mark_text(&mut self, alloc: Global, path: &str) -> Result<Option<Vec<u8>>, DiskFileFault> {
        let home = home_of(&self.system, alloc, path)?;
        let name = name_beside(alloc, home.as_str(), MARK)?;
        read_if_there(&self.system, alloc, name.as_str())
    }

    #[tactic(auto, unfolding(file_die::specs::Rows::is_kept))]
    fn open(
        &mut self,
        alloc: Global,
        _path: &str,
        locked: LockedFile,
        shape: &DiskShape,
    ) -> Result<(DieStore<'a>, FileSyncs<NotedFile<'a>>), DiskFileFault> {
        let file = as_long(&self.system, locked.into_file(), shape)?;
        let own = second_handle(&self.system, &file)?;
        match store_over(alloc, shape, NotedFile::new(own, self.system.first)) {
            Ok(store) => Ok((
                store,
                FileSyncs::new(NotedFile::new(file, self.system.first)),
            )),
            Err(fault) => Err(fault),
        }
    }

    fn keep_mark(
        &mut self,
        alloc: Global,
        path: &str,
        syncs: FileSyncs<NotedFile<'a>>,
        found: FoundMark,
    ) -> Result<FileSyncs<NotedFile<'a>>, DiskFileFault>
        ensures slot { IfOk result (λ keeps. BeginsBeside found.in_second keeps.kept) }
        ensures marked { IfOk result (λ keeps. keeps.mark ≡ found.mark) }
        ensures failed { IfErr result (unknown_disk_files.fails path.now) }
    {
        let home = home_of(&self.system, alloc, path)?;
        match mark_file(&self.system, alloc, home.as_str(), found.in_second) {
            Ok(kept) => Ok(syncs.with_mark(kept, found.mark)),
            Err(fault) => Err(fault),
        }
    }

    #[tactic(auto, unfolding(file_die::specs::Rows::is_kept))]
    fn create(
        &mut self,
        alloc: Global,
        path: &str,
        shape: &DiskShape,
    ) -> Result<DieStore<'a>, DiskFileFault> {
        let (names, file) = begun_die(&self.system, alloc, path)?;
        let own = second_handle(&self.system, &file);
        let made = new_store(&self.system, alloc, shape, file);
        self.keep_part(names.part.as_str(), own, made)
    }

    #[tactic(auto, unfolding(file_die::specs::Rows::is_kept))]
    fn copy(
        &mut self,
        alloc: Global,
        path: &str,
        shape: &DiskShape,
        dump: &str,
    ) -> Result<DieStore<'a>, DiskFileFault> {
        let from = open_dump(&self.system, dump, dump_bytes(&shape.geometry))?;
        let (names, file) = begun_die(&self.system, alloc, path)?;
        let own = second_handle(&self.system, &file);
        let made = copied(&self.system, alloc, shape, from, file);
        self.keep_part(names.part.as_str(), own, made)
    }

    fn keep(&mut self, path: &str, _store: DieStore<'a>, text: &[u8]) -> Result<(), DiskFileFault> {
        let names = die_names(self.system.rt.alloc(), path)?;
        let done = publish(&self.system, &names.pair(path), text);
        if done.is_ok() {
            self.part = None;
        }
        done
    }

    fn discard(&mut self, path: &str) {
        if self.part.is_some() {
            if let Ok(names) = die_names(self.system.rt.alloc(), path) {
                discard(&mut self.system.names(), names.part.as_str());
            }
        }
        self.part = None;
    }

    fn lost_text(
        &mut self,
        alloc: Global,
        path: &str,
        most: u64,
    ) -> Result<Vec<u8>, DiskFileFault> {
        let home = home_of(&self.system, alloc, path)?;
        read_beside(&self.system, alloc, home.as_str(), LIST, most)
    }

    fn lists(
        &mut self,
        alloc: Global,
        path: &str,
        syncs: &FileSyncs<NotedFile<'a>>,
        beside: &[u8],
    ) -> Result<FileLists<'a, R>, DiskFileFault> {
        let die = second_handle(&self.system, syncs.die().file())?;
        let home = home_of(&self.system, alloc, path)?;
        let names = list_names(alloc, home.as_str())?;
        let Ok(text) = beside.to_vec(alloc) else {
            return Err(DiskFileFault::OutOfMemory);
        };
        Ok(FileLists::new(self.system.again(), alloc, die, names, text))
    }
}
