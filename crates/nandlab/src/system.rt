//! The files of the system.
ghost use Rattle.std.specs.Prelude.{ℕ, List, false, IfErr};
ghost use Rattle.lab_commands.specs.Files.{IsFileUnkept, unknown_store};

use crate::progress::{Meter, Metered, Trials, size_of};
use lab_commands::{KeepFault, LabFileFault, LabFiles, MapText, Progress, Standing};
use lab_dump::{
    DamagedTarget, Dump, DumpFault, LineFault, MapWriter, PageTarget, Pieces, Target, TargetFault,
};
use part_files::{
    FirstError, PartFault, System, discard, new_part, part_name, publish_new, publish_over,
};
use std::alloc::Global;
use std::fmt::Display;
use std::fs::{self, File, Metadata, TryLockError};
use std::io::{self, BufReader, BufWriter, Error, ErrorKind, Read, Seek, SeekFrom, Write};
use std::os::unix::fs::{FileExt, MetadataExt};
use std::path::PathBuf;
use std::rt::Files;

// What the name of a part says of who made it.
const PROGRAM: &str = "nandlab";

// The bytes that a dump's reader asks the system for at once.
const READ_AHEAD: usize = 262_144;

// So many of the files that were read are held.
const MOST_HELD: usize = 256;

// The bytes of a map that are written at once.
const MAP_BUFFER: usize = 65_536;

/// The system's files, by their paths.
#[derive(Drop)]
pub struct LabSystem<'a, R, E> {
    system: System<'a, R>,
    // where the first file that may shows how far it was read
    screen: Option<E>,
    // where it is shown how many pairs of bits were tried
    trials: Option<E>,
    // whether somebody looks at it
    is_watched: bool,
    // the files that were read: no part that is made anew takes the name of one
    held: Vec<File>,
}

/// A file of the system that is read at whatever place. The system's error of a call that fails is noted.
#[derive(Drop)]
pub struct DumpFile<'a, E> {
    file: File,
    meter: Option<Meter<E>>,
    first: &'a FirstError,
}

/// A file of sectors or pages of the system, that is being written. It is locked as long as it is open. The system's error of a write that fails is noted.
#[derive(Drop)]
pub struct PieceFile<'a, R> {
    file: File,
    system: System<'a, R>,
    // the name of the part
    name: String,
    // the bytes of a sector or a page
    size: u32,
}

impl<'a, R: Files<File = File> + AllocGlobal, E: Write> LabSystem<'a, R, E> {
    /// The files that the program's handle `rt` reaches, and a screen, twice, to show progress on, which somebody may look at. Nothing is opened. The system's first error that
    /// a fault comes of is noted: of opening, reading, making, writing, syncing or naming a file, or of asking about one.
    pub fn new(
        rt: &'a R,
        first: &'a FirstError,
        screen: E,
        trials: E,
        is_watched: bool,
    ) -> LabSystem<'a, R, E> {
        LabSystem {
            system: System { rt, first },
            screen: Some(screen),
            trials: Some(trials),
            is_watched,
            held: Vec::new(rt.alloc()),
        }
    }

    // A file that is read. As long as the program runs it is held with whoever else reads it, where the file system has locks; of many files the
    // first ones alone, so that `verify` of a long report does not come to the system's limit of open files. One that another program holds to write, a disk that is served, is not read: its pages
    // would be of several moments.
    fn open_held(&mut self, path: &str) -> Result<File, LabFileFault> {
        let file = settled(&self.system, fs::open(self.system.rt, path))?;
        if let Err(TryLockError::WouldBlock) = file.try_lock_shared() {
            return settled(&self.system, Err(Error::from(ErrorKind::WouldBlock)));
        }
        if self.held.len() >= MOST_HELD {
            return Ok(file);
        }
        match file.try_clone() {
            Ok(same) => match self.held.push(same) {
                Ok(()) => Ok(file),
                Err(_) => Err(LabFileFault::OutOfMemory),
            },
            Err(_) => Ok(file),
        }
    }

    // Holds a file that was made and has its name with whoever reads it, as long as the program runs: so it is not taken for a part that an earlier run has left, and
    // removed, whatever its name is.
    fn hold_made(&mut self, file: File) {
        let _ = file.try_lock_shared();
        let _ = self.held.push(file);
    }

    // Whether progress is shown.
    fn shows(&self, progress: Progress) -> bool {
        match progress {
            Progress::Hidden => false,
            Progress::IfWatched => self.is_watched,
            Progress::Shown => true,
        }
    }

    // A meter for a file, where it is to show how far it was read.
    fn meter(&mut self, file: &mut File, progress: Progress) -> Option<Meter<E>> {
        if !self.shows(progress) {
            return None;
        }
        let size = size_of(file)?;
        Some(Meter::new(self.screen.take()?, size))
    }
}

// Why a call of the system failed.
fn fault_of(error: Error) -> LabFileFault {
    if error.kind() == ErrorKind::OutOfMemory {
        LabFileFault::OutOfMemory
    } else {
        LabFileFault::Failed
    }
}

// What a call of the system came to. Its error is noted.
fn settled<R, T>(system: &System<'_, R>, done: io::Result<T>) -> Result<T, LabFileFault> {
    system.first.noting(done).map_err(fault_of)
}

// Why a part was not made.
fn part_fault_of(fault: PartFault) -> LabFileFault {
    match fault {
        PartFault::OutOfMemory => LabFileFault::OutOfMemory,
        PartFault::InUse | PartFault::Exists | PartFault::Failed => LabFileFault::Failed,
    }
}

// Why a part did not get a name that no file may have.
fn keep_fault_of(fault: PartFault) -> KeepFault
    ensures { (path : List ℕ) → IsFileUnkept unknown_store path false result }
{
    match fault {
        PartFault::Exists => KeepFault::Taken,
        fault => KeepFault::Fails(part_fault_of(fault)),
    }
}

// A new part beside a path, with its name. It is locked as long as it is open.
fn new_beside<R: Files<File = File> + AllocGlobal>(
    system: &System<'_, R>,
    path: &str,
) -> Result<(File, String), LabFileFault> {
    let Ok(name) = part_name(system.rt.alloc(), path, PROGRAM) else {
        return Err(LabFileFault::OutOfMemory);
    };
    match new_part(&mut system.names(), name.as_str()) {
        Ok(file) => Ok((file, name)),
        Err(fault) => Err(part_fault_of(fault)),
    }
}

// The same, of so many zeros.
fn new_zeros<R: Files<File = File> + AllocGlobal>(
    system: &System<'_, R>,
    path: &str,
    size: u64,
) -> Result<(File, String), LabFileFault> {
    let (file, name) = new_beside(system, path)?;
    match settled(system, file.set_len(size)) {
        Ok(()) => Ok((file, name)),
        Err(fault) => {
            discard(&mut system.names(), name.as_str());
            Err(fault)
        }
    }
}

// Gives a part its name once it is stored: one that no file has, or where it may stand over another file, whatever file has it.
fn publish<R: Files<File = File>>(
    system: &System<'_, R>,
    file: &File,
    name: &str,
    path: &str,
    over: bool,
) -> Result<(), KeepFault>
    ensures { IfErr result (IsFileUnkept unknown_store path.now over) }
{
    match settled(system, file.sync_all()) {
        Ok(()) => {}
        Err(fault) => return Err(KeepFault::Fails(fault)),
    }
    let mut names = system.names();
    if over {
        return match publish_over(&mut names, name, path) {
            Ok(()) => Ok(()),
            Err(fault) => Err(KeepFault::Fails(part_fault_of(fault))),
        };
    }
    match publish_new(&mut names, name, path) {
        Ok(()) => Ok(()),
        Err(fault) => Err(keep_fault_of(fault)),
    }
}

// The same; where that fails the part is removed.
fn put_in_place<R: Files<File = File>>(
    system: &System<'_, R>,
    file: &File,
    name: &str,
    path: &str,
    over: bool,
) -> Result<(), KeepFault>
    ensures { IfErr result (IsFileUnkept unknown_store path.now over) }
{
    match publish(system, file, name, path, over) {
        Ok(()) => Ok(()),
        Err(fault) => {
            discard(&mut system.names(), name);
            Err(fault)
        }
    }
}

/// A file that a map is printed to, through a buffer.
#[derive(Drop)]
pub struct LineFile<'a, W: Write + Drop> {
    writer: BufWriter<W>,
    first: &'a FirstError,
}

impl<W: Write + Drop> MapWriter for LineFile<'_, W> {
    ghost use Rattle.std.specs.Prelude.{None, true};

    ghost contents = { λ _. None };

    ghost failed = { λ _. true };

    fn line<D: Display + Drop>(&mut self, line: D) -> Result<(), LineFault> {
        let done = writeln!(self.writer, "{line}");
        match self.first.noting(done) {
            Ok(()) => Ok(()),
            Err(_) => Err(LineFault),
        }
    }
}

// Prints a map to a file, whole.
fn print_map<R: AllocGlobal, M: MapText>(
    system: &System<'_, R>,
    file: &File,
    map: &M,
) -> Result<(), LabFileFault>
    requires { M.whole map.now }
{
    let writer = BufWriter::with_capacity(system.rt.alloc(), MAP_BUFFER, file).map_err(fault_of)?;
    let first = system.first;
    let mut lines = LineFile { writer, first };
    match map.print(&mut lines) {
        Ok(()) => settled(system, lines.writer.flush()),
        Err(_) => Err(LabFileFault::Failed),
    }
}

// What stands at a path that is no link, or where a link leads.
fn standing_of(found: &Metadata) -> Standing {
    if found.is_file() {
        Standing::File
    } else {
        Standing::Other
    }
}

// What stands where a link leads: nothing that may be replaced, where it leads nowhere.
fn behind_link<R: Files>(system: &System<'_, R>, path: &str) -> Result<Standing, LabFileFault> {
    match fs::metadata(system.rt, path) {
        Err(error) if error.kind() == ErrorKind::NotFound => Ok(Standing::Other),
        found => Ok(standing_of(&settled(system, found)?)),
    }
}

// The path that a path leads to: of one that no file has, that of its folder, and its name.
fn real_path<R: Files + AllocGlobal>(rt: &R, path: &str) -> io::Result<PathBuf<R::A>> {
    match fs::canonicalize(rt, path) {
        Err(error) if error.kind() == ErrorKind::NotFound => {
            let (folder, name) = path.rsplit_once('/').unwrap_or((".", path));
            let mut found = fs::canonicalize(rt, if folder.is_empty() { "/" } else { folder })?;
            found.push(name)?;
            Ok(found)
        }
        found => found,
    }
}

// Whether two paths lead to one file, where what the system tells of them says so: other files are not one, and of one file that has one name each path leads to it, also through a folder
// that is mounted twice, and where names of small and of capital letters are one. Of a file that has several names the paths say it.
fn is_one<R: Files>(rt: &R, first: &str, second: &str) -> Option<bool> {
    let (Ok(first), Ok(second)) = (fs::metadata(rt, first), fs::metadata(rt, second)) else {
        return None;
    };
    if first.dev() != second.dev() || first.ino() != second.ino() {
        Some(false)
    } else if first.nlink() == 1 {
        Some(true)
    } else {
        None
    }
}

impl<E: Write> Dump for DumpFile<'_, E> {
    ghost use Rattle.std.specs.Prelude.{None, true};

    ghost bytes = { λ _. None };

    ghost failed = { λ _. true };

    fn size(&mut self) -> Result<u64, DumpFault> {
        let done = self.file.seek(SeekFrom::End(0));
        match self.first.noting(done) {
            Ok(size) => Ok(size),
            Err(_) => Err(DumpFault),
        }
    }

    fn read_at(&mut self, at: u64, buffer: &mut [u8]) -> Result<(), DumpFault> {
        let done = self.file.read_exact_at(buffer, at);
        if self.first.noting(done).is_err() {
            return Err(DumpFault);
        }
        if let Some(meter) = &mut self.meter {
            meter.advance(buffer.len() as u64);
        }
        Ok(())
    }
}

impl<R: Files<File = File>> PieceFile<'_, R> {
    // Writes the bytes of a piece.
    fn put_piece(&mut self, number: u32, bytes: &[u8]) -> Result<(), TargetFault> {
        let at = u64::from(number) * u64::from(self.size);
        let done = self.file.write_all_at(bytes, at);
        match self.system.first.noting(done) {
            Ok(()) => Ok(()),
            Err(_) => Err(TargetFault),
        }
    }
}

impl<R: Files<File = File>> Pieces for PieceFile<'_, R> {
    ghost use Rattle.std.specs.Prelude.{None, true};

    ghost pieces = { λ _. None };

    ghost failed = { λ _. true };
}

impl<R: Files<File = File>> Target for PieceFile<'_, R> {
    fn put(&mut self, number: u32, body: &[u8], _spare: &[u8]) -> Result<(), TargetFault> {
        self.put_piece(number, body)
    }

    fn blank(&mut self, number: u32, zeros: &[u8]) -> Result<(), TargetFault> {
        self.put_piece(number, zeros)
    }
}

impl<R: Files<File = File>> DamagedTarget for PieceFile<'_, R> {
    fn put_damaged(&mut self, number: u32, body: &[u8], _spare: &[u8]) -> Result<(), TargetFault> {
        self.put_piece(number, body)
    }
}

impl<R: Files<File = File>> PageTarget for PieceFile<'_, R> {
    fn put_page(&mut self, row: u32, bytes: &[u8]) -> Result<(), TargetFault> {
        self.put_piece(row, bytes)
    }
}

impl<'a, R: Files<File = File> + AllocGlobal, E: Write + Drop> LabFiles for LabSystem<'a, R, E> {
    ghost use Rattle.std.specs.Prelude.{None};
    ghost use Rattle.lab_commands.specs.Files.{unknown_store};

    type Reader = Metered<'a, BufReader<File>, E>;

    type Dump = DumpFile<'a, E>;

    type Target = PieceFile<'a, R>;

    type Watch = Trials<E>;

    ghost answers = { λ _. unknown_store };

    ghost kept = { λ _. None };

    ghost opened = { λ _. None };

    fn standing(&mut self, path: &str) -> Result<Standing, LabFileFault> {
        match fs::symlink_metadata(self.system.rt, path) {
            Ok(found) if found.is_symlink() => behind_link(&self.system, path),
            Err(error) if error.kind() == ErrorKind::NotFound => Ok(Standing::Nothing),
            found => Ok(standing_of(&settled(&self.system, found)?)),
        }
    }

    fn is_same(&mut self, first: &str, second: &str) -> Result<bool, LabFileFault> {
        if let Some(same) = is_one(self.system.rt, first, second) {
            return Ok(same);
        }
        let first = settled(&self.system, real_path(self.system.rt, first))?;
        match real_path(self.system.rt, second) {
            // in a folder that is not there
            Err(error) if error.kind() == ErrorKind::NotFound => Ok(false),
            second => Ok(first.as_str() == settled(&self.system, second)?.as_str()),
        }
    }

    fn open(
        &mut self,
        path: &str,
        progress: Progress,
    ) -> Result<Metered<'a, BufReader<File>, E>, LabFileFault> {
        let mut file = self.open_held(path)?;
        let meter = self.meter(&mut file, progress);
        let reader = BufReader::with_capacity(self.system.rt.alloc(), READ_AHEAD, file).map_err(
            fault_of,
        )?;
        Ok(Metered::new(reader, meter, self.system.first))
    }

    fn load(&mut self, path: &str, most: u64) -> Result<Vec<u8>, LabFileFault> {
        let file = self.open_held(path)?;
        let mut bytes = Vec::new(self.system.rt.alloc());
        settled(&self.system, file.take(most).read_to_end(&mut bytes))?;
        Ok(bytes)
    }

    fn open_dump(
        &mut self,
        path: &str,
        progress: Progress,
    ) -> Result<DumpFile<'a, E>, LabFileFault> {
        let mut file = self.open_held(path)?;
        let meter = self.meter(&mut file, progress);
        Ok(DumpFile {
            file,
            meter,
            first: self.system.first,
        })
    }

    fn watch(&mut self, progress: Progress) -> Trials<E> {
        if self.shows(progress) {
            Trials::new(self.trials.take())
        } else {
            Trials::new(None)
        }
    }

    fn create(
        &mut self,
        path: &str,
        count: u32,
        size: usize,
    ) -> Result<PieceFile<'a, R>, LabFileFault> {
        let Ok(size) = u32::try_from(size) else {
            return Err(LabFileFault::Failed);
        };
        let all = u64::from(count) * u64::from(size);
        let (file, name) = new_zeros(&self.system, path, all)?;
        Ok(PieceFile {
            file,
            system: self.system.again(),
            name,
            size,
        })
    }

    fn keep(&mut self, path: &str, target: PieceFile<'a, R>, over: bool) -> Result<(), KeepFault> {
        match put_in_place(&self.system, &target.file, target.name.as_str(), path, over) {
            Ok(()) => {
                self.hold_made(target.file);
                Ok(())
            }
            Err(fault) => Err(fault),
        }
    }

    fn store<M: MapText>(&mut self, path: &str, map: &M, over: bool) -> Result<(), KeepFault> {
        let (file, name) = match new_beside(&self.system, path) {
            Ok(made) => made,
            Err(fault) => return Err(KeepFault::Fails(fault)),
        };
        if let Err(fault) = print_map(&self.system, &file, map) {
            discard(&mut self.system.names(), name.as_str());
            return Err(KeepFault::Fails(fault));
        }
        match put_in_place(&self.system, &file, name.as_str(), path, over) {
            Ok(()) => {
                self.hold_made(file);
                Ok(())
            }
            Err(fault) => Err(fault),
        }
    }

    fn discard(&mut self, target: PieceFile<'a, R>) {
        discard(&mut self.system.names(), target.name.as_str());
    }
}
