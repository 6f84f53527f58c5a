//! Files in memory, whose reads and writes can fail.
ghost use Rattle.std.specs.Prelude.{IfErr};
ghost use Rattle.lab_commands.specs.Files.{IsFileUnkept, unknown_store};

use lab_commands::{KeepFault, LabFileFault, LabFiles, MapText, Progress, Standing};
use lab_dump::{
    DamagedTarget, Dump, DumpFault, DumpReader, PageTarget, Pieces, Target, TargetFault,
};
use lab_mend::Watch;
use std::alloc::{AllocError, Global};
use std::io::{self, ErrorKind, Write};

/// What goes wrong with the files.
#[derive(Clone, Copy)]
pub enum Trouble {
    /// Nothing.
    Calm,
    /// A read gives at most so many bytes.
    Pieces(usize),
    /// Each reader of a longer file fails after so many bytes.
    ReadsEnd(usize),
    /// Each reader of a longer file ends after so many bytes.
    Ends(usize),
    /// Whether there is a file, or one and the same, cannot be asked.
    Unasked,
    /// No file can be made.
    Full,
    /// Of each file that is made so many pieces can be written.
    WritesEnd(u32),
    /// No file that was made can be put in its place.
    Unkept,
    /// Another file has this name, where a file that was made is to be put in its place.
    Raced(&'static str),
    /// What stands at this path is a device.
    Device(&'static str),
    /// No map can be stored.
    Unstored,
    /// No memory is found for a reader.
    NoMemory,
    /// No memory is found for a file that is to be made.
    NoMemoryBeside,
}

/// What nobody looks at.
#[derive(Drop)]
pub struct Unwatched;

impl Watch for Unwatched {
    fn tried(&mut self, _row: u32, _bit: u32, _bits: u32) {}
}

/// A file in memory.
#[derive(Drop)]
pub struct MemoryFile {
    path: String,
    bytes: Vec<u8>,
}

/// A reader of a file, that can fail.
#[derive(Drop)]
pub struct MemoryReader {
    bytes: Vec<u8>,
    at: usize,
    // how many bytes a read gives at most
    most: usize,
    // whether it fails after its last byte
    fails: bool,
}

impl MemoryReader {
    /// One of these bytes, of which no read fails.
    pub fn new(alloc: Global, bytes: &[u8]) -> Result<MemoryReader, AllocError> {
        Ok(MemoryReader {
            bytes: Vec::from_slice(alloc, bytes)?,
            at: 0,
            most: usize::MAX,
            fails: false,
        })
    }
}

impl DumpReader for MemoryReader {
    ghost use Rattle.std.specs.Prelude.{None, true};

    ghost remaining = { λ _. None };

    ghost failed = { λ _. true };

    fn read(&mut self, buffer: &mut [u8]) -> Result<usize, DumpFault> {
        let Some(left) = self.bytes.get(self.at..) else {
            return Ok(0);
        };
        if left.is_empty() && self.fails {
            return Err(DumpFault);
        }
        let n = buffer.len().min(left.len()).min(self.most);
        buffer[..n].copy_from_slice(&left[..n]);
        self.at = self.at.saturating_add(n);
        Ok(n)
    }
}

/// A dump that is read at whatever place, and fails past its last byte.
#[derive(Drop)]
pub struct MemoryDump {
    bytes: Vec<u8>,
    // how many bytes it says that it has
    size: u64,
}

impl Dump for MemoryDump {
    ghost use Rattle.std.specs.Prelude.{None, true};

    ghost bytes = { λ _. None };

    ghost failed = { λ _. true };

    fn size(&mut self) -> Result<u64, DumpFault> {
        Ok(self.size)
    }

    fn read_at(&mut self, at: u64, buffer: &mut [u8]) -> Result<(), DumpFault> {
        let Ok(at) = usize::try_from(at) else {
            return Err(DumpFault);
        };
        match self.bytes.get(at..at.saturating_add(buffer.len())) {
            Some(part) if part.len() == buffer.len() => {
                buffer.copy_from_slice(part);
                Ok(())
            }
            _ => Err(DumpFault),
        }
    }
}

/// A file that is being written, that can fail.
#[derive(Drop)]
pub struct Beside {
    pub bytes: Vec<u8>,
    size: usize,
    // how many writes are left until one fails
    left: u32,
}

impl Beside {
    /// One of these bytes, in pieces of so many, of which no write fails.
    pub fn new(bytes: Vec<u8>, size: usize) -> Beside {
        Beside {
            bytes,
            size,
            left: u32::MAX,
        }
    }

    // Puts bytes in the place of a piece, where there is such a piece of as many bytes.
    fn set(&mut self, number: u32, piece: &[u8]) -> Result<(), TargetFault> {
        let Some(left) = self.left.checked_sub(1) else {
            return Err(TargetFault);
        };
        self.left = left;
        let at = (number as usize).saturating_mul(self.size);
        let end = at.saturating_add(piece.len());
        if piece.len() != self.size || end > self.bytes.len() || end - at != piece.len() {
            return Err(TargetFault);
        }
        self.bytes[at..end].copy_from_slice(piece);
        Ok(())
    }
}

impl Pieces for Beside {
    ghost use Rattle.std.specs.Prelude.{None, true};

    ghost pieces = { λ _. None };

    ghost failed = { λ _. true };
}

impl Target for Beside {
    fn put(&mut self, number: u32, body: &[u8], _spare: &[u8]) -> Result<(), TargetFault> {
        self.set(number, body)
    }

    fn blank(&mut self, number: u32, zeros: &[u8]) -> Result<(), TargetFault> {
        self.set(number, zeros)
    }
}

impl DamagedTarget for Beside {
    fn put_damaged(&mut self, number: u32, body: &[u8], _spare: &[u8]) -> Result<(), TargetFault> {
        self.set(number, body)
    }
}

impl PageTarget for Beside {
    fn put_page(&mut self, row: u32, bytes: &[u8]) -> Result<(), TargetFault> {
        self.set(row, bytes)
    }
}

/// Files in memory, what goes wrong with them, how many were put in their places, and how many more that were made were neither put there nor
/// removed. A run that fails tells the name of its case.
#[derive(Drop)]
pub struct MemoryFiles {
    pub case: &'static str,
    pub alloc: Global,
    pub trouble: Trouble,
    pub kept: usize,
    pub beside: usize,
    files: Vec<MemoryFile>,
}

// A path without what says that it begins here.
fn plain(path: &str) -> &str {
    path.strip_prefix("./").unwrap_or(path)
}

impl MemoryFiles {
    /// No files.
    pub fn new(alloc: Global, case: &'static str) -> MemoryFiles {
        MemoryFiles {
            case,
            alloc,
            trouble: Trouble::Calm,
            kept: 0,
            beside: 0,
            files: Vec::new(alloc),
        }
    }

    /// Puts a file in its place, and takes away the one that stood there.
    pub fn put(&mut self, path: &str, bytes: Vec<u8>) -> Result<(), AllocError> {
        let path = String::from_str(self.alloc, plain(path))?;
        self.files.push(MemoryFile { path, bytes })?;
        Ok(())
    }

    /// What a file holds, where there is such a file.
    pub fn contents(&self, path: &str) -> Option<&[u8]> {
        let mut files = self.files.iter().rev();
        let file = files.find(|file| file.path.as_str() == plain(path))?;
        Some(file.bytes.as_slice())
    }

    // How many bytes a file holds; none where there is no such file.
    fn length(&self, path: &str) -> usize {
        match self.contents(path) {
            Some(all) => all.len(),
            None => 0,
        }
    }

    // The bytes that a reader of a file gives before it ends or fails.
    fn given(&self, path: &str) -> Result<Vec<u8>, LabFileFault> {
        let Some(all) = self.contents(path) else {
            return Err(LabFileFault::Failed);
        };
        let end = match self.trouble {
            Trouble::ReadsEnd(n) | Trouble::Ends(n) => n.min(all.len()),
            _ => all.len(),
        };
        match Vec::from_slice(self.alloc, &all[..end]) {
            Ok(given) => Ok(given),
            Err(_) => Err(LabFileFault::OutOfMemory),
        }
    }

    // A file of so many pieces of zeros.
    fn beside(&self, count: u32, size: usize) -> Result<Beside, LabFileFault> {
        let left = match self.trouble {
            Trouble::Full => return Err(LabFileFault::Failed),
            Trouble::NoMemoryBeside => return Err(LabFileFault::OutOfMemory),
            Trouble::WritesEnd(n) => n,
            _ => u32::MAX,
        };
        let length = (count as usize).saturating_mul(size);
        match vec![in self.alloc; 0u8; length] {
            Ok(bytes) => Ok(Beside { bytes, size, left }),
            Err(_) => Err(LabFileFault::OutOfMemory),
        }
    }

    // Puts these bytes in the place of a path.
    fn keep_bytes(&mut self, path: &str, bytes: Vec<u8>, over: bool) -> Result<(), KeepFault>
        ensures { IfErr result (IsFileUnkept unknown_store path.now over) }
    {
        let trouble = self.trouble;
        match trouble {
            Trouble::Unkept => return Err(KeepFault::Fails(LabFileFault::Failed)),
            Trouble::Raced(name) if !over && name == plain(path) => return Err(KeepFault::Taken),
            _ => (),
        }
        self.kept = self.kept.saturating_add(1);
        match self.put(path, bytes) {
            Ok(()) => Ok(()),
            Err(_) => Err(KeepFault::Fails(LabFileFault::OutOfMemory)),
        }
    }
}

impl LabFiles for MemoryFiles {
    ghost use Rattle.std.specs.Prelude.{None};
    ghost use Rattle.lab_commands.specs.Files.{unknown_store};

    type Reader = MemoryReader;

    type Dump = MemoryDump;

    type Target = Beside;

    type Watch = Unwatched;

    ghost answers = { λ _. unknown_store };

    ghost kept = { λ _. None };

    ghost opened = { λ _. None };

    fn standing(&mut self, path: &str) -> Result<Standing, LabFileFault> {
        let trouble = self.trouble;
        match trouble {
            Trouble::Unasked => Err(LabFileFault::Failed),
            Trouble::Device(name) if name == plain(path) => Ok(Standing::Other),
            _ if self.contents(path).is_some() => Ok(Standing::File),
            _ => Ok(Standing::Nothing),
        }
    }

    fn is_same(&mut self, first: &str, second: &str) -> Result<bool, LabFileFault> {
        if matches!(self.trouble, Trouble::Unasked) {
            return Err(LabFileFault::Failed);
        }
        Ok(plain(first) == plain(second))
    }

    fn open(&mut self, path: &str, _progress: Progress) -> Result<MemoryReader, LabFileFault> {
        if matches!(self.trouble, Trouble::NoMemory) {
            return Err(LabFileFault::OutOfMemory);
        }
        let most = match self.trouble {
            Trouble::Pieces(n) => n,
            _ => usize::MAX,
        };
        let fails = match self.trouble {
            Trouble::ReadsEnd(n) => n < self.length(path),
            _ => false,
        };
        match self.given(path) {
            Ok(bytes) => Ok(MemoryReader {
                bytes,
                at: 0,
                most,
                fails,
            }),
            Err(fault) => Err(fault),
        }
    }

    fn load(&mut self, path: &str, _most: u64) -> Result<Vec<u8>, LabFileFault> {
        if matches!(self.trouble, Trouble::NoMemory) {
            return Err(LabFileFault::OutOfMemory);
        }
        let fails = match self.trouble {
            Trouble::ReadsEnd(n) => n < self.length(path),
            _ => false,
        };
        if fails {
            return Err(LabFileFault::Failed);
        }
        self.given(path)
    }

    fn open_dump(&mut self, path: &str, _progress: Progress) -> Result<MemoryDump, LabFileFault> {
        if matches!(self.trouble, Trouble::NoMemory) {
            return Err(LabFileFault::OutOfMemory);
        }
        let size = self.length(path) as u64;
        match self.given(path) {
            Ok(bytes) => Ok(MemoryDump { bytes, size }),
            Err(fault) => Err(fault),
        }
    }

    fn create(&mut self, _path: &str, count: u32, size: usize) -> Result<Beside, LabFileFault> {
        match self.beside(count, size) {
            Ok(made) => {
                self.beside = self.beside.saturating_add(1);
                Ok(made)
            }
            Err(fault) => Err(fault),
        }
    }

    fn keep(&mut self, path: &str, target: Beside, over: bool) -> Result<(), KeepFault> {
        self.beside = self.beside.wrapping_sub(1);
        match self.keep_bytes(path, target.bytes, over) {
            Ok(()) => Ok(()),
            Err(fault) => Err(fault),
        }
    }

    fn store<M: MapText>(&mut self, path: &str, map: &M, over: bool) -> Result<(), KeepFault> {
        if matches!(self.trouble, Trouble::Unstored) {
            return Err(KeepFault::Fails(LabFileFault::Failed));
        }
        let mut bytes: Vec<u8> = Vec::new(self.alloc);
        match map.print(&mut bytes) {
            Ok(()) => (),
            Err(_) => return Err(KeepFault::Fails(LabFileFault::OutOfMemory)),
        }
        match self.keep_bytes(path, bytes, over) {
            Ok(()) => Ok(()),
            Err(fault) => Err(fault),
        }
    }

    fn watch(&mut self, _progress: Progress) -> Unwatched {
        Unwatched
    }

    fn discard(&mut self, _target: Beside) {
        self.beside = self.beside.wrapping_sub(1);
    }
}

/// Standard output that is closed.
#[derive(Drop)]
pub struct Closed;

impl Write for Closed {
    fn write(&mut self, _buf: &[u8]) -> io::Result<usize> {
        Err(io::Error::from(ErrorKind::BrokenPipe))
    }

    fn flush(&mut self) -> io::Result<()> {
        Ok(())
    }
}
