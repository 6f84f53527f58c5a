//! Files in memory, and what stands on standard input.
ghost use Rattle.std.specs.Prelude.{◌≡◌, ◌⊎◌, IfOk, IfNone, IfSome, map, string_bytes};
ghost use Rattle.commands.specs.Files.{written_file};
ghost use Rattle.command_tests.specs.Files.{HasFile, LacksFile};

use commands::{FileFault, FileStore};
use std::alloc::{AllocError, Global};
use std::io::{self, Cursor, ErrorKind, Read};
use std::test::Fail;

/// A file in memory, as it was before the first run.
#[derive(Drop)]
pub struct MemoryFile {
    pub path: &'static str,
    pub bytes: Vec<u8>,
}

/// A file that was handed over to be written, and whether it was.
#[derive(Drop)]
pub struct StoredFile {
    pub path: String,
    pub bytes: Vec<u8>,
    pub done: bool,
}

fn stored_file(
    alloc: Global,
    path: &str,
    bytes: &[u8],
    done: bool,
) -> Result<StoredFile, AllocError>
    ensures path { IfOk result (λ file. string_bytes file.path ≡ path.now) }
    ensures bytes { IfOk result (λ file. file.bytes.items ≡ bytes.now) }
    ensures done { IfOk result (λ file. file.done ≡ done) }
{
    Ok(StoredFile {
        path: String::from_str(alloc, path)?,
        bytes: Vec::from_slice(alloc, bytes)?,
        done,
    })
}

// The bytes of the first file of this path.
fn given_bytes<'a>(files: &'a [MemoryFile], path: &str) -> Option<&'a [u8]>
    ensures some { IfSome result (λ found. HasFile (map (λ f. written_file f.path.now f.bytes.items) files.now) path.now found.now) }
    ensures none { IfNone result (LacksFile (map (λ f. written_file f.path.now f.bytes.items) files.now) path.now) }
{
    for file in files {
        if file.path == path {
            return Some(file.bytes.as_slice());
        }
    }
    None
}

// The bytes of the last file of this path that was stored, and was written.
fn stored_bytes<'a>(stored: &'a [StoredFile], path: &str) -> Option<&'a [u8]>
    ensures { IfSome result (λ found. HasFile (map (λ s. record { path = string_bytes s.path; bytes = s.bytes.items; done = s.done }) stored.now) path.now found.now) }
{
    let mut last = None;
    for file in stored {
        if file.done && file.path.as_str() == path {
            last = Some(file.bytes.as_slice());
        }
    }
    last
}

/// Files in memory, and those that were handed over to be written. A path that is not among the files can be neither read nor
/// written; `refuses` makes each load end in want of memory. A run that fails tells the name of its case.
#[derive(Drop)]
pub struct MemoryFiles {
    pub case: &'static str,
    pub alloc: Global,
    pub files: Vec<MemoryFile>,
    pub stored: Vec<StoredFile>,
    pub refuses: bool,
}

impl MemoryFiles {
    ghost use Rattle.std.specs.Prelude.{◌≡◌, ◌⊎◌, IfNone, IfSome, map, string_bytes};
    ghost use Rattle.commands.specs.Files.{written_file};
    ghost use Rattle.command_tests.specs.Files.{HasFile, LacksFile};

    /// No files.
    pub fn new(alloc: Global, case: &'static str) -> MemoryFiles {
        MemoryFiles {
            case,
            alloc,
            files: Vec::new(alloc),
            stored: Vec::new(alloc),
            refuses: false,
        }
    }

    /// Adds a file.
    pub fn put(&mut self, path: &'static str, bytes: Vec<u8>) -> Result<(), AllocError> {
        self.files.push(MemoryFile { path, bytes })?;
        Ok(())
    }

    /// What a file holds now, where there is such a file.
    pub fn contents(&self, path: &str) -> Option<&[u8]>
        ensures some { IfSome result (λ found. HasFile (map (λ s. record { path = string_bytes s.path; bytes = s.bytes.items; done = s.done }) self.now.stored.items) path.now found.now
            ⊎ HasFile (map (λ f. written_file f.path.now f.bytes.items) self.now.files.items) path.now found.now) }
        ensures none { IfNone result (LacksFile (map (λ f. written_file f.path.now f.bytes.items) self.now.files.items) path.now) }
    {
        match stored_bytes(&self.stored, path) {
            Some(bytes) => Some(bytes),
            None => given_bytes(&self.files, path),
        }
    }
}

impl FileStore for MemoryFiles {
    ghost use Rattle.std.specs.Prelude.{None, Some, map, string_bytes, true};
    ghost use Rattle.commands.specs.Files.{written_file};
    ghost use Rattle.command_tests.specs.Files.{MayAnswerLoad};

    type Reader = Cursor<Vec<u8>>;

    // A load answers the bytes of the file, as it was stored or as it was before; it fails only where there is none.
    ghost gives = { λ m. MayAnswerLoad (map (λ f. written_file f.path.now f.bytes.items) m.files.items)
        (map (λ s. record { path = string_bytes s.path; bytes = s.bytes.items; done = s.done }) m.stored.items) };

    ghost tells = { λ _. true };

    ghost stores = { λ m. Some (map (λ s. record { path = string_bytes s.path; bytes = s.bytes.items; done = s.done }) m.stored.items) };

    // It keeps no count of what it was asked for.
    ghost taken = { λ _. None };

    fn load(&mut self, path: &str) -> Result<Vec<u8>, FileFault> {
        if self.refuses {
            return Err(FileFault::OutOfMemory);
        }
        match self.contents(path) {
            Some(bytes) => match Vec::from_slice(self.alloc, bytes) {
                Ok(copy) => Ok(copy),
                Err(_) => Err(FileFault::OutOfMemory),
            },
            None => Err(FileFault::Failed),
        }
    }

    fn open(&mut self, path: &str) -> Result<Cursor<Vec<u8>>, FileFault> {
        match self.load(path) {
            Ok(bytes) => Ok(Cursor::new(bytes)),
            Err(fault) => Err(fault),
        }
    }

    fn store(&mut self, path: &str, bytes: &[u8]) -> Result<(), FileFault> {
        let done = self.files.iter().any(|file| file.path == path);
        let Ok(stored) = stored_file(self.alloc, path, bytes, done) else {
            return Err(FileFault::OutOfMemory);
        };
        if self.stored.push(stored).is_err() {
            return Err(FileFault::OutOfMemory);
        }
        if done { Ok(()) } else { Err(FileFault::Failed) }
    }
}

/// Standard input that nobody is to read: each read fails, and is counted.
#[derive(Drop)]
pub struct Unread {
    pub reads: usize,
}

impl Read for Unread {
    fn read(&mut self, _buf: &mut [u8]) -> io::Result<usize> {
        self.reads = self.reads.saturating_add(1);
        Err(io::Error::from(ErrorKind::BrokenPipe))
    }
}

/// Standard input that gives these bytes, and then ends or fails.
#[derive(Drop)]
pub struct Requests {
    left: &'static [u8],
    fails: bool,
}

impl Requests {
    pub fn of(left: &'static [u8], fails: bool) -> Requests {
        Requests { left, fails }
    }
}

impl Read for Requests {
    fn read(&mut self, buf: &mut [u8]) -> io::Result<usize> {
        if self.left.is_empty() && self.fails {
            return Err(io::Error::from(ErrorKind::Interrupted));
        }
        let n = buf.len().min(self.left.len());
        let (now, later) = self.left.split_at(n);
        buf[..n].copy_from_slice(now);
        self.left = later;
        Ok(n)
    }
}
