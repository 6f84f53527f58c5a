//! The files of the system.
ghost use Rattle.std.specs.Prelude.{◌≡◌, ◌≢◌, IfErr};
ghost use Rattle.std.specs.IoError.{error_kind};
ghost use Rattle.commands.specs.Files.{stores_after};

use crate::replace::replace;
use commands::{FileFault, FileStore};
use std::fs::{self, File};
use std::io::{BufReader, Error, ErrorKind};
use std::rt::Files;

// The bytes that a file's reader asks the system for at once.
const READ_AHEAD: usize = 65536;

/// The system's files, by their paths.
#[derive(Drop)]
pub struct SystemFiles<'a, R> {
    rt: &'a R,
}

impl<'a, R: Files<File = File> + AllocGlobal> SystemFiles<'a, R> {
    /// The files that the program's handle `rt` reaches. Nothing is opened. (This project's.)
    pub fn new(rt: &'a R) -> SystemFiles<'a, R> {
        SystemFiles { rt }
    }
}

// Why a file was not read. A file is read into memory, so that there may be too little of it.
fn fault_of(error: Error) -> FileFault
    ensures memory { error_kind error ≡ ErrorKind.OutOfMemory → result ≡ FileFault.OutOfMemory }
    ensures other { error_kind error ≢ ErrorKind.OutOfMemory → result ≡ FileFault.Failed }
{
    if error.kind() == ErrorKind::OutOfMemory {
        FileFault::OutOfMemory
    } else {
        FileFault::Failed
    }
}

impl<R: Files<File = File> + AllocGlobal> FileStore for SystemFiles<'_, R> {
    ghost use Rattle.std.specs.Prelude.{None, false};

    type Reader = BufReader<File>;

    ghost gives = { λ _ _ _. Unit {0} };

    ghost tells = { λ _. false };

    ghost stores = { λ _. None };

    ghost taken = { λ _. None };

    fn load(&mut self, path: &str) -> Result<Vec<u8>, FileFault> {
        fs::read(self.rt, path).map_err(fault_of)
    }

    fn open(&mut self, path: &str) -> Result<BufReader<File>, FileFault> {
        let file = fs::open(self.rt, path).map_err(fault_of)?;
        BufReader::with_capacity(self.rt.alloc(), READ_AHEAD, file).map_err(fault_of)
    }

    // A store that was refused memory is a failed one too: what stands there is as it was.
    fn store(&mut self, path: &str, bytes: &[u8]) -> Result<(), FileFault>
        ensures stores { None ≡ stores_after None path.now bytes.now result }
        ensures failed { IfErr result (λ fault. fault ≡ FileFault.Failed) }
    {
        replace(self.rt, path, bytes).map_err(|_| FileFault::Failed)
    }
}
