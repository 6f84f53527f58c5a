//! A file of the system whose first error is noted.
ghost use Rattle.std.specs.Prelude.{◌≡◌, IfOk, Ok};

use file_die::{ByteFault, ByteFile};
use part_files::FirstError;
use std::fs::File;
use std::io::{self, ErrorKind};
use std::os::unix::fs::FileExt;

/// A file, and where its first error is noted. One that was interrupted is no error: it is asked again.
#[derive(Drop)]
pub struct NotedFile<'a> {
    file: File,
    first: &'a FirstError,
}

impl<'a> NotedFile<'a> {
    /// This file.
    pub fn new(file: File, first: &'a FirstError) -> NotedFile<'a> {
        NotedFile { file, first }
    }

    /// The file itself.
    pub fn file(&self) -> &File {
        &self.file
    }

    // Notes the error of a call, if it failed.
    fn noted<T>(&self, done: io::Result<T>) -> Result<T, ByteFault>
        ensures { IfOk result (λ x. done ≡ Ok x) }
    {
        match done {
            Ok(done) => Ok(done),
            Err(error) => {
                if error.kind() != ErrorKind::Interrupted {
                    self.first.note(&error);
                }
                Err(ByteFault::from(error))
            }
        }
    }
}

impl ByteFile for NotedFile<'_> {
    ghost use Rattle.std.specs.Prelude.{false, [], ⊤};
    ghost use Rattle.file_die.specs.Bytes.{Bytes};

    ghost held = { λ _. record { bytes = []; durable = []; failed_syncs = 0 } };

    ghost honest = { λ _. false };

    ghost tells = { λ _ _ _. false };

    ghost gave = { λ _ _ _ _ _. ⊤ };

    ghost wrote = { λ _ _ _ _ _. ⊤ };

    ghost refused = { λ _ _ _. ⊤ };

    fn read_at(&mut self, to: &mut [u8], at: u64) -> Result<usize, ByteFault> {
        let done = FileExt::read_at(&self.file, to, at);
        self.noted(done)
    }

    fn write_at(&mut self, bytes: &[u8], at: u64) -> Result<usize, ByteFault> {
        let done = FileExt::write_at(&self.file, bytes, at);
        self.noted(done)
    }

    fn sync(&mut self) -> Result<(), ByteFault> {
        self.noted(self.file.sync_data())
    }

    fn length(&mut self) -> Result<u64, ByteFault> {
        let found = self.noted(self.file.metadata())?;
        Ok(found.len())
    }
}
