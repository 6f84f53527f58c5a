//! Whether a store is full.
ghost use Rattle.std.specs.Prelude.{◌≡◌, false};

use crate::bytes::ByteFile;
use crate::file_store::DieFile;
use crate::memory_store::MemoryStore;

/// A store that tells whether there is no room for what it was given. (This project's.)
pub trait TellsFull {
    ghost use Rattle.std.specs.Prelude.{◌≡◌, Bool};

    /// Whether its last call was a change that failed for want of room where its pages stand.
    ghost full: { Self → Bool };

    /// The same: once there is room the change may be made. None is after a sync that failed.
    fn is_full(&self) -> bool
        ensures { result ≡ full self.now };
}

impl<F: ByteFile> TellsFull for DieFile<F> {
    ghost full = { λ s. s.rows.full };

    fn is_full(&self) -> bool {
        self.lacks_room()
    }
}

impl TellsFull for MemoryStore {
    ghost full = { λ _. false };

    fn is_full(&self) -> bool {
        false
    }
}
