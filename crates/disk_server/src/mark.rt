//! The mark of a disk: what of its pages was synced.
ghost use Rattle.std.specs.Prelude.{◌≡◌};
ghost use Rattle.disk_server.specs.Synced.{after_sync};

/// Which pages of a die were synced, by their sequences. (This project's.)
#[derive(Clone, Copy, Debug, PartialEq, Eq)]
pub struct SyncMark {
    /// All pages of a lower sequence were synced.
    pub synced: u64,
    /// All pages of a lower sequence were synced as the disk had been flushed: no sector was stale then.
    pub flushed: u64,
}

impl SyncMark {
    /// The mark after a sync that was done, where this sequence was next, and by whether the disk had been flushed.
    pub fn after_sync(self, next: u64, flushed: bool) -> SyncMark
        ensures { result ≡ after_sync next flushed self }
    {
        SyncMark {
            synced: next,
            flushed: if flushed { next } else { self.flushed },
        }
    }
}
