//! A way to make last what a disk writes.
ghost use Rattle.std.specs.Prelude.{◌≡◌, None};
ghost use Rattle.disk_commands.specs.Mark.{no_mark};
ghost use Rattle.disk_commands.specs.MarkFile.{FailsLast, KeepsMarkIfAny, SettlesFiles};

use crate::mark::none_found;
use crate::mark_file::MarkFile;
use disk_server::{SyncMark, Syncs};
use file_die::ByteFile;
use nbd_stream::DiskFault;

/// A second handle of the die's file, and the file of its mark, where one is kept. (This project's.)
#[derive(Drop)]
pub struct FileSyncs<F> {
    die: F,
    kept: Option<MarkFile<F>>,
    mark: SyncMark,
    done: u64,
    failed: u64,
}

// Keeps a mark in the file of it, where there is one, and answers whether it is kept as it has to be: the first one lasts. A later one that could not be written is the last that is tried.
fn keep_in<F: ByteFile + Drop>(
    kept: Option<MarkFile<F>>,
    mark: SyncMark,
) -> (Option<MarkFile<F>>, bool)
    ensures { KeepsMarkIfAny F.held F.honest (FailsLast F.wrote F.refused) kept mark result.1 result.0 }
{
    let Some(mut file) = kept else {
        return (None, true);
    };
    let first = file.is_fresh();
    match file.keep(mark) {
        Ok(()) => (Some(file), true),
        Err(_why) => (None, !first),
    }
}

impl<F: ByteFile + Drop> FileSyncs<F> {
    /// With this handle. No sync was done, none failed, and no mark is kept.
    pub fn new(die: F) -> FileSyncs<F>
        ensures { result ≡ record { die = die; kept = None; mark = no_mark; done = 0; failed = 0 } }
    {
        FileSyncs {
            die,
            kept: None,
            mark: none_found().mark,
            done: 0,
            failed: 0,
        }
    }

    /// The handle.
    pub fn die(&self) -> &F
        ensures { result.now ≡ self.now.die }
    {
        &self.die
    }

    /// The same, with this mark, which is kept in this file from now on, where there is one.
    pub fn with_mark(self, kept: Option<MarkFile<F>>, mark: SyncMark) -> FileSyncs<F>
        ensures { result ≡ record { die = self.die; kept = kept; mark = mark; done = self.done; failed = self.failed } }
    {
        let FileSyncs {
            die,
            done,
            failed,
            ..
        } = self;
        FileSyncs {
            die,
            kept,
            mark,
            done,
            failed,
        }
    }

    /// The file of the mark, where one is still kept, with the slot that is written next.
    pub fn into_mark_file(self) -> Option<MarkFile<F>>
        ensures { result ≡ self.kept }
    {
        let FileSyncs { kept, .. } = self;
        kept
    }

    // Syncs the die's file, and once that is done keeps a mark of it. Answers whether both were done.
    fn settle(&mut self, mark: SyncMark) -> bool
        ensures settles { SettlesFiles F.held F.honest F.wrote F.refused self.old mark result self.new }
        ensures mark { self.new.mark ≡ self.old.mark }
        ensures done { self.new.done ≡ self.old.done }
        ensures failed { self.new.failed ≡ self.old.failed }
    {
        if self.die.sync().is_err() {
            return false;
        }
        let (kept, done) = keep_in(self.kept.take(), mark);
        self.kept = kept;
        done
    }
}

impl<F: ByteFile + Drop> Syncs for FileSyncs<F> {
    ghost use Rattle.std.specs.Prelude.{◌≡◌, IfErr, OnOk, OnErr, is_ok};
    ghost use Rattle.page_layout.specs.Counter.{HasRisen, counted};
    ghost use Rattle.disk_server.specs.Synced.{after_sync};
    ghost use Rattle.disk_commands.specs.MarkFile.{SettlesFiles};

    ghost synced = { λ s. s.done };

    ghost failed = { λ s. s.failed };

    ghost marked = { λ s. s.mark };

    /// The die's file is synced first, and the mark is kept only once that is done. The first mark lasts before it is answered; a later one that cannot be written is no failure.
    fn sync(&mut self, next: u64, flushed: bool) -> Result<(), DiskFault>
        ensures settles { SettlesFiles F.held F.honest F.wrote F.refused self.old (after_sync next flushed self.old.mark) (is_ok result) self.new }
        ensures done { OnOk result (self.new.done ≡ counted self.old.done) }
        ensures not_done { OnErr result (self.new.done ≡ self.old.done) }
        ensures marked { OnOk result (self.new.mark ≡ after_sync next flushed self.old.mark) }
        ensures not_marked { OnErr result (self.new.mark ≡ self.old.mark) }
        ensures settled { OnOk result (self.new.failed ≡ self.old.failed) }
        ensures rose { OnErr result (HasRisen self.old.failed self.new.failed) }
        ensures fault { IfErr result (λ e. e ≡ DiskFault.Failed) }
    {
        let mark = self.mark.after_sync(next, flushed);
        if self.settle(mark) {
            self.mark = mark;
            self.done = self.done.saturating_add(1);
            Ok(())
        } else {
            self.failed = self.failed.saturating_add(1);
            Err(DiskFault::Failed)
        }
    }

    fn mark(&self) -> SyncMark {
        self.mark
    }
}
