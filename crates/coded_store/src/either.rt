//! A store with codes, or one without.
ghost use Rattle.std.specs.Prelude.{◌≡◌};
ghost use Rattle.coded_store.specs.Coded.{nothing_wrong};

use crate::coded::{CodedStore, Mended};
use file_die::{ByteFile, DieFile, MemoryStore, Store, StoreFault, TellsFull};
use page_layout::geometry::Geometry;

// Nothing.
fn none_mended() -> Mended
    ensures { result ≡ nothing_wrong }
{
    Mended { turned: 0, lost: 0 }
}

/// A store that tells what was wrong with its pages, where they have codes. (This project's.)
pub trait TellsMended {
    ghost use Rattle.std.specs.Prelude.{◌≡◌};
    ghost use Rattle.coded_store.specs.declared.coded.Mended.{Mended};

    /// What was wrong with its rows as each was last read: nothing where its pages have no codes.
    ghost mended: { Self → Mended };

    /// The same.
    fn mended(&self) -> Mended
        ensures { result ≡ mended self.now };
}

impl<F: ByteFile> TellsMended for DieFile<F> {
    ghost mended = { λ _. nothing_wrong };

    fn mended(&self) -> Mended {
        none_mended()
    }
}

impl TellsMended for MemoryStore {
    ghost mended = { λ _. nothing_wrong };

    fn mended(&self) -> Mended {
        none_mended()
    }
}

impl<F: ByteFile> TellsMended for CodedStore<F> {
    ghost use Rattle.coded_store.specs.Coded.{mended_of};

    ghost mended = { λ s. mended_of s.wrong };

    fn mended(&self) -> Mended {
        self.mended_so_far()
    }
}

/// A store whose pages stand with their codes in a file, or one without. (This project's.)
#[derive(Drop)]
pub enum MaybeCoded<F: ByteFile + Drop> {
    /// Without codes.
    Plain(DieFile<F>),
    /// With codes.
    Coded(CodedStore<F>),
}

impl<F: ByteFile + Drop> Store for MaybeCoded<F> {
    ghost use Rattle.std.specs.Prelude.{◌≡◌, ◌<◌, ◌≤◌, true, false, length, is_ok, OnErr, OnOk};
    ghost use Rattle.page_layout.specs.Counter.{HasRisen};
    ghost use Rattle.page_layout.specs.Geometry.{row_count, page_bytes};
    ghost use Rattle.onfi_cycles.specs.Cycles.{page_of};
    ghost use Rattle.file_die.specs.Store.{Clears, Loads, Puts, Syncs};
    ghost use Rattle.file_die.specs.Rows.{FailsSync, TellsFull};
    ghost use Rattle.coded_store.specs.Either.{held_of, honest_of, store_rows};

    ghost held = { held_of F.held };

    ghost honest = { honest_of F.held F.honest F.tells };

    ghost failed = { λ s. (store_rows s).failures };

    fn load(&mut self, row: u32, page: &mut [u8]) -> Result<(), StoreFault>
        requires in_range { row < row_count (held_of F.held self.old).geometry }
        requires room { length page.old ≡ page_bytes (held_of F.held self.old).geometry }

        // What every store promises.
        ensures loads { honest_of F.held F.honest F.tells self.old ≡ true → Loads (held_of F.held self.old) row (page_of (held_of F.held self.old).geometry page.new) (is_ok result) (held_of F.held self.new) }
        ensures geometry { (held_of F.held self.new).geometry ≡ (held_of F.held self.old).geometry }
        ensures honest { honest_of F.held F.honest F.tells self.new ≡ honest_of F.held F.honest F.tells self.old }
        ensures failed { (store_rows self.old).failures ≤ (store_rows self.new).failures }
        ensures settled { OnOk result ((store_rows self.new).failures ≡ (store_rows self.old).failures) }
        ensures rose { OnErr result (HasRisen (store_rows self.old).failures (store_rows self.new).failures) }
        ensures unfilled { (store_rows self.new).full ≡ false }
    {
        match self {
            MaybeCoded::Plain(store) => store.load(row, page),
            MaybeCoded::Coded(store) => store.load(row, page),
        }
    }

    fn put(&mut self, row: u32, page: &[u8]) -> Result<(), StoreFault>
        requires in_range { row < row_count (held_of F.held self.old).geometry }
        requires whole { length page.now ≡ page_bytes (held_of F.held self.old).geometry }

        // What every store promises.
        ensures puts { honest_of F.held F.honest F.tells self.old ≡ true → Puts (held_of F.held self.old) row (page_of (held_of F.held self.old).geometry page.now) (is_ok result) (held_of F.held self.new) }
        ensures geometry { (held_of F.held self.new).geometry ≡ (held_of F.held self.old).geometry }
        ensures honest { honest_of F.held F.honest F.tells self.new ≡ honest_of F.held F.honest F.tells self.old }
        ensures failed { (store_rows self.old).failures ≤ (store_rows self.new).failures }
        ensures settled { OnOk result ((store_rows self.new).failures ≡ (store_rows self.old).failures) }
        ensures rose { OnErr result (HasRisen (store_rows self.old).failures (store_rows self.new).failures) }

        // Whatever the file does: it is full just where the file's last answer was that.
        ensures room { OnOk result ((store_rows self.new).full ≡ false) }
        ensures full { OnErr result (TellsFull F.wrote (store_rows self.old) (store_rows self.new)) }
    {
        match self {
            MaybeCoded::Plain(store) => store.put(row, page),
            MaybeCoded::Coded(store) => store.put(row, page),
        }
    }

    fn clear(&mut self, block: u32) -> Result<(), StoreFault>
        requires in_range { block < (held_of F.held self.old).geometry.blocks }

        // What every store promises.
        ensures clears { honest_of F.held F.honest F.tells self.old ≡ true → Clears (held_of F.held self.old) block (is_ok result) (held_of F.held self.new) }
        ensures geometry { (held_of F.held self.new).geometry ≡ (held_of F.held self.old).geometry }
        ensures honest { honest_of F.held F.honest F.tells self.new ≡ honest_of F.held F.honest F.tells self.old }
        ensures failed { (store_rows self.old).failures ≤ (store_rows self.new).failures }
        ensures settled { OnOk result ((store_rows self.new).failures ≡ (store_rows self.old).failures) }
        ensures rose { OnErr result (HasRisen (store_rows self.old).failures (store_rows self.new).failures) }

        // Whatever the file does: it is full just where the file's last answer was that.
        ensures room { OnOk result ((store_rows self.new).full ≡ false) }
        ensures full { OnErr result (TellsFull F.wrote (store_rows self.old) (store_rows self.new)) }
    {
        match self {
            MaybeCoded::Plain(store) => store.clear(block),
            MaybeCoded::Coded(store) => store.clear(block),
        }
    }

    fn sync(&mut self) -> Result<(), StoreFault>
        // What every store promises.
        ensures syncs { honest_of F.held F.honest F.tells self.old ≡ true → Syncs (held_of F.held self.old) (is_ok result) (held_of F.held self.new) }
        ensures geometry { (held_of F.held self.new).geometry ≡ (held_of F.held self.old).geometry }
        ensures honest { honest_of F.held F.honest F.tells self.new ≡ honest_of F.held F.honest F.tells self.old }
        ensures failed { (store_rows self.old).failures ≤ (store_rows self.new).failures }
        ensures settled { OnOk result ((store_rows self.new).failures ≡ (store_rows self.old).failures) }
        ensures rose { OnErr result (HasRisen (store_rows self.old).failures (store_rows self.new).failures) }
        ensures unfilled { (store_rows self.new).full ≡ false }

        // Whatever the file does: after one that failed none is asked for.
        ensures once { (store_rows self.old).sync_failed ≡ true → (is_ok result ≡ false) × ((store_rows self.new).file ≡ (store_rows self.old).file) }
        ensures refused { OnErr result (FailsSync F.refused (store_rows self.old) (store_rows self.new)) }
    {
        match self {
            MaybeCoded::Plain(store) => store.sync(),
            MaybeCoded::Coded(store) => store.sync(),
        }
    }

    fn geometry(&self) -> Geometry {
        match self {
            MaybeCoded::Plain(store) => store.geometry(),
            MaybeCoded::Coded(store) => store.geometry(),
        }
    }

    fn failures(&self) -> u64 {
        match self {
            MaybeCoded::Plain(store) => store.failures(),
            MaybeCoded::Coded(store) => store.failures(),
        }
    }
}

impl<F: ByteFile + Drop> TellsMended for MaybeCoded<F> {
    ghost use Rattle.coded_store.specs.Either.{mended_in};

    ghost mended = { mended_in };

    fn mended(&self) -> Mended {
        match self {
            MaybeCoded::Plain(_) => none_mended(),
            MaybeCoded::Coded(store) => store.mended_so_far(),
        }
    }
}

impl<F: ByteFile> TellsFull for CodedStore<F> {
    ghost full = { λ s. s.rows.full };

    fn is_full(&self) -> bool {
        self.lacks_room()
    }
}

impl<F: ByteFile + Drop> TellsFull for MaybeCoded<F> {
    ghost use Rattle.coded_store.specs.Either.{store_rows};

    ghost full = { λ s. (store_rows s).full };

    fn is_full(&self) -> bool {
        match self {
            MaybeCoded::Plain(store) => store.is_full(),
            MaybeCoded::Coded(store) => store.is_full(),
        }
    }
}
