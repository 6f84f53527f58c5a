//! A store in memory that writes down its calls, and fails at one of them.
ghost use Rattle.std.specs.Prelude.{◌≡◌, ◌≤◌, OnOk, OnErr};
ghost use Rattle.page_layout.specs.Counter.{HasRisen};

use super::{erased, small, store_of};
use file_die::{MemoryStore, Store, StoreFault};
use page_layout::geometry::Geometry;
use std::alloc::Global;
use std::process::Abort;

/// A call of a store.
#[derive(Clone, Copy, PartialEq, Eq)]
pub enum Call {
    Load(u32),
    Put(u32),
    Clear(u32),
    Sync,
}

/// A store, the call at which it fails, counted from 1 (0 is none), and its calls.
#[derive(Drop)]
pub struct Noting {
    store: MemoryStore,
    fails_at: usize,
    calls: Vec<Call>,
    failures: u64,
}

impl Noting {
    /// A store that is erased.
    pub fn new(rt: &impl Abort, alloc: Global, fails_at: usize) -> Noting {
        Noting::of(rt, alloc, erased(rt, alloc), fails_at)
    }

    /// A store of these bytes.
    pub fn of(rt: &impl Abort, alloc: Global, bytes: Vec<u8>, fails_at: usize) -> Noting {
        Noting {
            store: store_of(rt, small(rt), bytes),
            fails_at,
            calls: Vec::new(alloc),
            failures: 0,
        }
    }

    /// The calls so far.
    pub fn calls(&self) -> &[Call] {
        self.calls.as_slice()
    }

    // Writes a call down, and says whether it is the one that fails.
    fn note(&mut self, call: Call) -> Result<(), StoreFault>
        ensures store { self.new.store ≡ self.old.store }
        ensures failed { self.old.failures ≤ self.new.failures }
        ensures settled { OnOk result (self.new.failures ≡ self.old.failures) }
        ensures rose { OnErr result (HasRisen self.old.failures self.new.failures) }
    {
        if self.calls.push(call).is_ok() && self.calls.len() != self.fails_at {
            return Ok(());
        }
        self.failures = self.failures.saturating_add(1);
        Err(StoreFault)
    }
}

impl Store for Noting {
    ghost use Rattle.std.specs.Prelude.{false};
    ghost use Rattle.file_die.specs.Memory.{standing};

    ghost held = { λ s. standing s.store.geometry s.store.pages };

    ghost honest = { λ _. false };

    ghost failed = { λ s. s.failures };

    fn load(&mut self, row: u32, page: &mut [u8]) -> Result<(), StoreFault> {
        self.note(Call::Load(row))?;
        self.store.load(row, page)
    }

    fn put(&mut self, row: u32, page: &[u8]) -> Result<(), StoreFault> {
        self.note(Call::Put(row))?;
        self.store.put(row, page)
    }

    fn clear(&mut self, block: u32) -> Result<(), StoreFault> {
        self.note(Call::Clear(block))?;
        self.store.clear(block)
    }

    fn sync(&mut self) -> Result<(), StoreFault> {
        self.note(Call::Sync)?;
        self.store.sync()
    }

    fn geometry(&self) -> Geometry {
        self.store.geometry()
    }

    fn failures(&self) -> u64 {
        self.failures
    }
}
