//! Files of disks in memory, which can fail. Their stores are honest.
ghost use Rattle.std.specs.Prelude.{◌≡◌, ◌<◌, [], IfOk};
ghost use Rattle.page_layout.specs.Geometry.{row_count};
ghost use Rattle.page_layout.specs.Raw.{raw_image};

use disk_commands::{
    Access, DiskFileFault, DiskFiles, DiskShape, FoundMark, ListPlace, LockedDie,
    dump_bytes as raw_bytes, none_found,
};
use disk_server::{KeepsLost, SyncMark, Syncs};
use file_die::{MemoryStore, Store};
use nbd_stream::DiskFault;
use page_layout::geometry::Geometry;
use std::alloc::{AllocError, Global};

/// What goes wrong with the files.
#[derive(Clone, Copy)]
pub enum Trouble {
    /// Nothing.
    Calm,
    /// What stands at a path cannot be asked.
    Unasked,
    /// Each disk is in use.
    Busy,
    /// No die can be made.
    Full,
    /// No die can be put in its place.
    Unkept,
    /// No mark can be read.
    Unread,
    /// No mark can be kept.
    Unmarked,
    /// A list of lost sectors stands beside each disk, and is this.
    Listed(&'static [u8]),
    /// One is to stand there, and cannot be read.
    Unlisted,
}

// A disk that was put in its place.
#[derive(Drop)]
struct MemoryDisk {
    path: String,
    pages: Vec<u8>,
    text: Vec<u8>,
}

/// The disks, what goes wrong with them, and a dump of erased pages at the path `dump`.
#[derive(Drop)]
pub struct MemoryFiles {
    pub alloc: Global,
    pub trouble: Trouble,
    disks: Vec<MemoryDisk>,
}

/// A disk that is locked.
#[derive(Drop)]
pub struct MemoryLock {
    writes: bool,
}

impl LockedDie for MemoryLock {
    ghost writes = { λ l. l.writes };
}

/// Syncs of what is in memory.
#[derive(Drop)]
pub struct MemorySyncs {
    done: u64,
    mark: SyncMark,
}

impl Syncs for MemorySyncs {
    ghost synced = { λ s. s.done };

    ghost failed = { λ _. 0 };

    ghost marked = { λ s. s.mark };

    fn sync(&mut self, next: u64, flushed: bool) -> Result<(), DiskFault> {
        self.done = self.done.saturating_add(1);
        self.mark = self.mark.after_sync(next, flushed);
        Ok(())
    }

    fn mark(&self) -> SyncMark {
        self.mark
    }
}

/// A list of lost sectors in memory. None is kept where it fails.
#[derive(Drop)]
pub struct MemoryLists {
    alloc: Global,
    kept: Vec<bool>,
    beside: Vec<u8>,
    failed: u64,
    pub fails: bool,
}

impl MemoryLists {
    /// No list was kept.
    pub fn new(alloc: Global) -> MemoryLists
        ensures { result.kept.items ≡ [] }
    {
        MemoryLists {
            alloc,
            kept: Vec::new(alloc),
            beside: Vec::new(alloc),
            failed: 0,
            fails: false,
        }
    }

    /// The list that was kept last; of so many sectors that are not lost, where none was.
    pub fn list(&self, sectors: usize) -> Result<Vec<bool>, AllocError> {
        if self.kept.is_empty() {
            vec![in self.alloc; false; sectors]
        } else {
            self.kept.to_vec(self.alloc)
        }
    }
}

impl ListPlace for MemoryLists {
    ghost says = { λ l. l.beside.items };
}

impl KeepsLost for MemoryLists {
    ghost kept = { λ k. k.kept.items };

    ghost failed = { λ k. k.failed };

    fn keep(&mut self, lost: &[bool]) -> Result<(), DiskFault> {
        match lost.to_vec(self.alloc) {
            Ok(copy) if !self.fails => {
                self.kept = copy;
                Ok(())
            }
            _ => {
                self.failed = self.failed.saturating_add(1);
                Err(DiskFault::Failed)
            }
        }
    }
}

// What tells the shape of a disk beside which a list stands.
static LISTED: &[u8] =
    b"{\"cache\":64,\"code\":\"none\",\"geometry\":\"64,32,8,32,32\",\"lost\":true,\"share\":15,\"version\":2}\n";

// The bytes of 256 pages of 64 and 32 bytes.
const DUMP_BYTES: usize = 24_576;

impl MemoryFiles {
    /// No disk, and a dump of erased pages.
    pub fn new(alloc: Global) -> MemoryFiles {
        MemoryFiles {
            alloc,
            trouble: Trouble::Calm,
            disks: Vec::new(alloc),
        }
    }

    fn find(&self, path: &str) -> Option<&MemoryDisk> {
        self.disks.iter().find(|disk| disk.path.as_str() == path)
    }

    // A store with a copy of the pages of a disk.
    fn store_at(
        &self,
        alloc: Global,
        path: &str,
        geometry: &Geometry,
    ) -> Result<MemoryStore, DiskFileFault>
        ensures { IfOk result (λ store. store.geometry ≡ geometry.now) }
    {
        match self.find(path) {
            Some(disk) => store_of(geometry, copied(alloc, &disk.pages)?),
            None => Err(DiskFileFault::Read),
        }
    }
}

// The dump. A caller's proof need not know its bytes.
fn dump_bytes(alloc: Global) -> Result<Vec<u8>, DiskFileFault> {
    match vec![in alloc; 0xFF; DUMP_BYTES] {
        Ok(bytes) => Ok(bytes),
        Err(_) => Err(DiskFileFault::OutOfMemory),
    }
}

// A copy of bytes.
fn copied(alloc: Global, bytes: &[u8]) -> Result<Vec<u8>, DiskFileFault> {
    let mut copy = Vec::new(alloc);
    match copy.extend_from_slice(bytes) {
        Ok(()) => Ok(copy),
        Err(_) => Err(DiskFileFault::OutOfMemory),
    }
}

// A store of these bytes, where they are as many as the die's pages have.
fn store_of(geometry: &Geometry, bytes: Vec<u8>) -> Result<MemoryStore, DiskFileFault>
    ensures { IfOk result (λ store. store ≡ record { geometry = geometry.now; pages = raw_image geometry.now bytes.items }) }
{
    let length = bytes.len() as u64;
    match MemoryStore::new(*geometry, bytes) {
        Some(store) => Ok(store),
        None => Err(DiskFileFault::Length(length)),
    }
}

// Adds the bytes of a page of a store.
fn add_page<S: Store>(
    alloc: Global,
    store: &mut S,
    row: u32,
    pages: &mut Vec<u8>,
) -> Result<(), AllocError>
    requires { row < row_count (S.held store.old).geometry }
{
    let geometry = store.geometry();
    let mut page = vec![in alloc; 0; geometry.data_bytes() + geometry.spare_bytes()]?;
    if store.load(row, &mut page).is_ok() {
        pages.extend_from_slice(&page)?;
    }
    Ok(())
}

/// The bytes of a store's pages, one after another.
pub fn pages_of<S: Store>(alloc: Global, store: &mut S) -> Result<Vec<u8>, AllocError> {
    let mut pages = Vec::new(alloc);
    for row in 0..store.geometry().rows() {
        if row >= store.geometry().rows() {
            break;
        }
        add_page(alloc, store, row, &mut pages)?;
    }
    Ok(pages)
}

impl DiskFiles for MemoryFiles {
    ghost use Rattle.std.specs.Prelude.{None, true};
    ghost use Rattle.disk_commands.specs.Files.{unknown_disk_files};

    type Locked = MemoryLock;

    type Store = MemoryStore;

    type Syncs = MemorySyncs;

    type Lists = MemoryLists;

    ghost answers = { λ _. record unknown_disk_files { honest = true } };

    ghost kept = { λ _. None };

    ghost part = { λ _. None };

    ghost opened = { λ _. None };

    fn has(&mut self, path: &str) -> Result<bool, DiskFileFault> {
        if matches!(self.trouble, Trouble::Unasked) {
            return Err(DiskFileFault::Read);
        }
        Ok(self.find(path).is_some())
    }

    fn lock(&mut self, path: &str, access: Access) -> Result<MemoryLock, DiskFileFault> {
        if matches!(self.trouble, Trouble::Busy) {
            return Err(DiskFileFault::InUse);
        }
        match self.find(path) {
            Some(_) => Ok(MemoryLock {
                writes: access.writes,
            }),
            None => Err(DiskFileFault::Read),
        }
    }

    fn shape_text(
        &mut self,
        alloc: Global,
        path: &str,
        _locked: &MemoryLock,
    ) -> Result<Vec<u8>, DiskFileFault> {
        if matches!(self.trouble, Trouble::Listed(_) | Trouble::Unlisted) {
            return copied(alloc, LISTED);
        }
        match self.find(path) {
            Some(disk) => copied(alloc, &disk.text),
            None => Err(DiskFileFault::Read),
        }
    }

    fn mark_text(&mut self, _alloc: Global, _path: &str) -> Result<Option<Vec<u8>>, DiskFileFault> {
        if matches!(self.trouble, Trouble::Unread) {
            return Err(DiskFileFault::Read);
        }
        Ok(None)
    }

    fn open(
        &mut self,
        alloc: Global,
        path: &str,
        _locked: MemoryLock,
        shape: &DiskShape,
    ) -> Result<(MemoryStore, MemorySyncs), DiskFileFault> {
        match self.store_at(alloc, path, &shape.geometry) {
            Ok(store) => Ok((
                store,
                MemorySyncs {
                    done: 0,
                    mark: none_found().mark,
                },
            )),
            Err(fault) => Err(fault),
        }
    }

    fn keep_mark(
        &mut self,
        _alloc: Global,
        _path: &str,
        syncs: MemorySyncs,
        found: FoundMark,
    ) -> Result<MemorySyncs, DiskFileFault> {
        if matches!(self.trouble, Trouble::Unmarked) {
            return Err(DiskFileFault::Write);
        }
        Ok(MemorySyncs {
            done: syncs.done,
            mark: found.mark,
        })
    }

    fn create(
        &mut self,
        alloc: Global,
        _path: &str,
        shape: &DiskShape,
    ) -> Result<MemoryStore, DiskFileFault> {
        if matches!(self.trouble, Trouble::Full) {
            return Err(DiskFileFault::Write);
        }
        let Ok(pages) = vec![in alloc; 0xFF; raw_bytes(&shape.geometry) as usize] else {
            return Err(DiskFileFault::OutOfMemory);
        };
        store_of(&shape.geometry, pages)
    }

    fn copy(
        &mut self,
        alloc: Global,
        _path: &str,
        shape: &DiskShape,
        dump: &str,
    ) -> Result<MemoryStore, DiskFileFault> {
        if dump != "dump" {
            return Err(DiskFileFault::Read);
        }
        match dump_bytes(alloc) {
            Ok(pages) => store_of(&shape.geometry, pages),
            Err(fault) => Err(fault),
        }
    }

    fn keep(&mut self, path: &str, store: MemoryStore, text: &[u8]) -> Result<(), DiskFileFault> {
        if matches!(self.trouble, Trouble::Unkept) {
            return Err(DiskFileFault::Write);
        }
        match kept_disk(self.alloc, path, store, text) {
            Ok(disk) => match self.disks.push(disk) {
                Ok(()) => Ok(()),
                Err(_) => Err(DiskFileFault::OutOfMemory),
            },
            Err(_) => Err(DiskFileFault::OutOfMemory),
        }
    }

    fn discard(&mut self, _path: &str) {}

    fn lost_text(
        &mut self,
        alloc: Global,
        _path: &str,
        _most: u64,
    ) -> Result<Vec<u8>, DiskFileFault> {
        match self.trouble {
            Trouble::Listed(text) => copied(alloc, text),
            _ => Err(DiskFileFault::Read),
        }
    }

    fn lists(
        &mut self,
        alloc: Global,
        _path: &str,
        _syncs: &MemorySyncs,
        beside: &[u8],
    ) -> Result<MemoryLists, DiskFileFault> {
        let Ok(copy) = beside.to_vec(alloc) else {
            return Err(DiskFileFault::OutOfMemory);
        };
        let mut place = MemoryLists::new(alloc);
        place.beside = copy;
        Ok(place)
    }
}

fn kept_disk(
    alloc: Global,
    path: &str,
    mut store: MemoryStore,
    text: &[u8],
) -> Result<MemoryDisk, AllocError> {
    let mut beside = Vec::new(alloc);
    beside.extend_from_slice(text)?;
    Ok(MemoryDisk {
        path: path.to_string(alloc)?,
        pages: pages_of(alloc, &mut store)?,
        text: beside,
    })
}
