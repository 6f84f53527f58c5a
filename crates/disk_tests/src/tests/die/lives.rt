//! Lives of disks: each is looked at, its list of lost sectors is kept, what was torn is taken away, it is asked something, and closed.
ghost use Rattle.std.specs.Prelude.{◌≡◌, true};
ghost use Rattle.image_check.specs.Agrees.{Agrees};

use crate::tests::commands::files::{MemoryLists, pages_of};
use crate::tests::device::disks::over;
use crate::tests::steps::{Step, does_each};
use certificate::Certificate;
use coded_store::TellsMended;
use disk_damage::{bad_blocks, mount_and_find};
use disk_recovery::{list_first, recover_listed};
use disk_server::{
    GuardedSectors, KeepsLost, Lasting, StoreDisk, close_store, format_store, open_stopped,
    open_store,
};
use file_die::{Store, SyncWhen};
use std::alloc::Global;
use std::process::Abort;

// Bytes and sectors of a disk.
const SIZE: u64 = 2048;

const SECTORS: usize = 32;

const ENTRIES: u32 = 64;

// How many moved sectors may wait for each translation page.
const SHARE: u32 = 15;

/// A life of a disk: the mark beside it, which bits were turned back and how many pages are lost to its code, how many blocks are bad and which sectors are lost as it is looked at; whether it is to be
/// written, and whether the list of its lost sectors can be kept; and what it is asked.
pub struct Life {
    pub synced: u64,
    pub flushed: u64,
    pub turned: u64,
    pub unread: u64,
    pub bad: usize,
    pub lost: &'static [usize],
    pub writes: bool,
    pub keeps: bool,
    pub steps: &'static [Step],
}

/// One of a disk that has no mark and no damage.
pub const QUIET: Life = Life {
    synced: u64::MAX,
    flushed: 0,
    turned: 0,
    unread: 0,
    bad: 0,
    lost: &[],
    writes: true,
    keeps: true,
    steps: &[],
};

/// A disk between two lives: its store, the list beside it, and whether all was as it had to be so far.
#[derive(Drop)]
pub struct Between<S: Store + Drop> {
    pub store: S,
    pub keeper: MemoryLists,
    pub held: bool,
}

// The store of a disk once it was asked this, and whether it answered so.
fn asked_plain<S: Store + Drop>(disk: StoreDisk<S>, steps: &[Step]) -> (S, bool) {
    let mut disk = disk;
    let held = does_each(&mut disk, SIZE, steps);
    (close_store(disk), held)
}

// A store of erased pages, formatted.
fn formatted<S: Store + Drop>(rt: &impl Abort, alloc: Global, store: S) -> S {
    match format_store(alloc, store, SHARE) {
        Ok((store, _)) => store,
        Err(_) => panic!(rt; "not formatted"),
    }
}

// The disk of a store that was formatted.
fn opened_new<S: Store + Drop>(rt: &impl Abort, alloc: Global, store: S) -> StoreDisk<S> {
    match open_store(alloc, store, ENTRIES, SHARE, SyncWhen::Erases) {
        Ok(disk) => disk,
        Err(_) => panic!(rt; "not opened"),
    }
}

/// A new disk in a store of erased pages, once it was asked this.
pub fn born<S: Store + Drop>(
    rt: &impl Abort,
    alloc: Global,
    store: S,
    steps: &[Step],
) -> Between<S> {
    let disk = opened_new(rt, alloc, formatted(rt, alloc, store));
    let (store, held) = asked_plain(disk, steps);
    Between {
        store,
        keeper: MemoryLists::new(alloc),
        held,
    }
}

// A store that was mounted, with its certificate. Its lost sectors are added to a list.
fn mounted<S: Store + Drop>(
    rt: &impl Abort,
    alloc: Global,
    store: S,
    flushed: u64,
    lost: &mut [bool],
) -> (S, Certificate)
    ensures { S.honest result.0 ≡ true → Agrees (S.held result.0).geometry 65536 (S.held result.0).pages result.1 }
{
    match mount_and_find(alloc, store, flushed, lost) {
        Ok(made) => made,
        Err(_) => panic!(rt; "not mounted"),
    }
}

// Whether these sectors are lost, and no other.
fn are_lost(lost: &[bool], sectors: &[usize]) -> bool {
    let mut same = true;
    for sector in 0..lost.len() {
        same = lost[sector] == sectors.contains(&sector) && same;
    }
    same
}

// Whether so many blocks are bad.
fn has_bad(rt: &impl Abort, alloc: Global, certificate: &Certificate, count: usize) -> bool {
    let blocks = bad_blocks(alloc, certificate).expect(rt, "the bad blocks");
    blocks.len() == count
}

// Whether so many bits of a store were turned back, and so many pages are lost to its code.
fn has_mended<S: TellsMended>(store: &S, life: &Life) -> bool {
    let mended = store.mended();
    mended.turned == life.turned && mended.lost == life.unread
}

// The disk of a store that was looked at; the store, where the list of its lost sectors was not kept.
fn opened<S: Store + Drop>(
    rt: &impl Abort,
    alloc: Global,
    store: S,
    certificate: &Certificate,
    keeper: &mut MemoryLists,
    lost: &[bool],
    mark: u64,
) -> Result<StoreDisk<S>, S>
    requires { S.honest store ≡ true → Agrees (S.held store).geometry 65536 (S.held store).pages certificate.now }
{
    let listed = list_first(store, keeper, lost)?;
    match recover_listed(
        alloc,
        listed,
        certificate,
        ENTRIES,
        SHARE,
        mark,
        SyncWhen::Erases,
    ) {
        Ok(disk) => Ok(disk),
        Err(_) => panic!(rt; "not recovered"),
    }
}

// The disk of a store that is only read.
fn reading<S: Store + Drop>(rt: &impl Abort, alloc: Global, store: S) -> StoreDisk<S> {
    match open_stopped(alloc, store, ENTRIES, SHARE, SyncWhen::Erases, false) {
        Ok(disk) => disk,
        Err(_) => panic!(rt; "not opened"),
    }
}

// Asks a disk over sectors of which some are lost, and gives both parts back, with whether it answered so.
fn asked_guarded<S: Lasting + Drop, K: KeepsLost + Drop>(
    rt: &impl Abort,
    alloc: Global,
    guarded: GuardedSectors<S, K>,
    steps: &[Step],
) -> (S, K, bool) {
    let mut disk = over(rt, alloc, guarded);
    let held = does_each(&mut disk, SIZE, steps);
    let (sectors, keeper) = disk.into_sectors().into_parts();
    (sectors, keeper, held)
}

// Asks a disk of which sectors are lost.
fn asked<S: Store + Drop>(
    rt: &impl Abort,
    alloc: Global,
    disk: StoreDisk<S>,
    keeper: MemoryLists,
    lost: Vec<bool>,
    steps: &[Step],
) -> Between<S> {
    let guarded = GuardedSectors::new(disk.into_sectors(), keeper, lost);
    let (device, keeper, held) = asked_guarded(rt, alloc, guarded, steps);
    Between {
        store: close_store(over(rt, alloc, device)),
        keeper,
        held,
    }
}

// Opens the disk of a store that was looked at, to be written, and asks it. The store comes back where the list of its lost sectors was not kept.
fn written<S: Store + Drop>(
    rt: &impl Abort,
    alloc: Global,
    store: S,
    certificate: &Certificate,
    keeper: MemoryLists,
    lost: Vec<bool>,
    life: &Life,
) -> Between<S>
    requires { S.honest store ≡ true → Agrees (S.held store).geometry 65536 (S.held store).pages certificate.now }
{
    let mut keeper = keeper;
    let mark = life.synced;
    let back = opened(rt, alloc, store, certificate, &mut keeper, &lost, mark);
    match back {
        Ok(disk) => asked(rt, alloc, disk, keeper, lost, life.steps),
        Err(store) => Between {
            store,
            keeper,
            held: !life.keeps,
        },
    }
}

// Opens the disk of a store that was looked at, to be read or written, and asks it.
fn lived_on<S: Store + Drop>(
    rt: &impl Abort,
    alloc: Global,
    store: S,
    certificate: &Certificate,
    keeper: MemoryLists,
    lost: Vec<bool>,
    life: &Life,
) -> Between<S>
    requires { S.honest store ≡ true → Agrees (S.held store).geometry 65536 (S.held store).pages certificate.now }
{
    if life.writes {
        written(rt, alloc, store, certificate, keeper, lost, life)
    } else {
        let disk = reading(rt, alloc, store);
        asked(rt, alloc, disk, keeper, lost, life.steps)
    }
}

// The list beside a disk, which can be kept in this life where the life says so.
fn keeper_in(keeper: MemoryLists, life: &Life) -> MemoryLists {
    let mut keeper = keeper;
    keeper.fails = !life.keeps;
    keeper
}

// Lives a life, and tells whether what is told of the disk is as it says, and what it is asked is answered so.
fn lived<S: Store + TellsMended + Drop>(
    rt: &impl Abort,
    alloc: Global,
    store: S,
    keeper: MemoryLists,
    life: &Life,
) -> Between<S> {
    let mut lost = keeper.list(SECTORS).expect(rt, "the list of lost sectors");
    let (store, certificate) = mounted(rt, alloc, store, life.flushed, &mut lost);
    let told = are_all([
        are_lost(&lost, life.lost),
        has_bad(rt, alloc, &certificate, life.bad),
        has_mended(&store, life),
    ]);
    let mut after = lived_on(rt, alloc, store, &certificate, keeper, lost, life);
    after.held = after.held && told;
    after
}

// Whether the pages of a store are as they were, or may not be.
fn stays(before: &[u8], after: &[u8], life: &Life) -> bool {
    before == after || (life.writes && life.keeps)
}

// Whether all of this is so.
fn are_all(these: [bool; 3]) -> bool {
    these == [true; 3]
}

/// Lives a life. One in which the disk is only read, or its list is not kept, has to leave its pages as they were.
pub fn live<S: Store + TellsMended + Drop>(
    rt: &impl Abort,
    alloc: Global,
    between: Between<S>,
    life: &Life,
) -> Between<S> {
    let Between {
        mut store,
        keeper,
        held,
    } = between;
    let before = pages_of(alloc, &mut store).expect(rt, "the pages before");
    let mut after = lived(rt, alloc, store, keeper_in(keeper, life), life);
    let left = pages_of(alloc, &mut after.store).expect(rt, "the pages after");
    after.held = are_all([held, after.held, stays(&before, &left, life)]);
    after
}
