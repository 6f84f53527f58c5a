//! The disk of the die that a store holds.
ghost use Rattle.std.specs.Prelude.{◌≡◌, ◌≤◌, [], ℕ, true, IfOk, IfErr};
ghost use Rattle.mount.specs.Mounted.{IsMounted};
ghost use Rattle.disk_server.specs.Disk.{contents_of, holds};
ghost use Rattle.disk_server.specs.Opened.{bytes_of, flash_in, flash_as_opened, is_honest_in, ComesBack, HasCome, IsStoreUnopened, IsUnopenedAt, IsUnstarted, SyncsWhen, why_of, view_in};
ghost use Rattle.disk_server.specs.Open.{nand_of};

use crate::device_disk::DeviceDisk;
use crate::mounted::{nand_behind, open_mounted};
use crate::open::OpenFault;
use crate::sector_disk::SectorDisk;
use certificate::Certificate;
use file_die::{FileDie, Store, SyncWhen};
use image_check::Refusal;
use mount::mount;
use onfi_cycles::Driver;
use std::alloc::Global;
use std::error::Error;
use std::fmt;

/// The disk of a device over the die that a store holds.
pub type StoreDisk<S> = SectorDisk<DeviceDisk<Driver<FileDie<S>>>>;

/// Why a store has no disk. (This project's.)
#[derive(Clone, Copy, Debug, PartialEq, Eq)]
pub enum OpenStoreFault {
    /// A growth was refused.
    OutOfMemory,
    /// The store failed to load a page.
    Device,
    /// The die over it took no reset.
    Reset,
    /// The device over the die failed to flush what a stop had left. Only `open_stopped` answers so.
    Flush,
    /// No device of the die's geometry may have this share. Nothing was asked of the store.
    Share,
    /// Its pages are no die with a device on it that a cache of this size goes with.
    Mount(Refusal),
}

impl Error for OpenStoreFault {}

impl fmt::Display for OpenStoreFault {
    ghost use Rattle.std.specs.Prelude.{Some};
    ghost use Rattle.disk_server.specs.Words.{open_words};

    ghost output = { λ fault. Some (open_words fault) };

    fn fmt<W: fmt::Write>(&self, f: &mut fmt::Formatter<W>) -> fmt::Result {
        match *self {
            OpenStoreFault::OutOfMemory => f.write_str("OutOfMemory"),
            OpenStoreFault::Device => f.write_str("Device"),
            OpenStoreFault::Reset => f.write_str("Reset"),
            OpenStoreFault::Flush => f.write_str("Flush"),
            OpenStoreFault::Share => f.write_str("Share"),
            OpenStoreFault::Mount(refusal) => write!(f, "Mount {refusal}"),
        }
    }
}

// A driver of the die that a store holds. None of its blocks is bad to the die: those that are bad to the device stand in its table.
pub(crate) fn driver_over<S: Store + Drop>(
    alloc: Global,
    store: S,
    sync_when: SyncWhen,
) -> Result<Driver<FileDie<S>>, (S, OpenStoreFault)>
    ensures honest { IfOk result (λ d. is_honest_in S.honest d ≡ S.honest store) }
    ensures geometry { IfOk result (λ d. d.geometry ≡ (S.held store).geometry) }
    ensures syncs { IfOk result (SyncsWhen sync_when) }
    ensures clear { IfOk result (λ d. d.told.at_hand ≡ []) }
    ensures flash { IfOk result (λ d. S.honest store ≡ true → flash_in S.held d ≡ flash_as_opened (S.held store)) }
    ensures pages { IfOk result (λ d. S.honest store ≡ true → (flash_in S.held d).image ≡ (S.held store).pages) }
    ensures fault { IfErr result (λ e. IsUnopenedAt S.held S.honest S.failed store e.0 e.1) }
    ensures given { IfErr result (λ e. ComesBack S.held S.honest store e.1 e.0) }
{
    let die = match FileDie::open(alloc, store, &[], sync_when) {
        Ok(die) => die,
        Err((store, file_die::OpenDieFault::OutOfMemory)) => {
            return Err((store, OpenStoreFault::OutOfMemory));
        }
        Err((store, file_die::OpenDieFault::BadBlock { .. } | file_die::OpenDieFault::Store)) => {
            return Err((store, OpenStoreFault::Device));
        }
    };
    let geometry = die.geometry();
    match Driver::new(die, geometry) {
        Ok(driver) => Ok(driver),
        Err((die, _)) => Err((die.into_store(), OpenStoreFault::Reset)),
    }
}

// The store behind a driver.
fn store_behind<S: Store + Drop>(driver: Driver<FileDie<S>>) -> S
    ensures store { result ≡ driver.bus.store }
    ensures geometry { S.honest driver.bus.store ≡ true → (S.held result).geometry ≡ driver.geometry }
    ensures counted { S.honest driver.bus.store ≡ true → driver.failures ≤ S.failed result }
{
    driver.into_bus().into_store()
}

// Why there is no disk over a die, and the store that comes back.
fn unopened<S: Store + Drop>(fault: OpenFault<Driver<FileDie<S>>>) -> (S, OpenStoreFault)
    ensures store { result.0 ≡ (nand_of fault).bus.store }
    ensures geometry { S.honest (nand_of fault).bus.store ≡ true → (S.held result.0).geometry ≡ (nand_of fault).geometry }
    ensures counted { S.honest (nand_of fault).bus.store ≡ true → (nand_of fault).failures ≤ S.failed result.0 }
    ensures why { result.1 ≡ why_of fault }
{
    match fault {
        OpenFault::Refused { refusal, nand } => (
            store_behind(nand),
            OpenStoreFault::Mount(refusal),
        ),
        OpenFault::Start { nand } => (store_behind(nand), OpenStoreFault::OutOfMemory),
    }
}

/// The certificate of the die that a store holds, and nothing is started. It is for a cache of `capacity` entries. The store comes back, its pages as they were.
///
/// # Errors
///
/// As `open_store`. (This project's.)
pub fn mount_store<S: Store + Drop>(
    alloc: Global,
    store: S,
    capacity: u32,
) -> Result<(S, Certificate), (S, OpenStoreFault)>
    requires least { 1 ≤ capacity }
    requires most { capacity ≤ 65536 }
    ensures mounted { IfOk result (λ made. S.honest store ≡ true → IsMounted (S.held store).geometry capacity (S.held store).pages made.1) }
    ensures back { IfOk result (λ made. HasCome S.held S.honest store made.0) }
    ensures fault { IfErr result (λ e. IsStoreUnopened S.held S.honest S.failed store capacity e.0 e.1) }
    ensures given { IfErr result (λ e. ComesBack S.held S.honest store e.1 e.0) }
{
    let geometry = store.geometry();
    let mut driver = driver_over(alloc, store, SyncWhen::Erases)?;
    match mount(alloc, &mut driver, &geometry, capacity) {
        Ok(certificate) => Ok((store_behind(driver), certificate)),
        Err(refusal) => Err((store_behind(driver), OpenStoreFault::Mount(refusal))),
    }
}

/// Opens the disk of the die that a store holds: its pages are mounted, and a device with a cache of `capacity` entries is started, in which `share` moved sectors may wait for each translation page in the mean. **Of a store that is honest
/// the disk's bytes are those of the array that its pages hold, one sector behind another, and it is honest.** The pages stay, and in the
/// record of its driver nothing is at hand. The die syncs the store as `sync_when` says.
///
/// # Errors
///
/// `Mount` with what keeps the pages from being mounted, which is so of an honest store: `Mount(OutOfMemory)` where a growth was refused meanwhile, `Mount(Source)` where a page could not be read, and then an honest
/// one has counted a failure. `Device` where a load failed before that, `Reset` where the die over the store took no reset. `OutOfMemory` where a growth was refused before that, and no load had failed, or once the pages were mounted. `Share` where the geometry has no such share, and then nothing is asked of the store. The store comes back, its pages as they were but where a load failed. (This project's.)
pub fn open_store<S: Store + Drop>(
    alloc: Global,
    store: S,
    capacity: u32,
    share: u32,
    sync_when: SyncWhen,
) -> Result<StoreDisk<S>, (S, OpenStoreFault)>
    requires least { 1 ≤ capacity }
    requires most { capacity ≤ 65536 }
    ensures geometry { IfOk result (λ d. d.engine.geometry ≡ (S.held store).geometry) }
    ensures entries { IfOk result (λ d. d.engine.mapping.capacity ≡ capacity) }
    ensures share { IfOk result (λ d. d.engine.mapping.share ≡ share) }
    ensures syncs { IfOk result (λ d. SyncsWhen sync_when d.engine.nand) }
    ensures honest { IfOk result (λ d. holds (is_honest_in S.honest) d ≡ S.honest store) }
    ensures bytes { IfOk result (λ d. S.honest store ≡ true → (contents_of (view_in S.held S.honest S.failed) d).bytes ≡ bytes_of (S.held store)) }
    ensures pages { IfOk result (λ d. S.honest store ≡ true → flash_in S.held d.engine.nand ≡ flash_as_opened (S.held store)) }
    ensures clear { IfOk result (λ d. S.honest store ≡ true → d.engine.nand.told.at_hand ≡ []) }
    ensures fault { IfErr result (λ e. IsUnstarted S.held S.honest S.failed store capacity share e.0 e.1) }
    ensures given { IfErr result (λ e. ComesBack S.held S.honest store e.1 e.0) }
{
    let geometry = store.geometry();
    if !geometry.is_share(share) {
        return Err((store, OpenStoreFault::Share));
    }
    let driver = driver_over(alloc, store, sync_when)?;
    match open_mounted(alloc, driver, &geometry, capacity, share) {
        Ok(disk) => Ok(disk),
        Err(fault) => Err(unopened(fault)),
    }
}

/// The store of a disk, as the disk has left it. What its device had not flushed stands in its pages all the same: where the disk holds its array, the pages do. (This project's.)
pub fn close_store<S: Store + Drop>(disk: StoreDisk<S>) -> S
    ensures store { result ≡ disk.engine.nand.bus.store }
    ensures honest { holds (is_honest_in S.honest) disk ≡ true → S.honest result ≡ true }
    ensures bytes { holds (is_honest_in S.honest) disk ≡ true → bytes_of (S.held result) ≡ (contents_of (view_in S.held S.honest S.failed) disk).bytes }
{
    store_behind(nand_behind(disk))
}
