//! A disk of bytes over a block device, and the disk in a store of pages: formatted, mounted and served.
//!
//! - `SectorDisk`: a disk of bytes over a device of whole sectors. A range of bytes is whole sectors and at most two parts of one, which
//!   are read, changed and written.
//! - `DeviceDisk`: the block device as such a device of whole sectors; `open_checked` starts one.
//! - `open_mounted`: the disk of a die, started from a mount, so that each page is looked at once.
//! - `open_store`: the same over the die that a store holds; `close_store` gives the store back.
//! - `open_stopped`: the same where the die may have been stopped, with more that is stale than the cache has room for.
//! - `ReopenedDevice`: the device of a store, which is opened anew where the store was full, so that a change has no room and the next one may have.
//! - `format_store`: a store of erased pages becomes a die with a device on it.
//! - `SyncedDisk`: a disk whose flushes and durable changes end with a sync of what it is kept in, and of whose changes no more than a `SyncPace` says lack one;
//!   `serve_synced` serves it. A flush is that sync alone; the device is flushed as the disk is closed. After a sync that failed it answers nothing but that it failed. With each sync goes a
//!   `SyncMark`: up to which sequence all pages were synced.
//! - `GuardedSectors`: a device of sectors of which some are lost, with a list of them that lasts: these are not read until they are written or trimmed.
//! - `ReadOnlyDisk`: a disk that asks for reads of sectors alone; `serve_reading` serves it.
//!
//! All of it is this project's.
#![tactic(auto)]

mod answer;
mod device_disk;
mod format;
mod guarded;
pub mod laws;
mod mark;
mod mounted;
mod open;
mod opened;
mod pieces;
mod ranges;
mod reading;
mod reopened;
mod sector_disk;
mod sectors;
mod served;
mod stopped;
mod synced;

pub use device_disk::DeviceDisk;
pub use format::{CreateFault, format_store};
pub use guarded::{GuardedSectors, KeepsLost};
pub use mark::SyncMark;
pub use mounted::open_mounted;
pub use open::{OpenFault, open_checked};
pub use opened::{OpenStoreFault, StoreDisk, close_store, mount_store, open_store};
pub use reading::ReadOnlyDisk;
pub use reopened::ReopenedDevice;
pub use sector_disk::SectorDisk;
pub use sectors::{Lasting, Sectors};
pub use served::{Offer, serve_reading, serve_synced};
pub use stopped::open_stopped;
pub use synced::{LastingDisk, Sequenced, SyncPace, SyncedDisk, Syncs};
