//! Which sectors of the array of a dump are shown of a page that no reading has: one that was mended, or put together of several.
//!
//! - `trace_origins`: of each sector whether one of the readings that the dump was made of has its newest page, byte for byte, in the same row.
//! - `mended_count`: how many sectors no reading has.
//!
//! `lab_dump::print_map` prints the map of the array that tells such sectors apart. Nothing is taken from a side file: the pages are held beside those of the readings.

#![tactic(auto)]

mod laws;
mod mark;
mod newest;
mod readings;
mod room;
mod trace;

pub use laws::origin_laws;
pub use mark::mended_count;
pub use readings::ReadingFault;
pub use room::OriginRoom;
pub use trace::{OriginFault, trace_origins};
