//! Looking at raw images: the plain scan, which gives one sector, and the exact checker, which holds a certificate against an image. The
//! checker's survey of all pages, and what follows from it whatever a certificate says, serve to make a certificate too. A dump that a reader
//! gives, a stream, is read page by page (`DumpReader`, `read_page`), for whoever takes the pages.
#![tactic(auto)]

mod accepted;
mod blocks;
mod checker;
mod dump_reader;
mod judge;
pub mod laws;
mod live;
mod look;
mod newest;
mod noted_sectors;
mod page_notes;
mod page_reader;
mod parts;
mod pass;
mod refusal;
mod scan;
mod scratch;
mod sequences;
mod stale;
mod stale_notes;
mod states;
mod stream;
mod survey;
mod tables;

pub use accepted::Accepted;
pub use checker::check;
pub use dump_reader::{DumpFault, DumpReader};
pub use judge::{describe, describe_blocks};
pub use newest::Newest;
pub use page_reader::{Cut, fill, is_at_end, read_page};
pub use refusal::Refusal;
pub use scan::{SectorFault, sector, sector_in};
pub use scratch::Scratch;
pub use sequences::first_repeated;
pub use stale::find_stale;
pub use stream::check_stream;
pub use survey::Survey;
