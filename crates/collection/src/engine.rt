//! The engine's memory.
use crate::fault::EngineFault;
use allocation::Blocks;
use mapping_cache::Mapping;
use onfi_cycles::Nand;
use page_layout::geometry::Geometry;
use translation_pages::Directory;

mod begin;
mod cache;
mod collect;
mod collect_in_turns;
mod collect_steps;
mod entries;
mod gate;
mod live;
mod look;
mod operations;
mod put;
mod renew;
mod rescue;
mod room;
mod settle;
mod table;
mod write;
mod write_back;

pub use collect_in_turns::Step;
pub use room::{LEAST_FREE, Reserve};

/// The data area and the spare area of one page. (This project.)
#[derive(Drop)]
pub struct Buffer {
    /// The data area.
    pub body: Vec<u8>,
    /// The spare area.
    pub spare: Vec<u8>,
}

/// A block that is being collected from turn to turn. (This project.)
#[derive(Clone, Copy, Debug, PartialEq, Eq)]
pub struct Pinned {
    /// The block.
    pub block: u32,
    /// The page from which its next live page is looked for: none before it is live.
    pub first: u32,
}

/// A die with what is known of it in memory: where the newest pages are, and what each block may be
/// used for.
///
/// Contracts see the memory as a `Ram`, and the die by its `Flash`. Once a `put`, `write_back`,
/// `collect`, `step`, `make_room`, `rescue_one`, `next_old`, `renew_at`, `write_sector`, `trim_sector` or
/// `write_table` was refused,
/// each of these answers the same fault ever after.
///
/// Source: the DFTL paper, for the directory, the cached mapping table and the two streams; the rest
/// is this project's.
#[derive(Drop)]
pub struct Engine<N: Nand> {
    /// The die.
    pub nand: N,
    /// Its geometry.
    pub geometry: Geometry,
    /// What each block may be used for.
    pub blocks: Blocks,
    /// The rows of the newest translation pages and table pages.
    pub directory: Directory,
    /// The rows of cached and of moved sectors.
    pub mapping: Mapping,
    /// The sequence of the page that is programmed next.
    pub next: u64,
    /// The fault that every call answers again that programs or makes room.
    pub fault: Option<EngineFault>,
    /// The page that is programmed next.
    pub page: Buffer,
    /// A page that is looked at.
    pub scratch: Buffer,
    /// The block that is being collected from turn to turn.
    pub pinned: Option<Pinned>,
    /// For each translation page, whether a collection has to write it.
    pub marks: Vec<bool>,
}
