//! The blocks of a die: their classes, how far each is filled, and which are open.
ghost use Rattle.allocation.specs.State.{AreBlocksSafe};

use crate::begin::{begun_fills, begun_rows, count_free, first_data, first_meta};
use crate::fill::Fill;
use bad_blocks::{Class, Table};
use budget::Stream;
use certificate::BlockState;
use page_layout::geometry::Geometry;
use std::alloc::{AllocError, Global};

/// The blocks of a die: the class and the erase count of each, which the table alone holds, how far
/// it is filled, and which block each stream has open. Contracts see a `State`.
///
/// Source: this project.
#[derive(Drop)]
pub struct Blocks {
    pub(crate) geometry: Geometry,
    pub(crate) table: Table,
    pub(crate) fills: Vec<Fill>,
    pub(crate) free: u32,
    pub(crate) data_open: Option<u32>,
    pub(crate) meta_open: Option<u32>,
    pub ghost safe: { AreBlocksSafe free (record { geometry = geometry; table = table; fills = fills.items; data_open = data_open; meta_open = meta_open }) },
}

impl Blocks {
    ghost use Rattle.std.specs.Prelude.{◌≡◌, ◌<◌, length, IfOk};
    ghost use Rattle.bad_blocks.specs.Table.{class_at, wear_at, good_count};
    ghost use Rattle.allocation.specs.Begun.{begun};
    ghost use Rattle.allocation.specs.State.{free_count, open_of, live_at, is_closed, is_free};
    ghost use Rattle.allocation.specs.View.{state};

    /// The blocks as a certificate gives them. Whatever it says is taken: a write pointer and an
    /// erase count up to the greatest that there is, and of blocks said to be open in one stream
    /// the first that is partly filled.
    ///
    /// This call alone takes memory, and fails for want of it alone.
    pub fn new(
        alloc: Global,
        geometry: &Geometry,
        states: &[BlockState],
    ) -> Result<Blocks, AllocError>
        requires { length states.now ≡ geometry.now.blocks }
        ensures { IfOk result (λ b. state b ≡ begun geometry.now states.now) }
    {
        let pages = geometry.pages();
        let table = Table::new(alloc, &begun_rows(alloc, states)?)?;
        let fills = begun_fills(alloc, pages, states)?;
        let free = count_free(&table, &fills);
        Ok(Blocks {
            geometry: *geometry,
            table,
            fills,
            free,
            data_open: first_data(pages, states),
            meta_open: first_meta(pages, states),
        })
    }

    /// The geometry of the die.
    pub fn geometry(&self) -> Geometry
        ensures { result ≡ (state self.now).geometry }
    {
        self.geometry
    }

    /// The number of free blocks: good ones with all pages erased.
    pub fn free(&self) -> u32
        ensures { result ≡ free_count (state self.now) }
    {
        self.free
    }

    /// The number of good blocks.
    pub fn good(&self) -> u32
        ensures { result ≡ good_count (state self.now).table }
    {
        self.table.good()
    }

    /// The open block of a stream, if it has one.
    pub fn open(&self, stream: Stream) -> Option<u32>
        ensures { result ≡ open_of (state self.now) stream }
    {
        match stream {
            Stream::Data => self.data_open,
            Stream::Meta => self.meta_open,
        }
    }

    /// The classes and the erase counts, as table pages hold them.
    pub fn table(&self) -> &Table
        ensures { result.now ≡ (state self.now).table }
    {
        &self.table
    }

    /// The live pages of a block, of whatever class.
    pub fn live(&self, block: u32) -> u32
        requires { block < (state self.now).geometry.blocks }
        ensures { result ≡ live_at (state self.now) block }
    {
        self.fills[block as usize].live
    }

    pub(crate) fn is_open(&self, block: u32) -> bool
        ensures { result ≡ Rattle.allocation.specs.State.is_open (state self.now) block }
    {
        self.data_open == Some(block) || self.meta_open == Some(block)
    }

    pub(crate) fn is_free(&self, block: u32) -> bool
        requires { block < (state self.now).geometry.blocks }
        ensures { result ≡ is_free (state self.now) block }
    {
        self.table.class(block) == Class::Good && self.fills[block as usize].pointer == 0
    }

    /// Whether a block is good, and neither free nor open.
    pub fn closed(&self, block: u32) -> bool
        requires { block < (state self.now).geometry.blocks }
        ensures { result ≡ is_closed (state self.now) block }
    {
        self.table.class(block) == Class::Good
            && self.fills[block as usize].pointer != 0
            && !self.is_open(block)
    }
}
