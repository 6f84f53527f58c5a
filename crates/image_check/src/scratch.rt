//! What the parts are judged on.
ghost use Rattle.std.specs.Prelude.{◌≡◌, length, IfOk};
ghost use Rattle.image_check.specs.Room.{IsScratch};

use bad_blocks::{Class, Table, TableRow};
use certificate::BlockState;
use page_layout::geometry::Geometry;
use std::alloc::{AllocError, Global};

/// A table of as many blocks as the geometry has, for the newest table pages to be read into.
fn blank_table(alloc: Global, blocks: u32) -> Result<Table, AllocError>
    ensures { IfOk result (λ table. length table ≡ blocks) }
{
    let row = TableRow {
        class: Class::Good,
        wear: 0,
    };
    let rows = vec![in alloc; row; blocks as usize]?;
    Table::new(alloc, &rows)
}

/// The memory that the judges write into: what the newest table pages say, and of each block its newest pages and its state. (This project's.)
#[derive(Drop)]
pub struct Scratch {
    pub(crate) table: Table,
    pub(crate) counts: Vec<u32>,
    /// The state of each block, once they were described.
    pub states: Vec<BlockState>,
}

impl Scratch {
    /// Nothing written yet: some bytes a block. `AllocError` where a growth was refused.
    pub fn new(alloc: Global, geometry: &Geometry) -> Result<Scratch, AllocError>
        ensures { IfOk result (IsScratch geometry.now) }
    {
        let blocks = geometry.blocks();
        Ok(Scratch {
            table: blank_table(alloc, blocks)?,
            counts: vec![in alloc; 0; blocks as usize]?,
            states: Vec::with_capacity(alloc, blocks as usize)?,
        })
    }
}
