//! The table of blocks: the class and the erase count of each.
ghost use Rattle.std.specs.Prelude.{◌≡◌, ◌≢◌, ◌+◌, ◌<◌, ◌≤◌, ◌^◌, All, IfOk, length};
ghost use Rattle.bad_blocks.specs.Table.{class_at, wear_at, good_count, most_wear, retired, erased_once, HasFittingWear};

pub mod page;

use crate::class::Class;
use std::alloc::{AllocError, Global};
use std::marker::Model;

/// The erase count at which counting stops, the greatest that a table page can hold.
pub const MOST_WEAR: u32 = 16_777_215;

/// What the table says of one block.
#[derive(Clone, Copy, Debug, PartialEq, Eq)]
pub struct TableRow {
    /// What is known of the block.
    pub class: Class,
    /// How often the block was erased, as far as it is counted.
    pub wear: u32,
}

/// The class and the erase count of each block of a die (this project). Contracts see it as the
/// list of its rows.
#[derive(Drop)]
pub struct Table {
    rows: Vec<TableRow>,
    // How many rows are of good blocks.
    good: u32,
}

impl Model for Table {
    ghost use Rattle.std.specs.Prelude.{◌≡◌, ◌<◌, ◌^◌, List, length, All};
    ghost use Rattle.bad_blocks.specs.declared.table.TableRow.{TableRow};
    ghost use Rattle.bad_blocks.specs.Table.{good_count, HasFittingWear};

    ghost Value = { List TableRow };

    ghost view = { λ t. t.rows.items };

    ghost invariant = { λ t. (t.good ≡ good_count t.rows.items) × (length t.rows.items < 2 ^ 32) × All HasFittingWear t.rows.items };
}

fn count_good(rows: &[TableRow]) -> u32
    requires { length rows.now < 2 ^ 32 }
    ensures { result ≡ good_count rows.now }
{
    rows.iter().filter(|row| row.class == Class::Good).count() as u32
}

impl Table {
    /// A table with these rows, whose erase counts are at most 16777215. This call alone takes memory.
    pub fn new(alloc: Global, rows: &[TableRow]) -> Result<Table, AllocError>
        requires few { length rows.now < 2 ^ 32 }
        requires counted { All HasFittingWear rows.now }
        ensures { IfOk result (λ table. table ≡ rows.now) }
    {
        Ok(Table {
            rows: Vec::from_slice(alloc, rows)?,
            good: count_good(rows),
        })
    }

    /// What is known of a block.
    pub fn class(&self, block: u32) -> Class
        requires { block < length self.now }
        ensures { result ≡ class_at self.now block }
    {
        self.rows[block as usize].class
    }

    /// How often the block was erased, at most 16777215.
    pub fn wear(&self, block: u32) -> u32
        requires { block < length self.now }
        ensures is { result ≡ wear_at self.now block }
        ensures most { result ≤ most_wear }
    {
        self.rows[block as usize].wear
    }

    /// The number of good blocks.
    pub fn good(&self) -> u32
        ensures { result ≡ good_count self.now }
    {
        self.good
    }

    /// A program or an erase of the block failed: a good block is grown bad from now on. A block
    /// that is bad already stays as it is.
    pub fn retire(&mut self, block: u32)
        requires { block < length self.old }
        ensures good { class_at self.old block ≡ Class.Good → self.new ≡ retired self.old block }
        ensures bad { class_at self.old block ≢ Class.Good → self.new ≡ self.old }
    {
        let row = &mut self.rows[block as usize];
        if row.class == Class::Good {
            row.class = Class::Grown;
            self.good -= 1;
        }
    }

    /// An erase of the block passed. A count that stands at 16777215 stays there.
    pub fn count_erase(&mut self, block: u32)
        requires { block < length self.old }
        ensures { self.new ≡ erased_once self.old block }
    {
        let row = &mut self.rows[block as usize];
        row.wear = (row.wear + 1).min(MOST_WEAR);
    }
}
