//! Table pages: the bytes that keep the table on flash.
ghost use Rattle.std.specs.Prelude.{◌≡◌, ℕ, ◌+◌, ◌*◌, ◌/◌, ◌%◌, ◌<◌, ◌≤◌, ◌^◌, All, List, length, IsOk, IfErr, OnOk, OnErr};
ghost use Rattle.page_layout.specs.Limits.{IsDataSize};
ghost use Rattle.bad_blocks.specs.Table.{HasFittingWear, unworn};
ghost use Rattle.bad_blocks.specs.TablePage.{word_of, table_word, is_right, table_bytes, IsTablePage, IsWellFormed, IsFirstWrongWord, KeepsOthers};

use super::{Table, TableRow, count_good};
use crate::class::Class;
use page_layout::word::{read_word, write_word};
use thiserror::Error;

// The word of a block past the last one.
const PADDING: u32 = 0xffff_ffff;

// The codes of classes are below this.
const CLASSES: u32 = 3;

/// What is wrong with the bytes of a table page (this project).
#[derive(Clone, Copy, Debug, PartialEq, Eq, Error)]
pub enum TableFault {
    /// The lowest wrong row is of a block of the die: its class is 3 or more.
    #[error("BadClass")]
    BadClass,
    /// The lowest wrong row is past the last block: it isn't FFFFFFFFh.
    #[error("BadPadding")]
    BadPadding,
}

fn word_from(row: TableRow) -> u32
    requires { HasFittingWear row }
    ensures { result ≡ word_of row }
{
    row.class.code() as u32 + 256 * row.wear
}

fn word_of_block(rows: &[TableRow], block: usize) -> u32
    requires { All HasFittingWear rows.now }
    ensures { result ≡ table_word rows.now block }
{
    match rows.get(block) {
        Some(row) => word_from(*row),
        None => PADDING,
    }
}

// The same of blocks that were never erased.
fn word_of_unworn(classes: &[Class], block: usize) -> u32
    ensures { result ≡ table_word (unworn classes.now) block }
{
    match classes.get(block) {
        Some(class) => class.code() as u32,
        None => PADDING,
    }
}

// The row that a right word of a block stands for.
fn row_from(word: u32) -> TableRow
    requires { word % 256 < 3 }
    ensures is { word_of result ≡ word }
    ensures counted { HasFittingWear result }
{
    let class = match word % 256 {
        0 => Class::Good,
        1 => Class::Factory,
        _ => Class::Grown,
    };
    TableRow {
        class,
        wear: word / 256,
    }
}

fn is_right(blocks: usize, block: usize, word: u32) -> bool
    ensures { result ≡ is_right blocks block word }
{
    if block < blocks {
        word % 256 < CLASSES
    } else {
        word == PADDING
    }
}

// The words of a page's data area.
#[tactic(auto, using(crate::proofs::SizeLemmas::whole_words))]
fn entries_of(page: &[u8]) -> u32
    requires { IsDataSize (length page.now) }
    ensures is { result ≡ length page.now / 4 }
    ensures whole { 4 * result ≡ length page.now }
    ensures most { result ≤ 1024 }
{
    page.len() as u32 / 4
}

// The block of word `i` of table page `u`.
fn block_of(u: u32, entries: u32, i: u32) -> usize
    requires few { entries ≤ 1024 }
    requires within { i < entries }
    ensures { result ≡ u * entries + i }
{
    u as usize * entries as usize + i as usize
}

// The first thing that is wrong with the words of table page `u`.
fn judge(blocks: usize, u: u32, page: &[u8]) -> Result<(), TableFault>
    requires { IsDataSize (length page.now) }
    ensures ok { OnOk result (IsWellFormed (length page.now / 4) blocks u page.now) }
    ensures err { IfErr result (IsFirstWrongWord (length page.now / 4) blocks u page.now) }
{
    let entries = entries_of(page);
    for i in 0..entries {
        let block = block_of(u, entries, i);
        if !is_right(blocks, block, read_word(page, i)) {
            return Err(if block < blocks {
                TableFault::BadClass
            } else {
                TableFault::BadPadding
            });
        }
    }
    Ok(())
}

fn write_words(rows: &[TableRow], u: u32, page: &mut [u8])
    requires counted { All HasFittingWear rows.now }
    requires size { IsDataSize (length page.old) }
    ensures { IsTablePage (length page.old / 4) rows.now u page.new }
{
    let entries = entries_of(page);
    for i in 0..entries {
        write_word(page, i, word_of_block(rows, block_of(u, entries, i)));
    }
}

fn write_unworn_words(classes: &[Class], u: u32, page: &mut [u8])
    requires { IsDataSize (length page.old) }
    ensures { IsTablePage (length page.old / 4) (unworn classes.now) u page.new }
{
    let entries = entries_of(page);
    for i in 0..entries {
        write_word(page, i, word_of_unworn(classes, block_of(u, entries, i)));
    }
}

// Takes the words of table page `u`, all of them right, for the rows of its blocks.
fn read_words(rows: &mut [TableRow], u: u32, page: &[u8])
    requires counted { All HasFittingWear rows.old }
    requires size { IsDataSize (length page.now) }
    requires right { IsWellFormed (length page.now / 4) (length rows.old) u page.now }
    ensures words { IsTablePage (length page.now / 4) rows.new u page.now }
    ensures spelled { page.now ≡ table_bytes (length page.now / 4) rows.new u }
    ensures others { KeepsOthers (length page.now / 4) u rows.old rows.new }
    ensures counted { All HasFittingWear rows.new }
{
    let entries = entries_of(page);
    for i in 0..entries {
        let block = block_of(u, entries, i);
        if block < rows.len() {
            rows[block] = row_from(read_word(page, i));
        }
    }
}

/// Writes table page `u` of the table into a page's data area: four bytes for each block from
/// `u * entries` on, its class and then its erase count, low byte first, and FFFFFFFFh past the
/// last block (this project).
pub fn write_table_page(table: &Table, u: u32, page: &mut [u8])
    requires { IsDataSize (length page.old) }
    ensures { page.new ≡ table_bytes (length page.old / 4) table.now u }
{
    write_words(&table.rows, u, page);
}

/// Writes table page `u` of blocks that were never erased, which are known by their classes: the page
/// that `write_table_page` writes of their table (this project).
pub fn write_unworn_page(classes: &[Class], u: u32, page: &mut [u8])
    requires { IsDataSize (length page.old) }
    ensures { page.new ≡ table_bytes (length page.old / 4) (unworn classes.now) u }
{
    write_unworn_words(classes, u, page);
}

/// Takes the rows of table page `u` from a page's data area (this project). A page that no table of
/// so many blocks has is refused, by what is wrong with its lowest wrong row, and leaves the table
/// as it was.
pub fn read_table_page(table: &mut Table, u: u32, page: &[u8]) -> Result<(), TableFault>
    requires { IsDataSize (length page.now) }
    // The page is that of the new table, and only the rows of its blocks have changed.
    ensures spelled { OnOk result (page.now ≡ table_bytes (length page.now / 4) table.new u) }
    ensures words { OnOk result (IsTablePage (length page.now / 4) table.new u page.now) }
    ensures others { OnOk result (KeepsOthers (length page.now / 4) u table.old table.new) }
    // What is wrong stands in the lowest wrong word.
    ensures err { IfErr result (IsFirstWrongWord (length page.now / 4) (length table.old) u page.now) }
    ensures unchanged { OnErr result (table.new ≡ table.old) }
    // A page of whatever table of so many blocks is read.
    ensures only { (rows : List TableRow) → length rows ≡ length table.old → All HasFittingWear rows →
        page.now ≡ table_bytes (length page.now / 4) rows u → IsOk result }
{
    judge(table.rows.len(), u, page)?;
    read_words(&mut table.rows, u, page);
    table.good = count_good(&table.rows);
    Ok(())
}
