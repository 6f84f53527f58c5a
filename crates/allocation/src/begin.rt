//! What the blocks are at the start, as an accepted certificate tells them.
ghost use Rattle.std.specs.Prelude.{◌≡◌, ◌<◌, ◌^◌, ◌&&◌, ◌==◌, ◌≤◌, length, map, position, count_by, All, IfOk};
ghost use Rattle.std.specs.List.{range_with_len};
ghost use Rattle.allocation.specs.Begun.{class_from, row_from, fill_from, begins_open, unused};

use crate::fill::Fill;
use bad_blocks::{Class, MOST_WEAR, Table, TableRow};
use certificate::BlockState;
use std::alloc::{AllocError, Global};

// The classes of a certificate that say more than that a block is good.
const OPEN_DATA: u8 = 1;

const OPEN_META: u8 = 2;

const FACTORY: u8 = 4;

const GROWN: u8 = 5;

fn class_from(code: u8) -> Class
    ensures { result ≡ class_from code }
{
    match code {
        FACTORY => Class::Factory,
        GROWN => Class::Grown,
        _ => Class::Good,
    }
}

fn row_from(state: &BlockState) -> TableRow
    ensures { result ≡ row_from state.now }
{
    TableRow {
        class: class_from(state.class),
        wear: state.wear.min(MOST_WEAR),
    }
}

fn fill_from(pages: u32, state: &BlockState) -> Fill
    ensures { result ≡ fill_from pages state.now }
{
    Fill {
        pointer: u32::from(state.pointer).min(pages),
        live: u32::from(state.live),
    }
}

fn begins_open(code: u8, pages: u32, state: &BlockState) -> bool
    ensures { result ≡ begins_open code pages state.now }
{
    state.class == code && 0 < state.pointer && u32::from(state.pointer) < pages
}

// The classes and the erase counts that a certificate gives.
pub(crate) fn begun_rows(alloc: Global, states: &[BlockState]) -> Result<Vec<TableRow>, AllocError>
    ensures { IfOk result (λ v. v.items ≡ map row_from states.now) }
{
    states.iter().map(row_from).collect(alloc)
}

// The write pointers and the live pages that a certificate gives.
pub(crate) fn begun_fills(
    alloc: Global,
    pages: u32,
    states: &[BlockState],
) -> Result<Vec<Fill>, AllocError>
    ensures { IfOk result (λ v. v.items ≡ map (fill_from pages) states.now) }
{
    states
        .iter()
        .map(|state| fill_from(pages, state))
        .collect(alloc)
}

fn first_place(code: u8, pages: u32, states: &[BlockState]) -> Option<usize>
    ensures { result ≡ position (begins_open code pages) states.now }
{
    states
        .iter()
        .position(|state| begins_open(code, pages, state))
}

fn first_open(code: u8, pages: u32, states: &[BlockState]) -> Option<u32>
    requires { length states.now < 2 ^ 32 }
    ensures { result ≡ position (begins_open code pages) states.now }
{
    match first_place(code, pages, states) {
        Some(block) => Some(block as u32),
        None => None,
    }
}

// The open data block that a certificate gives.
pub(crate) fn first_data(pages: u32, states: &[BlockState]) -> Option<u32>
    requires { length states.now < 2 ^ 32 }
    ensures { result ≡ position (begins_open 1 pages) states.now }
{
    first_open(OPEN_DATA, pages, states)
}

// The open meta block that a certificate gives.
pub(crate) fn first_meta(pages: u32, states: &[BlockState]) -> Option<u32>
    requires { length states.now < 2 ^ 32 }
    ensures { result ≡ position (begins_open 2 pages) states.now }
{
    first_open(OPEN_META, pages, states)
}

fn is_unused(table: &Table, fills: &[Fill], block: usize) -> bool
    requires same { length fills.now ≡ length table.now }
    requires few { length fills.now < 2 ^ 32 }
    requires within { block < length fills.now }
    ensures { result ≡ unused table.now fills.now block }
{
    table.class(block as u32) == Class::Good && fills[block].pointer == 0
}

// How many blocks are good and have no page programmed.
pub(crate) fn count_free(table: &Table, fills: &[Fill]) -> u32
    requires same { length fills.now ≡ length table.now }
    requires few { length fills.now < 2 ^ 32 }
    ensures { result ≡ count_by (unused table.now fills.now) (range_with_len 0 (length fills.now)) }
{
    let mut free = 0;
    'numbers: for block in 0..fills.len() {
        free += u32::from(is_unused(table, fills, block));
    }
    free
}
