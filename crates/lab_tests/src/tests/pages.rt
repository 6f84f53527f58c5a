//! Dumps that are mended, and readings that are made into one.
mod merge;
mod repair;

use test_images::{TABLE_0, TABLE_1, Written, page};

// The bytes of a page of the small die: 64 of data and 40 spare ones.
const PAGE: usize = 104;

// A die with two table pages and two sectors.
static PAGES: &[Written] = &[
    TABLE_0,
    TABLE_1,
    page!(8, Sector 3, sequence 5, fill 0x33),
    page!(9, Sector 4, sequence 6, fill 0x44),
];
