//! - `commands`: the commands of `nanddisk` over files in memory that can fail.
//! - `die`: the die over a store beside the die in memory, cycle by cycle, and over a store that fails each call in turn.
//! - `nbd`: the NBD protocol over byte lists, worked out by hand from the protocol's document.
//! - `device`: the block device as a disk of bytes, over dies in memory.
//! - `parts`: parts and their names, in a folder in memory.
//! - `words`: the shape of a disk, the file that tells it, its mark, and the words of `nanddisk`.
mod commands;
mod device;
mod die;
mod nbd;
mod parts;
mod steps;
mod words;

use std::process::Abort;

// Holds what a row says. Each caller's proof is the cheaper for it, as for those below.
fn hold_true(rt: &impl Abort, holds: bool, row: &str) {
    assert!(rt; holds, "{row}");
}

// Holds what a row, or a step, of this number says.
fn hold_at(rt: &impl Abort, holds: bool, number: usize) {
    assert!(rt; holds, "row {number}");
}

// Holds what a step of a row says.
fn hold_step(rt: &impl Abort, holds: bool, row: &str, step: usize) {
    assert!(rt; holds, "{row}: {step}");
}
