//! Damage at rest of a disk: which sectors are lost, the list of them beside the disk, and what a look at all pages finds.
//!
//! - `write_list`, `read_list`: the file of the list.
//! - `mount_and_find`: a store is mounted, and its lost sectors are added to a list.
//! - `numbers_of`, `counted`, `joined`: the sectors of a list, and numbers as text.
//! - `bad_blocks`, `unsound_rows`: the bad blocks and the unsound pages of a store that was mounted.
//! - `laws`: a list is read as it was written, proved.
//!
//! All of it is this project's.
#![tactic(auto)]

pub mod laws;
mod list_text;
mod look;
mod mounted;
mod numbers;

pub use list_text::{ListFault, read_list, write_list};
pub use look::{bad_blocks, unsound_rows};
pub use mounted::mount_and_find;
pub use numbers::{counted, joined, numbers_of};
