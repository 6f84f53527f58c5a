//! The count: why a die with enough good blocks never runs out of free ones.
//!
//! Nine blocks are free before a call writes, and it opens at most two, one for each stream, and
//! one more for each program that fails: two failures leave the floor of five. Collections regain
//! the nine. Each programs less than a block of pages and gives a block back, so the erased pages
//! of free and open blocks grow with it, or fall by at most a block for each failure. From five
//! free blocks on a collection is stuck only after three failures; and while fewer than nine are
//! free, enough good blocks leave one that is worth collecting.
#![tactic(auto)]

mod laws;
mod stream;

pub use laws::{account_laws, batch_laws, copy_laws, put_laws, room_laws};
pub use stream::Stream;
