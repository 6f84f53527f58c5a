//! Translation pages: the rows of sectors as they stand on flash, and the directory of where those
//! pages lie.
//!
//! A translation page is a list of entries of four bytes, little-endian. An entry is the row of a
//! sector's newest page, or FFFFFFFFh where the sector was never written. Entry `i` of translation
//! page `t` is that of sector `t * E + i`, where a page has `E` entries.
#![tactic(auto)]

mod directory;
mod page;

pub use directory::Directory;
pub use page::{entry, patch, spelling_law};
