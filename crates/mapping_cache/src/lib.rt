//! The cached mapping table: the rows of recently used sectors, and the new rows of moved sectors
//! that are not cached.
#![tactic(auto)]

mod mapping;
mod moved;
mod pages;
mod slot;

pub use mapping::{LoadFault, Mapping};
pub use pages::{DirtyOf, MovedOf};
pub use slot::Slot;
