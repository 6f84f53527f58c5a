//! The disk of a store that a crash may have left torn: what is torn is taken away before it is opened to write.
//!
//! - `list_first`: keeps the list of its lost sectors. Nothing is asked of the store before.
//! - `recover_listed`: takes away what a crash left torn in a store that was mounted, and whose list lasts, and opens the disk.
//!
//! All of it is this project's.
#![tactic(auto)]

mod listed;
mod recovered;

pub use listed::{ListedStore, list_first, recover_listed};
