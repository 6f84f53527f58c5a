//! Sectors that have lost a page: how they are found in a store as it is opened. That none of them is read until it is written again is `disk_server`'s.
//!
//! - `find_lost`: the sectors whose newest page is not the one that their translation page names.
//! - `laws`: what is told, and that nothing is told of a die that was never damaged, proved.
//!
//! All of it is this project's.
#![tactic(auto)]

mod fault;
mod find;
pub mod laws;

pub use fault::LostFault;
pub use find::find_lost;
