//! What a crash left torn in a store of pages, and how it is taken away: blocks are cut back to their sound pages. Where a mark tells what was synced no kill
//! and no loss of power costs a block; without one, a block with pages behind a torn one stays bad.
//!
//! - `recover`: what is done to a store that is opened to write: `cut_back`, or else `erase_dead`.
//! - `cut_back`: cuts back each block that a crash left torn.
//! - `erase_dead`: erases again each block whose erase a crash cut short.
//! - `laws`: what the taking of pages comes to, proved.
//!
//! All of it is this project's.
#![tactic(auto)]

mod cut;
mod dead;
mod fault;
pub mod laws;
mod look;
mod recovery;

pub use cut::cut_back;
pub use dead::erase_dead;
pub use fault::RecoveryFault;
pub use recovery::recover;
