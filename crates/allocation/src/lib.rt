//! Which blocks of a die are free, open, closed or bad, and which is written or collected next.
//!
//! All of it is known from memory alone, whatever the die does. A good block is free where none of
//! its pages is programmed, open where a stream programs it, and else closed.
#![tactic(auto)]

mod begin;
mod blocks;
mod choose;
mod fill;
mod laws;
mod update;

pub use blocks::Blocks;
pub use budget::Stream;
pub use fill::Fill;
pub use laws::{block_laws, count_laws};
