//! What a die did since a moment, for proofs alone: a history takes no memory, and its one function does nothing at run time.
#![tactic(auto)]

mod history;

pub use history::{DieHistory, Moment};
