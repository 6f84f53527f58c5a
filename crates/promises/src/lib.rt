//! The words in which a device's promises are said, and their laws.
#![tactic(auto)]

pub mod laws;
pub mod stream;
