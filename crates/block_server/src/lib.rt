//! The block server: requests from a reader, answered by a device to a writer; and the same over a die whose image and
//! certificate are checked first.
#![tactic(auto)]

mod answer;
mod checked;
mod laws;
mod server;

pub use checked::{RunFault, serve_checked, serve_checked_at};
pub use laws::{headline_laws, served_laws};
pub use server::{Served, serve};
