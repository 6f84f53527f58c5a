//! Commands for a device, one after another: what a list of them is answered, and what the die holds after each.
#![tactic(auto)]

mod command;
mod laws;
mod queue;

pub use command::{Call, Command};
pub use laws::{asked_laws, event_laws, fair_laws, told_laws, turn_run_laws};
pub use queue::{migrate, run, run_accepted, run_accepted_at, tell};
