//! Where a device stands between the calls of a program: power brings it, calls are told to it, power goes.
#![tactic(auto)]

mod laws;
mod power;
mod report;
mod slot;

pub use laws::call_laws;
pub use power::{PowerFault, start, start_checked, start_mounted, stop};
pub use report::Report;
pub use slot::{CallFault, DeviceSlot, Shortage};
