//! The device: sectors that are read and written over a die whose image a checker accepted.
#![tactic(auto)]

mod begin;
mod device;
mod fault;
mod flush;
mod laws;
mod migrate;
mod read;
mod ready;
mod turn;
mod write;

pub use device::Device;
pub use fault::{DeviceFault, StartFault};
pub use laws::{
    begin_laws, brought_laws, count_laws, flushed_laws, migrate_laws, program_laws, renewed_laws,
    restart_laws, shortage_laws, stopped_laws, turn_laws,
};
