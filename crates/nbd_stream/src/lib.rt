//! The protocol of network block devices over any reader and writer, as the server's side speaks it: fixed newstyle negotiation,
//! and then requests with simple replies. The protocol is that of the document "The NBD protocol" of the Network Block Device project.
#![tactic(auto)]

mod answer;
mod body;
mod disk;
mod export;
mod fault;
pub mod laws;
mod memory;
mod negotiation;
mod option;
mod reply;
mod request;
mod task;
mod transmission;

pub use disk::Disk;
pub use export::Export;
pub use fault::DiskFault;
pub use memory::{MemoryDisk, serve_memory};
pub use negotiation::{Negotiated, negotiate};
pub use option::{NextOption, OptionHeader, read_option};
pub use reply::{RequestError, send_reply};
pub use request::{NbdHeader, NextRequest, StreamEnd, read_request};
pub use task::{NbdCommand, Task, admit};
pub use transmission::{serve, transmit};
