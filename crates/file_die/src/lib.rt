//! Where the pages of a die stand that is kept in a file.
//!
//! - `ByteFile`: a file of bytes. What an honest one keeps is said there; of a file of the system nothing is, and its four bodies are all that is believed.
//! - `RowFile`: the rows of a die in such a file, by calls that may move less than they are asked to.
//! - `Store`: the pages of a die, each at its row, and what they would be if the power went now. What each call makes of them.
//! - `DieFile`: a store over any file of bytes, which keeps its pages just where the file keeps its bytes. `MemoryBytes` is a file in memory.
//! - `MemoryStore`: a store in memory, which keeps what it is given and never fails.
//! - `TellsFull`: a store that tells whether there is no room for what it was given.
//! - `laws`: what the clauses of a store come to, proved.
//!
//! All of it is this project's.
#![tactic(auto)]

mod asks;
mod blank;
mod bytes;
mod die;
mod file_store;
mod full;
pub mod laws;
mod memory_bytes;
mod memory_store;
mod moves;
mod open;
mod row_file;
mod store;

pub use blank::erase_all;
pub use bytes::{ByteFault, ByteFile};
pub use die::{FileDie, SyncWhen};
pub use file_store::DieFile;
pub use full::TellsFull;
pub use memory_bytes::MemoryBytes;
pub use memory_store::MemoryStore;
pub use moves::{read_all, write_all};
pub use open::OpenDieFault;
pub use row_file::{RowFault, RowFile};
pub use store::{Store, StoreFault};
