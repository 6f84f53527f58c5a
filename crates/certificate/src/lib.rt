//! The certificate of an image: what a checker is told of it, and the bytes that it is told in. The layout of the bytes is
//! this project's own.
#![tactic(auto)]

mod block_state;
mod body;
mod certificate;
mod fault;
mod head;
pub mod laws;
mod layout;
mod read;
mod write;

pub use block_state::BlockState;
pub use certificate::Certificate;
pub use fault::CertFault;
pub use read::read_certificate;
pub use write::write_certificate;
