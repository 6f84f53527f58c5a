//! Requests and replies as frames: requests come from any reader and replies go to any writer, in whatever pieces these take
//! their bytes. A client's two streams, with words for a call that failed.
#![tactic(auto)]

mod header;
mod reply;
mod request;
mod streams;
mod transfer;

pub use header::Header;
pub use reply::{ServeFault, send_last, send_reply};
pub use request::{Next, read_request};
pub use streams::{Incoming, Outgoing};
pub use transfer::{Filled, fill, send};
