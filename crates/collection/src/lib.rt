//! The engine of the translation layer: pages are programmed in two streams of blocks, and what is
//! known of them in memory follows.
//!
//! Three kinds of fact are said of each call. What holds of memory alone holds whatever the die does.
//! What is true of the image holds where the die is honest, and is said as: if it was true before, it
//! is after. And there is a log of the operations that the call asked the die for.
#![tactic(auto)]

mod engine;
mod fault;
mod laws;

pub use engine::{Buffer, Engine, LEAST_FREE, Pinned, Reserve, Step};
pub use fault::{EngineFault, WriteFault};
pub use laws::{left_laws, rescue_laws, stop_laws};
