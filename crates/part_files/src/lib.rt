//! Files that are made beside their place, and get their name once they are whole.
//!
//! - `Names`: what is asked of the names of files. `SystemNames`: those of the system.
//! - `part_name`, `new_part`: a part beside a path. `publish_new`, `publish_over`: its name, which no file had, or whatever file had it. `discard`: it is not wanted.
//! - `FirstError`: the system's first error, which the faults do not say. `System`: a program's handle, with it.
//! - `hold_streams`: no file takes the number of a standard stream that was closed.
//! - `Pair`, `publish_pair`: two files that are named together. `is_begun`, `clear_begun`: what a run that was killed between the two has left.
//!
//! All of it is this project's.
#![tactic(auto)]

mod first_error;
mod handle;
pub mod laws;
mod names;
mod pair;
mod parts;
mod streams;
mod system;

pub use first_error::FirstError;
pub use handle::System;
pub use names::{Names, PartFault};
pub use pair::{Pair, clear_begun, is_begun, publish_pair};
pub use parts::{discard, new_part, part_name, publish_new, publish_over};
pub use streams::hold_streams;
pub use system::{SystemNames, part_fault};
