//! The program `nandctl` over the system: the words of its command line, its files, its streams and its exit status. A program
//! crate has a `main` that calls `run_over`, and stored words and streams.
#![tactic(auto)]

mod program;
mod replace;
mod system;
mod words;

pub use program::run_over;
pub use system::SystemFiles;
