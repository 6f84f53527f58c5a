//! Chain of custody: reports of the commands of `nandlab`, which name the files that were read and written with their SHA-256, and the command
//! `verify`, which reads the files of a report again.
#![tactic(auto)]

mod checks;
mod fault;
mod hashing;
mod laws;
mod lines;
mod program;
mod reported;
mod verify;
mod words;

pub use checks::Verdict;
pub use laws::custody_laws;
pub use program::run;
