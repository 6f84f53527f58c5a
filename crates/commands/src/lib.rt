//! The commands of the program `nandctl`, on raw images of one NAND die: which words are a command, what it prints and stores, and
//! the line and the exit status of each refusal. The caller gives the files and the writers, so that the same functions serve the
//! program, over the system's files, and tests, over files in memory.
#![tactic(auto)]

mod check;
mod claimed;
mod files;
mod format;
mod image_back;
mod inputs;
mod lines;
mod migrate;
mod migrate_all;
mod mount_image;
mod outputs;
mod program;
mod readers;
mod said;
mod sector;
mod serve;
mod show;
mod steady;
mod text;

pub use files::{FileFault, FileStore};
pub use program::run;
pub use sector::{PrintFault, print_sector};
pub use text::{CommandFault, ServeStop, tell};
