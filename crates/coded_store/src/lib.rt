//! The pages of a die in a file, each with the code that turns back a wrong bit of each of its chunks.
//!
//! - `CodedStore`: the `Store` over any file of bytes (`file_die::ByteFile`), honest just where that is. It puts each page with its codes and loads it put right,
//!   so a die over it is as one over a file without wrong bits.
//! - `Wrong`, `Mended`: what was wrong with each row as it was last read, and in all; `TellsMended`: a store that tells it.
//! - `MaybeCoded`: such a store, or one without codes.
//! - `laws`: what that comes to, proved.
//!
//! A page stands in the file as on a chip (`page_code`). All of it is this project's.
#![tactic(auto)]

mod coded;
mod either;
pub mod laws;
mod show;
mod wrong;

pub use coded::{CodedStore, Mended};
pub use either::{MaybeCoded, TellsMended};
pub use show::coded_length;
pub use wrong::Wrong;
