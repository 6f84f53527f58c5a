//! The commands of `nanddisk`, over the files that it is given: a disk is created, served or told of. What goes wrong is one line and an exit status.
//!
//! - `run`: does what the words say.
//! - `DiskFiles`: the files that the words name, those of the system or some in memory; `Access`, `LockedDie`: how a die is opened; `ListPlace`: where its lost sectors are listed.
//! - `parse`: what the words of the command line mean, as `clap` reads them. No file is looked at, and no number but that of `--wait` is read.
//! - `DiskShape`, `read_shape`, `write_shape`: the geometry of a disk's die, the entries of its device's cache, its share and the code of its pages (`Code`), and the file beside the disk that tells them (`DiskText`);
//!   `size_from`, `geometry_from`: a size and a geometry as words write them; `shape_for`: the shape for a size.
//! - `mark_of`, `slot_bytes`, `slot_at`: the file beside a disk that tells up to which sequence all was synced; `MarkFile`: as it is written; `FileSyncs`: the die's file is synced, and the mark kept.
//! - `shape_of`, `Info`, `DiskCommandFault`: the shape that `create` is asked for, what `info` tells, why a command was not done.
//!
//! All of it is this project's.
#![tactic(auto)]

mod anew;
mod asked;
mod check;
mod create;
mod damage;
mod files;
mod grammar;
mod guard;
mod info;
mod mark;
mod mark_file;
mod named_blocks;
mod opening;
mod printed;
mod program;
mod ready;
mod serve;
mod shape_text;
mod shape_words;
mod shapes;
mod sizes;
mod syncs;
mod text;
mod words;

pub use asked::shape_of;
pub use files::{Access, DiskFileFault, DiskFiles, ListPlace, LockedDie};
pub use mark::{FoundMark, MARK_BYTES, mark_laws, mark_of, none_found, slot_at, slot_bytes};
pub use mark_file::{MarkFile, put_blank};
pub use opening::{die_bytes, dump_bytes};
pub use printed::{Form, Info};
pub use program::run;
pub use program_words::GrammarFault;
pub use shape_text::{
    DiskText, Member, ShapeFault, read_shape, shape_laws, write_listed_shape, write_shape,
};
pub use shape_words::{GeometryWordFault, geometry_from};
pub use shapes::{Code, DiskShape, SizeFault, cache_for, shape_for, share_for};
pub use sizes::{SizeWordFault, size_from, size_laws};
pub use syncs::FileSyncs;
pub use text::{DiskCommandFault, tell};
pub use words::{CreateWords, DiskServeWords, DiskWords, InfoWords, MakeWords, parse};
