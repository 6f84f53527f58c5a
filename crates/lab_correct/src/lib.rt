//! A dump of a chip's pages with their codes, made into the dump of the pages without them, in one pass.
//!
//! - `correct_dump`: each chunk of which one bit is wrong has it turned back; a chunk that is near to none with its code is lost, and stands as it
//!   was read. How many bits were turned back is counted, and each row with a lost chunk is named.
//! - `find_all_geometries`: which geometries fit a dump of unknown shape, as it stands or with codes.
//! - `print_losses`: the map of what was lost, as the mapfile of GNU ddrescue says it.

#![tactic(auto)]

mod coded;
mod coded_look;
mod coded_page;
mod correct;
mod correcting;
mod found;
mod laws;
mod map;

pub use correct::{CorrectRoom, DumpCorrected, correct_dump};
pub use correcting::{Correcting, Loss};
pub use found::{FoundFit, FoundRoom, find_all_geometries};
pub use laws::{corrected_law, decoded_laws, loss_map_law};
pub use map::print_losses;
