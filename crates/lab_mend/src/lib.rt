//! Dumps whose pages are mended, in one pass.
//!
//! - `repair_dump`: each page that is neither erased nor sound, and that one bit turned makes sound, or else erased, is written with that bit turned,
//!   and where that is asked for one that just one pair of bits makes sound with these; every other page is written as it is, and so is each of a row
//!   that is not asked for.
//! - `merge_dumps`: several readings of one die made into one, row by row: of each row the page that is sound, where all the sound ones are one
//!   page; a row of which two sound pages differ is named, and neither is taken; where none is, the seal decides among those that agree with the
//!   readings wherever these agree.
#![tactic(auto)]

mod bits;
mod choice;
mod in_step;
mod laws;
mod majority;
mod mending;
mod merge;
mod merging;
mod pairs;
mod repair;
mod repairing;
mod seal;
mod trial;
mod tries;

pub use choice::Origin;
pub use laws::{
    again_law, choice_law, erased_law, kept_law, least_law, majority_law, mend_law, only_law,
    order_law, own_law, repaired_law, rows_law, tries_laws, turn_law, turned_law, zero_law,
};
pub use mending::{Made, Turned};
pub use merge::{MergeFault, MergeRoom, Merged, Unmerged, merge_dumps};
pub use merging::{RowTally, TriedRow};
pub use pairs::{BitPair, BitTurn, Watch};
pub use repair::{RepairRoom, Repaired, repair_dump};
pub use repairing::{Mend, RepairAsked, Repairing, count_mended};
pub use trial::Trial;
pub use tries::{count_tries, count_turn_tries};
