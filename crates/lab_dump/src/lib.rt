//! What a dump tells, a raw image of one NAND die that a reader gives. The dump is never held: one page is.
//!
//! - `scan`: one pass over its pages, in row order: what each page is, handed to a taker.
//! - `write_array`: every sector, as of a sequence where one is said. Each page that is newer than what was seen of its sector is put in the sector's place of a target, so
//!   that in the end the target holds the array of the image, sector by sector (`write_damaged`: also of pages that are not sound, where nothing sound is newer).
//! - `survey_sector`: the history of a sector, the sound pages of it that the dump still has, newest first.
//! - `compare_dump`: which sectors have lost a page since a certificate was made of its die.
//! - `survey_dump`: how many pages are of each sort, how the keys stand, the state of each block, and each reason why the die would not
//!   mount.
//! - `find_geometries`: which geometries fit a dump of unknown shape, best first, each with what the dump says for it. It reads page by
//!   page, at whatever place.
//! - `find_nearest`: which record can be read in a dump that none fits, at whatever byte.
//! - `print_map`: the map of an array, by whatever is `Marked`: how each part of it stands, as the mapfile of GNU ddrescue says it, so that tools that read such maps can
//!   tell a sector that was found from one that was not. Other maps of the laboratory print its head and its lines (`print_map_head`, `Area`).
//!
//! Each of these but `scan` and `print_map` takes no memory but that of its room (`ArrayRoom`, ..), which is made before the dump is opened: so no refusal for memory
//! depends on what a dump holds.
#![tactic(auto)]

mod area;
mod array;
mod compare;
mod concluding;
mod counts;
mod damaged;
mod doubting;
mod doubts;
mod dump;
mod find;
mod fit;
mod held;
mod history;
mod keys;
mod laws;
mod make_fault;
mod map;
mod map_head;
mod map_writer;
mod mark;
mod nearest;
mod page_bytes;
mod pass;
mod repeated;
mod row_page;
mod rows;
mod said;
mod sample;
mod seeing;
mod shape;
mod survey;
mod target;
mod told;
mod trace;
mod until;
mod writing;

pub use area::Area;
pub use array::{ArrayRoom, ArrayWritten, Unwritten, write_array, write_damaged};
pub use compare::{CompareFault, CompareRoom, Compared, compare_dump};
pub use counts::{PageCounts, sorts_law};
pub use damaged::damaged_laws;
pub use doubts::{Doubts, Unsettled};
pub use dump::Dump;
pub use find::{FitRoom, add_shapes, find_geometries};
pub use fit::{Fit, TableSays, fit_of};
pub use held::{Held, KeyState, SectorShown, damaged_count};
pub use history::{History, HistoryRoom, SectorPage, Wrote, history_laws, survey_sector};
pub use image_check::{Cut, DumpFault, DumpReader, fill};
pub use laws::{
    areas_law, bad_block_laws, bound_laws, fit_laws, hole_laws, looked_laws, lost_law,
    none_lost_law, short_laws, told_laws,
};
pub use make_fault::MakeFault;
pub use map::print_map;
pub use map_head::{Remark, print_map_head};
pub use map_writer::{LineFault, MapWriter};
pub use mark::{MapMark, Marked};
pub use nearest::{Legible, NearestRoom, find_nearest, nearest_laws};
pub use page_bytes::{is_broken, is_sound, join_page};
pub use pass::{Areas, PassFault, Stopped, Taker, expect_end, scan, scan_rows};
pub use row_page::look_in;
pub use rows::{Rows, asked_law, each_law, is_asked, within_law};
pub use said::{SaidPage, said_laws, spelled};
pub use sample::{Sample, looked_count, looked_row};
pub use shape::{data_sizes, first_shape, page_counts};
pub use survey::{DieSurvey, SurveyFault, SurveyRoom, mounts_law, survey_dump};
pub use target::{DamagedTarget, PageTarget, Pieces, Target, TargetFault};
pub use told::PagesTold;
pub use until::until_laws;
pub use writing::Writing;
