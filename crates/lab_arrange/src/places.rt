//! Where the areas of a page stand.
ghost use Rattle.std.specs.Prelude.{◌≡◌, ◌+◌, ◌*◌, ◌<◌, ◌≤◌, true, ◌%◌};
ghost use Rattle.std.specs.Option.{unwrap_or};
ghost use Rattle.page_layout.specs.Geometry.{row_count};
ghost use Rattle.lab_dump.specs.Scan.{image_bytes};
ghost use Rattle.lab_arrange.specs.Place.{IsFitting, body_place, length_of, other_in_pair, row_in_turns, run_of, run_place, swapped_place};

use crate::arrangement::{Arrangement, Spares};
use page_layout::geometry::Geometry;

/// Where the two areas of a page begin among the pages of a dump, as if no bytes were swapped.
#[derive(Clone, Copy)]
pub(crate) struct Starts {
    pub(crate) body: u64,
    pub(crate) spare: u64,
}

/// How many bytes the pages of a die have.
pub(crate) fn image_bytes(geometry: &Geometry) -> u64
    ensures is { result ≡ image_bytes geometry.now }
    ensures few { result ≤ 4563402752 }
{
    let page = (geometry.data_bytes() + geometry.spare_bytes()) as u64;
    u64::from(geometry.rows()) * page
}

/// How many bytes a dump has of such a die.
pub fn wanted_length(geometry: &Geometry, arrangement: &Arrangement) -> u64
    requires { IsFitting geometry.now arrangement.now }
    ensures { result ≡ length_of geometry.now arrangement.now }
{
    let header = u64::from(arrangement.header.unwrap_or(0));
    let tail = u64::from(arrangement.tail.unwrap_or(0));
    let cut = u64::from(arrangement.cut.unwrap_or(0));
    header + image_bytes(geometry) + tail - cut
}

// The row in whose place the page of a row stands.
fn row_in_turns(pages: u64, planes: bool, row: u64) -> u64
    requires some { 0 < pages }
    requires few_pages { pages ≤ 256 }
    requires few { row ≤ 1048576 }
    ensures { result ≡ row_in_turns pages planes row }
{
    if planes {
        let block = row / pages;
        block / 2 * (2 * pages) + (2 * (row % pages) + block % 2)
    } else {
        row
    }
}

// How many pages have their areas of one sort together.
fn run_of(geometry: &Geometry, spares: Option<Spares>) -> u64
    ensures { result ≡ run_of geometry.now spares }
{
    match spares {
        None => 1,
        Some(Spares::Block) => u64::from(geometry.pages()),
        Some(Spares::Die) => u64::from(geometry.rows()),
    }
}

// Where the areas of the page of a row begin, where so many pages have their areas of one sort together.
fn run_starts(run: u64, data_bytes: u64, spare_bytes: u64, spare_first: bool, row: u64) -> Starts
    requires some { 0 < run }
    requires few_pages { run ≤ 1048576 }
    requires few { row ≤ 4194304 }
    requires some_data { 0 < data_bytes }
    requires data_few { data_bytes ≤ 4096 }
    requires spare_few { spare_bytes ≤ 256 }
    ensures body { result.body ≡ run_place run data_bytes spare_bytes spare_first row 0 }
    ensures spare { result.spare ≡ run_place run data_bytes spare_bytes spare_first row data_bytes }
{
    let start = row / run * (run * (data_bytes + spare_bytes));
    let page = row % run;
    if spare_first {
        Starts {
            body: start + (run * spare_bytes + page * data_bytes),
            spare: start + page * spare_bytes,
        }
    } else {
        Starts {
            body: start + page * data_bytes,
            spare: start + (run * data_bytes + page * spare_bytes),
        }
    }
}

/// Where the areas of the page of a row begin.
pub(crate) fn page_starts(geometry: &Geometry, arrangement: &Arrangement, row: u32) -> Starts
    requires fits { IsFitting geometry.now arrangement.now }
    requires row { row < row_count geometry.now }
    ensures body { result.body ≡ body_place geometry.now arrangement.now row 0 }
    ensures spare { result.spare ≡ body_place geometry.now arrangement.now row geometry.now.data_bytes }
{
    let pages = u64::from(geometry.pages());
    let stands = row_in_turns(pages, arrangement.planes, u64::from(row));
    let run = run_of(geometry, arrangement.spares);
    let (data_bytes, spare_bytes) = (geometry.data_bytes() as u64, geometry.spare_bytes() as u64);
    run_starts(
        run,
        data_bytes,
        spare_bytes,
        arrangement.spare_first,
        stands,
    )
}

/// The place of a byte, or of the other one of its pair where bytes are swapped.
pub(crate) fn swapped_place(swapped: bool, place: usize) -> usize
    requires { place ≤ 65536 }
    ensures { result ≡ swapped_place swapped place }
{
    if !swapped {
        place
    } else if place % 2 == 0 {
        place + 1
    } else {
        place - 1
    }
}
