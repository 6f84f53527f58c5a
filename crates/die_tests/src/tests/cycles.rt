//! Helpers of the tests: a die of 32 blocks of 8 pages of 64 and 32 bytes, by single cycles and behind a driver.
ghost use Rattle.std.specs.Prelude.{◌≡◌};
ghost use Rattle.page_layout.specs.Geometry.{row_count};

mod buses;
mod driver;
mod faults;
mod limits;
mod made;
mod operations;
mod pages;
mod recorder;
mod steps;
mod stops;
mod turns;

use nand_die::{Die, Mark};
use page_layout::geometry::Geometry;
use std::alloc::Global;
use std::process::Abort;

fn small(rt: &impl Abort) -> Geometry
    ensures data_bytes { result.data_bytes ≡ 64 }
    ensures spare_bytes { result.spare_bytes ≡ 32 }
    ensures blocks { result.blocks ≡ 32 }
    ensures rows { row_count result ≡ 256 }
{
    Geometry::new(64, 32, 8, 32, 32).expect(rt, "a geometry within the limits")
}

// Holds what a row says. Each caller's proof is the cheaper for it.
fn hold(rt: &impl Abort, holds: bool, row: &str) {
    assert!(rt; holds, "{row}");
}

fn new_die(rt: &impl Abort, alloc: Global, geometry: Geometry, marks: &[Mark]) -> Die
    ensures { result.state.flash.geometry ≡ geometry }
{
    Die::new(alloc, geometry, marks).expect(rt, "a die")
}
