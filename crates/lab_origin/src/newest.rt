//! What a sound page does to what is known of the newest page of its sector.
ghost use Rattle.std.specs.Prelude.{◌≡◌, Some};
ghost use Rattle.page_layout.specs.Greatest.{step};
ghost use Rattle.lab_dump.specs.Until.{record_until};
ghost use Rattle.lab_dump.specs.Writing.{sector_in};
ghost use Rattle.lab_origin.specs.Tracing.{PageChanges};

use page_layout::geometry::Geometry;
use page_layout::newest::Latest;
use page_layout::record::{Key, Record};

// What it does.
#[derive(Clone, Copy)]
pub(crate) enum Change {
    // nothing
    Stays,
    // it is the newest one
    Newest,
    // it shares the greatest sequence with another one
    Tie,
}

// What is known with the page of a row more, of this sequence, and what that page does.
pub(crate) fn step(latest: Latest, row: u32, sequence: u64) -> (Latest, Change)
    ensures latest { result.0 ≡ step latest row (Some sequence) }
    ensures does { PageChanges result.1 row latest result.0 }
{
    let next = latest.step(row, Some(sequence));
    let change = match next {
        Latest::Once(newest, _) if newest == row => Change::Newest,
        Latest::Tied(..) => Change::Tie,
        Latest::Once(..) | Latest::Never => Change::Stays,
    };
    (next, change)
}

// The sector of the die that a page with this record is of, if it is of one.
pub(crate) fn sector_in(geometry: &Geometry, found: &Record) -> Option<u32>
    ensures { result ≡ sector_in geometry.now found.now }
{
    match found.key() {
        Key::Sector(sector) if sector < geometry.sectors() => Some(sector),
        _ => None,
    }
}

// The record of a page where it counts: it has no later sequence than the last that does, or none is said.
pub(crate) fn record_until(until: Option<u64>, found: Option<Record>) -> Option<Record>
    ensures { result ≡ record_until until found }
{
    match (until, found) {
        (Some(last), Some(found)) if last < found.sequence => None,
        _ => found,
    }
}
