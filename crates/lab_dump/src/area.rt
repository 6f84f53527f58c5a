//! A part that a map marks alike.
ghost use Rattle.std.specs.Prelude.{◌≡◌, ◌+◌, ◌-◌, ◌*◌, ◌<◌, ◌≤◌};
ghost use Rattle.lab_dump.specs.Map.{status_words};

use crate::mark::MapMark;
use page_layout::geometry::Geometry;
use std::fmt;

/// A part that a map marks alike, by its bytes.
#[derive(Clone, Copy)]
pub struct Area {
    /// Its first byte, counted from 0.
    pub position: u64,
    /// How many bytes it has.
    pub size: u64,
    /// How it is marked.
    pub mark: MapMark,
}

// The character of a mark: finished, not trimmed, a bad sector, not tried.
fn status_text(mark: MapMark) -> &'static str
    ensures { result.now ≡ status_words mark }
{
    match mark {
        MapMark::Finished => "+",
        MapMark::Mended => "*",
        MapMark::Bad => "-",
        MapMark::Untried => "?",
    }
}

/// Its line in a map, without the line feed: position and size in base 16, and the character of its mark. (The form is that of GNU ddrescue's mapfile.)
impl fmt::Display for Area {
    ghost use Rattle.std.specs.Prelude.{Some};
    ghost use Rattle.lab_dump.specs.Map.{area_words};

    ghost output = { λ area. Some (area_words area.position area.size area.mark) };

    fn fmt<W: fmt::Write>(&self, f: &mut fmt::Formatter<W>) -> fmt::Result {
        let (position, size) = (self.position, self.size);
        let status = status_text(self.mark);
        write!(f, "0x{position:x} 0x{size:x} {status}")
    }
}

// The bytes of so many sectors.
fn bytes_of(geometry: &Geometry, sectors: u32) -> u64
    ensures { result ≡ sectors * geometry.now.data_bytes }
{
    u64::from(sectors) * geometry.data_bytes() as u64
}

/// The area from one sector to another one.
pub(crate) fn area_between(geometry: &Geometry, first: u32, last: u32, mark: MapMark) -> Area
    requires within { last < geometry.now.sectors }
    requires rising { first ≤ last }
    ensures position { result.position ≡ first * geometry.now.data_bytes }
    ensures size { result.size ≡ (last + 1 - first) * geometry.now.data_bytes }
    ensures mark { result.mark ≡ mark }
{
    Area {
        position: bytes_of(geometry, first),
        size: bytes_of(geometry, last + 1 - first),
        mark,
    }
}
