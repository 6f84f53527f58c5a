//! The lines of a map.
ghost use Rattle.std.specs.Prelude.{◌≡◌, ◌+◌, ◌<◌, ◌++◌, ◌∷◌, [], true, IfOk, OnOk, OnErr, map, length, get_or};
ghost use Rattle.std.specs.Io.KnownBytes.{Appends};
ghost use Rattle.lab_dump.specs.Map.{area_line, area_words, areas_below, ends_at, first_in_area, is_like, map_text};

use crate::area::{Area, area_between};
use crate::map_head::{Remark, print_map_head};
use crate::map_writer::{LineFault, MapWriter};
use crate::mark::{MapMark, Marked};
use page_layout::geometry::Geometry;

// How a sector is marked.
fn mark_at<M: Marked>(sectors: &[M], sector: usize) -> MapMark
    requires { sector < length sectors.now }
    ensures { result ≡ get_or (map M.marked sectors.now) sector MapMark.Untried }
{
    sectors[sector].mark()
}

// Whether two sectors that are marked so are marked alike.
fn is_like(mark: MapMark, next: MapMark) -> bool
    ensures { result ≡ is_like mark next }
{
    match (mark, next) {
        (MapMark::Untried, MapMark::Untried)
        | (MapMark::Finished, MapMark::Finished)
        | (MapMark::Mended, MapMark::Mended)
        | (MapMark::Bad, MapMark::Bad) => true,
        _ => false,
    }
}

// Whether an area ends with a sector: the next one is marked otherwise, or there is none.
fn ends_at<M: Marked>(sectors: &[M], sector: usize) -> bool
    requires { sector < length sectors.now }
    ensures { result ≡ ends_at (map M.marked sectors.now) sector }
{
    sector + 1 == sectors.len() || !is_like(mark_at(sectors, sector), mark_at(sectors, sector + 1))
}

// Prints the line of an area.
fn print_area<W: MapWriter>(out: &mut W, area: &Area) -> Result<(), LineFault>
    ensures printed { OnOk result (Appends (W.contents out.old) (W.contents out.new) (area_words area.now.position area.now.size area.now.mark ++ (10 ∷ []))) }
    ensures failed { OnErr result (W.failed out.new ≡ true) }
{
    out.line(*area)
}

// Prints the line of the area that ends with a sector, if one does, and answers the first sector of the area that the next one is of.
fn print_end<W: MapWriter, M: Marked>(
    out: &mut W,
    geometry: &Geometry,
    sectors: &[M],
    first: u32,
    sector: u32,
) -> Result<u32, LineFault>
    requires sized { length sectors.now ≡ geometry.now.sectors }
    requires within { sector < geometry.now.sectors }
    requires first { first ≡ first_in_area (map M.marked sectors.now) sector }
    ensures next { IfOk result (λ next. next ≡ first_in_area (map M.marked sectors.now) (sector + 1)) }
    ensures printed { OnOk result (Appends (W.contents out.old) (W.contents out.new) (area_line geometry.now (map M.marked sectors.now) sector)) }
    ensures failed { OnErr result (W.failed out.new ≡ true) }
{
    if !ends_at(sectors, sector as usize) {
        return Ok(first);
    }
    let mark = mark_at(sectors, sector as usize);
    print_area(out, &area_between(geometry, first, sector, mark))?;
    Ok(sector + 1)
}

// Prints the lines of all areas.
fn print_areas<W: MapWriter, M: Marked>(
    out: &mut W,
    geometry: &Geometry,
    sectors: &[M],
) -> Result<(), LineFault>
    requires { length sectors.now ≡ geometry.now.sectors }
    ensures printed { OnOk result (Appends (W.contents out.old) (W.contents out.new) (areas_below geometry.now (map M.marked sectors.now) geometry.now.sectors)) }
    ensures failed { OnErr result (W.failed out.new ≡ true) }
{
    let mut first = 0;
    for sector in 0..geometry.sectors() {
        first = print_end(out, geometry, sectors, first, sector)?;
    }
    Ok(())
}

/// Prints the map of an array of this geometry, of whose sectors each is marked, all of them: the remark says what it is of. It has one line an area, by rising position.
/// Positions and sizes are bytes of the array.
///
/// # Errors
///
/// `LineFault` where a line could not be printed: a beginning of the map may stand there. (The form of the lines is that of GNU ddrescue's mapfile, the remark this
/// project's.)
pub fn print_map<W: MapWriter, M: Marked>(
    out: &mut W,
    remark: Remark,
    geometry: &Geometry,
    sectors: &[M],
) -> Result<(), LineFault>
    requires { length sectors.now ≡ geometry.now.sectors }
    ensures printed { OnOk result (Appends (W.contents out.old) (W.contents out.new) (map_text remark geometry.now (map M.marked sectors.now))) }
    ensures failed { OnErr result (W.failed out.new ≡ true) }
{
    print_map_head(out, remark)?;
    print_areas(out, geometry, sectors)
}
