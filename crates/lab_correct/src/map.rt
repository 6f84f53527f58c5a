//! The map of a corrected dump: which rows of it have lost chunks, as the mapfile of GNU ddrescue says it.
ghost use Rattle.std.specs.Prelude.{◌≡◌, ◌+◌, ◌*◌, ◌<◌, ◌≤◌, true, OnOk, OnErr, length};
ghost use Rattle.std.specs.Io.KnownBytes.{Appends};
ghost use Rattle.page_layout.specs.Geometry.{page_bytes};
ghost use Rattle.lab_correct.specs.Map.{loss_map_text, next_row, rows_text, parts_below, row_at, loss_text};

use crate::correcting::Loss;
use lab_dump::{Area, LineFault, MapMark, MapWriter, Remark, print_map_head};
use page_layout::geometry::Geometry;

// The bytes of so many rows.
fn bytes_of(geometry: &Geometry, rows: u64) -> u64
    requires { rows ≤ 4294967296 }
    ensures { result ≡ rows * page_bytes geometry.now }
{
    rows * (geometry.data_bytes() + geometry.spare_bytes()) as u64
}

// Prints the line of the rows from the first one to the one before the end, if there are any, which are marked so.
fn print_part<W: MapWriter>(
    out: &mut W,
    geometry: &Geometry,
    first: u64,
    end: u64,
    mark: MapMark,
) -> Result<(), LineFault>
    requires { end ≤ 4294967296 }
    ensures printed { OnOk result (Appends (W.contents out.old) (W.contents out.new) (rows_text (page_bytes geometry.now) first end mark)) }
    ensures failed { OnErr result (W.failed out.new ≡ true) }
{
    if end <= first {
        return Ok(());
    }
    let area = Area {
        position: bytes_of(geometry, first),
        size: bytes_of(geometry, end - first),
        mark,
    };
    out.line(area)
}

// The row of a loss.
fn row_at(losses: &[Loss], number: usize) -> u64
    requires { number < length losses.now }
    ensures is { result ≡ row_at losses.now number }
    ensures fits { result < 4294967296 }
{
    u64::from(losses[number].row)
}

// The row behind the first losses, of which there are so many.
fn next_row(losses: &[Loss], count: usize) -> u64
    requires { count ≤ length losses.now }
    ensures is { result ≡ next_row losses.now count }
    ensures few { result ≤ 4294967296 }
{
    if count == 0 {
        0
    } else {
        row_at(losses, count - 1) + 1
    }
}

// Prints the lines of a loss, and of the rows between it and the one before.
fn print_loss<W: MapWriter>(
    out: &mut W,
    geometry: &Geometry,
    next: u64,
    row: u64,
) -> Result<(), LineFault>
    requires { row + 1 ≤ 4294967296 }
    ensures printed { OnOk result (Appends (W.contents out.old) (W.contents out.new) (loss_text (page_bytes geometry.now) next row)) }
    ensures failed { OnErr result (W.failed out.new ≡ true) }
{
    print_part(out, geometry, next, row, MapMark::Finished)?;
    print_part(out, geometry, row, row + 1, MapMark::Bad)
}

// Prints the lines of all losses, and of the rows between them.
fn print_parts<W: MapWriter>(
    out: &mut W,
    geometry: &Geometry,
    losses: &[Loss],
) -> Result<(), LineFault>
    ensures printed { OnOk result (Appends (W.contents out.old) (W.contents out.new) (parts_below (page_bytes geometry.now) losses.now (length losses.now))) }
    ensures failed { OnErr result (W.failed out.new ≡ true) }
{
    for i in 0..losses.len() {
        print_loss(out, geometry, next_row(losses, i), row_at(losses, i))?;
    }
    Ok(())
}

/// Prints which rows of a corrected dump of this geometry have lost chunks: one line for each such row, and for the rows between two, by rising
/// position. Positions and sizes are bytes of the dump. `losses` are rows of the die, by rising row.
///
/// # Errors
///
/// `LineFault` where a line could not be printed: a beginning of the map may stand there. (The form of the lines is that of GNU ddrescue's mapfile, the remark this
/// project's.)
pub fn print_losses<W: MapWriter>(
    out: &mut W,
    geometry: &Geometry,
    losses: &[Loss],
) -> Result<(), LineFault>
    ensures printed { OnOk result (Appends (W.contents out.old) (W.contents out.new) (loss_map_text geometry.now losses.now)) }
    ensures failed { OnErr result (W.failed out.new ≡ true) }
{
    print_map_head(out, Remark::Dump)?;
    print_parts(out, geometry, losses)?;
    let next = next_row(losses, losses.len());
    print_part(
        out,
        geometry,
        next,
        u64::from(geometry.rows()),
        MapMark::Finished,
    )
}
