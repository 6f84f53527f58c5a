//! The command `geometry DUMP`.
ghost use Rattle.std.specs.Prelude.{◌≡◌, OnOk, OnErr, IfOk, IfErr, IfSome, true, suc, option_map};
ghost use Rattle.lab_shapes.specs.Arranged.{IsPossibleAs};
ghost use Rattle.lab_shapes.specs.Rooms.{HasRoomForLargestPage};
ghost use Rattle.lab_commands.specs.Geometry.{ToldFits, FitNothing, FitsAre, HasFound, HasRooms, IsGeometryFault, IsTurned, IsGeometryUnfound, fitting_text};
ghost use Rattle.lab_commands.specs.Document.{Prints};

use crate::document::Printer;
use crate::files::LabFiles;
use crate::opening::{open_dump, progress_of};
use crate::output::{Output, OutputFault};
use crate::printing::{ended, printer};
use crate::reports::{print_arranged_fit, print_fits};
use crate::text::LabFault;
use crate::words::{GeometryWords, Showing};
use lab_correct::{FoundFit, FoundRoom, find_all_geometries};
use lab_dump::{Dump, DumpFault, NearestRoom, find_nearest};
use lab_shapes::{ArrangedFit, ShapeRoom, find_arranged, find_planes};
use std::alloc::{AllocError, Global};

/// The memory of the command, all that it takes for its searches.
#[derive(Drop)]
pub(crate) struct GeometryRooms {
    pub(crate) fits: FoundRoom,
    pub(crate) shapes: ShapeRoom,
    pub(crate) nearest: NearestRoom,
}

impl GeometryRooms {
    ghost use Rattle.std.specs.Prelude.{IfOk};
    ghost use Rattle.lab_commands.specs.Geometry.{HasRooms};

    fn new(alloc: Global) -> Result<GeometryRooms, AllocError>
        ensures { IfOk result HasRooms }
    {
        Ok(GeometryRooms {
            fits: FoundRoom::new(alloc)?,
            shapes: ShapeRoom::new(alloc)?,
            nearest: NearestRoom::new(alloc)?,
        })
    }
}

/// What fits a dump.
#[derive(Drop)]
pub(crate) enum Fitting {
    /// These geometries, as it stands and with codes; and the best of them with the pages of two planes in turns, where more of its pages are in their
    /// turn so.
    Stands(Vec<FoundFit>, Option<ArrangedFit>),
    /// None of them, and this one best in another arrangement.
    Arranged(ArrangedFit),
}

// The best of the geometries that fit a dump, with the pages of two planes in turns, where it has no codes and more of its pages are in their turn so.
fn turn_best<D: Dump>(
    room: ShapeRoom,
    dump: &mut D,
    fits: &[FoundFit],
) -> Result<Option<ArrangedFit>, DumpFault>
    requires { HasRoomForLargestPage room }
    ensures turned { IfOk result (IsTurned (D.bytes dump.old) fits.now) }
    ensures possible { IfOk result (λ turned. IfSome turned IsPossibleAs) }
    ensures source { OnErr result (D.failed dump.new ≡ true) }
{
    match fits.first() {
        Some(best) if !best.coded => find_planes(room, dump, &best.fit),
        _ => Ok(None),
    }
}

// What fits the bytes of a dump: as they stand and with codes, or else in another arrangement. Where nothing does, what came nearest.
fn search<'a, D: Dump>(
    rooms: GeometryRooms,
    path: &'a str,
    dump: &mut D,
) -> Result<Fitting, LabFault<'a>>
    requires { HasRooms rooms }
    ensures found { IfOk result (FitsAre (D.bytes dump.old)) }
    ensures fault { IfErr result (FitNothing (D.bytes dump.old) (D.failed dump.new) path.now) }
{
    let fits = match find_all_geometries(rooms.fits, dump) {
        Ok(fits) => fits,
        Err(_) => return Err(LabFault::Read(path)),
    };
    if !fits.is_empty() {
        let Ok(turned) = turn_best(rooms.shapes, dump, &fits) else {
            return Err(LabFault::Read(path));
        };
        return Ok(Fitting::Stands(fits, turned));
    }
    match find_arranged(rooms.shapes, dump) {
        Ok(Some(found)) => Ok(Fitting::Arranged(found)),
        Ok(None) => match find_nearest(rooms.nearest, dump) {
            Ok(nearest) => Err(LabFault::NoneFits(nearest)),
            Err(_) => Err(LabFault::Read(path)),
        },
        Err(_) => Err(LabFault::Read(path)),
    }
}

// What fits a dump.
fn find_fits<'a, F: LabFiles>(
    rooms: GeometryRooms,
    path: &'a str,
    showing: Showing,
    files: &mut F,
) -> Result<Fitting, LabFault<'a>>
    requires { HasRooms rooms }
    ensures found { IfOk result (HasFound (F.answers files.old) path.now) }
    ensures fault { IfErr result (IsGeometryUnfound (F.answers files.old) path.now) }
    ensures kept { F.kept files.new ≡ F.kept files.old }
    ensures opened { F.opened files.new ≡ option_map suc (F.opened files.old) }
{
    let mut dump = open_dump(files, path, progress_of(showing))?;
    search(rooms, path, &mut dump)
}

// Prints it.
fn print_fitting<W: Output>(
    printer: Printer,
    out: &mut W,
    fitting: &Fitting,
) -> Result<(), OutputFault>
    ensures { Prints (W.failed out.new) (W.contents out.old) (W.contents out.new) (fitting_text printer.form fitting.now) result }
{
    match fitting {
        Fitting::Stands(fits, turned) => print_fits(printer, out, fits, *turned),
        Fitting::Arranged(found) => print_arranged_fit(printer, out, found),
    }
}

/// The command `geometry`: prints which geometries fit the dump DUMP, as it stands and as one of a chip whose pages have codes, best first, a line for
/// each with what the dump says for it; and the best of them once more with two planes in turns, where more of its pages are in their turn so. Where none does, it prints the one that fits best in another arrangement, with what to type.
///
/// # Errors
///
/// The first of this order: `OutOfMemory` where a growth was refused, `Read` where DUMP cannot be opened, or its size cannot be known or a read of it
/// fails, `NoneFits` where no geometry fits it, in no arrangement that is tried, with the nearest record that can be read in it. After each of these
/// nothing was printed.
/// `Write` of `-` where `out` failed.
///
/// (This project's.)
pub(crate) fn geometry_command<'a, F: LabFiles, W: Output>(
    alloc: Global,
    words: GeometryWords<'a>,
    files: &mut F,
    out: &mut W,
) -> Result<(), LabFault<'a>>
    ensures ok { OnOk result (ToldFits (F.answers files.old) words.entry (W.contents out.old) (W.contents out.new)) }
    ensures kept { F.kept files.new ≡ F.kept files.old }
    ensures fault { IfErr result (IsGeometryFault (F.answers files.old) words.entry (F.kept files.old) (F.kept files.new) (F.opened files.old) (F.opened files.new) (W.failed out.new) (W.contents out.old) (W.contents out.new)) }
    ensures opened { OnOk result (F.opened files.new ≡ option_map suc (F.opened files.old)) }
{
    let rooms = GeometryRooms::new(alloc)?;
    let fitting = find_fits(rooms, words.dump, words.showing, files)?;
    ended(print_fitting(printer(alloc, words.showing), out, &fitting))
}
