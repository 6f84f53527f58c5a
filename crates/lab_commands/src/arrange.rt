//! The command `arrange GEOM DUMP OUT [--from WORDS]`.
ghost use Rattle.std.specs.Prelude.{◌≡◌, OnOk, OnErr, IfOk, IfErr, suc, option_map};
ghost use Rattle.lab_arrange.specs.Place.{IsFitting};
ghost use Rattle.lab_arrange.specs.Rooms.{IsArrangeRoom};
ghost use Rattle.lab_commands.specs.Files.{AnswersNoMore, without_part};
ghost use Rattle.lab_commands.specs.Arrange.{AreSaid, AreUnsaid, HasPutInOrder, IsArrangeFault, IsMadeInOrder, SaysArrangement, IsUnarrangedBy, IsUnordered, IsArrangedUnput, IsUnsaid, PutArranged, WroteArranged, unordered_as};

use crate::arrange_words::ArrangeWords;
use crate::files::LabFiles;
use crate::opening::{allow, create_beside, geometry_at, keep, open_dump, progress_of};
use crate::output::Output;
use crate::printing::{ended, printer};
use crate::reports::print_arranged;
use crate::text::LabFault;
use lab_arrange::{
    ArrangeFault, ArrangeRoom, Arrangement, arrange_dump, arrangement_at, fit_arrangement, in_order,
};
use page_layout::geometry::Geometry;
use std::alloc::Global;

// The arrangement that a word says; in order, where there is none.
fn arrangement_of<'a>(word: Option<&'a str>) -> Result<Arrangement, LabFault<'a>>
    ensures ok { IfOk result (SaysArrangement word.entry) }
    ensures fault { IfErr result (IsUnsaid word.entry) }
{
    let Some(word) = word else {
        return Ok(in_order());
    };
    match arrangement_at(word) {
        Ok(arrangement) => Ok(arrangement),
        Err(bad) => Err(LabFault::BadArrangement(bad)),
    }
}

// The geometry and the arrangement that the words say.
fn shape_of<'a>(words: &ArrangeWords<'a>) -> Result<(Geometry, Arrangement), LabFault<'a>>
    ensures ok { IfOk result (λ said. AreSaid words.now said.0 said.1) }
    ensures fault { IfErr result (AreUnsaid words.now) }
{
    let arrangement = arrangement_of(words.from)?;
    let geometry = geometry_at(words.geometry)?;
    match fit_arrangement(&geometry, &arrangement) {
        Ok(()) => Ok((geometry, arrangement)),
        Err(unfit) => Err(LabFault::Unfit(unfit)),
    }
}

// How it is told that no dump in order was made.
fn unordered_as<'a>(fault: ArrangeFault, dump: &'a str, out: &'a str) -> LabFault<'a>
    ensures { result ≡ unordered_as fault dump.entry out.entry }
{
    match fault {
        ArrangeFault::WrongLength { wanted, found } => LabFault::ArrangedLength { wanted, found },
        ArrangeFault::Source => LabFault::Read(dump),
        ArrangeFault::Target => LabFault::Write(out),
    }
}

// Makes the dump in order beside its place.
fn put_in_order<'a, F: LabFiles>(
    room: ArrangeRoom,
    words: &ArrangeWords<'a>,
    geometry: &Geometry,
    arrangement: &Arrangement,
    files: &mut F,
) -> Result<F::Target, LabFault<'a>>
    requires fits { IsFitting geometry.now arrangement.now }
    requires room { IsArrangeRoom geometry.now room }
    ensures made { IfOk result (λ target. IsMadeInOrder (F.answers files.old) words.now.dump.now geometry.now arrangement.now (F.Target.pieces target)) }
    ensures fault { IfErr result (IsUnordered (F.answers files.old) geometry.now arrangement.now words.now.dump.now words.now.out.now) }
    ensures no_more { AnswersNoMore (F.answers files.old) (F.answers files.new) }
    ensures beside { OnOk result (without_part (F.kept files.new) ≡ F.kept files.old) }
    ensures kept { OnErr result (F.kept files.new ≡ F.kept files.old) }
    ensures opened { F.opened files.new ≡ option_map suc (F.opened files.old) }
{
    let mut dump = open_dump(files, words.dump, progress_of(words.showing))?;
    let size = geometry.data_bytes() + geometry.spare_bytes();
    let target = create_beside(files, words.out, geometry.rows(), size)?;
    match arrange_dump(room, &mut dump, geometry, arrangement, target) {
        Ok(target) => Ok(target),
        Err(undone) => {
            files.discard(undone.target);
            Err(unordered_as(undone.fault, words.dump, words.out))
        }
    }
}

// Makes the dump in order and puts it in the place of OUT.
fn place_in_order<'a, F: LabFiles>(
    alloc: Global,
    words: &ArrangeWords<'a>,
    geometry: &Geometry,
    arrangement: &Arrangement,
    files: &mut F,
) -> Result<(), LabFault<'a>>
    requires { IsFitting geometry.now arrangement.now }
    ensures put { OnOk result (HasPutInOrder (F.answers files.old) words.now (F.kept files.old) (F.kept files.new) geometry.now arrangement.now) }
    ensures fault { IfErr result (IsArrangedUnput (F.answers files.old) words.now geometry.now arrangement.now (F.opened files.old) (F.opened files.new)) }
    ensures kept { OnErr result (F.kept files.new ≡ F.kept files.old) }
    ensures opened { OnOk result (F.opened files.new ≡ option_map suc (F.opened files.old)) }
{
    let room = ArrangeRoom::new(alloc, geometry)?;
    let target = put_in_order(room, words, geometry, arrangement, files)?;
    keep(files, words.out, target, words.force)
}

// Puts the dump in order in the place of OUT, where that is allowed. Its geometry is told.
fn place<'a, F: LabFiles>(
    alloc: Global,
    words: &ArrangeWords<'a>,
    files: &mut F,
) -> Result<Geometry, LabFault<'a>>
    ensures placed { IfOk result (PutArranged (F.answers files.old) words.now (F.kept files.old) (F.kept files.new)) }
    ensures fault { IfErr result (IsUnarrangedBy (F.answers files.old) words.now (F.opened files.old) (F.opened files.new)) }
    ensures kept { OnErr result (F.kept files.new ≡ F.kept files.old) }
    ensures opened { OnOk result (F.opened files.new ≡ option_map suc (F.opened files.old)) }
{
    let said = shape_of(words)?;
    allow(files, words.dump, words.out, words.force)?;
    place_in_order(alloc, words, &said.0, &said.1, files)?;
    Ok(said.0)
}

/// The command `arrange`: writes the dump DUMP, which stands as WORDS say, to the file OUT as pages in row order, each its data area and then its spare
/// area, and prints how many. Of GEOM the sectors play no part.
///
/// # Errors
///
/// The first of this order: `BadArrangement` where a word of WORDS is none, or says what another one before it has said; `BadNumber` where GEOM writes
/// no numbers, `Geometry` where they are no geometry; `Unfit` where no die of GEOM stands so; `IsDump` where OUT is the dump, `Exists` where something
/// stands at OUT and is not to be replaced, `NoFile` where that is neither a file nor a link to one; `OutOfMemory` where a growth was refused; `Read`
/// where DUMP cannot be opened; `Write` where no file can be made beside OUT; then each when it happens: `Read` where the size of DUMP is not known or a
/// read of it fails, `ArrangedLength` where it has not as many bytes as WORDS and GEOM say, `Write` where OUT cannot be written or put in its place,
/// `Exists` where another program gave its name to a file meanwhile and it is not to be replaced. After each of these OUT is as it was, nothing stands
/// beside it, and nothing was printed. `Write` of `-` where `out` failed: then OUT was written.
///
/// (This project's.)
pub(crate) fn arrange_command<'a, F: LabFiles, W: Output>(
    alloc: Global,
    words: ArrangeWords<'a>,
    files: &mut F,
    out: &mut W,
) -> Result<(), LabFault<'a>>
    ensures ok { OnOk result (WroteArranged (F.answers files.old) words.entry (F.kept files.old) (F.kept files.new) (W.contents out.old) (W.contents out.new)) }
    ensures fault { IfErr result (IsArrangeFault (F.answers files.old) words.entry (F.kept files.old) (F.kept files.new) (F.opened files.old) (F.opened files.new) (W.failed out.new) (W.contents out.old) (W.contents out.new)) }
    ensures opened { OnOk result (F.opened files.new ≡ option_map suc (F.opened files.old)) }
{
    let geometry = place(alloc, &words, files)?;
    ended(print_arranged(printer(alloc, words.showing), out, geometry.rows()))
}
