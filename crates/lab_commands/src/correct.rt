//! The command `correct GEOM DUMP OUT [--map FILE]`.
ghost use Rattle.std.specs.Prelude.{◌≡◌, OnOk, OnErr, IfOk, IfErr, suc, option_map};
ghost use Rattle.page_code.specs.Chip.{IsChipOf};
ghost use Rattle.lab_correct.specs.Map.{loss_map_text};
ghost use Rattle.lab_correct.specs.Rooms.{IsCorrectRoom};
ghost use Rattle.lab_commands.specs.Files.{AnswersNoMore, without_part};
ghost use Rattle.lab_commands.specs.Undone.{IsFileUnmade};
ghost use Rattle.lab_commands.specs.Array.{IsUnmapped, IsArrayUnput, with_map};
ghost use Rattle.lab_commands.specs.Correct.{HasPutRight, IsCorrectFault, IsNoChip, ArePiecesPutRight, IsUncorrectedBy, PlacedCorrected, WroteCorrected};

use crate::array::allow_both;
use crate::files::LabFiles;
use crate::maps::LossMap;
use crate::opening::{begin_pages, geometry_at, keep, store_map, unmade};
use crate::output::Output;
use crate::printing::{ended, printer};
use crate::reports::print_corrected;
use crate::text::LabFault;
use crate::words::ArrayWords;
use lab_correct::{CorrectRoom, DumpCorrected, Loss, correct_dump};
use page_code::chip::ChipGeometry;
use page_layout::geometry::{Geometry, GeometryFault};
use std::alloc::Global;

// The geometry of the chip whose pages without their codes have this one.
fn chip_of<'a>(geometry: &Geometry) -> Result<ChipGeometry, LabFault<'a>>
    ensures ok { IfOk result (λ chip. IsChipOf geometry.now chip.raw) }
    ensures fault { IfErr result (IsNoChip geometry.now) }
{
    match ChipGeometry::of(geometry) {
        Some(chip) => Ok(chip),
        None => Err(LabFault::Geometry(GeometryFault::SpareSize)),
    }
}

// Puts the map in its place, where one is wanted.
fn put_map<'a, F: LabFiles>(
    words: &ArrayWords<'a>,
    geometry: &Geometry,
    losses: &[Loss],
    files: &mut F,
) -> Result<(), LabFault<'a>>
    ensures ok { OnOk result (F.kept files.new ≡ with_map (F.kept files.old) words.now (loss_map_text geometry.now losses.now)) }
    ensures fault { IfErr result (IsUnmapped (F.answers files.old) words.now) }
    ensures kept { OnErr result (F.kept files.new ≡ F.kept files.old) }
    ensures opened { F.opened files.new ≡ F.opened files.old }
{
    let Some(file) = words.map else {
        return Ok(());
    };
    store_map(files, file, &LossMap { geometry, losses }, words.force)
}

// Makes the dump without codes beside its place.
fn put_right<'a, F: LabFiles>(
    room: CorrectRoom,
    words: &ArrayWords<'a>,
    geometry: &Geometry,
    chip: &ChipGeometry,
    files: &mut F,
) -> Result<DumpCorrected<F::Target>, LabFault<'a>>
    requires chip { IsChipOf geometry.now chip.now.raw }
    requires room { IsCorrectRoom geometry.now chip.now.raw room }
    ensures made { IfOk result (λ told. ArePiecesPutRight (F.answers files.old) words.now.dump.now geometry.now chip.now.raw (F.Target.pieces told.target) (record { turned = told.turned; touched = told.touched; losses = told.losses.items })) }
    ensures fault { IfErr result (IsFileUnmade (F.answers files.old) chip.now.raw words.now.dump.now words.now.out.now) }
    ensures no_more { AnswersNoMore (F.answers files.old) (F.answers files.new) }
    ensures beside { OnOk result (without_part (F.kept files.new) ≡ F.kept files.old) }
    ensures kept { OnErr result (F.kept files.new ≡ F.kept files.old) }
    ensures opened { OnOk result (F.opened files.new ≡ option_map suc (F.opened files.old)) }
{
    let begun = begin_pages(files, words.dump, words.out, words.showing, geometry)?;
    let (mut dump, target) = begun;
    match correct_dump(room, &mut dump, geometry, chip, target) {
        Ok(told) => Ok(told),
        Err(unwritten) => Err(unmade(files, unwritten, words.dump, words.out)),
    }
}

// What is counted of a dump without codes that stands in its place.
#[derive(Drop)]
struct CorrectedPut {
    turned: u64,
    touched: u32,
    losses: Vec<Loss>,
}

// Makes the dump without codes and puts it in the place of OUT.
fn put_corrected<'a, F: LabFiles>(
    alloc: Global,
    words: &ArrayWords<'a>,
    geometry: &Geometry,
    chip: &ChipGeometry,
    files: &mut F,
) -> Result<CorrectedPut, LabFault<'a>>
    requires { IsChipOf geometry.now chip.now.raw }
    ensures put { IfOk result (λ put. HasPutRight (F.answers files.old) words.now (F.kept files.old) (F.kept files.new) geometry.now chip.now.raw (record { turned = put.turned; touched = put.touched; losses = put.losses.items })) }
    ensures fault { IfErr result (IsArrayUnput (F.answers files.old) chip.now.raw words.now (F.opened files.old) (F.opened files.new)) }
    ensures no_more { OnOk result (AnswersNoMore (F.answers files.old) (F.answers files.new)) }
    ensures kept { OnErr result (F.kept files.new ≡ F.kept files.old) }
    ensures opened { OnOk result (F.opened files.new ≡ option_map suc (F.opened files.old)) }
{
    let room = CorrectRoom::new(alloc, geometry, chip)?;
    let told = put_right(room, words, geometry, chip, files)?;
    keep(files, words.out, told.target, words.force)?;
    Ok(CorrectedPut {
        turned: told.turned,
        touched: told.touched,
        losses: told.losses,
    })
}

// A dump without codes that stands in its place, and what is told of it.
#[derive(Drop)]
struct CorrectedPlaced {
    geometry: Geometry,
    turned: u64,
    touched: u32,
    losses: Vec<Loss>,
}

// Puts the dump without codes in the place of OUT, where that is allowed.
fn place<'a, F: LabFiles>(
    alloc: Global,
    words: &ArrayWords<'a>,
    files: &mut F,
) -> Result<CorrectedPlaced, LabFault<'a>>
    ensures placed { IfOk result (λ told. PlacedCorrected (F.answers files.old) words.now (F.kept files.old) (F.kept files.new) told.geometry (record { turned = told.turned; touched = told.touched; losses = told.losses.items })) }
    ensures fault { IfErr result (IsUncorrectedBy (F.answers files.old) words.now (F.opened files.old) (F.opened files.new)) }
    ensures no_more { OnOk result (AnswersNoMore (F.answers files.old) (F.answers files.new)) }
    ensures kept { OnErr result (F.kept files.new ≡ F.kept files.old) }
    ensures opened { OnOk result (F.opened files.new ≡ option_map suc (F.opened files.old)) }
{
    let geometry = geometry_at(words.geometry)?;
    let chip = chip_of(&geometry)?;
    allow_both(files, words)?;
    let put = put_corrected(alloc, words, &geometry, &chip, files)?;
    Ok(CorrectedPlaced {
        geometry,
        turned: put.turned,
        touched: put.touched,
        losses: put.losses,
    })
}

/// The command `correct`: writes the dump DUMP of a chip, whose pages stand with their codes, to the file OUT without them, with GEOM the geometry of
/// OUT, and where that is wanted the map of it to FILE, and prints which rows have lost chunks, and how many bits were turned back.
///
/// # Errors
///
/// The first of this order: `BadNumber` where GEOM writes no numbers, `Geometry` where they are no geometry, or `SpareSize` where the chip's spare area
/// with the codes would have more than 256 bytes, `IsDump` where OUT is the dump, `Exists` where something stands at OUT and is not to be replaced,
/// `NoFile` where that is neither a file nor a link to one, `MapIsOut`, `MapIsDump`, `MapExists` or `MapNoFile` where FILE is OUT or the dump, or so,
/// `Write` of FILE where it cannot be asked about, `OutOfMemory` where a growth was refused, `Read` where DUMP cannot be opened, `Write` where no file can be made beside OUT; then each when it
/// happens: `Read` where a read of DUMP fails, `WrongLength` where it has not as many bytes as the chip's geometry says, `Write` where OUT cannot be
/// written or put in its place, `Exists` where another program gave its name to a file meanwhile and it is not to be replaced. After each of these OUT
/// and FILE are as they were, nothing stands beside them, and nothing was printed. `Write` of FILE, `MapExists`, or `OutOfMemory` of the files, where FILE
/// cannot be made: then OUT was written, and nothing was printed. `Write` of `-` where `out` failed: then both were written.
///
/// (This project's.)
pub(crate) fn correct_command<'a, F: LabFiles, W: Output>(
    alloc: Global,
    words: ArrayWords<'a>,
    files: &mut F,
    out: &mut W,
) -> Result<(), LabFault<'a>>
    ensures ok { OnOk result (WroteCorrected (F.answers files.old) words.entry (F.kept files.old) (F.kept files.new) (W.contents out.old) (W.contents out.new)) }
    ensures fault { IfErr result (IsCorrectFault (F.answers files.old) words.entry (F.kept files.old) (F.kept files.new) (F.opened files.old) (F.opened files.new) (W.failed out.new) (W.contents out.old) (W.contents out.new)) }
    ensures opened { OnOk result (F.opened files.new ≡ option_map suc (F.opened files.old)) }
{
    let told = place(alloc, &words, files)?;
    put_map(&words, &told.geometry, &told.losses, files)?;
    ended(print_corrected(
        printer(alloc, words.showing),
        out,
        told.turned,
        told.touched,
        &told.losses,
    ))
}
