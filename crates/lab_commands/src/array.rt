//! The command `array GEOM DUMP OUT [--map FILE] [--until SEQUENCE] [--damaged]`.
ghost use Rattle.std.specs.Prelude.{◌≡◌, OnOk, OnErr, IfOk, IfErr, IfSome, true, false, length, map, replicate, suc, option_map};
ghost use Rattle.page_layout.specs.Array.{zeros};
ghost use Rattle.lab_dump.specs.declared.map_head.Remark.TheVariants as remark;
ghost use Rattle.lab_dump.specs.Held.{mark_in};
ghost use Rattle.lab_dump.specs.Map.{map_text};
ghost use Rattle.lab_dump.specs.Rooms.{IsArrayRoom};
ghost use Rattle.lab_dump.specs.Unmade as made;
ghost use Rattle.lab_dump.specs.Written.{IsArrayWritten};
ghost use Rattle.lab_commands.specs.Files.{AnswersNoMore, without_part};
ghost use Rattle.lab_commands.specs.Undone.{IsFileUnmade, MayWrite};
ghost use Rattle.lab_commands.specs.Array.{AreAllowed, AreNotAllowed, HasPutSectors, IsArrayFault, IsArrayMade, IsMapNotAllowed, IsArrayUndone, IsUnmapped, IsArrayUnput, PlacedArray, WroteArray, as_map, with_map};

use crate::files::LabFiles;
use crate::maps::ArrayMap;
use crate::numbers::last_at;
use crate::opening::{allow, begin_file, geometry_at, is_out, keep, store_map, unmade};
use crate::output::Output;
use crate::printing::{ended, printer};
use crate::reports::print_array;
use crate::text::LabFault;
use crate::words::{ArrayWords, UntilWords};
use lab_dump::{
    ArrayRoom, ArrayWritten, DamagedTarget, DumpReader, Held, MakeFault, Unsettled, Unwritten,
    write_array, write_damaged,
};
use page_layout::geometry::Geometry;
use std::alloc::Global;

// How it is told that FILE may not be written: as of OUT, with a name of its own.
fn as_map<'a>(fault: LabFault<'a>) -> LabFault<'a>
    ensures { result ≡ as_map fault.entry }
{
    match fault {
        LabFault::IsDump => LabFault::MapIsDump,
        LabFault::Exists => LabFault::MapExists,
        LabFault::NoFile => LabFault::MapNoFile,
        other => other,
    }
}

// Whether FILE may be written: it is not OUT, and nothing stands there, or a file that is not the dump and may be replaced.
fn allow_map<'a, F: LabFiles>(
    files: &mut F,
    words: &ArrayWords<'a>,
    file: &'a str,
) -> Result<(), LabFault<'a>>
    ensures other { OnOk result ((F.answers files.old).says_same words.now.out.now file.now false) }
    ensures ok { OnOk result (MayWrite (F.answers files.old) words.now.dump.now file.now words.now.force) }
    ensures fault { IfErr result (IsMapNotAllowed (F.answers files.old) words.now file.now) }
    ensures same { files.new ≡ files.old }
{
    if is_out(files, words.out, file)? {
        return Err(LabFault::MapIsOut);
    }
    match allow(files, words.dump, file, words.force) {
        Ok(()) => Ok(()),
        Err(fault) => Err(as_map(fault)),
    }
}

/// Whether OUT may be written, and FILE, where a map is wanted.
pub(crate) fn allow_both<'a, F: LabFiles>(
    files: &mut F,
    words: &ArrayWords<'a>,
) -> Result<(), LabFault<'a>>
    ensures ok { OnOk result (AreAllowed (F.answers files.old) words.now) }
    ensures fault { IfErr result (AreNotAllowed (F.answers files.old) words.now) }
    ensures same { files.new ≡ files.old }
{
    allow(files, words.dump, words.out, words.force)?;
    match words.map {
        Some(file) => allow_map(files, words, file),
        None => Ok(()),
    }
}

// Puts the map in its place, where one is wanted.
fn put_map<'a, F: LabFiles>(
    words: &ArrayWords<'a>,
    geometry: &Geometry,
    held: &[Held],
    files: &mut F,
) -> Result<(), LabFault<'a>>
    requires { length held.now ≡ geometry.now.sectors }
    ensures ok { OnOk result (F.kept files.new ≡ with_map (F.kept files.old) words.now (map_text remark.Array geometry.now (map mark_in held.now))) }
    ensures fault { IfErr result (IsUnmapped (F.answers files.old) words.now) }
    ensures kept { OnErr result (F.kept files.new ≡ F.kept files.old) }
    ensures opened { F.opened files.new ≡ F.opened files.old }
{
    let Some(file) = words.map else {
        return Ok(());
    };
    store_map(files, file, &ArrayMap { geometry, held }, words.force)
}

// Writes the array, with pages shown that are not sound where that is asked for.
fn write_sectors<R: DumpReader, T: DamagedTarget + Drop>(
    room: ArrayRoom,
    dump: &mut R,
    geometry: &Geometry,
    last: Option<u64>,
    damaged: bool,
    target: T,
) -> Result<ArrayWritten<T>, Unwritten<T>>
    requires room { IsArrayRoom geometry.now room }
    requires pieces { IfSome (T.pieces target) (λ ps. ps ≡ replicate geometry.now.sectors (zeros geometry.now)) }
    ensures ok { IfOk result (λ written. IfSome (R.remaining dump.old) (IsArrayWritten geometry.now last damaged (T.pieces written.target) written.held.items written.left)) }
    ensures sized { IfOk result (λ written. length written.held.items ≡ geometry.now.sectors) }
    ensures err { IfErr result (λ unwritten. IfSome (R.remaining dump.old) (made.IsUnmade geometry.now unwritten.fault)) }
    ensures source { IfErr result (λ unwritten. unwritten.fault ≡ MakeFault.Source → R.failed dump.new ≡ true) }
    ensures target { IfErr result (λ unwritten. unwritten.fault ≡ MakeFault.Target → T.failed unwritten.target ≡ true) }
{
    if damaged {
        write_damaged(room, dump, geometry, last, target)
    } else {
        write_array(room, dump, geometry, last, target)
    }
}

// Makes the array beside its place, as of a sequence where one is said, with pages shown that are not sound where that is asked for.
fn make<'a, F: LabFiles>(
    room: ArrayRoom,
    words: &ArrayWords<'a>,
    geometry: &Geometry,
    last: Option<u64>,
    damaged: bool,
    files: &mut F,
) -> Result<ArrayWritten<F::Target>, LabFault<'a>>
    requires { IsArrayRoom geometry.now room }
    ensures made { IfOk result (λ written. IsArrayMade (F.answers files.old) words.now.dump.now geometry.now last damaged (F.Target.pieces written.target) written.held.items written.left) }
    ensures sized { IfOk result (λ written. length written.held.items ≡ geometry.now.sectors) }
    ensures fault { IfErr result (IsFileUnmade (F.answers files.old) geometry.now words.now.dump.now words.now.out.now) }
    ensures no_more { AnswersNoMore (F.answers files.old) (F.answers files.new) }
    ensures beside { OnOk result (without_part (F.kept files.new) ≡ F.kept files.old) }
    ensures kept { OnErr result (F.kept files.new ≡ F.kept files.old) }
    ensures opened { OnOk result (F.opened files.new ≡ option_map suc (F.opened files.old)) }
{
    let begun = begin_file(
        files,
        words.dump,
        words.out,
        words.showing,
        geometry.sectors(),
        geometry.data_bytes(),
    )?;
    let (mut dump, target) = begun;
    match write_sectors(room, &mut dump, geometry, last, damaged, target) {
        Ok(written) => Ok(written),
        Err(unwritten) => Err(unmade(files, unwritten, words.dump, words.out)),
    }
}

// The states of the sectors of an array that stands in its place, and what is left open.
#[derive(Drop)]
struct SectorsPut {
    held: Vec<Held>,
    left: Unsettled,
}

// Makes the array and puts it in the place of OUT.
fn put_sectors<'a, F: LabFiles>(
    alloc: Global,
    words: &ArrayWords<'a>,
    geometry: &Geometry,
    last: Option<u64>,
    damaged: bool,
    files: &mut F,
) -> Result<SectorsPut, LabFault<'a>>
    ensures put { IfOk result (λ put. HasPutSectors (F.answers files.old) words.now (F.kept files.old) (F.kept files.new) geometry.now last damaged put.held.items put.left) }
    ensures sized { IfOk result (λ put. length put.held.items ≡ geometry.now.sectors) }
    ensures fault { IfErr result (IsArrayUnput (F.answers files.old) geometry.now words.now (F.opened files.old) (F.opened files.new)) }
    ensures no_more { OnOk result (AnswersNoMore (F.answers files.old) (F.answers files.new)) }
    ensures kept { OnErr result (F.kept files.new ≡ F.kept files.old) }
    ensures opened { OnOk result (F.opened files.new ≡ option_map suc (F.opened files.old)) }
{
    let room = ArrayRoom::new(alloc, geometry)?;
    let written = make(room, words, geometry, last, damaged, files)?;
    keep(files, words.out, written.target, words.force)?;
    Ok(SectorsPut {
        held: written.held,
        left: written.left,
    })
}

// An array that stands in its place, and what is told of it.
#[derive(Drop)]
struct ArrayPlaced {
    geometry: Geometry,
    last: Option<u64>,
    held: Vec<Held>,
    left: Unsettled,
}

// Puts the array in the place of OUT, where that is allowed.
fn place<'a, F: LabFiles>(
    alloc: Global,
    words: UntilWords<'a>,
    files: &mut F,
) -> Result<ArrayPlaced, LabFault<'a>>
    ensures placed { IfOk result (λ told. PlacedArray (F.answers files.old) words.entry (F.kept files.old) (F.kept files.new) told.geometry told.last told.held.items told.left) }
    ensures sized { IfOk result (λ told. length told.held.items ≡ told.geometry.sectors) }
    ensures fault { IfErr result (IsArrayUndone (F.answers files.old) words.entry (F.opened files.old) (F.opened files.new)) }
    ensures no_more { OnOk result (AnswersNoMore (F.answers files.old) (F.answers files.new)) }
    ensures kept { OnErr result (F.kept files.new ≡ F.kept files.old) }
    ensures opened { OnOk result (F.opened files.new ≡ option_map suc (F.opened files.old)) }
{
    let UntilWords {
        array: words,
        until,
        damaged,
    } = words;
    let geometry = geometry_at(words.geometry)?;
    let last = last_at(until)?;
    allow_both(files, &words)?;
    let put = put_sectors(alloc, &words, &geometry, last, damaged, files)?;
    Ok(ArrayPlaced {
        geometry,
        last,
        held: put.held,
        left: put.left,
    })
}

/// The command `array`: writes every sector of the dump DUMP, of the geometry GEOM, to the file OUT, as of the sequence SEQUENCE where that is said:
/// just the pages of this sequence or an earlier one count then. Where `--damaged` stands, pages are shown that are not sound, of sectors of which
/// they say something newer than each sound page. It writes the map of OUT, where that is wanted, to FILE, and prints which sectors are tied, and how
/// far the array may be from the last write.
///
/// # Errors
///
/// The first of this order: `BadNumber` where GEOM writes no numbers, `Geometry` where they are no geometry, `BadNumber` where SEQUENCE is no number, `IsDump` where OUT is the dump,
/// `Exists` where something stands at OUT and is not to be replaced, `NoFile` where that is neither a file nor a link to one, `MapIsOut`,
/// `MapIsDump`, `MapExists` or `MapNoFile` where FILE is OUT or the dump, or so, `Write` of FILE where it cannot be asked about, `OutOfMemory` where a
/// growth was refused, `Read` where DUMP cannot be opened, `Write` where no file can be made beside OUT; then each when it happens: `Read` where a read of DUMP fails, `WrongLength` where it has not as many bytes as the
/// geometry says, `Write` where OUT cannot be written or put in its place, `Exists` where another program gave its name to a file meanwhile and it is
/// not to be replaced. After each of these OUT and FILE are as they were, nothing stands beside them, and nothing was
/// printed. `Write` of FILE, `MapExists`, or `OutOfMemory` of the files, where FILE cannot be made: then OUT was written, and nothing was printed. `Write` of `-` where
/// `out` failed: then both were written.
///
/// (This project's.)
pub(crate) fn array_command<'a, F: LabFiles, W: Output>(
    alloc: Global,
    words: UntilWords<'a>,
    files: &mut F,
    out: &mut W,
) -> Result<(), LabFault<'a>>
    ensures ok { OnOk result (WroteArray (F.answers files.old) words.entry (F.kept files.old) (F.kept files.new) (W.contents out.old) (W.contents out.new)) }
    ensures fault { IfErr result (IsArrayFault (F.answers files.old) words.entry (F.kept files.old) (F.kept files.new) (F.opened files.old) (F.opened files.new) (W.failed out.new) (W.contents out.old) (W.contents out.new)) }
    ensures opened { OnOk result (F.opened files.new ≡ option_map suc (F.opened files.old)) }
{
    let told = place(alloc, words, files)?;
    put_map(&words.array, &told.geometry, &told.held, files)?;
    ended(print_array(
        printer(alloc, words.array.showing),
        out,
        &told.geometry,
        told.last,
        &told.held,
        &told.left,
    ))
}
