//! The command `origin GEOM OUT DUMP READING READING..`.
ghost use Rattle.std.specs.Prelude.{◌≡◌, ◌≤◌, [], ◌∷◌, Some, length, map, vec_capacity, OnOk, OnErr, IfOk, IfErr, suc, option_map};
ghost use Rattle.program_words.specs.Met.{texts};
ghost use Rattle.lab_dump.specs.declared.map_head.Remark.TheVariants as remark;
ghost use Rattle.lab_dump.specs.Map.{map_text};
ghost use Rattle.lab_origin.specs.Traced.{NamesOneOfReadings, IsOfSome};
ghost use Rattle.lab_origin.specs.Tracing.{IsOriginRoom};
ghost use Rattle.lab_commands.specs.Files.{AnswersNoMore, after_opens, with_kept};
ghost use Rattle.lab_commands.specs.Merge.{AreOpened, IsSomeUnread};
ghost use Rattle.lab_commands.specs.Undone.{IsUnplaced};
ghost use Rattle.lab_commands.specs.Origin.{HasPutMarks, HasPutOrigin, HasTracedMarks, IsOriginFault, IsOriginUndone, IsUnfollowed, IsTracedMapUnput, MayMap, MayNotMap, TellsItsPath, TellsOrigin, TellsReading, WroteOrigin};

use crate::files::{LabFiles, Progress, Standing};
use crate::maps::OriginMap;
use crate::merge::is_some_dump;
use crate::numbers::last_at;
use crate::opening::{
    geometry_at, is_dump, may_replace, open_dump, progress_of, standing, store_map,
};
use crate::origin_words::OriginWords;
use crate::output::Output;
use crate::printing::{ended, printer};
use crate::reports::print_origin;
use crate::text::LabFault;
use lab_dump::{Dump, MapMark};
use lab_origin::{OriginFault, OriginRoom, ReadingFault, trace_origins};
use page_layout::geometry::Geometry;
use std::alloc::{AllocError, Global};

// Whether OUT may be written: nothing stands there, or a file that is neither the dump nor a reading and may be replaced.
fn allow_origin<'a, F: LabFiles>(files: &mut F, words: &OriginWords<'a>) -> Result<(), LabFault<'a>>
    ensures ok { OnOk result (MayMap (F.answers files.old) words.now) }
    ensures fault { IfErr result (MayNotMap (F.answers files.old) words.now) }
    ensures same { files.new ≡ files.old }
{
    let there = standing(files, words.out)?;
    if there == Standing::Nothing {
        return Ok(());
    }
    if is_dump(files, words.dump, words.out)? {
        return Err(LabFault::IsDump);
    }
    if is_some_dump(files, &words.readings, words.out)? {
        return Err(LabFault::IsDump);
    }
    may_replace(there, words.force)
}

// Opens each reading, in their order. The dump shows how far it is.
fn open_readings<'a, F: LabFiles>(
    paths: &[&'a str],
    files: &mut F,
    readings: &mut Vec<F::Dump>,
) -> Result<(), LabFault<'a>>
    requires none { readings.old.items ≡ [] }
    requires room { length paths.now ≤ vec_capacity readings.old }
    ensures opened { OnOk result (AreOpened (F.answers files.old) (texts paths.now) (map F.Dump.bytes readings.new.items)) }
    ensures fault { IfErr result (IsSomeUnread (F.answers files.old) (texts paths.now)) }
    ensures no_more { AnswersNoMore (F.answers files.old) (F.answers files.new) }
    ensures kept { F.kept files.new ≡ F.kept files.old }
    ensures once { OnOk result (F.opened files.new ≡ after_opens (length paths.now) (F.opened files.old)) }
{
    for place in 0..paths.len() {
        let reading = open_dump(files, paths[place], Progress::Hidden)?;
        readings.push_reserved(reading);
    }
    Ok(())
}

// How it is told that a reading was not held beside the dump.
fn reading_told<'a>(fault: ReadingFault, readings: &[&'a str]) -> LabFault<'a>
    requires { NamesOneOfReadings (length readings.now) fault }
    ensures { TellsReading fault (texts readings.now) result }
{
    match fault {
        ReadingFault::WrongLength(place) => LabFault::ReadingLength(readings[place]),
        ReadingFault::Source(place) => LabFault::Read(readings[place]),
    }
}

// How it is told that they were not held side by side.
fn origin_told<'a>(fault: OriginFault, words: &OriginWords<'a>) -> LabFault<'a>
    requires { IsOfSome (length words.now.readings.items) fault }
    ensures { TellsOrigin fault words.now result }
{
    match fault {
        OriginFault::WrongLength => LabFault::WrongLength,
        OriginFault::Source => LabFault::Read(words.dump),
        OriginFault::Reading(why) => reading_told(why, &words.readings),
    }
}

// The memory of the command: that of the pass, and a place for each reading.
#[derive(Drop)]
struct Room<D> {
    origin: OriginRoom,
    readings: Vec<D>,
}

// Takes it for so many readings.
fn take_room<D: Dump>(
    alloc: Global,
    geometry: &Geometry,
    count: usize,
) -> Result<Room<D>, AllocError>
    ensures origin { IfOk result (λ room. IsOriginRoom geometry.now room.origin) }
    ensures none { IfOk result (λ room. room.readings.items ≡ []) }
    ensures places { IfOk result (λ room. count ≤ vec_capacity room.readings) }
{
    Ok(Room {
        origin: OriginRoom::new(alloc, geometry)?,
        readings: Vec::with_capacity(alloc, count)?,
    })
}

// How each sector is marked, by readings that are to be opened.
fn follow_by<'a, F: LabFiles>(
    room: OriginRoom,
    words: &OriginWords<'a>,
    geometry: &Geometry,
    last: Option<u64>,
    files: &mut F,
    readings: &mut Vec<F::Dump>,
) -> Result<Vec<MapMark>, LabFault<'a>>
    requires room { IsOriginRoom geometry.now room }
    requires none { readings.old.items ≡ [] }
    requires places { length words.now.readings.items ≤ vec_capacity readings.old }
    ensures followed { IfOk result (λ marks. HasTracedMarks (F.answers files.old) words.now geometry.now last marks.items) }
    ensures sized { IfOk result (λ marks. length marks.items ≡ geometry.now.sectors) }
    ensures fault { IfErr result (IsUnfollowed (F.answers files.old) words.now geometry.now) }
    ensures named { IfErr result (TellsItsPath (F.answers files.old) (map F.Dump.failed readings.new.items) words.now) }
    ensures no_more { AnswersNoMore (F.answers files.old) (F.answers files.new) }
    ensures kept { F.kept files.new ≡ F.kept files.old }
    ensures opened { OnOk result (F.opened files.new ≡ after_opens (length words.now.readings.items) (option_map suc (F.opened files.old))) }
{
    let mut dump = open_dump(files, words.dump, progress_of(words.showing))?;
    open_readings(&words.readings, files, readings)?;
    match trace_origins(room, &mut dump, readings, geometry, last) {
        Ok(marks) => Ok(marks),
        Err(fault) => Err(origin_told(fault, words)),
    }
}

// How each sector is marked.
fn follow<'a, F: LabFiles>(
    room: Room<F::Dump>,
    words: &OriginWords<'a>,
    geometry: &Geometry,
    last: Option<u64>,
    files: &mut F,
) -> Result<Vec<MapMark>, LabFault<'a>>
    requires origin { IsOriginRoom geometry.now room.origin }
    requires none { room.readings.items ≡ [] }
    requires places { length words.now.readings.items ≤ vec_capacity room.readings }
    ensures followed { IfOk result (λ marks. HasTracedMarks (F.answers files.old) words.now geometry.now last marks.items) }
    ensures sized { IfOk result (λ marks. length marks.items ≡ geometry.now.sectors) }
    ensures fault { IfErr result (IsUnfollowed (F.answers files.old) words.now geometry.now) }
    ensures no_more { AnswersNoMore (F.answers files.old) (F.answers files.new) }
    ensures kept { F.kept files.new ≡ F.kept files.old }
    ensures opened { OnOk result (F.opened files.new ≡ after_opens (length words.now.readings.items) (option_map suc (F.opened files.old))) }
{
    let mut readings = room.readings;
    follow_by(room.origin, words, geometry, last, files, &mut readings)
}

// Puts the map in the place of OUT.
fn put_origin<'a, F: LabFiles>(
    words: &OriginWords<'a>,
    geometry: &Geometry,
    marks: &[MapMark],
    files: &mut F,
) -> Result<(), LabFault<'a>>
    requires { length marks.now ≡ geometry.now.sectors }
    ensures ok { OnOk result (F.kept files.new ≡ with_kept (F.kept files.old) words.now.out.now (Some (map_text remark.Readings geometry.now marks.now ∷ [])) words.now.force) }
    ensures fault { IfErr result (IsUnplaced (F.answers files.old) words.now.out.now words.now.force) }
    ensures kept { OnErr result (F.kept files.new ≡ F.kept files.old) }
    ensures opened { F.opened files.new ≡ F.opened files.old }
{
    let map = OriginMap { geometry, marks };
    match store_map(files, words.out, &map, words.force) {
        Err(LabFault::MapExists) => Err(LabFault::Exists),
        done => done,
    }
}

// Follows the pages, and puts the map in the place of OUT. How each sector is marked is told.
fn put_marks<'a, F: LabFiles>(
    alloc: Global,
    words: &OriginWords<'a>,
    geometry: &Geometry,
    last: Option<u64>,
    files: &mut F,
) -> Result<Vec<MapMark>, LabFault<'a>>
    ensures put { IfOk result (λ marks. HasPutMarks (F.answers files.old) words.now (F.kept files.old) (F.kept files.new) geometry.now last marks.items) }
    ensures fault { IfErr result (IsTracedMapUnput (F.answers files.old) words.now geometry.now (F.opened files.old) (F.opened files.new)) }
    ensures kept { OnErr result (F.kept files.new ≡ F.kept files.old) }
    ensures opened { OnOk result (F.opened files.new ≡ after_opens (length words.now.readings.items) (option_map suc (F.opened files.old))) }
{
    let room = take_room(alloc, geometry, words.readings.len())?;
    let marks = follow(room, words, geometry, last, files)?;
    put_origin(words, geometry, &marks, files)?;
    Ok(marks)
}

// The same where the words say what is to be followed, and it is allowed.
fn place<'a, F: LabFiles>(
    alloc: Global,
    words: &OriginWords<'a>,
    files: &mut F,
) -> Result<Vec<MapMark>, LabFault<'a>>
    ensures placed { IfOk result (λ marks. HasPutOrigin (F.answers files.old) words.now (F.kept files.old) (F.kept files.new) marks.items) }
    ensures fault { IfErr result (IsOriginUndone (F.answers files.old) words.now (F.opened files.old) (F.opened files.new)) }
    ensures kept { OnErr result (F.kept files.new ≡ F.kept files.old) }
    ensures opened { OnOk result (F.opened files.new ≡ after_opens (length words.now.readings.items) (option_map suc (F.opened files.old))) }
{
    let geometry = geometry_at(words.geometry)?;
    let last = last_at(words.until)?;
    allow_origin(files, words)?;
    put_marks(alloc, words, &geometry, last, files)
}

/// The command `origin`: writes the map of the array of the dump DUMP, of the geometry GEOM, to the file OUT, in which each sector has a mark of its own that is shown of a page that none
/// of the readings READING has as it stands, in the same row: it was mended, or put together of several. As of the sequence SEQUENCE where that is said, as of `array`. It prints how many such sectors
/// there are.
///
/// # Errors
///
/// The first of this order: `BadNumber` where GEOM writes no numbers, `Geometry` where they are no geometry, `BadNumber` where SEQUENCE is no number, `IsDump` where OUT is the dump or a
/// reading, `Exists` where something stands at OUT and is not to be replaced, `NoFile` where that is neither a file nor a link to one, `OutOfMemory` where a growth was refused, `Read` where
/// DUMP or a reading cannot be opened, `WrongLength` where DUMP has not as many bytes as the geometry says, `ReadingLength` where a reading has not; then each when it happens: `Read` where a
/// read of one fails, `Write` where OUT cannot be written or put in its place, `Exists` where another program gave its name to a file meanwhile and it is not to be replaced. After each of
/// these OUT is as it was, nothing stands beside it, and nothing was printed. `Write` of `-` where `out` failed: then OUT was written.
///
/// (This project's.)
pub(crate) fn origin_command<'a, F: LabFiles, W: Output>(
    alloc: Global,
    words: OriginWords<'a>,
    files: &mut F,
    out: &mut W,
) -> Result<(), LabFault<'a>>
    ensures ok { OnOk result (WroteOrigin (F.answers files.old) words.entry (F.kept files.old) (F.kept files.new) (W.contents out.old) (W.contents out.new)) }
    ensures fault { IfErr result (IsOriginFault (F.answers files.old) words.entry (F.kept files.old) (F.kept files.new) (F.opened files.old) (F.opened files.new) (W.failed out.new) (W.contents out.old) (W.contents out.new)) }
    ensures opened { OnOk result (F.opened files.new ≡ after_opens (length words.entry.readings.items) (option_map suc (F.opened files.old))) }
{
    let marks = place(alloc, &words, files)?;
    ended(print_origin(printer(alloc, words.showing), out, &marks))
}
