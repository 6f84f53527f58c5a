//! The command `merge GEOM OUT DUMP DUMP..`.
ghost use Rattle.std.specs.Prelude.{◌≡◌, ◌<◌, ◌≤◌, [], length, map, vec_capacity, true, OnOk, OnErr, IfOk, IfErr};
ghost use Rattle.lab_mend.specs.Merged.{IsOfReading};
ghost use Rattle.lab_mend.specs.Rooms.{IsMergeRoom};
ghost use Rattle.program_words.specs.Met.{texts};
ghost use Rattle.lab_commands.specs.Files.{AnswersNoMore, OpensSome, after_opens, without_part};
ghost use Rattle.lab_commands.specs.Merge.{AreOpened, HasPutJoined, HasSame, IsJoined, IsMergeFault, IsSomeUnread, IsUnjoined, IsUnmergedBy, IsMergeUnput, MayMerge, MayNotMerge, PutMerge, TellsFault, TellsOwnPath, WroteMerge};
ghost use Rattle.lab_commands.specs.Merge.{dumps_of};

use crate::files::{LabFiles, Progress, Standing};
use crate::opening::{
    create_beside, geometry_at, is_dump, keep, may_replace, open_file, progress_of, standing,
};
use crate::output::Output;
use crate::printing::{ended, printer};
use crate::reports::print_merged;
use crate::text::LabFault;
use crate::words::MergeWords;
use lab_dump::DumpReader;
use lab_mend::{MergeFault, MergeRoom, Merged, RowTally, TriedRow, merge_dumps};
use page_layout::geometry::Geometry;
use std::alloc::{AllocError, Global};

/// Whether a path is that of one of the dumps.
pub(crate) fn is_some_dump<'a, F: LabFiles>(
    files: &mut F,
    dumps: &[&'a str],
    path: &str,
) -> Result<bool, LabFault<'a>>
    ensures said { IfOk result (HasSame (F.answers files.old) (texts dumps.now) path.now) }
    ensures fault { IfErr result (IsSomeUnread (F.answers files.old) (texts dumps.now)) }
    ensures same { files.new ≡ files.old }
{
    for place in 0..dumps.len() {
        if is_dump(files, dumps[place], path)? {
            return Ok(true);
        }
    }
    Ok(false)
}

// Whether OUT may be written: nothing stands there, or a file that is none of the dumps and may be replaced.
fn allow_merge<'a, F: LabFiles>(files: &mut F, words: &MergeWords<'a>) -> Result<(), LabFault<'a>>
    ensures ok { OnOk result (MayMerge (F.answers files.old) words.now) }
    ensures fault { IfErr result (MayNotMerge (F.answers files.old) words.now) }
    ensures same { files.new ≡ files.old }
{
    let there = standing(files, words.out)?;
    if there == Standing::Nothing {
        return Ok(());
    }
    if is_some_dump(files, &words.dumps, words.out)? {
        return Err(LabFault::IsDump);
    }
    may_replace(there, words.force)
}

// Opens a reader of each dump, in their order. They are read in step, so the first alone shows how far it is.
fn open_all<'a, F: LabFiles>(
    dumps: &[&'a str],
    progress: Progress,
    files: &mut F,
    readers: &mut Vec<F::Reader>,
) -> Result<(), LabFault<'a>>
    requires none { readers.old.items ≡ [] }
    requires room { length dumps.now ≤ vec_capacity readers.old }
    ensures opened { OnOk result (AreOpened (F.answers files.old) (texts dumps.now) (map F.Reader.remaining readers.new.items)) }
    ensures fails { OnOk result (0 < length dumps.now → (reader : F.Reader) → F.Reader.failed reader ≡ true → (F.answers files.old).reads_fail) }
    ensures fault { IfErr result (IsSomeUnread (F.answers files.old) (texts dumps.now)) }
    ensures no_more { AnswersNoMore (F.answers files.old) (F.answers files.new) }
    ensures kept { F.kept files.new ≡ F.kept files.old }
    ensures once { OnOk result (F.opened files.new ≡ after_opens (length dumps.now) (F.opened files.old)) }
    ensures some { OnErr result (OpensSome (length dumps.now) (F.opened files.old) (F.opened files.new)) }
{
    for place in 0..dumps.len() {
        let shown = if place == 0 {
            progress
        } else {
            Progress::Hidden
        };
        let reader = open_file(files, dumps[place], shown)?;
        readers.push_reserved(reader);
    }
    Ok(())
}

// How a fault of the merge is told: of a reading by its path.
fn merge_told<'a>(fault: MergeFault, dumps: &[&'a str], out: &'a str) -> LabFault<'a>
    requires { IsOfReading (length dumps.now) fault }
    ensures { TellsFault fault (texts dumps.now) out.now result }
{
    match fault {
        MergeFault::WrongLength(place) => LabFault::DumpLength(dumps[place]),
        MergeFault::Source(place) => LabFault::Read(dumps[place]),
        MergeFault::Target => LabFault::Write(out),
    }
}

// The memory of a merge: that of the merge itself, and a place for the reader of each dump.
#[derive(Drop)]
struct Room<R> {
    merge: MergeRoom,
    readers: Vec<R>,
}

// Takes it for so many dumps.
fn take_room<R: DumpReader>(
    alloc: Global,
    geometry: &Geometry,
    count: usize,
) -> Result<Room<R>, AllocError>
    ensures merge { IfOk result (λ room. IsMergeRoom geometry.now count room.merge) }
    ensures none { IfOk result (λ room. room.readers.items ≡ []) }
    ensures places { IfOk result (λ room. count ≤ vec_capacity room.readers) }
{
    Ok(Room {
        merge: MergeRoom::new(alloc, geometry, count)?,
        readers: Vec::with_capacity(alloc, count)?,
    })
}

// Makes the one dump beside its place, by readers that are to be opened.
fn join_by<'a, F: LabFiles>(
    room: MergeRoom,
    words: &MergeWords<'a>,
    geometry: &Geometry,
    files: &mut F,
    readers: &mut Vec<F::Reader>,
) -> Result<Merged<F::Target>, LabFault<'a>>
    requires some { 0 < length words.now.dumps.items }
    requires room { IsMergeRoom geometry.now (length words.now.dumps.items) room }
    requires none { readers.old.items ≡ [] }
    requires places { length words.now.dumps.items ≤ vec_capacity readers.old }
    ensures made { IfOk result (λ told. IsJoined (F.answers files.old) (dumps_of words.now) geometry.now (F.Target.pieces told.target) told.conflicts.items told.unsound.items told.tried.items told.tally) }
    ensures fault { IfErr result (IsUnjoined (F.answers files.old) (dumps_of words.now) geometry.now words.now.out.now) }
    ensures named { IfErr result (TellsOwnPath (F.answers files.old) (map F.Reader.failed readers.new.items) (dumps_of words.now) words.now.out.now) }
    ensures no_more { AnswersNoMore (F.answers files.old) (F.answers files.new) }
    ensures beside { OnOk result (without_part (F.kept files.new) ≡ F.kept files.old) }
    ensures kept { OnErr result (F.kept files.new ≡ F.kept files.old) }
    ensures opened { OnOk result (F.opened files.new ≡ after_opens (length words.now.dumps.items) (F.opened files.old)) }
    ensures some { OnErr result (OpensSome (length words.now.dumps.items) (F.opened files.old) (F.opened files.new)) }
{
    open_all(&words.dumps, progress_of(words.showing), files, readers)?;
    let size = geometry.data_bytes() + geometry.spare_bytes();
    let target = create_beside(files, words.out, geometry.rows(), size)?;
    match merge_dumps(room, readers, geometry, target) {
        Ok(merged) => Ok(merged),
        Err(unmerged) => {
            files.discard(unmerged.target);
            Err(merge_told(unmerged.fault, &words.dumps, words.out))
        }
    }
}

// Makes the one dump beside its place.
fn join<'a, F: LabFiles>(
    room: Room<F::Reader>,
    words: &MergeWords<'a>,
    geometry: &Geometry,
    files: &mut F,
) -> Result<Merged<F::Target>, LabFault<'a>>
    requires some { 0 < length words.now.dumps.items }
    requires merge { IsMergeRoom geometry.now (length words.now.dumps.items) room.merge }
    requires none { room.readers.items ≡ [] }
    requires places { length words.now.dumps.items ≤ vec_capacity room.readers }
    ensures made { IfOk result (λ told. IsJoined (F.answers files.old) (dumps_of words.now) geometry.now (F.Target.pieces told.target) told.conflicts.items told.unsound.items told.tried.items told.tally) }
    ensures fault { IfErr result (IsUnjoined (F.answers files.old) (dumps_of words.now) geometry.now words.now.out.now) }
    ensures no_more { AnswersNoMore (F.answers files.old) (F.answers files.new) }
    ensures beside { OnOk result (without_part (F.kept files.new) ≡ F.kept files.old) }
    ensures kept { OnErr result (F.kept files.new ≡ F.kept files.old) }
    ensures opened { OnOk result (F.opened files.new ≡ after_opens (length words.now.dumps.items) (F.opened files.old)) }
    ensures some { OnErr result (OpensSome (length words.now.dumps.items) (F.opened files.old) (F.opened files.new)) }
{
    let mut readers = room.readers;
    join_by(room.merge, words, geometry, files, &mut readers)
}

// What is told of a merge whose dump stands in its place.
#[derive(Drop)]
struct MergePlaced {
    conflicts: Vec<u32>,
    unsound: Vec<u32>,
    tried: Vec<TriedRow>,
    tally: RowTally,
}

// Makes the one dump and puts it in the place of OUT.
fn put_joined<'a, F: LabFiles>(
    alloc: Global,
    words: &MergeWords<'a>,
    geometry: &Geometry,
    files: &mut F,
) -> Result<MergePlaced, LabFault<'a>>
    requires { 0 < length words.now.dumps.items }
    ensures put { IfOk result (λ told. HasPutJoined (F.answers files.old) words.now (F.kept files.old) (F.kept files.new) geometry.now told.conflicts.items told.unsound.items told.tried.items told.tally) }
    ensures fault { IfErr result (IsMergeUnput (F.answers files.old) words.now geometry.now (F.opened files.old) (F.opened files.new)) }
    ensures kept { OnErr result (F.kept files.new ≡ F.kept files.old) }
    ensures opened { OnOk result (F.opened files.new ≡ after_opens (length words.now.dumps.items) (F.opened files.old)) }
{
    let room = take_room(alloc, geometry, words.dumps.len())?;
    let merged = join(room, words, geometry, files)?;
    keep(files, words.out, merged.target, words.force)?;
    Ok(MergePlaced {
        conflicts: merged.conflicts,
        unsound: merged.unsound,
        tried: merged.tried,
        tally: merged.tally,
    })
}

// Puts the one dump in the place of OUT, where that is allowed.
fn place<'a, F: LabFiles>(
    alloc: Global,
    words: &MergeWords<'a>,
    files: &mut F,
) -> Result<MergePlaced, LabFault<'a>>
    requires { 0 < length words.now.dumps.items }
    ensures placed { IfOk result (λ told. PutMerge (F.answers files.old) words.now (F.kept files.old) (F.kept files.new) told.conflicts.items told.unsound.items told.tried.items told.tally) }
    ensures fault { IfErr result (IsUnmergedBy (F.answers files.old) words.now (F.opened files.old) (F.opened files.new)) }
    ensures kept { OnErr result (F.kept files.new ≡ F.kept files.old) }
    ensures opened { OnOk result (F.opened files.new ≡ after_opens (length words.now.dumps.items) (F.opened files.old)) }
{
    let geometry = geometry_at(words.geometry)?;
    allow_merge(files, words)?;
    put_joined(alloc, words, &geometry, files)
}

/// The command `merge`: writes one dump of the dumps DUMP, each a reading of one die of the geometry GEOM, to the file OUT, row by row, and prints
/// of which rows two sound pages differ, of which no page is sound nor the majority and not all are erased, of which pages were tried, and how many
/// rows there are of each kind.
///
/// # Errors
///
/// The first of this order: `BadNumber` where GEOM writes no numbers, `Geometry` where they are no geometry, `IsDump` where OUT is one of the
/// dumps, `Exists` where something stands at OUT and is not to be replaced, `NoFile` where that is neither a file nor a link to one, `OutOfMemory` where a growth was refused, `Read` where one of the
/// dumps cannot be opened, `Write` where no file can be made beside OUT; then each when it happens: `Read` where a read of a dump fails,
/// `DumpLength` where a dump has not as many bytes as the geometry says, `Write` where OUT cannot be written or put in its place, `Exists` where
/// another program gave its name to a file meanwhile and it is not to be replaced. After each of these OUT is as it was, nothing stands beside it, and
/// nothing was printed. `Write` of `-` where `out` failed: then OUT was written.
///
/// (This project's.)
pub(crate) fn merge_command<'a, F: LabFiles, W: Output>(
    alloc: Global,
    words: MergeWords<'a>,
    files: &mut F,
    out: &mut W,
) -> Result<(), LabFault<'a>>
    requires { 0 < length words.dumps.items }
    ensures ok { OnOk result (WroteMerge (F.answers files.old) words.entry (F.kept files.old) (F.kept files.new) (W.contents out.old) (W.contents out.new)) }
    ensures fault { IfErr result (IsMergeFault (F.answers files.old) words.entry (F.kept files.old) (F.kept files.new) (F.opened files.old) (F.opened files.new) (W.failed out.new) (W.contents out.old) (W.contents out.new)) }
    ensures opened { OnOk result (F.opened files.new ≡ after_opens (length words.entry.dumps.items) (F.opened files.old)) }
{
    let told = place(alloc, &words, files)?;
    ended(print_merged(
        printer(alloc, words.showing),
        out,
        &told.conflicts,
        &told.unsound,
        &told.tried,
        told.tally,
    ))
}
