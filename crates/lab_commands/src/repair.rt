//! The command `repair GEOM DUMP OUT`.
ghost use Rattle.std.specs.Prelude.{◌≡◌, OnOk, OnErr, IfOk, IfErr, suc, option_map};
ghost use Rattle.lab_mend.specs.Rooms.{IsRepairRoom};
ghost use Rattle.lab_commands.specs.Files.{AnswersNoMore, without_part};
ghost use Rattle.lab_commands.specs.Undone.{IsFileUnmade};
ghost use Rattle.lab_commands.specs.Repair.{AreAsked, AreUnasked, HasPutMends, HasPutRepair, IsRepairOfDump, IsRepairFault, IsRepairUnput, IsUnrepairedBy, WroteRepair, told_tries};

use crate::bits::bits_at;
use crate::files::LabFiles;
use crate::opening::{allow, begin_pages, geometry_at, keep, progress_of, unmade};
use crate::output::Output;
use crate::printing::{ended, printer};
use crate::reports::print_repaired;
use crate::rows::rows_at;
use crate::text::LabFault;
use crate::words::RepairWords;
use lab_mend::{Mend, RepairAsked, RepairRoom, Repaired, count_turn_tries, repair_dump};
use page_layout::geometry::Geometry;
use std::alloc::Global;

// Makes the mended dump beside its place.
fn mend<'a, F: LabFiles>(
    room: RepairRoom,
    words: &RepairWords<'a>,
    geometry: &Geometry,
    asked: RepairAsked,
    files: &mut F,
) -> Result<Repaired<F::Target>, LabFault<'a>>
    requires { IsRepairRoom geometry.now room }
    ensures made { IfOk result (λ told. IsRepairOfDump (F.answers files.old) words.now.dump.now geometry.now asked (F.Target.pieces told.target) told.mends.items) }
    ensures fault { IfErr result (IsFileUnmade (F.answers files.old) geometry.now words.now.dump.now words.now.out.now) }
    ensures no_more { AnswersNoMore (F.answers files.old) (F.answers files.new) }
    ensures beside { OnOk result (without_part (F.kept files.new) ≡ F.kept files.old) }
    ensures kept { OnErr result (F.kept files.new ≡ F.kept files.old) }
    ensures opened { OnOk result (F.opened files.new ≡ option_map suc (F.opened files.old)) }
{
    let begun = begin_pages(files, words.dump, words.out, words.showing, geometry)?;
    let (mut dump, target) = begun;
    let watch = files.watch(progress_of(words.showing));
    match repair_dump(room, &mut dump, geometry, asked, target, watch) {
        Ok(repaired) => Ok(repaired),
        Err(unwritten) => Err(unmade(files, unwritten, words.dump, words.out)),
    }
}

// How many pages are told to have been tried.
fn tries_told(geometry: &Geometry, bits: u32, mends: &[Mend]) -> u64
    ensures { result ≡ told_tries bits geometry.now mends.now }
{
    if bits >= 2 {
        count_turn_tries(geometry, mends)
    } else {
        0
    }
}

// What was mended, and how many pages are told to have been tried.
#[derive(Drop)]
struct MendsTold {
    tries: u64,
    mends: Vec<Mend>,
}

// The geometry that the words say, and what they ask of it.
fn asked_at<'a>(words: &RepairWords<'a>) -> Result<(Geometry, RepairAsked), LabFault<'a>>
    ensures ok { IfOk result (λ said. AreAsked words.now said.0 said.1) }
    ensures fault { IfErr result (AreUnasked words.now) }
{
    let geometry = geometry_at(words.geometry)?;
    let rows = rows_at(words.rows, &geometry)?;
    let bits = bits_at(words.bits, &geometry)?;
    Ok((geometry, RepairAsked { rows, bits }))
}

// Mends the dump so, and puts it in the place of OUT.
fn put_mends<'a, F: LabFiles>(
    alloc: Global,
    words: &RepairWords<'a>,
    geometry: &Geometry,
    asked: RepairAsked,
    files: &mut F,
) -> Result<MendsTold, LabFault<'a>>
    ensures put { IfOk result (λ told. HasPutMends (F.answers files.old) words.now (F.kept files.old) (F.kept files.new) geometry.now asked told.tries told.mends.items) }
    ensures fault { IfErr result (IsRepairUnput (F.answers files.old) words.now geometry.now (F.opened files.old) (F.opened files.new)) }
    ensures kept { OnErr result (F.kept files.new ≡ F.kept files.old) }
    ensures opened { OnOk result (F.opened files.new ≡ option_map suc (F.opened files.old)) }
{
    let room = RepairRoom::new(alloc, geometry)?;
    let repaired = mend(room, words, geometry, asked, files)?;
    keep(files, words.out, repaired.target, words.force)?;
    let tries = tries_told(geometry, asked.bits, &repaired.mends);
    Ok(MendsTold {
        tries,
        mends: repaired.mends,
    })
}

// Puts the mended dump in the place of OUT, where the words say what is asked and it is allowed.
fn put_mended<'a, F: LabFiles>(
    alloc: Global,
    words: &RepairWords<'a>,
    files: &mut F,
) -> Result<MendsTold, LabFault<'a>>
    ensures put { IfOk result (λ told. HasPutRepair (F.answers files.old) words.now (F.kept files.old) (F.kept files.new) told.tries told.mends.items) }
    ensures fault { IfErr result (IsUnrepairedBy (F.answers files.old) words.now (F.opened files.old) (F.opened files.new)) }
    ensures kept { OnErr result (F.kept files.new ≡ F.kept files.old) }
    ensures opened { OnOk result (F.opened files.new ≡ option_map suc (F.opened files.old)) }
{
    let said = asked_at(words)?;
    allow(files, words.dump, words.out, words.force)?;
    put_mends(alloc, words, &said.0, said.1, files)
}

/// The command `repair`: writes the dump DUMP, of the geometry GEOM, to the file OUT, with each page mended that is neither erased nor sound and
/// that one bit turned makes sound, or else erased, and prints which pages were mended, and how many. Where it may turn two bits, a page that none mends is
/// written with the two bits turned that make it sound, if no other two do, and how many pages were tried is printed too. Where it has the word A..B, pages of
/// the rows A to B - 1 alone are mended.
///
/// # Errors
///
/// The first of this order: `BadNumber` where GEOM writes no numbers, `Geometry` where they are no geometry, `BadNumber` where A..B is no two
/// numbers, `RowRange` where B is less than A or more than the die has rows, `BadNumber` where how many bits is no number, `BitRange` where it is neither one
/// nor two, `PageSize` where it is two and a page has more than 600 bytes, `IsDump` where OUT is the dump,
/// `Exists` where something stands at OUT and is not to be replaced, `NoFile` where that is neither a file nor a link to one, `OutOfMemory` where a growth was
/// refused, `Read` where DUMP cannot be opened, `Write` where no file can be made beside OUT; then each when it happens: `Read` where a read of DUMP fails, `WrongLength` where
/// it has not as many bytes as the geometry says, `Write` where OUT cannot be written or put in its place, `Exists` where another program gave its name to a
/// file meanwhile and it is not to be replaced. After each of these OUT is as it was, nothing stands beside it, and nothing was printed. `Write` of `-` where `out` failed: then OUT was written.
///
/// (This project's.)
pub(crate) fn repair_command<'a, F: LabFiles, W: Output>(
    alloc: Global,
    words: RepairWords<'a>,
    files: &mut F,
    out: &mut W,
) -> Result<(), LabFault<'a>>
    ensures ok { OnOk result (WroteRepair (F.answers files.old) words.entry (F.kept files.old) (F.kept files.new) (W.contents out.old) (W.contents out.new)) }
    ensures fault { IfErr result (IsRepairFault (F.answers files.old) words.entry (F.kept files.old) (F.kept files.new) (F.opened files.old) (F.opened files.new) (W.failed out.new) (W.contents out.old) (W.contents out.new)) }
    ensures opened { OnOk result (F.opened files.new ≡ option_map suc (F.opened files.old)) }
{
    let mended = put_mended(alloc, &words, files)?;
    ended(print_repaired(
        printer(alloc, words.showing),
        out,
        mended.tries,
        &mended.mends,
    ))
}
