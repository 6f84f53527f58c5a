//! The command `history GEOM DUMP SECTOR`.
ghost use Rattle.std.specs.Prelude.{◌≡◌, OnOk, IfOk, IfErr, suc, option_map};
ghost use Rattle.lab_dump.specs.Rooms.{IsHistoryRoom};
ghost use Rattle.lab_commands.specs.History.{HasHistory, IsHistoryFault, IsHistoryUntold, IsRecalled, ToldHistory};
ghost use Rattle.lab_commands.specs.Survey.{IsDumpUnsurveyed};

use crate::files::LabFiles;
use crate::numbers::sector_at;
use crate::opening::{geometry_at, open_file, progress_of};
use crate::output::Output;
use crate::printing::{ended, printer};
use crate::reports::print_history;
use crate::text::LabFault;
use crate::words::{HistoryWords, Showing};
use lab_dump::{History, HistoryRoom, SurveyFault, survey_sector};
use page_layout::geometry::Geometry;
use std::alloc::Global;

// The history of a sector of a dump.
fn history_of<'a, F: LabFiles>(
    room: HistoryRoom,
    dump: &'a str,
    geometry: &Geometry,
    sector: u32,
    showing: Showing,
    files: &mut F,
) -> Result<History, LabFault<'a>>
    requires { IsHistoryRoom geometry.now room }
    ensures recalled { IfOk result (IsRecalled (F.answers files.old) dump.now geometry.now sector) }
    ensures fault { IfErr result (IsDumpUnsurveyed (F.answers files.old) geometry.now dump.now) }
    ensures kept { F.kept files.new ≡ F.kept files.old }
    ensures opened { F.opened files.new ≡ option_map suc (F.opened files.old) }
{
    let mut reader = open_file(files, dump, progress_of(showing))?;
    match survey_sector(room, &mut reader, geometry, sector) {
        Ok(history) => Ok(history),
        Err(SurveyFault::WrongLength) => Err(LabFault::WrongLength),
        Err(SurveyFault::Source) => Err(LabFault::Read(dump)),
    }
}

// The history of a sector, and the geometry of its dump.
#[derive(Drop)]
struct Recalled {
    geometry: Geometry,
    history: History,
}

// The history that the words ask for.
fn recall<'a, F: LabFiles>(
    alloc: Global,
    words: &HistoryWords<'a>,
    files: &mut F,
) -> Result<Recalled, LabFault<'a>>
    ensures recalled { IfOk result (λ found. HasHistory (F.answers files.old) words.now found.geometry found.history) }
    ensures fault { IfErr result (IsHistoryUntold (F.answers files.old) words.now (F.opened files.old) (F.opened files.new)) }
    ensures kept { F.kept files.new ≡ F.kept files.old }
    ensures opened { OnOk result (F.opened files.new ≡ option_map suc (F.opened files.old)) }
{
    let geometry = geometry_at(words.geometry)?;
    let sector = sector_at(words.sector, &geometry)?;
    let room = HistoryRoom::new(alloc, &geometry)?;
    let history = history_of(room, words.dump, &geometry, sector, words.showing, files)?;
    Ok(Recalled { geometry, history })
}

/// The command `history`: prints each sound page of the sector SECTOR that the dump DUMP, of the geometry GEOM, still has, newest first. What a trim
/// hid stands behind it.
///
/// # Errors
///
/// The first of this order: `BadNumber` where GEOM writes no numbers, `Geometry` where they are no geometry, `BadNumber` where SECTOR is no number,
/// `SectorRange` where the die has no such sector, `OutOfMemory` where a growth was refused, `Read` where DUMP cannot be opened; then each when it
/// happens: `Read` where a read of DUMP fails, `WrongLength` where it has not as many bytes as the geometry says. After each of these nothing was
/// printed. `Write` of `-` where `out` failed.
///
/// (This project's.)
pub(crate) fn history_command<'a, F: LabFiles, W: Output>(
    alloc: Global,
    words: HistoryWords<'a>,
    files: &mut F,
    out: &mut W,
) -> Result<(), LabFault<'a>>
    ensures ok { OnOk result (ToldHistory (F.answers files.old) words.entry (W.contents out.old) (W.contents out.new)) }
    ensures kept { F.kept files.new ≡ F.kept files.old }
    ensures fault { IfErr result (IsHistoryFault (F.answers files.old) words.entry (F.kept files.old) (F.kept files.new) (F.opened files.old) (F.opened files.new) (W.failed out.new) (W.contents out.old) (W.contents out.new)) }
    ensures opened { OnOk result (F.opened files.new ≡ option_map suc (F.opened files.old)) }
{
    let found = recall(alloc, &words, files)?;
    ended(print_history(
        printer(alloc, words.showing),
        out,
        &found.geometry,
        &found.history.pages,
        found.history.unsound,
    ))
}
