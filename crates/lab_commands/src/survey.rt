//! The command `survey GEOM DUMP`.
ghost use Rattle.std.specs.Prelude.{◌≡◌, OnOk, IfOk, IfErr, suc, option_map};
ghost use Rattle.lab_dump.specs.Rooms.{IsSurveyRoom};
ghost use Rattle.lab_commands.specs.Survey.{HasSurvey, IsSurveyOfDump, IsSurveyFault, IsUnseen, IsDumpUnsurveyed, ToldSurvey};

use crate::files::LabFiles;
use crate::opening::{geometry_at, open_file, progress_of};
use crate::output::Output;
use crate::printing::{ended, printer};
use crate::reports::print_survey;
use crate::rows::rows_at;
use crate::text::LabFault;
use crate::words::{Showing, SurveyWords};
use lab_dump::{DieSurvey, Rows, SurveyFault, SurveyRoom, survey_dump};
use page_layout::geometry::Geometry;
use std::alloc::Global;

// The survey of a dump.
fn survey_of<'a, F: LabFiles>(
    room: SurveyRoom,
    dump: &'a str,
    geometry: &Geometry,
    rows: Option<Rows>,
    showing: Showing,
    files: &mut F,
) -> Result<DieSurvey, LabFault<'a>>
    requires { IsSurveyRoom geometry.now room }
    ensures seen { IfOk result (IsSurveyOfDump (F.answers files.old) dump.now geometry.now rows) }
    ensures fault { IfErr result (IsDumpUnsurveyed (F.answers files.old) geometry.now dump.now) }
    ensures kept { F.kept files.new ≡ F.kept files.old }
    ensures opened { F.opened files.new ≡ option_map suc (F.opened files.old) }
{
    let mut reader = open_file(files, dump, progress_of(showing))?;
    match survey_dump(room, &mut reader, geometry, rows) {
        Ok(survey) => Ok(survey),
        Err(SurveyFault::WrongLength) => Err(LabFault::WrongLength),
        Err(SurveyFault::Source) => Err(LabFault::Read(dump)),
    }
}

// A survey, and of what it is one.
#[derive(Drop)]
struct SurveySeen {
    geometry: Geometry,
    rows: Option<Rows>,
    survey: DieSurvey,
}

// The survey that the words ask for.
fn see<'a, F: LabFiles>(
    alloc: Global,
    words: &SurveyWords<'a>,
    files: &mut F,
) -> Result<SurveySeen, LabFault<'a>>
    ensures seen { IfOk result (λ seen. HasSurvey (F.answers files.old) words.now seen.geometry seen.rows seen.survey) }
    ensures fault { IfErr result (IsUnseen (F.answers files.old) words.now (F.opened files.old) (F.opened files.new)) }
    ensures kept { F.kept files.new ≡ F.kept files.old }
    ensures opened { OnOk result (F.opened files.new ≡ option_map suc (F.opened files.old)) }
{
    let geometry = geometry_at(words.geometry)?;
    let rows = rows_at(words.rows, &geometry)?;
    let room = SurveyRoom::new(alloc, &geometry)?;
    let survey = survey_of(room, words.dump, &geometry, rows, words.showing, files)?;
    Ok(SurveySeen {
        geometry,
        rows,
        survey,
    })
}

/// The command `survey`: prints what the dump DUMP, of the geometry GEOM, tells of its die. Where it has the word A..B, every page of another row
/// than A to B - 1 counts as erased.
///
/// # Errors
///
/// The first of this order: `BadNumber` where GEOM writes no numbers, `Geometry` where they are no geometry, `BadNumber` where A..B is no two
/// numbers, `RowRange` where B is less than A or more than the die has rows, `OutOfMemory` where a growth was refused, `Read` where DUMP cannot be
/// opened; then each when it happens: `Read` where a read of DUMP fails, `WrongLength` where it has not as many bytes as the geometry says. After each of these nothing was printed. `Write` of `-` where `out` failed.
///
/// (This project's.)
pub(crate) fn survey_command<'a, F: LabFiles, W: Output>(
    alloc: Global,
    words: SurveyWords<'a>,
    files: &mut F,
    out: &mut W,
) -> Result<(), LabFault<'a>>
    ensures ok { OnOk result (ToldSurvey (F.answers files.old) words.entry (W.contents out.old) (W.contents out.new)) }
    ensures kept { F.kept files.new ≡ F.kept files.old }
    ensures fault { IfErr result (IsSurveyFault (F.answers files.old) words.entry (F.kept files.old) (F.kept files.new) (F.opened files.old) (F.opened files.new) (W.failed out.new) (W.contents out.old) (W.contents out.new)) }
    ensures opened { OnOk result (F.opened files.new ≡ option_map suc (F.opened files.old)) }
{
    let seen = see(alloc, &words, files)?;
    ended(print_survey(
        printer(alloc, words.showing),
        out,
        &seen.geometry,
        seen.rows,
        &seen.survey,
    ))
}
