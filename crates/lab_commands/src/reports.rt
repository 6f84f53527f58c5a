//! What each command says.
ghost use Rattle.std.specs.Prelude.{◌≡◌, count_by, option_map, map};
ghost use Rattle.lab_dump.specs.Held.{shown_in};
ghost use Rattle.lab_commands.specs.declared.lines.Line.TheVariants as said;
ghost use Rattle.lab_commands.specs.Document.{Prints, if_text, line_text, text_below};
ghost use Rattle.lab_mend.specs.Repairing.{mended_count};
ghost use Rattle.lab_mend.specs.Tries.{tries_in};
ghost use Rattle.lab_origin.specs.Origin.{is_mended};
ghost use Rattle.lab_commands.specs.Lines.{tries_line};
ghost use Rattle.lab_commands.specs.Reports.{age_text, arrange_text, arranged_fit_text, array_text, blocks_text, compare_text, correct_text, count_lines, doubts_text, ending_text, fits_text, history_text, key_line_at, keys_text, left_text, losses_text, merge_text, origin_text};
ghost use Rattle.lab_commands.specs.Reports.{repair_text, some_text, survey_lines, survey_text, table_at, ties_text};

use crate::document::{Printer, Report};
use crate::lines::{Label, Line, Sort};
use crate::lists::Lines;
use crate::output::{Output, OutputFault};
use crate::parts::{Part, print_parts};
use crate::told_lines::{
    age_line, damaged_line, factory_line, hole_line, last_line, legible_line, outside_line,
    past_line, repeated_line, rewritten_line, rows_line, tries_line,
};
use lab_correct::{FoundFit, Loss};
use lab_dump::{
    Compared, DieSurvey, Held, KeyState, MapMark, Rows, SectorPage, Unsettled, damaged_count,
};
use lab_mend::{Mend, RowTally, TriedRow, count_mended, count_tries};
use lab_origin::mended_count;
use lab_shapes::ArrangedFit;
use page_layout::geometry::Geometry;

// The pages of each sort, and the reasons against a mount but for the tables.
fn print_counts<W: Output>(
    printer: Printer,
    out: &mut W,
    survey: &DieSurvey,
) -> Result<(), OutputFault>
    ensures { Prints (W.failed out.new) (W.contents out.old) (W.contents out.new) (some_text printer.form (count_lines survey.now)) result }
{
    let counts = survey.counts;
    printer.list(
        out,
        &Lines::Fixed(&[
            Some(Line::Pages(Sort::Data, counts.sectors)),
            Some(Line::Pages(Sort::Trim, counts.trims)),
            Some(Line::Pages(Sort::Translation, counts.translations)),
            Some(Line::Pages(Sort::Table, counts.tables)),
            Some(Line::Pages(Sort::Erased, counts.erased)),
            Some(Line::Pages(Sort::Unsound, counts.unsound)),
            outside_line(counts.outside),
            repeated_line(survey.repeated),
            last_line(counts.last),
        ]),
    )
}

// The table pages that are a reason against a mount, and the keys that are tied or missing.
fn print_keys<'x, W: Output>(
    printer: Printer,
    out: &mut W,
    geometry: &Geometry,
    states: &'x [KeyState],
    formed: &'x [bool],
) -> Result<(), OutputFault>
    ensures { Prints (W.failed out.new) (W.contents out.old) (W.contents out.new) (keys_text printer.form geometry.now states.now formed.now) result }
{
    let (sectors, translations) = (geometry.sectors(), geometry.translation_pages());
    let (first, tables) = (sectors + translations, geometry.table_pages());
    print_parts(
        printer,
        out,
        &[
            Part::List(Lines::Tables(states, first, formed, tables)),
            Part::List(Lines::Keys(Label::Sector, states, 0, sectors)),
            Part::List(Lines::Keys(Label::Translation, states, sectors, translations)),
            Part::List(Lines::Keys(Label::Table, states, first, tables)),
        ],
    )
}

// The blocks.
fn print_blocks<W: Output>(
    printer: Printer,
    out: &mut W,
    geometry: &Geometry,
    survey: &DieSurvey,
) -> Result<(), OutputFault>
    ensures { Prints (W.failed out.new) (W.contents out.old) (W.contents out.new) (blocks_text printer.form geometry.now survey.now) result }
{
    let count = geometry.blocks();
    printer.list(out, &Lines::Blocks(survey, count))
}

// What a dump leaves open, and how far the array may be from the last write, or what it is as of a sequence.
fn print_doubts<W: Output>(
    printer: Printer,
    out: &mut W,
    last: Option<u64>,
    left: &Unsettled,
) -> Result<(), OutputFault>
    ensures { Prints (W.failed out.new) (W.contents out.old) (W.contents out.new) (doubts_text printer.form last left.now) result }
{
    let (doubts, legible) = (left.doubts, left.legible);
    printer.list(
        out,
        &Lines::Fixed(&[
            factory_line(doubts.factory),
            rewritten_line(doubts.rewritten),
            hole_line(doubts.holes),
            past_line(doubts.outside),
            legible_line(last, legible, doubts.most_others(legible)),
            Some(age_line(last, doubts)),
        ]),
    )
}

// The last lines of a survey.
fn print_age<W: Output>(
    printer: Printer,
    out: &mut W,
    rows: Option<Rows>,
    survey: &DieSurvey,
) -> Result<(), OutputFault>
    ensures { Prints (W.failed out.new) (W.contents out.old) (W.contents out.new) (age_text printer.form rows survey.now) result }
{
    match rows {
        Some(_) => printer.line(out, Some(Line::AgeOfRows(survey.counts.unsound))),
        None => print_doubts(printer, out, None, &survey.left),
    }
}

// What a survey ends with.
fn print_ending<W: Output>(
    printer: Printer,
    out: &mut W,
    rows: Option<Rows>,
    survey: &DieSurvey,
) -> Result<(), OutputFault>
    ensures { Prints (W.failed out.new) (W.contents out.old) (W.contents out.new) (ending_text printer.form rows survey.now) result }
{
    printer.list(out, &Lines::Said(&survey.left.said))?;
    print_age(printer, out, rows, survey)
}

// What a dump leaves open of its array, as of a sequence where one is said.
fn print_left<W: Output>(
    printer: Printer,
    out: &mut W,
    last: Option<u64>,
    left: &Unsettled,
) -> Result<(), OutputFault>
    ensures { Prints (W.failed out.new) (W.contents out.old) (W.contents out.new) (left_text printer.form last left.now) result }
{
    printer.list(out, &Lines::Newer(last, &left.said))?;
    print_doubts(printer, out, last, left)
}

// The lines of a survey.
fn print_lines<W: Output>(
    printer: Printer,
    out: &mut W,
    rows: Option<Rows>,
    geometry: &Geometry,
    survey: &DieSurvey,
) -> Result<(), OutputFault>
    ensures { Prints (W.failed out.new) (W.contents out.old) (W.contents out.new) (survey_lines printer.form geometry.now rows survey.now) result }
{
    printer.line(out, rows_line(rows))?;
    print_counts(printer, out, survey)?;
    print_keys(printer, out, geometry, &survey.keys, &survey.formed)?;
    print_blocks(printer, out, geometry, survey)?;
    print_ending(printer, out, rows, survey)
}

/// Prints what a survey says: the rows that were asked for, where not all were, the pages of each sort, the reasons against a mount, the keys that
/// are tied or missing, the blocks, and what the dump leaves open, or of the rows that were asked for the pages that are neither erased nor sound.
///
/// # Errors
///
/// Where a write failed: a part of the document stands there, and never all of it. (This project's.)
pub fn print_survey<W: Output>(
    printer: Printer,
    out: &mut W,
    geometry: &Geometry,
    rows: Option<Rows>,
    survey: &DieSurvey,
) -> Result<(), OutputFault>
    ensures { Prints (W.failed out.new) (W.contents out.old) (W.contents out.new) (survey_text printer.form geometry.now rows survey.now) result }
{
    printer.begin(out, Report::Survey)?;
    print_lines(printer, out, rows, geometry, survey)?;
    printer.end(out)
}

// The sectors that have lost a page.
fn print_losses<W: Output>(
    printer: Printer,
    out: &mut W,
    geometry: &Geometry,
    lost: &[bool],
) -> Result<(), OutputFault>
    ensures { Prints (W.failed out.new) (W.contents out.old) (W.contents out.new) (losses_text printer.form geometry.now lost.now) result }
{
    let count = geometry.sectors();
    printer.list(out, &Lines::Losses(lost, count))
}

/// Prints which sectors have lost a page, and what the dump leaves open.
///
/// # Errors
///
/// As of `print_survey`. (This project's.)
pub fn print_compared<W: Output>(
    printer: Printer,
    out: &mut W,
    geometry: &Geometry,
    told: &Compared,
) -> Result<(), OutputFault>
    ensures { Prints (W.failed out.new) (W.contents out.old) (W.contents out.new) (compare_text printer.form geometry.now told.now) result }
{
    printer.begin(out, Report::Compare)?;
    print_losses(printer, out, geometry, &told.lost)?;
    print_left(printer, out, None, &told.left)?;
    printer.end(out)
}

// The sectors that are tied, and how many are shown as pages have them that are not sound.
fn print_ties<W: Output>(
    printer: Printer,
    out: &mut W,
    geometry: &Geometry,
    held: &[Held],
) -> Result<(), OutputFault>
    ensures { Prints (W.failed out.new) (W.contents out.old) (W.contents out.new) (ties_text printer.form geometry.now (map shown_in held.now)) result }
{
    let count = geometry.sectors();
    printer.list(out, &Lines::Ties(held, count))?;
    printer.line(out, damaged_line(damaged_count(held)))
}

/// Prints which sectors are tied, by what is held of each, how many are shown as pages have them that are not sound, and what the dump leaves open, of the array as of a sequence where one is said.
///
/// # Errors
///
/// As of `print_survey`. (This project's.)
pub fn print_array<W: Output>(
    printer: Printer,
    out: &mut W,
    geometry: &Geometry,
    last: Option<u64>,
    held: &[Held],
    left: &Unsettled,
) -> Result<(), OutputFault>
    ensures { Prints (W.failed out.new) (W.contents out.old) (W.contents out.new) (array_text printer.form geometry.now last (map shown_in held.now) left.now) result }
{
    printer.begin(out, Report::Array)?;
    print_ties(printer, out, geometry, held)?;
    print_left(printer, out, last, left)?;
    printer.end(out)
}

/// Prints the sound pages of a sector, in their order, how many there are, and how many pages are neither erased nor sound.
///
/// # Errors
///
/// As of `print_survey`. (This project's.)
pub fn print_history<'x, W: Output>(
    printer: Printer,
    out: &mut W,
    geometry: &'x Geometry,
    pages: &'x [SectorPage],
    unsound: u32,
) -> Result<(), OutputFault>
    ensures { Prints (W.failed out.new) (W.contents out.old) (W.contents out.new) (history_text printer.form geometry.now pages.now unsound) result }
{
    print_parts(
        printer,
        out,
        &[
            Part::Begin(Report::History),
            Part::List(Lines::Pages(geometry, pages)),
            Part::One(Some(Line::History(pages.len() as u64, unsound))),
            Part::End,
        ],
    )
}

// The line of the best geometry with the pages of two planes in turns, where it is told.
fn turned_line(turned: Option<ArrangedFit>) -> Option<Line>
    ensures { result ≡ option_map said.ArrangedFit turned }
{
    turned.map(Line::ArrangedFit)
}

/// Prints which geometries fit, in their order, and the one with the pages of two planes in turns, where one is told.
///
/// # Errors
///
/// As of `print_survey`. (This project's.)
pub fn print_fits<W: Output>(
    printer: Printer,
    out: &mut W,
    fits: &[FoundFit],
    turned: Option<ArrangedFit>,
) -> Result<(), OutputFault>
    ensures { Prints (W.failed out.new) (W.contents out.old) (W.contents out.new) (fits_text printer.form fits.now turned) result }
{
    print_parts(
        printer,
        out,
        &[
            Part::Begin(Report::Geometry),
            Part::List(Lines::Fits(fits)),
            Part::One(turned_line(turned)),
            Part::End,
        ],
    )
}

/// Prints the geometry that fits best in another arrangement, and the words of that.
///
/// # Errors
///
/// As of `print_survey`. (This project's.)
pub fn print_arranged_fit<W: Output>(
    printer: Printer,
    out: &mut W,
    found: &ArrangedFit,
) -> Result<(), OutputFault>
    ensures { Prints (W.failed out.new) (W.contents out.old) (W.contents out.new) (arranged_fit_text printer.form found.now) result }
{
    print_parts(
        printer,
        out,
        &[
            Part::Begin(Report::Geometry),
            Part::One(Some(Line::ArrangedFit(*found))),
            Part::End,
        ],
    )
}

// The line of how many pages were mended.
fn mended_line(mends: &[Mend]) -> Line
    ensures { result ≡ Line.MendedCount (mended_count mends.now) }
{
    Line::MendedCount(count_mended(mends) as u64)
}

/// Prints what came of the pages that were to be mended, in their order, how many pages were tried, where that is told, and how many were mended.
///
/// # Errors
///
/// As of `print_survey`. (This project's.)
pub fn print_repaired<W: Output>(
    printer: Printer,
    out: &mut W,
    tries: u64,
    mends: &[Mend],
) -> Result<(), OutputFault>
    ensures { Prints (W.failed out.new) (W.contents out.old) (W.contents out.new) (repair_text printer.form tries mends.now) result }
{
    print_parts(
        printer,
        out,
        &[
            Part::Begin(Report::Repair),
            Part::List(Lines::Mends(mends)),
            Part::One(tries_line(tries)),
            Part::One(Some(mended_line(mends))),
            Part::End,
        ],
    )
}

/// Prints which rows have lost chunks, in their order, and how many bits were turned back, in how many rows.
///
/// # Errors
///
/// As of `print_survey`. (This project's.)
pub fn print_corrected<W: Output>(
    printer: Printer,
    out: &mut W,
    turned: u64,
    touched: u32,
    losses: &[Loss],
) -> Result<(), OutputFault>
    ensures { Prints (W.failed out.new) (W.contents out.old) (W.contents out.new) (correct_text printer.form turned touched losses.now) result }
{
    print_parts(
        printer,
        out,
        &[
            Part::Begin(Report::Correct),
            Part::List(Lines::LostRows(losses)),
            Part::One(Some(Line::Corrected(turned, touched, losses.len() as u64))),
            Part::End,
        ],
    )
}

/// Prints how many pages were put in order.
///
/// # Errors
///
/// As of `print_survey`. (This project's.)
pub fn print_arranged<W: Output>(
    printer: Printer,
    out: &mut W,
    rows: u32,
) -> Result<(), OutputFault>
    ensures { Prints (W.failed out.new) (W.contents out.old) (W.contents out.new) (arrange_text printer.form rows) result }
{
    print_parts(
        printer,
        out,
        &[
            Part::Begin(Report::Arrange),
            Part::One(Some(Line::Arranged(rows))),
            Part::End,
        ],
    )
}

// The line of how many sectors are shown of a page that no reading has.
fn origin_line(marks: &[MapMark]) -> Line
    ensures { result ≡ Line.Origin (count_by is_mended marks.now) }
{
    Line::Origin(mended_count(marks))
}

/// Prints how many sectors are shown of a page that no reading has, by the mark of each.
///
/// # Errors
///
/// As of `print_survey`. (This project's.)
pub fn print_origin<W: Output>(
    printer: Printer,
    out: &mut W,
    marks: &[MapMark],
) -> Result<(), OutputFault>
    ensures { Prints (W.failed out.new) (W.contents out.old) (W.contents out.new) (origin_text printer.form marks.now) result }
{
    print_parts(
        printer,
        out,
        &[
            Part::Begin(Report::Origin),
            Part::One(Some(origin_line(marks))),
            Part::End,
        ],
    )
}

// The line of how many pages were tried, if some were.
fn tried_line(tried: &[TriedRow]) -> Option<Line>
    ensures { result ≡ tries_line (tries_in tried.now) }
{
    tries_line(count_tries(tried))
}

/// Prints of which rows two sound pages differ, of which no page is sound or erased nor the majority sound, of which pages were tried and what came
/// of them, where some were, how many, and how many rows there are of each kind.
///
/// # Errors
///
/// As of `print_survey`. (This project's.)
pub fn print_merged<'x, W: Output>(
    printer: Printer,
    out: &mut W,
    conflicts: &'x [u32],
    unsound: &'x [u32],
    tried: &'x [TriedRow],
    tally: RowTally,
) -> Result<(), OutputFault>
    ensures { Prints (W.failed out.new) (W.contents out.old) (W.contents out.new) (merge_text printer.form conflicts.now unsound.now tried.now tally) result }
{
    print_parts(
        printer,
        out,
        &[
            Part::Begin(Report::Merge),
            Part::List(Lines::Conflicts(conflicts)),
            Part::List(Lines::Unsound(unsound)),
            Part::List(Lines::Tried(tried)),
            Part::One(tried_line(tried)),
            Part::One(Some(Line::Merged(conflicts.len() as u64, tally))),
            Part::End,
        ],
    )
}
