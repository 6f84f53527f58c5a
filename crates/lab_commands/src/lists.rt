//! Lists of lines, each made when it is printed.
ghost use Rattle.std.specs.Prelude.{◌≡◌, ◌<◌, get_or, map, option_map};
ghost use Rattle.lab_dump.specs.declared.held.SectorShown.TheVariants as shown;
ghost use Rattle.lab_dump.specs.declared.held.KeyState.TheVariants.{Absent};
ghost use Rattle.lab_dump.specs.Held.{shown_in};
ghost use Rattle.lab_commands.specs.Reports.{differ_at, fit_at, lost_row_at, mend_at, newer_at, page_line_at, said_at, some_at, state_at, tried_at, unsound_at};

use crate::lines::{Label, Line};
use crate::told_lines::{
    block_line, key_line, lost_line, newer_line, page_line, table_line, tie_line,
};
use certificate::BlockState;
use lab_correct::{FoundFit, Loss};
use lab_dump::{DieSurvey, Held, KeyState, SaidPage, SectorPage, SectorShown};
use lab_mend::{Mend, TriedRow};
use page_layout::geometry::Geometry;

/// Lines, one for each number below their count, or none for a number that has nothing to say.
#[derive(Clone, Copy)]
pub(crate) enum Lines<'a> {
    /// These, of which some may be left out.
    Fixed(&'a [Option<Line>]),
    /// So many keys of one kind that are tied or missing, by how those stand from a place on.
    Keys(Label, &'a [KeyState], u32, u32),
    /// So many table pages that are a reason against a mount, by how those stand from a place on and whether each is well formed.
    Tables(&'a [KeyState], u32, &'a [bool], u32),
    /// So many blocks.
    Blocks(&'a DieSurvey, u32),
    /// Those of so many sectors that have lost a page.
    Losses(&'a [bool], u32),
    /// Those of so many sectors of which two pages share the greatest sequence.
    Ties(&'a [Held], u32),
    /// The sound pages of a sector.
    Pages(&'a Geometry, &'a [SectorPage]),
    /// The geometries that fit.
    Fits(&'a [FoundFit]),
    /// The pages that were mended.
    Mends(&'a [Mend]),
    /// The rows with lost chunks.
    LostRows(&'a [Loss]),
    /// The rows of which two sound pages differ.
    Conflicts(&'a [u32]),
    /// The rows of which no page is sound or erased, nor the majority sound.
    Unsound(&'a [u32]),
    /// The rows of which pages were tried.
    Tried(&'a [TriedRow]),
    /// What pages say that are neither erased nor sound.
    Said(&'a [SaidPage]),
    /// Those that say something newer than what is shown, of the whole array alone.
    Newer(Option<u64>, &'a [SaidPage]),
}

// A number below a count, in as many bits.
fn narrow(number: usize, count: u32) -> u32
    requires { number < count }
    ensures { result ≡ number }
{
    number as u32
}

// How a key stands, by its place.
fn key_state(states: &[KeyState], place: usize) -> KeyState
    ensures { result ≡ get_or states.now place Absent }
{
    states.get(place).copied().unwrap_or(KeyState::Absent)
}

// Whether a flag of a list is set.
fn flag(flags: &[bool], place: usize) -> bool
    ensures { result ≡ get_or flags.now place Rattle.std.specs.Prelude.false }
{
    flags.get(place).copied().unwrap_or(false)
}

// The state of a block, where the states are known.
fn block_state(survey: &DieSurvey, block: usize) -> Option<BlockState>
    ensures { result ≡ state_at (option_map (λ states. states.items) survey.now.blocks) block }
{
    match &survey.blocks {
        Some(states) => states.get(block).copied(),
        None => None,
    }
}

// The unsound pages of a block.
fn unsound_pages(survey: &DieSurvey, block: usize) -> u32
    ensures { result ≡ get_or survey.now.unsound.items block 0 }
{
    survey.unsound.get(block).copied().unwrap_or(0)
}

// How a sector is shown.
fn sector_shown(held: &[Held], sector: usize) -> SectorShown
    ensures { result ≡ get_or (map shown_in held.now) sector shown.Absent }
{
    match held.get(sector) {
        Some(kept) => kept.shown(),
        None => SectorShown::Absent,
    }
}

fn fixed_line(lines: &[Option<Line>], number: usize) -> Option<Line>
    ensures { result ≡ some_at lines.now number }
{
    lines.get(number).copied().unwrap_or(None)
}

fn sector_page(geometry: &Geometry, pages: &[SectorPage], number: usize) -> Option<Line>
    ensures { result ≡ page_line_at geometry.now pages.now number }
{
    let page = *pages.get(number)?;
    Some(page_line(geometry, page))
}

fn fit_line(fits: &[FoundFit], number: usize) -> Option<Line>
    ensures { result ≡ fit_at fits.now number }
{
    let fit = *fits.get(number)?;
    Some(Line::Fit(fit))
}

fn mend_line(mends: &[Mend], number: usize) -> Option<Line>
    ensures { result ≡ mend_at mends.now number }
{
    let mend = *mends.get(number)?;
    Some(Line::Mended(mend.row, mend.turn))
}

fn loss_line(losses: &[Loss], number: usize) -> Option<Line>
    ensures { result ≡ lost_row_at losses.now number }
{
    let loss = *losses.get(number)?;
    Some(Line::LostRow(loss.row, loss.chunks))
}

fn differ_line(rows: &[u32], number: usize) -> Option<Line>
    ensures { result ≡ differ_at rows.now number }
{
    let row = *rows.get(number)?;
    Some(Line::Differ(row))
}

fn unsound_line(rows: &[u32], number: usize) -> Option<Line>
    ensures { result ≡ unsound_at rows.now number }
{
    let row = *rows.get(number)?;
    Some(Line::Unsound(row))
}

fn tried_line(tried: &[TriedRow], number: usize) -> Option<Line>
    ensures { result ≡ tried_at tried.now number }
{
    let row = *tried.get(number)?;
    Some(Line::Tried(row.row, row.trial))
}

fn said_line(pages: &[SaidPage], number: usize) -> Option<Line>
    ensures { result ≡ said_at pages.now number }
{
    let page = *pages.get(number)?;
    Some(Line::Says(page))
}

fn newer_page(last: Option<u64>, pages: &[SaidPage], number: usize) -> Option<Line>
    ensures { result ≡ newer_at last pages.now number }
{
    let page = *pages.get(number)?;
    newer_line(last, page)
}

impl Lines<'_> {
    ghost use Rattle.std.specs.Prelude.{◌≡◌, ◌<◌};
    ghost use Rattle.lab_commands.specs.Reports.{line_at, line_count};

    /// How many numbers there are.
    pub(crate) fn count(&self) -> usize
        ensures { result ≡ line_count self.now }
    {
        match *self {
            Lines::Fixed(lines) => lines.len(),
            Lines::Keys(_, _, _, count)
            | Lines::Tables(_, _, _, count)
            | Lines::Blocks(_, count)
            | Lines::Losses(_, count)
            | Lines::Ties(_, count) => count as usize,
            Lines::Pages(_, pages) => pages.len(),
            Lines::Fits(fits) => fits.len(),
            Lines::Mends(mends) => mends.len(),
            Lines::LostRows(losses) => losses.len(),
            Lines::Conflicts(rows) | Lines::Unsound(rows) => rows.len(),
            Lines::Tried(rows) => rows.len(),
            Lines::Said(pages) | Lines::Newer(_, pages) => pages.len(),
        }
    }

    /// The line of a number.
    pub(crate) fn line(&self, number: usize) -> Option<Line>
        requires { number < line_count self.now }
        ensures { result ≡ line_at self.now number }
    {
        match *self {
            Lines::Fixed(lines) => fixed_line(lines, number),
            Lines::Keys(of, states, from, count) => {
                let state = key_state(states, from as usize + number);
                key_line(of, narrow(number, count), state)
            }
            Lines::Tables(states, from, formed, count) => {
                let state = key_state(states, from as usize + number);
                table_line(narrow(number, count), state, flag(formed, number))
            }
            Lines::Blocks(survey, count) => {
                let (state, unsound) = (block_state(survey, number), unsound_pages(survey, number));
                block_line(narrow(number, count), state, unsound)
            }
            Lines::Losses(lost, count) => lost_line(narrow(number, count), flag(lost, number)),
            Lines::Ties(held, count) => {
                tie_line(narrow(number, count), sector_shown(held, number))
            }
            Lines::Pages(geometry, pages) => sector_page(geometry, pages, number),
            Lines::Fits(fits) => fit_line(fits, number),
            Lines::Mends(mends) => mend_line(mends, number),
            Lines::LostRows(losses) => loss_line(losses, number),
            Lines::Conflicts(rows) => differ_line(rows, number),
            Lines::Unsound(rows) => unsound_line(rows, number),
            Lines::Tried(rows) => tried_line(rows, number),
            Lines::Said(pages) => said_line(pages, number),
            Lines::Newer(last, pages) => newer_page(last, pages, number),
        }
    }
}
