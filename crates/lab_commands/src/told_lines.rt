//! The lines that tell something, each where it has something to tell.
ghost use Rattle.std.specs.Prelude.{◌≡◌};
ghost use Rattle.lab_commands.specs.Lines.{age_line, block_line, damaged_line, factory_line, hole_line, key_line, last_line, legible_line, lost_line, newer_line, outside_line, page_line, past_line, repeated_line, rewritten_line, rows_line, table_line, tie_line, tries_line};

use crate::lines::{Label, Line};
use certificate::BlockState;
use lab_dump::{Doubts, KeyState, Rows, SaidPage, SectorPage, SectorShown};
use page_layout::geometry::Geometry;

/// The reason that so many pages have a number out of range, if some have.
pub(crate) fn outside_line(pages: u32) -> Option<Line>
    ensures { result ≡ outside_line pages }
{
    if pages == 0 {
        None
    } else {
        Some(Line::NumberRange(pages))
    }
}

/// The reason that so many pages have the last sequence, if some have.
pub(crate) fn last_line(pages: u32) -> Option<Line>
    ensures { result ≡ last_line pages }
{
    if pages == 0 {
        None
    } else {
        Some(Line::LastSequence(pages))
    }
}

/// The line of the pages of blocks that the table names factory bad, if there are some.
pub(crate) fn factory_line(pages: u32) -> Option<Line>
    ensures { result ≡ factory_line pages }
{
    if pages == 0 {
        None
    } else {
        Some(Line::Factory(pages))
    }
}

/// The line of the pages of blocks that were written again, if there are some.
pub(crate) fn rewritten_line(pages: u32) -> Option<Line>
    ensures { result ≡ rewritten_line pages }
{
    if pages == 0 {
        None
    } else {
        Some(Line::Rewritten(pages))
    }
}

/// The line of the pages that were lost, if some were.
pub(crate) fn hole_line(pages: u32) -> Option<Line>
    ensures { result ≡ hole_line pages }
{
    if pages == 0 {
        None
    } else {
        Some(Line::Holes(pages))
    }
}

/// The line of the pages of a sector past the last one, if there are some.
pub(crate) fn past_line(pages: u32) -> Option<Line>
    ensures { result ≡ past_line pages }
{
    if pages == 0 {
        None
    } else {
        Some(Line::Outside(pages))
    }
}

/// The line of the pages that were tried, if some were.
pub(crate) fn tries_line(tries: u64) -> Option<Line>
    ensures { result ≡ tries_line tries }
{
    if tries == 0 {
        None
    } else {
        Some(Line::Tries(tries))
    }
}

/// The line of the pages that say something, if there are some, of the whole array alone.
pub(crate) fn legible_line(last: Option<u64>, legible: u32, others: u64) -> Option<Line>
    ensures { result ≡ legible_line last legible others }
{
    if last.is_none() && legible != 0 {
        Some(Line::Legible(legible, others))
    } else {
        None
    }
}

/// The line of the sectors that are shown as pages have them that are not sound, if there are some.
pub(crate) fn damaged_line(sectors: u64) -> Option<Line>
    ensures { result ≡ damaged_line sectors }
{
    if sectors == 0 {
        None
    } else {
        Some(Line::Damaged(sectors))
    }
}

/// How far an array is from the last write, or what it is as of a sequence.
pub(crate) fn age_line(last: Option<u64>, doubts: Doubts) -> Line
    ensures { result ≡ age_line last doubts }
{
    match last {
        Some(last) => Line::AgeUntil(last, doubts.unsound),
        None => Line::Age(doubts),
    }
}

/// The line of a page of a sector.
pub(crate) fn page_line(geometry: &Geometry, page: SectorPage) -> Line
    ensures { result ≡ page_line geometry.now page }
{
    Line::Page(page, page.row / geometry.pages())
}

/// The line of a page that says something newer than what is shown, of the whole array alone.
pub(crate) fn newer_line(last: Option<u64>, page: SaidPage) -> Option<Line>
    ensures { result ≡ newer_line last page }
{
    if page.newer && last.is_none() {
        Some(Line::Says(page))
    } else {
        None
    }
}

/// The line of the rows that were asked for, where not all were.
pub(crate) fn rows_line(rows: Option<Rows>) -> Option<Line>
    ensures { result ≡ rows_line rows }
{
    rows.map(Line::OfRows)
}

/// The reason that two pages share a sequence, if some do.
pub(crate) fn repeated_line(rows: Option<(u32, u32)>) -> Option<Line>
    ensures { result ≡ repeated_line rows }
{
    let (first, second) = rows?;
    Some(Line::Repeated(first, second))
}

/// What a table page is a reason for.
pub(crate) fn table_line(page: u32, state: KeyState, formed: bool) -> Option<Line>
    ensures { result ≡ table_line page state formed }
{
    match state {
        KeyState::Found if formed => None,
        KeyState::Found => Some(Line::TableDamaged(page)),
        KeyState::Absent | KeyState::Tied => Some(Line::NotFormatted(page)),
    }
}

/// The line of a key that is tied, or that has no sound page where it should have one.
pub(crate) fn key_line(of: Label, number: u32, state: KeyState) -> Option<Line>
    ensures { result ≡ key_line of number state }
{
    match (state, of) {
        (KeyState::Found, _) | (KeyState::Absent, Label::Sector) => None,
        (KeyState::Tied, of) => Some(Line::Tied(of, number)),
        (KeyState::Absent, of) => Some(Line::Missing(of, number)),
    }
}

/// The line of a sector that is tied.
pub(crate) fn tie_line(sector: u32, state: SectorShown) -> Option<Line>
    ensures { result ≡ tie_line sector state }
{
    match state {
        SectorShown::Tied => Some(Line::Tied(Label::Sector, sector)),
        SectorShown::Absent | SectorShown::Found | SectorShown::Damaged => None,
    }
}

/// The line of a block, with its state where that is known.
pub(crate) fn block_line(block: u32, state: Option<BlockState>, unsound: u32) -> Option<Line>
    ensures { result ≡ block_line block state unsound }
{
    Some(match state {
        Some(state) => Line::Block(block, state, unsound),
        None => Line::PlainBlock(block, unsound),
    })
}

/// The line of a sector that has lost a page.
pub(crate) fn lost_line(sector: u32, is_lost: bool) -> Option<Line>
    ensures { result ≡ lost_line sector is_lost }
{
    if is_lost {
        Some(Line::Lost(sector))
    } else {
        None
    }
}
