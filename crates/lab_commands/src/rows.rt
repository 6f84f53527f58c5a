//! The rows that a command is to look at.
ghost use Rattle.std.specs.Prelude.{◌≡◌, Some, IfSome, IfOk, IfErr};
ghost use Rattle.lab_dump.specs.declared.rows.Rows.{Rows};
ghost use Rattle.lab_commands.specs.Rows.{AreNoRows, AreRowsAt, SpellsRows};

use crate::text::LabFault;
use lab_dump::Rows;
use page_layout::geometry::Geometry;
use program_words::number;

// The rows that a word spells, whatever die they are of.
fn rows_of(word: &str) -> Option<Rows>
    ensures some { IfSome result (SpellsRows word.now) }
    ensures all { (rows : Rows) → SpellsRows word.now rows → result ≡ Some rows }
{
    let (first, rest) = word.split_once('.')?;
    let end = rest.strip_prefix('.')?;
    Some(Rows {
        first: number(first)?,
        end: number(end)?,
    })
}

/// The rows that a word A..B asks for, of a die of this geometry: from A to B - 1. Where there is no word, each row is asked for.
pub(crate) fn rows_at<'a>(
    word: Option<&'a str>,
    geometry: &Geometry,
) -> Result<Option<Rows>, LabFault<'a>>
    ensures ok { IfOk result (AreRowsAt word.entry geometry.now) }
    ensures fault { IfErr result (AreNoRows word.entry geometry.now) }
{
    let Some(word) = word else {
        return Ok(None);
    };
    let Some(rows) = rows_of(word) else {
        return Err(LabFault::BadNumber(word));
    };
    if rows.first <= rows.end && rows.end <= geometry.rows() {
        Ok(Some(rows))
    } else {
        Err(LabFault::RowRange)
    }
}
